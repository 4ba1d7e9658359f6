// A number of three bytes.
ghost use Rattle.std.specs.Prelude.{◌≡◌, ◌%◌, ◌<◌};

use number::FIRST_OF_FOUR;

// A number that three bytes hold.
#[derive(Clone, Copy)]
pub struct Three {
    pub value: u32,
    pub ghost fits: { value < 16777216 },
}

impl Three {
    // The number n itself.
    pub fn new(n: u32) -> Three
        requires { n < 16777216 }
        ensures { result.value ≡ n }
    {
        Three { value: n }
    }

    // The last three bytes of n.
    pub fn last_of(n: u32) -> Three
        ensures { result.value ≡ n % 16777216 }
    {
        Three {
            value: n % FIRST_OF_FOUR,
        }
    }
}
