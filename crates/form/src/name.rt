// A name of a field, which one comparison finds in a text.
ghost use Rattle.std.specs.Prelude.{◌≡◌, ◌<◌, length};
ghost use Rattle.cell.specs.Low.{le};

// Its characters, at most 7, and these as one number, the first counting least: a load of eight characters and one comparison tell whether they stand in a
// text, where one comparison for each would be a quarter of the work of reading a list.
#[derive(Clone, Copy)]
pub struct Name {
    pub text: &'static [u8],
    pub number: u64,
    pub ghost short: { length text.now < 8 },
    pub ghost spelled: { text.now ≡ le (length text.now) number },
}
