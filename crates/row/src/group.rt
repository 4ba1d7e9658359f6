// Cells that stand side by side in a row, as one number of at most eight bytes: so they are compared, and written, at once.
ghost use Rattle.std.specs.Prelude.{ℕ, ◌≡◌, ◌+◌, ◌*◌, ◌^◌, ◌≤◌, List, [], ◌∷◌, ◌++◌};
ghost use Rattle.number.specs.Cells.{total, Fit};
ghost use Rattle.row.specs.Group.{joined};

use crate::three::Three;
use number::FIRST_OF_FOUR;

// Neighbouring cells with their values. A pair of groups is a group: the cells of the first, then those of the second.
pub trait Group: Copy {
    ghost widths: { List ℕ };

    ghost values: { Self → List ℕ };

    // How many bytes the cells have.
    fn width() -> usize
        requires { total widths ≤ 8 }
        ensures { result ≡ total widths };

    // The number `front` with the cells behind it.
    fn behind(self, front: u64) -> u64
        requires { (front + 1) * 256 ^ total widths ≤ 256 ^ 8 }
        ensures number { result ≡ joined widths (values self) front }
        ensures fit { Fit widths (values self) };
}

// A cell of one byte.
impl Group for u8 {
    ghost widths = { 1 ∷ [] };

    ghost values = { λ x. x ∷ [] };

    fn width() -> usize {
        1
    }

    fn behind(self, front: u64) -> u64 {
        front * 256 + u64::from(self)
    }
}

// A cell of three bytes.
impl Group for Three {
    ghost widths = { 3 ∷ [] };

    ghost values = { λ x. x.value ∷ [] };

    fn width() -> usize {
        3
    }

    fn behind(self, front: u64) -> u64 {
        front * 16777216 + u64::from(self.value)
    }
}

// A cell of four bytes.
impl Group for u32 {
    ghost widths = { 4 ∷ [] };

    ghost values = { λ x. x ∷ [] };

    fn width() -> usize {
        4
    }

    fn behind(self, front: u64) -> u64 {
        front * 4294967296 + u64::from(self)
    }
}

// Two groups side by side.
impl<A: Group, B: Group> Group for (A, B) {
    ghost widths = { A.widths ++ B.widths };

    ghost values = { λ x. A.values x.0 ++ B.values x.1 };

    fn width() -> usize {
        A::width() + B::width()
    }

    fn behind(self, front: u64) -> u64 {
        self.1.behind(self.0.behind(front))
    }
}
