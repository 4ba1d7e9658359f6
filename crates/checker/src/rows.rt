// The whole rows of a trace. That they are there, and that there are no more than a trace may have, is tested once, where they are counted.
ghost use Rattle.std.specs.Prelude.{◌≡◌, ◌*◌, ◌≤◌, ◌<◌, length};
ghost use Rattle.model.specs.Columns.{row_bytes, row_at};
ghost use Rattle.model.specs.Verdict.{max_rows};

use row::view::RowBytes;

// Bytes of a trace, and how many rows it has: beside them, since each use would divide anew.
#[derive(Clone, Copy)]
pub(crate) struct Rows<'a> {
    pub bytes: &'a [u8],
    pub count: usize,
    ghost there: { count * row_bytes ≤ length bytes.now },
    ghost few: { count ≤ max_rows },
}

impl<'a> Rows<'a> {
    // The bytes of row i.
    pub(crate) fn row(&self, i: usize) -> RowBytes<'a>
        requires { i < self.now.count }
        ensures { result ≡ row_at self.now.bytes.now i }
    {
        RowBytes::of_row(self.bytes, i)
    }
}
