// What a row is judged by.
use row::cells::Row;

// A row, the row before it and the one two before it, and whether it is row 0 and whether it is the last.
#[derive(Clone, Copy)]
pub struct Window {
    pub two_before: Row,
    pub before: Row,
    pub row: Row,
    pub first: bool,
    pub last: bool,
}
