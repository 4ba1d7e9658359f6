// A row by value, in three parts of ten cells. The default has every cell 0: what stands before the first row of a trace.
use number::wide::Wide;

// From STAMP to ACC2.
#[derive(Clone, Copy, Default, PartialEq, Eq)]
pub struct Head {
    pub stamp: u32,
    pub cn: u32,
    pub ooob: u8,
    pub ct: u8,
    pub end1: Wide,
    pub end2: Wide,
    pub byte1: u8,
    pub byte2: u8,
    pub acc1: Wide,
    pub acc2: u32,
}

// From MEM to FLAG.
#[derive(Clone, Copy, Default, PartialEq, Eq)]
pub struct Body {
    pub mem: u32,
    pub memn: u32,
    pub cost: u32,
    pub costn: u32,
    pub gas: u32,
    pub comp: u8,
    pub dbyte: u8,
    pub dacc: u32,
    pub endmax: u32,
    pub flag: u8,
}

// From EBYTE to AUX2.
#[derive(Clone, Copy, Default, PartialEq, Eq)]
pub struct Tail {
    pub ebyte: u8,
    pub eacc: u32,
    pub q1: u32,
    pub q1byte: u8,
    pub q1acc: u32,
    pub q2: u32,
    pub q2byte: u8,
    pub q2acc: u32,
    pub aux1: u8,
    pub aux2: u8,
}

// The thirty cells.
#[derive(Clone, Copy, Default, PartialEq, Eq)]
pub struct Row {
    pub head: Head,
    pub body: Body,
    pub tail: Tail,
}
