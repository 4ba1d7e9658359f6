// Where each cell stands in the bytes of a row: after the cell before it, whose width is the number added.
pub const STAMP: usize = 0;

pub const CN: usize = STAMP + 4;

pub const OOOB: usize = CN + 4;

pub const CT: usize = OOOB + 1;

pub const END1: usize = CT + 1;

pub const END2: usize = END1 + 17;

pub const BYTE1: usize = END2 + 17;

pub const BYTE2: usize = BYTE1 + 1;

pub const ACC1: usize = BYTE2 + 1;

pub const ACC2: usize = ACC1 + 17;

pub const MEM: usize = ACC2 + 3;

pub const MEMN: usize = MEM + 3;

pub const COST: usize = MEMN + 3;

pub const COSTN: usize = COST + 4;

pub const GAS: usize = COSTN + 4;

pub const COMP: usize = GAS + 4;

pub const DBYTE: usize = COMP + 1;

pub const DACC: usize = DBYTE + 1;

pub const ENDMAX: usize = DACC + 3;

pub const FLAG: usize = ENDMAX + 3;

pub const EBYTE: usize = FLAG + 1;

pub const EACC: usize = EBYTE + 1;

pub const Q1: usize = EACC + 3;

pub const Q1BYTE: usize = Q1 + 3;

pub const Q1ACC: usize = Q1BYTE + 1;

pub const Q2: usize = Q1ACC + 3;

pub const Q2BYTE: usize = Q2 + 4;

pub const Q2ACC: usize = Q2BYTE + 1;

pub const AUX1: usize = Q2ACC + 3;

pub const AUX2: usize = AUX1 + 1;
