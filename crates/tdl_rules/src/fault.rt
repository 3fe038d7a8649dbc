/// A place in a source: line and column count from 1, the column in bytes.
#[derive(Clone, Copy, Debug, PartialEq, Eq)]
pub struct Spot {
    pub line: u32,
    pub col: u32,
}

/// A rule, 1 to 21, that is broken at a place; sources count from 0.
#[derive(Clone, Copy, Debug, PartialEq, Eq)]
pub struct Fault {
    pub rule: u8,
    pub file: u32,
    pub line: u32,
    pub col: u32,
}
