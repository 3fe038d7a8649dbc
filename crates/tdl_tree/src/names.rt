use tdl_base::Text;

/// A name with its place: its line and column from 1, the column in bytes.
#[derive(Debug, Drop)]
pub struct Id {
    pub text: Text,
    pub line: u32,
    pub col: u32,
}

/// A number with its place. One above the greatest `u64` is kept as that.
#[derive(Clone, Copy, Debug, PartialEq, Eq)]
pub struct Num {
    pub value: u64,
    pub line: u32,
    pub col: u32,
}

/// What a literal says.
#[derive(Clone, Copy, Debug, PartialEq, Eq)]
pub enum LitValue {
    Truth(bool),
    /// A number, with a minus before it or without.
    Number { minus: bool, number: Num },
}

/// A literal with the place of its first token.
#[derive(Clone, Copy, Debug, PartialEq, Eq)]
pub struct Lit {
    pub line: u32,
    pub col: u32,
    pub value: LitValue,
}

/// A unit of time: a microsecond, a millisecond or a second.
#[derive(Clone, Copy, Debug, PartialEq, Eq)]
pub enum Unit {
    Us,
    Ms,
    S,
}

/// A time: a number of units.
#[derive(Clone, Copy, Debug, PartialEq, Eq)]
pub struct Time {
    pub number: Num,
    pub unit: Unit,
}
