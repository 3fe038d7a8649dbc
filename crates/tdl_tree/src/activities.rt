use crate::{ExprTree, Id, Num};
use tdl_base::Listed;

/// The slots from the first to the last, or the one.
#[derive(Clone, Copy, Debug, PartialEq, Eq)]
pub struct Slots {
    pub first: Num,
    pub last: Option<Num>,
}

/// An activity of a mode, with the place of its first word.
#[derive(Debug, Drop)]
pub struct Act {
    pub line: u32,
    pub col: u32,
    /// How often it occurs in a period.
    pub freq: Num,
    /// Empty where none are written.
    pub slots: Listed<Slots>,
    pub what: ActKind,
    pub guard: Option<ExprTree>,
}

/// What an activity does.
#[derive(Debug, Drop)]
pub enum ActKind {
    /// A task is invoked with its arguments.
    Task { task: Id, args: Listed<ExprTree> },
    /// An actuator takes a value.
    Update { actuator: Id, value: ExprTree },
    /// The module goes on in another mode.
    Switch { target: Id },
}
