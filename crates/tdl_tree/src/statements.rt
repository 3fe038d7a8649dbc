use crate::{ExprTree, Id, Num};
use sqlite_items::Items;

/// A statement of a task's body.
#[derive(Debug, Drop)]
pub enum StmtTree {
    /// `target := value;`
    Assign {
        target: Id,
        value: ExprTree,
    },
    /// `if cond { then } else { other }`, the second block absent where there is no `else`.
    If {
        cond: ExprTree,
        then: Items<StmtTree>,
        other: Option<Items<StmtTree>>,
    },
    /// `repeat count { body }`
    Repeat {
        count: Num,
        body: Items<StmtTree>,
    },
}
