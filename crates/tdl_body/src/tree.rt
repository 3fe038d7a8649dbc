use sqlite_items::{Boxed, Items};
use tdl_base::{BinOp, Place, UnOp};

/// An expression over whole numbers of 64 bits.
#[derive(Debug, Drop)]
pub enum Expr {
    Const(i64),
    Load(Place),
    Un(UnOp, Boxed<Expr>),
    Bin(BinOp, Boxed<Expr>, Boxed<Expr>),
}

/// A statement of a task's body.
#[cycle(body)]
#[derive(Debug, Drop)]
pub enum Stmt {
    /// The cell takes the expression's number, narrowed to the cell's kind.
    Assign {
        cell: u16,
        value: Expr,
    },
    /// `then` is done where the condition is not 0, `other` where it is 0.
    If {
        cond: Expr,
        then: Body,
        other: Option<Body>,
    },
    /// The body is done `count` times.
    Repeat {
        count: u16,
        body: Body,
    },
}

/// The statements of a block, in order.
#[cycle(body)]
#[derive(Debug, Drop)]
pub struct Body {
    pub stmts: Items<Stmt>,
}
