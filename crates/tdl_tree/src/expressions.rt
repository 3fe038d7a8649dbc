use crate::{Id, Num};
use sqlite_items::Boxed;
use tdl_base::{BinOp, Listed, UnOp};

/// An expression with the place of its first token, which may be an opening parenthesis.
#[cycle(expression)]
#[derive(Debug, Drop)]
pub struct ExprTree {
    pub line: u32,
    pub col: u32,
    pub node: ExprNode,
}

/// What an expression is. Parentheses are not kept.
#[cycle(expression)]
#[derive(Debug, Drop)]
pub enum ExprNode {
    Number(Num),
    Truth(bool),
    /// A name of one to three parts.
    Name { parts: Listed<Id> },
    Un(UnOp, Boxed<ExprTree>),
    Bin(BinOp, Boxed<ExprTree>, Boxed<ExprTree>),
}
