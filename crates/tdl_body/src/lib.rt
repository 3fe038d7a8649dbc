//! Expressions, statements and bodies of tasks: what they are made of, and what they mean (specs/).
#![tactic(auto)]

mod tree;

pub use tree::{Body, Expr, Stmt};
