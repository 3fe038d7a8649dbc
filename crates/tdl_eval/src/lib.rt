//! The number of an expression, and what a body does to the cells of a job, by a walk over the
//! tree.
#![tactic(auto)]

mod bodies;
mod env;
mod expressions;
mod reader;
mod view;

pub use bodies::{exec, exec_cells};
pub use env::Env;
pub use expressions::{eval, value};
pub use reader::Reader;

#[cfg(test)]
mod tests;
