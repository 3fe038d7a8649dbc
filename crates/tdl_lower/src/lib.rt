//! Bodies and expressions as stack code: the templates are in specs/.
#![tactic(auto)]

mod bodies;
mod expressions;
pub mod laws;

pub use bodies::lower;
pub use expressions::lower_expr;

#[cfg(test)]
mod tests;
