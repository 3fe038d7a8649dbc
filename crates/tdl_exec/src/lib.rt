//! Runs lawful stack code without memory: the number of an expression, and what a body does to the
//! cells of a job.
#![tactic(auto)]

mod cells;
mod execute;
mod numbers;
mod outer;
mod repetitions;
mod run;
mod step;
mod view;

pub use cells::Cells;
pub use execute::{run_code, run_expr};
pub use outer::Outer;
pub use view::View;

#[cfg(test)]
mod tests;
