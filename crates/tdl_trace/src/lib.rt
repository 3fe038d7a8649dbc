//! What a run commits, row by row, and the printed line of each row.
#![tactic(auto)]

mod line;
mod names;
mod print;
mod print_fault;
mod row;
mod why;

pub use line::print_row;
pub use names::{ModuleNames, Named, Names, TaskNames};
pub use print::print_rows;
pub use print_fault::PrintFault;
pub use row::{Row, Rows};
pub use why::Why;

#[cfg(test)]
mod tests;
