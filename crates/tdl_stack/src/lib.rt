//! Stack code: its instructions, and how they are spelled. What a code does is in specs/.
#![tactic(auto)]

mod bodies;
mod check;
mod count;
mod instr;
mod lands;
pub mod laws;
pub mod limits;
mod list;
mod shape;
mod stand;
mod table;
mod write;

pub use check::check_code;
pub use instr::{Code, Instr};
pub use list::list_code;
pub use shape::Shape;
pub use write::put_code_instr;

#[cfg(test)]
mod tests;
