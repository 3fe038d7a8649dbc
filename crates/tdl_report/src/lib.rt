//! How a call of the program ends: its exit status, and the line that tells of it.
#![tactic(auto)]

mod lines;
mod said;
mod status;

pub use lines::named_line;
pub use said::{report, say};
pub use status::Status;

#[cfg(test)]
mod tests;
