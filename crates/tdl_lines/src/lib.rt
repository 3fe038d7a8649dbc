//! What the line files share: lines with their numbers and words, words with dots, and the first of
//! several faults.
#![tactic(auto)]

mod dots;
mod fault;
pub mod laws;
mod line;
mod lines;
mod said;

pub use dots::{dotted_pair, dotted_triple};
pub use fault::{Fault, note_if};
pub use line::Line;
pub use lines::{FILE_BYTES, Lines, line_after};
pub use said::Said;

#[cfg(test)]
mod tests;
