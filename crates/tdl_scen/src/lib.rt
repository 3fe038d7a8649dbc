//! Line files, and what is read of them: a scenario and its course.
#![tactic(auto)]

mod course;
mod cutters;
mod entries;
mod numbers;
mod senses;

pub use course::sensed_value;
pub use cutters::{is_skipped, is_text, next_line, words};
pub use entries::{Bind, Scenario, Sense, TaskTimes};
pub use numbers::{number, signed_number};
pub use senses::Senses;

#[cfg(test)]
mod tests;
