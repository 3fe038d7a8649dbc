//! The schedule test: the rules S2 to S9, told by their first fault, and the type of schedules that
//! pass.
#![tactic(auto)]

mod calls;
mod error;
mod found;
pub mod laws;
mod modulo;
mod pairs;
mod remote;
mod tested;
mod testing;
mod timely;
mod walk;

pub use error::{SchedAt, TestError};
pub use tested::Tested;
pub use testing::test;

#[cfg(test)]
mod tests;
