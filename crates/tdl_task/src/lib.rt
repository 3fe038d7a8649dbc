//! The states of a task's slot. A state is spent by its next step, or scrapped: a value of it that
//! is let go does not compile.
#![tactic(auto)]

mod held;
mod job;
mod slot;
mod states;

pub use job::{Job, TaskShape};
pub use slot::Slot;
pub use states::{Done, Idle, Ran, Ready};

#[cfg(test)]
mod tests;
