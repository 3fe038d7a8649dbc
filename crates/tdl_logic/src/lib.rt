//! The logical execution of a program: its states, one instant after the other, each with its four
//! phases.
#![tactic(auto)]

mod logic;
mod module_now;
mod moment;
mod next;
mod phases;
mod release;
mod room;
mod seen;
mod task_now;
mod tasks;
mod turn;
mod update;

pub use logic::Logic;
pub use next::next_offset;

#[cfg(test)]
mod tests;
