//! The reader and the printer of schedules: what each line says, the rules S0 and S1, and what a
//! schedule says that breaks neither.
#![tactic(auto)]

mod build;
mod entry;
mod error;
mod found;
mod gather;
pub mod laws;
mod print;
mod read;
mod rules;
mod said;

pub use error::SchedError;
pub use print::print_sched;
pub use read::read_sched;

#[cfg(test)]
mod tests;
