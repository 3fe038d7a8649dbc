//! The expressions, guards and bodies that sources say, made by tables of the declarations'
//! numbers.
#![tactic(auto)]

mod bodies;
mod expressions;
mod literals;
mod numbers;
mod ports;
mod resolver;

pub use bodies::body_of;
pub use expressions::{expression_of, guard_of};
pub use literals::{initial_of, literal_of};
pub use numbers::{Numbers, numbers_of};
pub use ports::cell_of;

#[cfg(test)]
mod samples;
#[cfg(test)]
mod tests;
