//! The rules of sorts and numbers: a boolean or a number where each is needed, and numbers that 64
//! signed bits hold.
#![tactic(auto)]

mod assigned;
mod literals;
mod needs;
mod numbers;
mod operands;
mod sorts;
mod values;

pub use numbers::great_numbers;
pub use sorts::wrong_sorts;
