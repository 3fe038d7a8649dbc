//! The offsets of a mode, and the grain of a module.
#![tactic(auto)]

mod grains;
mod offset_list;

pub use grains::{gcd, grain};
pub use offset_list::offsets;

#[cfg(test)]
mod tests;
