//! The rules of programs: which places of a set of sources break which rule (specs/), as
//! definitions over the trees.
#![tactic(auto)]

mod fault;
mod found;
pub mod laws;

pub use fault::{Fault, Spot};
pub use found::{Found, Target};
