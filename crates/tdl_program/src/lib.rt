//! The program that a set of sources says (specs/), whatever rules the sources keep.
#![tactic(auto)]

pub mod laws;
