//! The images of a program: what they are is in specs/.
#![tactic(auto)]

pub mod laws;
