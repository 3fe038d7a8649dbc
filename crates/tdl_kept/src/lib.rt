//! What else holds of the program that sources say which break no rule (specs/).
#![tactic(auto)]

pub mod laws;
