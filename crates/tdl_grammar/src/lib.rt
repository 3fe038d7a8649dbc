//! Languages as relations, parsers on lists with one token of sight, and when a parser is good for
//! a language.
#![tactic(auto)]

pub mod laws;
mod signs;

pub use signs::Sign;
