//! The words of the command line: the commands, their files and options, and what they ask for.
#![tactic(auto)]

pub mod laws;
mod words;

pub use words::{Call, FILE_WORD, read_call, word};

#[cfg(test)]
mod tests;
