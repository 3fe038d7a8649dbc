//! The parser: the tree of a source's tokens, or the first token out of place.
#![tactic(auto)]

mod activities;
mod arguments;
mod basics;
mod declarations;
mod expressions;
mod fail;
pub mod laws;
mod levels;
mod literals;
mod names;
mod operands;
mod outermost;
mod parser;
mod ports;
mod slots;
mod source;
mod statements;
mod words;

pub use fail::SyntaxError;
pub use parser::parse;

#[cfg(test)]
mod tests;
