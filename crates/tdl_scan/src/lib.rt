//! The scanner: the tokens of a source, with their places.
#![tactic(auto)]

mod bytes;
pub mod laws;
mod piece;
mod place;
mod scanner;
mod token;

pub use bytes::{is_identifier, is_number};
pub use place::{SourcePlace, end_place};
pub use scanner::{ScanError, scan};
pub use token::{Token, TokenKind};

#[cfg(test)]
mod tests;
