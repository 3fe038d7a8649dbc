//! The source of a plain program: one module with one sensor, one task and one mode. It goes once
//! the scanner, the parser and the checker stand, which take every program.
#![tactic(auto)]

mod form;
mod form_in;
mod read;
mod sample;
mod tree;
mod words;

pub use form::{Form, SourceError};
pub use read::read_plain;
pub use sample::{COUNTING_SOURCE, counting_form};
pub use words::is_name;
