//! The check: the program that sources say which keep all rules, and the first fault where they do
//! not.
#![tactic(auto)]

mod checked;
mod checking;
mod error;
pub mod laws;
mod rules;

pub use checked::Checked;
pub use checking::check;
pub use error::CheckError;
