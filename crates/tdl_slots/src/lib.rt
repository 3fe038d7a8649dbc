//! The slots that an activity chooses in a mode: its logical execution times and its offsets,
//! walked without a list of them, or listed.
#![tactic(auto)]

mod chosen;
mod lists;
mod tried;
mod walks;

pub use chosen::Chosen;
pub use lists::Span;
pub use tried::{OnOffset, OnSpan};
pub use walks::chosen_by;
