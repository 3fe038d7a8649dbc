//! The first fault, and the walks over sources that hold a rule against each part of a program.
#![tactic(auto)]

mod activities;
mod declarations;
mod expressions;
mod first;
mod outermost;
mod statements;

pub use activities::{OnActivity, OnMode, in_activities, in_modes};
pub use declarations::{OnDeclaration, OnModule, in_declarations, in_modules};
pub use expressions::{OnExpression, on_within};
pub use first::{is_before, is_past, note, note_if};
pub use outermost::{in_expressions, in_outermost};
pub use statements::{OnStatement, in_statements};

#[cfg(test)]
mod tests;
