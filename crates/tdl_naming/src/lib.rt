//! The rules of names: each name declared once in its space, each import and each name found, each
//! target one that can be assigned, and as many arguments as inputs.
#![tactic(auto)]

mod arguments;
mod imports;
mod lost;
mod spaces;
mod targets;

pub use arguments::wrong_argument_counts;
pub use imports::unknown_imports;
pub use lost::lost_names;
pub use spaces::repeated_names;
pub use targets::unassignable_targets;
