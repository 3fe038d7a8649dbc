//! The rules on bounds: the turns of a repetition (C18), the depth of an expression (C19), the
//! steps of a body (C20), and how many parts and occurrences there are (C21).
#![tactic(auto)]

mod counts;
mod depths;
mod occurrences;
mod parts;
mod repeats;
mod steps;

pub use counts::passed_counts;
pub use depths::deep_expressions;
pub use repeats::long_repeats;
pub use steps::long_bodies;
