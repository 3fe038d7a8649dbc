//! The bundle of a plain program, made from its form. It goes once the generator stands, which
//! makes the bundle of every program.
#![tactic(auto)]

pub mod laws;
mod make;
mod parts;
mod test_plain;
#[cfg(test)]
mod tests;

pub use make::plain_bundle;
pub use test_plain::is_plain_bundle;
