//! Bytes read as a bundle, or refused at the first byte at which its grammar is broken.
#![tactic(auto)]

mod bundles;
mod codes;
mod fault;
mod fields;
mod flaw;
mod hosts;
mod images;
pub mod laws;
mod lists;
mod stubs;
#[cfg(test)]
mod tests;

pub use bundles::read_bundle;
pub use fault::BundleError;
