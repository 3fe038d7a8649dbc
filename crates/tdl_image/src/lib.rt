//! Bundles: what is sent to the nodes, as values and as the bytes that spell them.
#![tactic(auto)]

mod bundle;
mod hosted;
pub mod laws;
mod put_common;
mod put_hosted;
mod put_image;
mod put_stub;
mod sample;
mod spelled;
mod stub;
#[cfg(test)]
mod tests;
mod writer;

pub use bundle::{Bundle, Image, Initial, KindName};
pub use hosted::{CallEntry, Driver, Hosted, ImageWindow, ReleaseEntry, TaskTable};
pub use sample::COUNTING_BYTES;
pub use stub::{Receive, Stub, StubTask};
pub use writer::write_bundle;
