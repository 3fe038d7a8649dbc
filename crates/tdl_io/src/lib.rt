//! What the program reads and writes: files and sinks by their meaning, in memory and over the
//! host.
//!
//! Who answers with a fault has raised the count of the object that it was given. So code that is
//! generic over these traits cannot fail of its own accord.
#![tactic(auto)]

mod entries;
mod files;
mod host_files;
mod host_sink;
mod mem_files;
mod mem_sink;
mod null_sink;
mod quiet_files;
mod sink;

pub use files::{FileAnswer, Files, SaveAnswer};
pub use host_files::HostFiles;
pub use host_sink::HostSink;
pub use mem_files::MemFiles;
pub use mem_sink::MemSink;
pub use null_sink::NullSink;
pub use quiet_files::QuietFiles;
pub use sink::{Sink, SinkFailed};

#[cfg(test)]
mod callers;
#[cfg(test)]
mod tests;
