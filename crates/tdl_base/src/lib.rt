//! Kinds and their arithmetic, the numbers that name things, and the small list and text types that
//! the other crates' types are made of.
#![tactic(auto)]

mod arithmetic;
pub mod bytes;
mod kinds;
pub mod laws;
pub mod limits;
mod listed;
mod memory;
mod numbers;
mod sensed;
mod text;

pub use arithmetic::{BinOp, UnOp, bin, un};
pub use kinds::{Kind, narrow, width};
pub use listed::Listed;
pub use memory::NoMemory;
pub use numbers::{FIRST_NODE, ModeId, ModuleId, NodeId, Place, PortKey, TaskId, Us};
pub use sensed::Sensed;
pub use text::Text;
