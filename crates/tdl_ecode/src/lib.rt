//! The instructions of the E-machine and how they are spelled.
#![tactic(auto)]

mod fault;
mod instr;
pub mod laws;
mod read;
mod write;

pub use fault::InstrFault;
pub use instr::{Block, EInstr};
pub use read::get_instr;
pub use write::{instr_len, put_instr};
