use thiserror::Error;

/// Why bytes do not begin with an instruction.
#[derive(Clone, Copy, Debug, PartialEq, Eq, Error)]
pub enum InstrFault {
    /// They end before the instruction does.
    #[error("the bytes end within an instruction")]
    Short,
    /// The first byte is no opcode.
    #[error("no instruction has this opcode")]
    Unknown,
}
