use tdl_base::Listed;

/// An instruction of the E-machine, for the module whose block runs.
#[derive(Clone, Copy, Debug, PartialEq, Eq)]
pub enum EInstr {
    /// Calls a driver, by its number.
    Call(u16),
    /// Releases a job, by the number of the release entry.
    Release(u16),
    /// Ends the job of a task, by the task's number.
    End(u16),
    /// Takes over what was received, by the number of the receive entry.
    Take(u16),
    /// Enters a mode, by its number.
    Mode(u16),
    /// Where a guard is 0, goes on at an index of this block: the guard's number, then the index.
    If(u16, u32),
    /// Goes on at an index of this block.
    Jump(u32),
    /// Sets the module's trigger so many microseconds ahead: their number, then the block's.
    Future(u32, u32),
    /// Ends the block.
    Return,
}

/// A block of E-code.
#[derive(Debug, Drop)]
pub struct Block {
    /// When the block has its turn within an instant, from 1 to 4.
    pub phase: u8,
    pub code: Listed<EInstr>,
}
