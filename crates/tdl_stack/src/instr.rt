use tdl_base::{BinOp, Listed, Place, UnOp};

/// An instruction of stack code. It works on a stack of numbers and on the cells of a job.
#[derive(Clone, Copy, Debug, PartialEq, Eq)]
pub enum Instr {
    /// Pushes the number.
    Const(i64),
    /// Pushes what stands at the place.
    Load(Place),
    /// Pops a number and sets the cell to it, narrowed to the cell's kind.
    Store(u16),
    /// Pops an operand and pushes what the operator gives.
    Un(UnOp),
    /// Pops the right operand, then the left one, and pushes what the operator gives.
    Bin(BinOp),
    /// Pops a number, and where it is 0 skips so many instructions.
    Jz(u32),
    /// Skips so many instructions.
    Jmp(u32),
    /// Does the next instructions, of which the second number says how many, as often as the first
    /// number says, and goes on after them.
    Rep(u16, u32),
}

/// Stack code: the instructions in the order of the text.
#[derive(Debug, Drop)]
pub struct Code {
    pub instrs: Listed<Instr>,
}
