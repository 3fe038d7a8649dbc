ghost use Rattle.std.specs.Prelude.{◌≡◌, ◌++◌, length, OnOk, OnErr};
ghost use Rattle.tdl_ecode.specs.Spelling.{einstr_bytes};

use crate::EInstr;
use tdl_base::NoMemory;
use tdl_base::bytes::{
    put_byte, put_byte_short, put_byte_short_word, put_byte_word, put_byte_words,
};

/// How many bytes the spelling of an instruction has: 1, 3, 5, 7 or 9.
pub fn instr_len(i: &EInstr) -> usize
    ensures { result ≡ length (einstr_bytes i.now) }
{
    match i {
        EInstr::Return => 1,
        EInstr::Call(_) | EInstr::Release(_) | EInstr::End(_) | EInstr::Take(_) | EInstr::Mode(_) =>
            3,
        EInstr::Jump(_) => 5,
        EInstr::If(_, _) => 7,
        EInstr::Future(_, _) => 9,
    }
}

/// Appends the spelling of an instruction: its opcode, then its operands in their order,
/// big-endian. Without memory `into` is as before.
pub fn put_instr(i: &EInstr, into: &mut Vec<u8>) -> Result<(), NoMemory>
    ensures ok { OnOk result (into.new.items ≡ into.old.items ++ einstr_bytes i.now) }
    ensures err { OnErr result (into.new.items ≡ into.old.items) }
{
    match *i {
        EInstr::Return => put_byte(into, 0),
        EInstr::Call(driver) => put_byte_short(into, 1, driver),
        EInstr::Release(entry) => put_byte_short(into, 2, entry),
        EInstr::End(task) => put_byte_short(into, 3, task),
        EInstr::Take(entry) => put_byte_short(into, 4, entry),
        EInstr::Mode(mode) => put_byte_short(into, 5, mode),
        EInstr::If(guard, index) => put_byte_short_word(into, 6, guard, index),
        EInstr::Jump(index) => put_byte_word(into, 7, index),
        EInstr::Future(delay, block) => put_byte_words(into, 8, delay, block),
    }
}
