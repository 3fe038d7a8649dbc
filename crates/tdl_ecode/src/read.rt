ghost use Rattle.std.specs.Prelude.{◌≡◌, ◌↔◌, length, slice_get, unwrap_or, IfOk, Ok, Err};
ghost use Rattle.std.specs.Int.{w16, w32};
ghost use Rattle.tdl_base.specs.Bytes.{number_at};
ghost use Rattle.tdl_ecode.specs.declared.instr.EInstr.{EInstr};
ghost use Rattle.tdl_ecode.specs.Spelling.{einstr_bytes, BeginsWith, IsUnfinished, HasNoOpcode};
ghost use Rattle.tdl_ecode.specs.Reading.{reading, instr_at, by_opcode, or_short, two};

use crate::{EInstr, InstrFault, instr_len};
use tdl_base::bytes::{short_at, short_word_at, word_at, words_at};

/// The instruction that the bytes begin with, and the length of its spelling in bytes; more bytes
/// may follow. `Short` exactly where the bytes end before an instruction does, as no bytes at all
/// do, and `Unknown` for a first byte without an instruction, and only then. It takes no memory.
pub fn get_instr(bytes: &[u8]) -> Result<(EInstr, usize), InstrFault>
    ensures begins { IfOk result (λ r. BeginsWith bytes.now r.0) }
    ensures len { IfOk result (λ r. r.1 ≡ length (einstr_bytes r.0)) }
    ensures only { (i : EInstr) → BeginsWith bytes.now i →
        result ≡ Ok (i, length (einstr_bytes i)) }
    ensures short { (result ≡ Err InstrFault.Short) ↔ IsUnfinished bytes.now }
    ensures unknown { (result ≡ Err InstrFault.Unknown) ↔ HasNoOpcode bytes.now }
    ensures exact { result ≡ reading bytes.now }
{
    read(bytes)
}

fn read(bytes: &[u8]) -> Result<(EInstr, usize), InstrFault>
    ensures { result ≡ reading bytes.now }
{
    let i = read_instr(bytes)?;
    Ok((i, instr_len(&i)))
}

fn read_instr(bytes: &[u8]) -> Result<EInstr, InstrFault>
    ensures { result ≡ instr_at bytes.now }
{
    match bytes.split_first() {
        None => Err(InstrFault::Short),
        Some((opcode, operands)) => read_operands(*opcode, operands),
    }
}

fn read_operands(opcode: u8, bytes: &[u8]) -> Result<EInstr, InstrFault>
    ensures { result ≡ unwrap_or (slice_get (by_opcode bytes.now) opcode) (Err InstrFault.Unknown) }
{
    match opcode {
        0 => Ok(EInstr::Return),
        1 => Ok(EInstr::Call(short(bytes)?)),
        2 => Ok(EInstr::Release(short(bytes)?)),
        3 => Ok(EInstr::End(short(bytes)?)),
        4 => Ok(EInstr::Take(short(bytes)?)),
        5 => Ok(EInstr::Mode(short(bytes)?)),
        6 => read_if(bytes),
        7 => Ok(EInstr::Jump(word(bytes)?)),
        8 => read_future(bytes),
        _ => Err(InstrFault::Unknown),
    }
}

fn short(bytes: &[u8]) -> Result<u16, InstrFault>
    ensures { result ≡ or_short (number_at w16 bytes.now) }
{
    short_at(bytes).ok_or(InstrFault::Short)
}

fn word(bytes: &[u8]) -> Result<u32, InstrFault>
    ensures { result ≡ or_short (number_at w32 bytes.now) }
{
    word_at(bytes).ok_or(InstrFault::Short)
}

fn read_if(bytes: &[u8]) -> Result<EInstr, InstrFault>
    ensures { result ≡ two w16 w32 EInstr.If bytes.now }
{
    let Some((guard, index)) = short_word_at(bytes) else {
        return Err(InstrFault::Short);
    };
    Ok(EInstr::If(guard, index))
}

fn read_future(bytes: &[u8]) -> Result<EInstr, InstrFault>
    ensures { result ≡ two w32 w32 EInstr.Future bytes.now }
{
    let Some((delay, block)) = words_at(bytes) else {
        return Err(InstrFault::Short);
    };
    Ok(EInstr::Future(delay, block))
}

#[cfg(test)]
mod tests {
    use super::*;
    use crate::put_instr;
    use std::alloc::Global;
    use std::test::Fail;

    fn spelled(alloc: Global, i: EInstr) -> Result<Vec<u8>, Fail> {
        let mut bytes = Vec::new(alloc);
        put_instr(&i, &mut bytes)?;
        Ok(bytes)
    }

    #[test]
    fn nine_instructions(rt: HostRuntime) -> Result<(), Fail> {
        let rows = [
            (EInstr::Return, b"\x00".as_slice()),
            (EInstr::Call(0x0102), b"\x01\x01\x02".as_slice()),
            (EInstr::Release(3), b"\x02\x00\x03".as_slice()),
            (EInstr::End(0xfffe), b"\x03\xff\xfe".as_slice()),
            (EInstr::Take(0x0500), b"\x04\x05\x00".as_slice()),
            (EInstr::Mode(6), b"\x05\x00\x06".as_slice()),
            (
                EInstr::If(7, 0x0102_0304),
                b"\x06\x00\x07\x01\x02\x03\x04".as_slice(),
            ),
            (EInstr::Jump(9), b"\x07\x00\x00\x00\x09".as_slice()),
            (
                EInstr::Future(5000, 2),
                b"\x08\x00\x00\x13\x88\x00\x00\x00\x02".as_slice(),
            ),
        ];
        for (i, bytes) in rows {
            assert_eq!(rt; spelled(rt.alloc(), i)?.as_slice(), bytes, "{i:?}");
            assert_eq!(rt; get_instr(bytes), Ok((i, bytes.len())), "{i:?}");
            for len in 0..bytes.len() {
                assert_eq!(rt;
                    get_instr(&bytes[..len]),
                    Err(InstrFault::Short),
                    "{i:?} {len}"
                );
            }
        }
        Ok(())
    }

    #[test]
    fn no_opcode(rt: HostRuntime) {
        for bytes in [b"\x09".as_slice(), b"\xff\x00\x00".as_slice()] {
            assert_eq!(rt; get_instr(bytes), Err(InstrFault::Unknown), "{bytes:?}");
        }
    }
}
