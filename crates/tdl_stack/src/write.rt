ghost use Rattle.std.specs.Prelude.{◌≡◌, ◌∷◌, ◌++◌, OnOk, OnErr};
ghost use Rattle.tdl_base.specs.Bytes.{short};
ghost use Rattle.tdl_stack.specs.Spelling.{instr_bytes, un_byte, bin_byte};

use crate::Instr;
use tdl_base::bytes::{
    put_byte_long, put_byte_short, put_byte_short_word, put_byte_word, put_bytes,
};
use tdl_base::{BinOp, NoMemory, Place, PortKey, UnOp};

/// Appends the spelling of an instruction: its byte, then its operands in their order, big-endian,
/// a signed number in two's complement. Without memory `into` is as before.
pub fn put_code_instr(i: &Instr, into: &mut Vec<u8>) -> Result<(), NoMemory>
    ensures ok { OnOk result (into.new.items ≡ into.old.items ++ instr_bytes i.now) }
    ensures err { OnErr result (into.new.items ≡ into.old.items) }
{
    match *i {
        Instr::Const(v) => put_byte_long(into, 0, v),
        Instr::Load(Place::Sensor(sensor)) => put_byte_short(into, 1, sensor),
        Instr::Load(Place::Port(key)) => put_key(into, key),
        Instr::Load(Place::Cell(cell)) => put_byte_short(into, 3, cell),
        Instr::Store(cell) => put_byte_short(into, 4, cell),
        Instr::Un(op) => put_bytes(into, &[5, un_byte(op)]),
        Instr::Bin(op) => put_bytes(into, &[6, bin_byte(op)]),
        Instr::Jz(count) => put_byte_word(into, 7, count),
        Instr::Jmp(count) => put_byte_word(into, 8, count),
        Instr::Rep(times, count) => put_byte_short_word(into, 9, times, count),
    }
}

fn un_byte(op: UnOp) -> u8
    ensures { result ≡ un_byte op }
{
    op as u8
}

fn bin_byte(op: BinOp) -> u8
    ensures { result ≡ bin_byte op }
{
    op as u8
}

fn put_key(into: &mut Vec<u8>, key: PortKey) -> Result<(), NoMemory>
    ensures ok { OnOk result
        (into.new.items ≡ into.old.items ++ 2
        ∷ (short key.module.0 ++ short key.task.0 ++ short key.output)) }
    ensures err { OnErr result (into.new.items ≡ into.old.items) }
{
    let [a, b] = key.module.0.to_be_bytes();
    let [c, d] = key.task.0.to_be_bytes();
    let [e, f] = key.output.to_be_bytes();
    put_bytes(into, &[2, a, b, c, d, e, f])
}

#[cfg(test)]
mod tests {
    use super::*;
    use std::test::Fail;
    use tdl_base::{ModuleId, TaskId};

    #[test]
    fn each_instruction(rt: HostRuntime) -> Result<(), Fail> {
        let key = PortKey {
            module: ModuleId(1),
            task: TaskId(0x0203),
            output: 4,
        };
        let rows = [
            (
                Instr::Const(-2),
                b"\x00\xff\xff\xff\xff\xff\xff\xff\xfe".as_slice(),
            ),
            (Instr::Load(Place::Sensor(5)), b"\x01\x00\x05".as_slice()),
            (
                Instr::Load(Place::Port(key)),
                b"\x02\x00\x01\x02\x03\x00\x04".as_slice(),
            ),
            (Instr::Load(Place::Cell(0x0607)), b"\x03\x06\x07".as_slice()),
            (Instr::Store(1), b"\x04\x00\x01".as_slice()),
            (Instr::Un(UnOp::Not), b"\x05\x01".as_slice()),
            (Instr::Bin(BinOp::Or), b"\x06\x0c".as_slice()),
            (Instr::Jz(3), b"\x07\x00\x00\x00\x03".as_slice()),
            (Instr::Jmp(0x0102_0304), b"\x08\x01\x02\x03\x04".as_slice()),
            (
                Instr::Rep(1000, 2),
                b"\x09\x03\xe8\x00\x00\x00\x02".as_slice(),
            ),
        ];
        for (i, bytes) in rows {
            let mut into = Vec::new(rt.alloc());
            put_code_instr(&i, &mut into)?;
            assert_eq!(rt; into.as_slice(), bytes, "{i:?}");
        }
        Ok(())
    }
}
