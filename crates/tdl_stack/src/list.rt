ghost use Rattle.std.specs.Prelude.{◌≡◌, ◌++◌, codes, decimal, OnOk, OnErr};
ghost use Rattle.std.specs.Fmt.{signed_decimal};
ghost use Rattle.tdl_stack.specs.Texts.{Extends, instr_text, further_text, code_text, two_numbers};

use crate::Instr;
use itoa::Buffer;
use tdl_base::{NoMemory, Place, PortKey};

/// Appends the text of a code: the texts of its instructions with `; ` between them, or `none`.
/// Without memory `into` is as before.
pub fn list_code(code: &[Instr], into: &mut Vec<u8>) -> Result<(), NoMemory>
    ensures ok { OnOk result (into.new.items ≡ into.old.items ++ code_text code.now) }
    ensures err { OnErr result (into.new.items ≡ into.old.items) }
{
    let before = into.len();
    let done = put_code(code, into);
    if done.is_err() {
        into.truncate(before);
    }
    done
}

#[tactic(auto, using(crate::proofs::Extending::and_more))]
fn put_code(code: &[Instr], into: &mut Vec<u8>) -> Result<(), NoMemory>
    ensures ok { OnOk result (into.new.items ≡ into.old.items ++ code_text code.now) }
    ensures kept { Extends into.old.items into.new.items }
{
    let [first, further @ ..] = code else {
        return put_text(into, b"none");
    };
    put_instr(into, first)?;
    put_further(into, further)
}

#[tactic(auto, using(crate::proofs::Extending::and_more))]
fn put_further(into: &mut Vec<u8>, code: &[Instr]) -> Result<(), NoMemory>
    ensures ok { OnOk result (into.new.items ≡ into.old.items ++ further_text code.now) }
    ensures kept { Extends into.old.items into.new.items }
{
    for i in code {
        put_text(into, b"; ")?;
        put_instr(into, i)?;
    }
    Ok(())
}

fn put_instr(into: &mut Vec<u8>, i: &Instr) -> Result<(), NoMemory>
    ensures ok { OnOk result (into.new.items ≡ into.old.items ++ instr_text i.now) }
    ensures kept { Extends into.old.items into.new.items }
{
    match *i {
        Instr::Const(v) => put_signed(into, b"const ", v),
        Instr::Load(Place::Sensor(sensor)) => put_number(into, b"sensor ", u64::from(sensor)),
        Instr::Load(Place::Port(key)) => put_key(into, key),
        Instr::Load(Place::Cell(cell)) => put_number(into, b"cell ", u64::from(cell)),
        Instr::Store(cell) => put_number(into, b"store ", u64::from(cell)),
        Instr::Un(op) => put_number(into, b"un ", op as u64),
        Instr::Bin(op) => put_number(into, b"bin ", op as u64),
        Instr::Jz(count) => put_number(into, b"jz ", u64::from(count)),
        Instr::Jmp(count) => put_number(into, b"jmp ", u64::from(count)),
        Instr::Rep(times, count) => put_two(into, b"rep ", u64::from(times), u64::from(count)),
    }
}

fn put_text(into: &mut Vec<u8>, text: &[u8]) -> Result<(), NoMemory>
    ensures ok { OnOk result (into.new.items ≡ into.old.items ++ text.now) }
    ensures kept { Extends into.old.items into.new.items }
{
    into.extend_from_slice(text)?;
    Ok(())
}

#[tactic(auto, using(crate::proofs::Extending::and_more))]
fn put_number(into: &mut Vec<u8>, word: &[u8], number: u64) -> Result<(), NoMemory>
    ensures ok { OnOk result (into.new.items ≡ into.old.items ++ word.now ++ decimal number) }
    ensures kept { Extends into.old.items into.new.items }
{
    put_text(into, word)?;
    let mut buffer = Buffer::new();
    put_text(into, buffer.format(number).as_bytes())
}

#[tactic(auto, using(crate::proofs::Extending::and_more))]
fn put_signed(into: &mut Vec<u8>, word: &[u8], number: i64) -> Result<(), NoMemory>
    ensures ok { OnOk result
        (into.new.items ≡ into.old.items ++ word.now ++ signed_decimal number) }
    ensures kept { Extends into.old.items into.new.items }
{
    put_text(into, word)?;
    let mut buffer = Buffer::new();
    put_text(into, buffer.format(number).as_bytes())
}

#[tactic(auto, using(crate::proofs::Extending::and_more))]
fn put_two(into: &mut Vec<u8>, word: &[u8], first: u64, second: u64) -> Result<(), NoMemory>
    ensures ok { OnOk result
        (into.new.items ≡ into.old.items ++ word.now ++ two_numbers first second) }
    ensures kept { Extends into.old.items into.new.items }
{
    put_number(into, word, first)?;
    put_number(into, b" ", second)
}

#[tactic(auto, using(crate::proofs::Extending::and_more))]
fn put_key(into: &mut Vec<u8>, key: PortKey) -> Result<(), NoMemory>
    ensures ok { OnOk result
        (into.new.items ≡ into.old.items ++ instr_text (Instr.Load (Place.Port key))) }
    ensures kept { Extends into.old.items into.new.items }
{
    let PortKey {
        module,
        task,
        output,
    } = key;
    put_two(into, b"port ", u64::from(module.0), u64::from(task.0))?;
    put_number(into, b" ", u64::from(output))
}

#[cfg(test)]
mod tests {
    use super::*;
    use std::test::Fail;
    use tdl_base::{BinOp, ModuleId, TaskId, UnOp};

    const KEY: PortKey = PortKey {
        module: ModuleId(1),
        task: TaskId(2),
        output: 3,
    };

    #[test]
    fn texts(rt: HostRuntime) -> Result<(), Fail> {
        let choice = [
            Instr::Load(Place::Cell(0)),
            Instr::Const(-5),
            Instr::Bin(BinOp::Greater),
            Instr::Jz(3),
            Instr::Const(1),
            Instr::Store(1),
            Instr::Jmp(2),
            Instr::Un(UnOp::Not),
            Instr::Store(1),
        ];
        let rows = [
            ([].as_slice(), b"= none".as_slice()),
            (
                choice.as_slice(),
                b"= cell 0; const -5; bin 7; jz 3; const 1; store 1; jmp 2; un 1; store 1".as_slice(),
            ),
            (
                [
                    Instr::Rep(3, 4),
                    Instr::Load(Place::Sensor(6)),
                    Instr::Load(Place::Port(KEY)),
                ]
                .as_slice(),
                b"= rep 3 4; sensor 6; port 1 2 3".as_slice(),
            ),
        ];
        for (code, text) in rows {
            let mut into = Vec::from_slice(rt.alloc(), b"= ")?;
            list_code(code, &mut into)?;
            assert_eq!(rt; into.as_slice(), text, "{code:?}");
        }
        Ok(())
    }
}
