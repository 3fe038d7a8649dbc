ghost use Rattle.std.specs.Prelude.{◌≡◌, ◌≤◌, length};
ghost use Rattle.tdl_stack.specs.declared.limits.TheConstants.{STACK_NUMBERS};
ghost use Rattle.tdl_stack.specs.Lawful.{takes, height_after};
ghost use Rattle.tdl_stack.specs.Running.{loaded};
ghost use Rattle.tdl_exec.specs.Stepping.{state_of, stepped, next_of};

use crate::View;
use crate::cells::CellStore;
use crate::numbers::Numbers;
use tdl_base::{Place, bin, un};
use tdl_stack::Instr;

/// What is next after an instruction.
pub(crate) enum Next {
    /// What stands after it, but for so many instructions.
    Skip(usize),
    /// So many times the instructions after it, of which the second number says how many, and then
    /// what stands after these.
    Repeat(u16, usize),
}

/// Does one instruction, and tells what is next. A repetition is only told.
pub(crate) fn step<V: View, C: CellStore>(
    instr: Instr,
    view: &V,
    stack: &mut Numbers,
    cells: &mut C,
) -> Next
    requires supplied { takes instr ≤ length stack.old }
    requires room { height_after (length stack.old) instr ≤ STACK_NUMBERS }
    ensures next { result ≡ next_of instr (state_of stack.old (C.cells cells.old)) }
    ensures state { state_of stack.new (C.cells cells.new)
        ≡ stepped (V.outer view.now) instr (state_of stack.old (C.cells cells.old)) }
    ensures height { length stack.new ≡ height_after (length stack.old) instr }
{
    match instr {
        Instr::Const(v) => stack.push(v),
        Instr::Load(place) => stack.push(read(place, view, cells)),
        Instr::Store(cell) => {
            let v = stack.pop();
            cells.store(cell, v);
        }
        Instr::Un(op) => {
            let v = stack.pop();
            stack.push(un(op, v));
        }
        Instr::Bin(op) => {
            let right = stack.pop();
            let left = stack.pop();
            stack.push(bin(op, left, right));
        }
        Instr::Jz(count) => {
            let is_zero = stack.pop() == 0;
            return Next::Skip(if is_zero { count as usize } else { 0 });
        }
        Instr::Jmp(count) => return Next::Skip(count as usize),
        Instr::Rep(times, count) => return Next::Repeat(times, count as usize),
    }
    Next::Skip(0)
}

/// What stands at a place; 0 where there is no such cell.
fn read<V: View, C: CellStore>(place: Place, view: &V, cells: &C) -> i64
    ensures { result ≡ loaded (V.outer view.now) place (C.cells cells.now) }
{
    match place {
        Place::Sensor(number) => view.sensor(number),
        Place::Port(key) => view.port(&key),
        Place::Cell(cell) => cells.load(cell),
    }
}
