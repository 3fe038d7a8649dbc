ghost use Rattle.std.specs.Prelude.{◌≡◌, ◌↔◌, ◌<◌, ◌≤◌, ◌^◌, IsTrue, Contains};
ghost use Rattle.tdl_stack.specs.Lawful.{shape_of, takes, height_after, span};
ghost use Rattle.tdl_stack.specs.Judging.{Fits};
ghost use Rattle.tdl_stack.specs.Spanning.{BeginsWell, StandsAt, Stand};

use crate::limits::STACK_NUMBERS;
use crate::{Instr, Shape};
use tdl_base::Place;
use tdl_base::limits::REPEAT;

// Whether every instruction of a code may stand where it stands, if what it spans may end where it
// ends.
pub(crate) fn is_standing(code: &[Instr], shape: &Shape) -> bool
    ensures { IsTrue result ↔ Stand (shape_of shape.now) 0 code.now }
{
    let mut height = 0;
    let mut left = code;
    while let [first, rest @ ..] = left {
        if !stands_at(shape, height, first, rest) {
            return false;
        }
        height = height_after(height, first);
        left = rest;
    }
    height == usize::from(shape.expression)
}

fn stands_at(shape: &Shape, height: usize, i: &Instr, code: &[Instr]) -> bool
    requires { height ≤ STACK_NUMBERS }
    ensures { IsTrue result ↔ StandsAt (shape_of shape.now) height i.now code.now }
{
    let after = height_after(height, i);
    fits(shape, i)
        && takes(i) <= height
        && after <= STACK_NUMBERS
        && begins_well(i, after, code.len())
}

fn fits(shape: &Shape, i: &Instr) -> bool
    ensures { IsTrue result ↔ Fits (shape_of shape.now) i.now }
{
    match *i {
        Instr::Const(_) | Instr::Un(_) | Instr::Bin(_) => true,
        Instr::Load(Place::Sensor(k)) => shape.expression && usize::from(k) < shape.sensors,
        Instr::Load(Place::Port(key)) => shape.expression && shape.keys.contains(&key),
        Instr::Load(Place::Cell(k)) | Instr::Store(k) => {
            !shape.expression && usize::from(k) < shape.cells
        }
        Instr::Jz(_) | Instr::Jmp(_) => !shape.expression,
        Instr::Rep(times, _) => !shape.expression && u64::from(times) <= REPEAT,
    }
}

fn takes(i: &Instr) -> usize
    ensures { result ≡ takes i.now }
{
    match *i {
        Instr::Bin(_) => 2,
        Instr::Store(_) | Instr::Un(_) | Instr::Jz(_) => 1,
        _ => 0,
    }
}

pub(crate) fn height_after(height: usize, i: &Instr) -> usize
    requires { height < 2 ^ 63 }
    ensures { result ≡ height_after height i.now }
{
    let kept = height.saturating_sub(takes(i));
    match *i {
        Instr::Const(_) | Instr::Load(_) | Instr::Un(_) | Instr::Bin(_) => kept + 1,
        _ => kept,
    }
}

// Of how many of the next instructions an instruction speaks.
pub(crate) fn span(i: &Instr) -> Option<usize>
    ensures { result ≡ span i.now }
{
    match *i {
        Instr::Jz(n) | Instr::Jmp(n) | Instr::Rep(_, n) => Some(n as usize),
        _ => None,
    }
}

fn begins_well(i: &Instr, height: usize, left: usize) -> bool
    ensures { IsTrue result ↔ BeginsWell height left (span i.now) }
{
    match span(i) {
        None => true,
        Some(n) => height == 0 && n <= left,
    }
}
