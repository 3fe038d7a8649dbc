ghost use Rattle.std.specs.Prelude.{◌≡◌, ◌<◌, ◌≤◌, length, IfOk, ◌+◌};
ghost use Rattle.tdl_stack.specs.Spanning.{IsInnermost, AreInnermost, reaches, empties};

use crate::Instr;
use crate::stand::height_after;
use std::alloc::Global;
use tdl_base::NoMemory;

// Whether a place comes before the end of the body that begins at `body`.
pub(crate) fn reaches(code: &[Instr], body: usize, place: usize) -> bool
    ensures { result ≡ reaches code.now body place }
{
    let Some(rep) = body.checked_sub(1) else {
        return true;
    };
    match code.get(rep) {
        Some(Instr::Rep(_, n)) => place <= rep + *n as usize,
        _ => false,
    }
}

// Where the innermost body at the place after those of the table begins. A body that does not
// reach the place is not looked at again, so there are at most three looks for each place.
fn innermost(code: &[Instr], bodies: &[usize]) -> usize
    requires { AreInnermost code.now bodies.now }
    ensures { IsInnermost code.now (length bodies.now) result }
{
    let place = bodies.len();
    let mut body = place;
    while !reaches(code, body, place) {
        body = bodies[body - 1];
    }
    body
}

// Where the innermost body begins, for each place and the end.
pub(crate) fn innermost_bodies(alloc: Global, code: &[Instr]) -> Result<Vec<usize>, NoMemory>
    ensures count { IfOk result (λ bodies. length bodies.items ≡ length code.now + 1) }
    ensures each { IfOk result (λ bodies. AreInnermost code.now bodies.items) }
{
    let mut bodies = Vec::with_capacity(alloc, code.len() + 1)?;
    while bodies.len() <= code.len() {
        let body = innermost(code, bodies.as_slice());
        bodies.push(body)?;
    }
    Ok(bodies)
}

// Whether the stack is empty, for each place and the end.
pub(crate) fn empty_places(alloc: Global, code: &[Instr]) -> Result<Vec<bool>, NoMemory>
    ensures { IfOk result (λ empty. empty.items ≡ empties 0 code.now) }
{
    let mut empty = Vec::with_capacity(alloc, code.len() + 1)?;
    let mut height = 0;
    let mut left = code;
    while let [first, rest @ ..] = left {
        empty.push(height == 0)?;
        height = height_after(height, first);
        left = rest;
    }
    empty.push(height == 0)?;
    Ok(empty)
}
