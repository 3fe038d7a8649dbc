ghost use Rattle.std.specs.Prelude.{◌≡◌, ◌↔◌, ◌+◌, ◌<◌, length, IsTrue};
ghost use Rattle.tdl_stack.specs.Spanning.{AreTables, Lands, EndWithin, LandsAt, LandBefore};

use crate::Instr;
use crate::stand::span;
use crate::table::reaches;

// Whether the instructions from a place on may be spanned.
fn lands(code: &[Instr], bodies: &[usize], empty: &[bool], place: usize, n: usize) -> bool
    requires tables { AreTables code.now bodies.now empty.now }
    requires within { place + n < length code.now }
    ensures { IsTrue result ↔ Lands code.now place n }
{
    if !reaches(code, bodies[place], place + n) {
        return false;
    }
    let to = place + n + 1;
    bodies[to] <= place && empty[to]
}

// Whether what the instruction at a place spans may be spanned.
fn lands_at(code: &[Instr], bodies: &[usize], empty: &[bool], place: usize) -> bool
    requires tables { AreTables code.now bodies.now empty.now }
    requires within { EndWithin code.now }
    requires place { place < length code.now }
    ensures { IsTrue result ↔ LandsAt code.now place }
{
    let Some(n) = span(&code[place]) else {
        return true;
    };
    lands(code, bodies, empty, place, n)
}

// Whether all that the code spans may be spanned.
pub(crate) fn all_land(code: &[Instr], bodies: &[usize], empty: &[bool]) -> bool
    requires tables { AreTables code.now bodies.now empty.now }
    requires within { EndWithin code.now }
    ensures { IsTrue result ↔ LandBefore code.now (length code.now) }
{
    for place in 0..code.len() {
        if !lands_at(code, bodies, empty, place) {
            return false;
        }
    }
    true
}
