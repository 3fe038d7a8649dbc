ghost use Rattle.std.specs.Prelude.{◌↔◌, IsTrue, IfOk};
ghost use Rattle.tdl_stack.specs.Lawful.{IsLawful, shape_of};

use crate::count::is_countable;
use crate::lands::all_land;
use crate::stand::is_standing;
use crate::table::{empty_places, innermost_bodies};
use crate::{Instr, Shape};
use std::alloc::Global;
use tdl_base::NoMemory;

/// Whether nodes run the code as one of the shape. The time rises with the code's length alone,
/// however much of it is skipped or repeated, and for each output that is read with the count of
/// the keys. While it works it takes memory for a `usize` and a `bool` for each instruction and the
/// end, and none for a code that breaks a rule that needs no look at other places.
pub fn check_code(alloc: Global, code: &[Instr], shape: &Shape) -> Result<bool, NoMemory>
    ensures { IfOk result (λ lawful. IsTrue lawful ↔ IsLawful code.now (shape_of shape.now)) }
{
    if !is_standing(code, shape) || !is_countable(code) {
        return Ok(false);
    }
    let bodies = innermost_bodies(alloc, code)?;
    let empty = empty_places(alloc, code)?;
    Ok(all_land(code, bodies.as_slice(), empty.as_slice()))
}
