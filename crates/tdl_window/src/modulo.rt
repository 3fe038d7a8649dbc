ghost use Rattle.std.specs.Prelude.{◌≡◌, IfOk};
ghost use Rattle.tdl_window.specs.GrainOf.{gcd, grain_of, grains_of};
ghost use Rattle.tdl_window.specs.Meeting.{has_congruent, meet};
ghost use Rattle.tdl_window.specs.Broken.{grain_at, meet_apart};
ghost use Rattle.tdl_window.specs.Gaps.{IsGap};

use std::alloc::Global;
use tdl_base::{ModuleId, NoMemory};
use tdl_cycles::{gcd, grain};
use tdl_deploy::Window;
use tdl_mode::{Module, Program};

/// The grain of a module, in microseconds.
fn grain_of(module: &Module) -> u64
    ensures { result ≡ grain_of «module».now }
{
    grain(module).0
}

/// The grains of all modules, in order.
pub(crate) fn grains_of(alloc: Global, program: &Program) -> Result<Vec<u64>, NoMemory>
    ensures { IfOk result (λ grains. grains.items ≡ grains_of program.now) }
{
    let mut grains = Vec::new(alloc);
    for module in program.modules.as_slice() {
        grains.push(grain_of(module))?;
    }
    Ok(grains)
}

/// The grain of a module by its number, 0 where it has none.
fn grain_at(grains: &[u64], number: ModuleId) -> u64
    ensures { result ≡ grain_at grains.now number.0 }
{
    match grains.get(usize::from(number.0)) {
        None => 0,
        Some(grain) => *grain,
    }
}

/// The greatest common divisor of two numbers.
fn common(a: u64, b: u64) -> u64
    ensures { result ≡ gcd a b }
{
    gcd(a, b)
}

/// The least number of microseconds from an offset on until one that is congruent to another
/// offset modulo `d`; `None` where there is none, which is only so where `d` is 0.
fn gap(d: u64, from: u64, to: u64) -> Option<u64>
    ensures { IsGap d from to result }
{
    if d == 0 {
        return to.checked_sub(from);
    }
    let before = from % d;
    let after = to % d;
    if before <= after {
        Some(after - before)
    } else {
        Some(after + (d - before))
    }
}

/// Whether a microsecond of a window is congruent to an offset modulo `d`.
fn has_congruent(d: u64, offset: u32, window: &Window) -> bool
    ensures { result ≡ has_congruent d offset window.now }
{
    match gap(d, u64::from(window.offset), u64::from(offset)) {
        None => false,
        Some(gap) => gap < u64::from(window.length),
    }
}

/// Whether two windows meet modulo `d`: the one begins in the other, where neither is empty.
fn meet(d: u64, first: &Window, second: &Window) -> bool
    ensures { result ≡ meet d first.now second.now }
{
    if first.length == 0 {
        return false;
    }
    if second.length == 0 {
        return false;
    }
    has_congruent(d, second.offset, first) || has_congruent(d, first.offset, second)
}

/// Whether windows of two modules meet modulo the greatest common divisor of their grains.
pub(crate) fn meet_apart(grains: &[u64], first: &Window, second: &Window) -> bool
    ensures { result ≡ meet_apart grains.now first.now second.now }
{
    if first.module == second.module {
        return false;
    }
    let left = grain_at(grains, first.module);
    let right = grain_at(grains, second.module);
    meet(common(left, right), first, second)
}
