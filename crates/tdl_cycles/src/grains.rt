ghost use Rattle.std.specs.Int.{IsGcd};
ghost use Rattle.tdl_mode.specs.Grains.{IsGrain};
ghost use Rattle.tdl_cycles.specs.Divisors.{DividesMode, IsGcdWith};

use tdl_base::Us;
use tdl_mode::{Mode, Module};

/// The greatest common divisor of the periods of a module's modes and of all its switch offsets, in
/// microseconds: every cycle of the module begins at a multiple of it. It is 0 where there is no
/// mode, and takes no memory.
pub fn grain(module: &Module) -> Us
    ensures { IsGrain «module».now result.0 }
{
    let mut grain = 0;
    for mode in module.modes.as_slice() {
        grain = gcd_with(grain, mode);
    }
    Us(grain)
}

// The greatest common divisor of a number, the mode's period and its switch offsets.
fn gcd_with(number: u64, mode: &Mode) -> u64
    ensures { IsGcdWith number (λ d. DividesMode d mode.now) result }
{
    let mut divisor = gcd(number, mode.period.0);
    for switch in mode.switches.as_slice() {
        divisor = gcd(divisor, switch.at.0);
    }
    divisor
}

/// The greatest common divisor of two numbers; that of 0 and 0 is 0.
pub fn gcd(a: u64, b: u64) -> u64
    ensures { IsGcd a b result }
{
    let mut larger = a;
    let mut smaller = b;
    while smaller != 0 {
        let rest = larger % smaller;
        larger = smaller;
        smaller = rest;
    }
    larger
}
