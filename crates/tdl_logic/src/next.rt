ghost use Rattle.std.specs.Prelude.{◌≡◌, nat_lt, min, map, if◌then◌else◌};
ghost use Rattle.tdl_mode.specs.Offsets.{least_above, next_offset};

use tdl_mode::{Invocation, Mode, Switch, Update};

fn better(above: u64, offset: u64, best: u64) -> u64
    ensures { result ≡ (if nat_lt above offset then min offset best else best) }
{
    if above < offset && offset < best {
        return offset;
    }
    best
}

fn least_start(invocations: &[Invocation], above: u64, first: u64) -> u64
    ensures { result ≡ least_above above (map (λ i. i.s.0) invocations.now) first }
{
    let mut best = first;
    for invocation in invocations {
        best = better(above, invocation.s.0, best);
    }
    best
}

fn least_end(invocations: &[Invocation], above: u64, first: u64) -> u64
    ensures { result ≡ least_above above (map (λ i. i.e.0) invocations.now) first }
{
    let mut best = first;
    for invocation in invocations {
        best = better(above, invocation.e.0, best);
    }
    best
}

fn least_update(updates: &[Update], above: u64, first: u64) -> u64
    ensures { result ≡ least_above above (map (λ u. u.at.0) updates.now) first }
{
    let mut best = first;
    for update in updates {
        best = better(above, update.at.0, best);
    }
    best
}

fn least_switch(switches: &[Switch], above: u64, first: u64) -> u64
    ensures { result ≡ least_above above (map (λ s. s.at.0) switches.now) first }
{
    let mut best = first;
    for switch in switches {
        best = better(above, switch.at.0, best);
    }
    best
}

/// The least offset of a mode above an offset, in microseconds from the beginning of its cycle; its
/// period where there is none.
pub fn next_offset(mode: &Mode, above: u64) -> u64
    ensures { result ≡ next_offset mode.now above }
{
    let period = mode.period.0;
    let start = least_start(mode.invocations.as_slice(), above, period);
    let end = least_end(mode.invocations.as_slice(), above, start);
    let update = least_update(mode.updates.as_slice(), above, end);
    least_switch(mode.switches.as_slice(), above, update)
}
