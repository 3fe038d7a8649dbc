ghost use Rattle.std.specs.Prelude.{◌≡◌, ◌++◌, map, IfOk, OnOk};
ghost use Rattle.tdl_mode.specs.Offsets.{offsets};
ghost use Rattle.tdl_cycles.specs.Instants.{instants_of};

use std::alloc::Global;
use tdl_base::{Listed, NoMemory, Us};
use tdl_mode::{Invocation, Mode, Switch, Update};

/// The offsets of a mode, ascending and each once, in microseconds from the beginning of its
/// cycle: 0, its period, and where an invocation starts or ends, or an update or a switch stands.
pub fn offsets(alloc: Global, mode: &Mode) -> Result<Listed<Us>, NoMemory>
    ensures { IfOk result (λ list. map (λ o. o.0) list ≡ offsets mode.now) }
{
    let all = gathered(alloc, mode)?;
    let mut offsets = all.into_vec();
    offsets.sort_unstable();
    offsets.dedup();
    Ok(Listed::from_vec(offsets))
}

// The offsets in order of the text.
fn gathered(alloc: Global, mode: &Mode) -> Result<Listed<Us>, NoMemory>
    ensures { IfOk result (λ all. all ≡ instants_of mode.now) }
{
    let mut all = Listed::new(alloc);
    all.push(Us(0))?;
    all.push(mode.period)?;
    put_starts(mode.invocations.as_slice(), &mut all)?;
    put_ends(mode.invocations.as_slice(), &mut all)?;
    put_updates(mode.updates.as_slice(), &mut all)?;
    put_switches(mode.switches.as_slice(), &mut all)?;
    Ok(all)
}

fn put_starts(invocations: &[Invocation], into: &mut Listed<Us>) -> Result<(), NoMemory>
    ensures { OnOk result (into.new ≡ into.old ++ map (λ i. i.s) invocations.now) }
{
    for invocation in invocations {
        into.push(invocation.s)?;
    }
    Ok(())
}

fn put_ends(invocations: &[Invocation], into: &mut Listed<Us>) -> Result<(), NoMemory>
    ensures { OnOk result (into.new ≡ into.old ++ map (λ i. i.e) invocations.now) }
{
    for invocation in invocations {
        into.push(invocation.e)?;
    }
    Ok(())
}

fn put_updates(updates: &[Update], into: &mut Listed<Us>) -> Result<(), NoMemory>
    ensures { OnOk result (into.new ≡ into.old ++ map (λ u. u.at) updates.now) }
{
    for update in updates {
        into.push(update.at)?;
    }
    Ok(())
}

fn put_switches(switches: &[Switch], into: &mut Listed<Us>) -> Result<(), NoMemory>
    ensures { OnOk result (into.new ≡ into.old ++ map (λ s. s.at) switches.now) }
{
    for switch in switches {
        into.push(switch.at)?;
    }
    Ok(())
}
