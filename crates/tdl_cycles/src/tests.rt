use crate::{grain, offsets};
use std::alloc::Global;
use std::test::Fail;
use tdl_base::{Listed, ModeId, NoMemory, TaskId, Text, Us};
use tdl_body::Expr;
use tdl_mode::{Invocation, Mode, Module, Switch, Update};

fn named(alloc: Global) -> Result<Text, NoMemory> {
    Text::from_str(alloc, "x")
}

fn invocation(alloc: Global, s: u64, e: u64) -> Invocation {
    Invocation {
        act: 0,
        task: TaskId(0),
        s: Us(s),
        e: Us(e),
        guard: None,
        args: Listed::new(alloc),
    }
}

fn update(at: u64) -> Update {
    Update {
        act: 1,
        actuator: 0,
        at: Us(at),
        value: Expr::Const(0),
        guard: None,
    }
}

fn switch(at: u64) -> Switch {
    Switch {
        act: 2,
        at: Us(at),
        target: ModeId(0),
        guard: None,
    }
}

// A mode with nothing in it but a switch.
fn switched(alloc: Global, period: u64, at: u64) -> Result<Mode, NoMemory> {
    Ok(Mode {
        name: named(alloc)?,
        period: Us(period),
        invocations: Listed::new(alloc),
        updates: Listed::new(alloc),
        switches: Listed::only(alloc, switch(at))?,
    })
}

#[test]
fn offsets_ascend(rt: HostRuntime) -> Result<(), Fail> {
    let mut mode = switched(rt.alloc(), 10_000, 9000)?;
    for (s, e) in [(5000, 10_000), (0, 5000), (2000, 4000)] {
        mode.invocations.push(invocation(rt.alloc(), s, e))?;
    }
    for at in [10_000, 7000] {
        mode.updates.push(update(at))?;
    }
    let offsets = offsets(rt.alloc(), &mode)?;
    let want = [0, 2000, 4000, 5000, 7000, 9000, 10_000].map(Us);
    assert_eq!(rt; offsets.as_slice(), want.as_slice());
    Ok(())
}

#[test]
fn grain_of_two_modes(rt: HostRuntime) -> Result<(), Fail> {
    let mut module = Module {
        name: named(rt.alloc())?,
        imports: Listed::new(rt.alloc()),
        constants: Listed::new(rt.alloc()),
        sensors: Listed::new(rt.alloc()),
        actuators: Listed::new(rt.alloc()),
        tasks: Listed::new(rt.alloc()),
        modes: Listed::new(rt.alloc()),
        start: ModeId(0),
    };
    assert_eq!(rt; grain(&module), Us(0));
    for (period, at, want) in [(12_000, 6000, 6000), (9000, 4500, 1500)] {
        module.modes.push(switched(rt.alloc(), period, at)?)?;
        assert_eq!(rt; grain(&module), Us(want), "{period} {at}");
    }
    Ok(())
}
