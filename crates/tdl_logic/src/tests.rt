use crate::moment::Moment;
use crate::seen::Seen;
use crate::turn::{Cycle, turned};
use crate::update::update;
use crate::{Logic, next_offset};
use std::alloc::Global;
use std::test::Fail;
use tdl_base::{Kind, Listed, ModeId, ModuleId, NoMemory, Place, Sensed, Text, Us};
use tdl_body::Expr;
use tdl_deploy::Placement;
use tdl_mode::{Mode, Module, PortDef, Program, Switch, Update};

fn named(alloc: Global) -> Result<Text, NoMemory> {
    Text::from_str(alloc, "x")
}

fn byte(alloc: Global) -> Result<PortDef, NoMemory> {
    Ok(PortDef {
        kind: Kind::Byte,
        name: named(alloc)?,
        initial: 0,
    })
}

fn update_at_5(alloc: Global) -> Result<Mode, NoMemory> {
    let update = Update {
        act: 0,
        actuator: 0,
        at: Us(5),
        value: Expr::Load(Place::Sensor(0)),
        guard: None,
    };
    let switch = Switch {
        act: 1,
        at: Us(7),
        target: ModeId(1),
        guard: Some(Expr::Load(Place::Sensor(0))),
    };
    Ok(Mode {
        name: named(alloc)?,
        period: Us(10),
        invocations: Listed::new(alloc),
        updates: Listed::only(alloc, update)?,
        switches: Listed::only(alloc, switch)?,
    })
}

// In its only mode it updates its actuator at 5 with its sensor, and at 7 it switches where the
// sensor is not 0. The period is 10.
fn module(alloc: Global) -> Result<Module, NoMemory> {
    Ok(Module {
        name: named(alloc)?,
        imports: Listed::new(alloc),
        constants: Listed::new(alloc),
        sensors: Listed::only(alloc, byte(alloc)?)?,
        actuators: Listed::only(alloc, byte(alloc)?)?,
        tasks: Listed::new(alloc),
        modes: Listed::only(alloc, update_at_5(alloc)?)?,
        start: ModeId(0),
    })
}

#[test]
fn updates_and_turns(rt: HostRuntime) -> Result<(), Fail> {
    let module = module(rt.alloc())?;
    let rows = [
        (0, 5, 300, 44, (0, 0)),
        (0, 7, 1, 9, (1, 7)),
        (0, 7, 0, 9, (0, 0)),
        (0, 10, 1, 9, (0, 10)),
        (20, 25, -1, -1, (0, 20)),
        (0, 15, 1, 9, (0, 0)),
    ];
    for (base, at, number, want, (mode, next)) in rows {
        let mut sensed = Sensed::new(rt.alloc(), &[1])?;
        let _ = sensed.set(ModuleId(0), 0, number);
        let moment = Moment {
            module: &module,
            mode: ModeId(0),
            base: Us(base),
            at: Us(at),
        };
        let seen = Seen {
            module: ModuleId(0),
            sensed: &sensed,
            tasks: &[],
        };
        let mut actuators = Listed::only(rt.alloc(), 9i64)?;
        update(&moment, &seen, &mut actuators);
        assert_eq!(rt; actuators.as_slice(), [want].as_slice(), "{base} {at}");
        let cycle = Cycle {
            mode: ModeId(mode),
            base: Us(next),
        };
        assert_eq!(rt; turned(&moment, &seen), cycle, "{base} {at}");
    }
    Ok(())
}

#[test]
fn next_offset_of_a_mode(rt: HostRuntime) -> Result<(), Fail> {
    let mode = update_at_5(rt.alloc())?;
    for (above, want) in [(0, 5), (4, 5), (5, 7), (7, 10), (12, 10)] {
        assert_eq!(rt; next_offset(&mode, above), want, "{above}");
    }
    Ok(())
}

#[test]
fn goes_on(rt: HostRuntime) -> Result<(), Fail> {
    let program = Program {
        modules: Listed::new(rt.alloc()),
    };
    let placement = Placement {
        nodes: Listed::new(rt.alloc()),
        bus: None,
    };
    let sensed = Sensed::new(rt.alloc(), &[])?;
    let mut logic = Logic::new(rt.alloc(), &program, &placement)?;
    logic.instant(Us(0), &sensed);
    logic.instant(Us(5), &sensed);
    Ok(())
}
