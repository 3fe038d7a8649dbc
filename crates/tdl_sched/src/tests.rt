use crate::{SchedError, print_sched, read_sched};
use std::alloc::Global;
use std::test::Fail;
use tdl_base::{Listed, ModeId, ModuleId, NoMemory, TaskId, Text, Us};
use tdl_deploy::{Resource, Window};
use tdl_lines::Fault;
use tdl_mode::{Invocation, Mode, Module, Program};

// A mode with two invocations.
fn mode(alloc: Global, name: &str) -> Result<Mode, NoMemory> {
    let mut invocations = Listed::new(alloc);
    for act in 0..2u16 {
        invocations.push(Invocation {
            act,
            task: TaskId(act),
            s: Us(0),
            e: Us(100),
            guard: None,
            args: Listed::new(alloc),
        })?;
    }
    Ok(Mode {
        name: Text::from_str(alloc, name)?,
        period: Us(100),
        invocations,
        updates: Listed::new(alloc),
        switches: Listed::new(alloc),
    })
}

fn module(alloc: Global, name: &str, modes: Listed<Mode>) -> Result<Module, NoMemory> {
    Ok(Module {
        name: Text::from_str(alloc, name)?,
        imports: Listed::new(alloc),
        constants: Listed::new(alloc),
        sensors: Listed::new(alloc),
        actuators: Listed::new(alloc),
        tasks: Listed::new(alloc),
        modes,
        start: ModeId(0),
    })
}

// Module P with the mode idle, Q with rest and run, and a second P with fast.
fn program(alloc: Global) -> Result<Program, NoMemory> {
    let idle = Listed::only(alloc, mode(alloc, "idle")?)?;
    let mut two = Listed::only(alloc, mode(alloc, "rest")?)?;
    two.push(mode(alloc, "run")?)?;
    let fast = Listed::only(alloc, mode(alloc, "fast")?)?;
    let mut modules = Listed::only(alloc, module(alloc, "P", idle)?)?;
    modules.push(module(alloc, "Q", two)?)?;
    modules.push(module(alloc, "P", fast)?)?;
    Ok(Program { modules })
}

#[test]
fn prints_what_it_reads(rt: HostRuntime) -> Result<(), Fail> {
    let program = program(rt.alloc())?;
    let text = b"# a note\r\n\tcpu P  idle 1 0 007\n\nbus Q run 2 4294967295 3";
    let read = read_sched(rt.alloc(), text.as_slice(), &program)?;
    let last = Window {
        resource: Resource::Bus,
        module: ModuleId(1),
        mode: ModeId(1),
        invocation: 2,
        offset: 4_294_967_295,
        length: 3,
    };
    assert_eq!(rt; read.windows.len(), 2);
    assert_eq!(rt; read.windows.get(1).copied(), Some(last));
    let printed = print_sched(rt.alloc(), &read, &program)?;
    let wanted = b"cpu P idle 1 0 7\nbus Q run 2 4294967295 3\n";
    assert_eq!(rt; printed.as_slice(), wanted.as_slice());
    Ok(())
}

#[test]
fn tells_the_first_fault(rt: HostRuntime) -> Result<(), Fail> {
    let program = program(rt.alloc())?;
    let rows = [
        (b"cpu P idle 1 0".as_slice(), 1, 0),
        (b"\ncpu P idle 1 0 5 5".as_slice(), 2, 0),
        (b"# a note\ngpu P idle 1 0 5".as_slice(), 2, 0),
        (b"cpu P idle 1 0 4294967296".as_slice(), 1, 0),
        (b"cpu R idle 1 4294967296 5".as_slice(), 1, 0),
        (b"cpu P idle 00000000000000000001 0 5".as_slice(), 1, 0),
        (b"cpu P idle 1 0 -5".as_slice(), 1, 0),
        (b"cpu P fast 1 0 5".as_slice(), 1, 1),
        (b"cpu Q idle 1 0 5\nbus".as_slice(), 1, 1),
        (b"cpu P idle 2 0 5\ncpu P idle 3 0 5".as_slice(), 2, 1),
        (b"cpu P idle 0 0 5".as_slice(), 1, 1),
        (b"cpu P idle 65537 0 5".as_slice(), 1, 1),
    ];
    for (text, line, rule) in rows {
        let fault = read_sched(rt.alloc(), text, &program).err();
        let first = SchedError::BadSchedule(Fault { line, rule });
        assert_eq!(rt; fault, Some(first), "{text:?}");
    }
    Ok(())
}
