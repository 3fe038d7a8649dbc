ghost use Rattle.std.specs.Prelude.{◌≤◌, length, IfOk};
ghost use Rattle.tdl_place.specs.declared.limits.TheConstants.{MODULES};

use crate::{PlaceError, one_node, read_place};
use sqlite_items::Items;
use std::alloc::Global;
use std::test::Fail;
use tdl_base::{Listed, ModeId, ModuleId, NoMemory, TaskId, Text, Us};
use tdl_body::Body;
use tdl_deploy::BusCost;
use tdl_lines::Fault;
use tdl_mode::{Invocation, Mode, Module, Program, Task};

// A module without tasks and modes.
fn bare(alloc: Global, name: &str, imports: Listed<ModuleId>) -> Result<Module, NoMemory> {
    Ok(Module {
        name: Text::from_str(alloc, name)?,
        imports,
        constants: Listed::new(alloc),
        sensors: Listed::new(alloc),
        actuators: Listed::new(alloc),
        tasks: Listed::new(alloc),
        modes: Listed::new(alloc),
        start: ModeId(0),
    })
}

// The public task inc.
fn inc(alloc: Global) -> Result<Task, NoMemory> {
    Ok(Task {
        name: Text::from_str(alloc, "inc")?,
        public: true,
        worst: Us(200),
        inputs: Listed::new(alloc),
        outputs: Listed::new(alloc),
        locals: Listed::new(alloc),
        body: Body {
            stmts: Items::new(alloc),
        },
    })
}

// A mode that invokes the first task.
fn main_mode(alloc: Global) -> Result<Mode, NoMemory> {
    let invocation = Invocation {
        act: 0,
        task: TaskId(0),
        s: Us(0),
        e: Us(5_000),
        guard: None,
        args: Listed::new(alloc),
    };
    Ok(Mode {
        name: Text::from_str(alloc, "main")?,
        period: Us(5_000),
        invocations: Listed::only(alloc, invocation)?,
        updates: Listed::new(alloc),
        switches: Listed::new(alloc),
    })
}

// P, which invokes its public task, and C, which imports P.
fn program(alloc: Global) -> Result<Program, NoMemory>
    ensures { IfOk result (λ program. length program.modules ≤ MODULES) }
{
    let mut counter = bare(alloc, "P", Listed::new(alloc))?;
    counter.tasks.push(inc(alloc)?)?;
    counter.modes.push(main_mode(alloc)?)?;
    let mut modules = Listed::only(alloc, counter)?;
    modules.push(bare(alloc, "C", Listed::only(alloc, ModuleId(0))?)?)?;
    Ok(Program { modules })
}

#[test]
fn reads_two_nodes(rt: HostRuntime) -> Result<(), Fail> {
    let program = program(rt.alloc())?;
    let text = b"# two nodes\r\nbus 20 1000000\nnode local C\n\tnode n2 P\nnode n3".as_slice();
    let read = read_place(rt.alloc(), text, &program)?;
    let cost = BusCost {
        overhead: 20,
        per_byte: 1_000_000,
    };
    assert_eq!(rt; read.bus, Some(cost));
    assert_eq!(rt; read.nodes.len(), 3);
    let alone = one_node(rt.alloc(), &program)?;
    assert_eq!(rt; alone.nodes.len(), 1);
    Ok(())
}

#[test]
fn tells_the_first_fault(rt: HostRuntime) -> Result<(), Fail> {
    let program = program(rt.alloc())?;
    let rows = [
        (b"".as_slice(), 1, 4),
        (b"node n1 P\nnode n2 C".as_slice(), 3, 6),
        (b"node n1 P C\nbus 1 1\nbus 1 1\n".as_slice(), 3, 1),
        (b"node _ P C".as_slice(), 1, 1),
        (b"bus 0 1000001\nnode n1 P C".as_slice(), 1, 1),
        (b"node n1 P C P Q".as_slice(), 1, 2),
        (b"node n1 P\nnode n1 C P".as_slice(), 2, 3),
        (b"node n1 P\nnode n1 C".as_slice(), 2, 5),
    ];
    for (text, line, rule) in rows {
        let fault = read_place(rt.alloc(), text, &program).err();
        let first = PlaceError::BadPlacement(Fault { line, rule });
        assert_eq!(rt; fault, Some(first), "{text:?}");
    }
    Ok(())
}
