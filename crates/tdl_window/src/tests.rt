ghost use Rattle.std.specs.Prelude.{IfOk};
ghost use Rattle.tdl_window.specs.Samples.{InvokesFirst, HasCall, HasTwo, IsOfTwo};

use crate::{SchedAt, TestError, test};
use sqlite_items::Items;
use std::alloc::Global;
use std::test::Fail;
use tdl_base::{Listed, ModeId, ModuleId, NoMemory, TaskId, Text, Us};
use tdl_body::Body;
use tdl_deploy::{BusCost, PlacedNode, Placement, Resource, Schedule, Window};
use tdl_mode::{Invocation, Mode, Module, Program, Task};

// A public task that takes 2 us.
fn task(alloc: Global) -> Result<Task, NoMemory> {
    Ok(Task {
        name: Text::from_str(alloc, "t")?,
        public: true,
        worst: Us(2),
        inputs: Listed::new(alloc),
        outputs: Listed::new(alloc),
        locals: Listed::new(alloc),
        body: Body {
            stmts: Items::new(alloc),
        },
    })
}

// A mode that invokes the first task over its whole period.
fn mode(alloc: Global, period: u64) -> Result<Mode, NoMemory>
    ensures { IfOk result InvokesFirst }
{
    let invocation = Invocation {
        act: 0,
        task: TaskId(0),
        s: Us(0),
        e: Us(period),
        guard: None,
        args: Listed::new(alloc),
    };
    Ok(Mode {
        name: Text::from_str(alloc, "main")?,
        period: Us(period),
        invocations: Listed::only(alloc, invocation)?,
        updates: Listed::new(alloc),
        switches: Listed::new(alloc),
    })
}

// A module with one task, which its one mode invokes.
fn module(
    alloc: Global,
    name: &str,
    period: u64,
    imports: Listed<ModuleId>,
) -> Result<Module, NoMemory>
    ensures { IfOk result HasCall }
{
    Ok(Module {
        name: Text::from_str(alloc, name)?,
        imports,
        constants: Listed::new(alloc),
        sensors: Listed::new(alloc),
        actuators: Listed::new(alloc),
        tasks: Listed::only(alloc, task(alloc)?)?,
        modes: Listed::only(alloc, mode(alloc, period)?)?,
        start: ModeId(0),
    })
}

// P with a period of 8 us, and C with one of 4 us, which imports P.
fn program(alloc: Global) -> Result<Program, NoMemory>
    ensures { IfOk result HasTwo }
{
    let exporter = module(alloc, "P", 8, Listed::new(alloc))?;
    let importer = module(alloc, "C", 4, Listed::only(alloc, ModuleId(0))?)?;
    let mut modules = Listed::only(alloc, exporter)?;
    modules.push(importer)?;
    Ok(Program { modules })
}

// A node of these modules.
fn node(alloc: Global, name: &str, modules: Listed<ModuleId>) -> Result<PlacedNode, NoMemory> {
    Ok(PlacedNode {
        name: Text::from_str(alloc, name)?,
        modules,
    })
}

// P and C on two nodes or on one, and a bus on which a frame takes 1 us.
fn placement(alloc: Global, is_apart: bool) -> Result<Placement, NoMemory> {
    let mut first = Listed::only(alloc, ModuleId(0))?;
    let mut second = Listed::new(alloc);
    if is_apart {
        second.push(ModuleId(1))?;
    } else {
        first.push(ModuleId(1))?;
    }
    let mut nodes = Listed::only(alloc, node(alloc, "n1", first)?)?;
    nodes.push(node(alloc, "n2", second)?)?;
    Ok(Placement {
        nodes,
        bus: Some(BusCost {
            overhead: 1,
            per_byte: 0,
        }),
    })
}

// A window of P or of C, by its offset and its length.
#[derive(Clone, Copy)]
struct Row {
    resource: Resource,
    is_importer: bool,
    offset: u32,
    length: u32,
}

const fn cpu(is_importer: bool, offset: u32, length: u32) -> Row {
    Row {
        resource: Resource::Cpu,
        is_importer,
        offset,
        length,
    }
}

const fn bus(offset: u32, length: u32) -> Row {
    Row {
        resource: Resource::Bus,
        is_importer: false,
        offset,
        length,
    }
}

fn window(row: Row) -> Window
    ensures { IsOfTwo result }
{
    Window {
        resource: row.resource,
        module: ModuleId(u16::from(row.is_importer)),
        mode: ModeId(0),
        invocation: 1,
        offset: row.offset,
        length: row.length,
    }
}

// What is told of three windows on two nodes or on one.
fn told(alloc: Global, is_apart: bool, rows: [Row; 3]) -> Result<Option<(u8, SchedAt)>, NoMemory> {
    let program = program(alloc)?;
    let placement = placement(alloc, is_apart)?;
    let [first, second, third] = rows;
    let mut windows = Listed::only(alloc, window(first))?;
    windows.push(window(second))?;
    windows.push(window(third))?;
    match test(alloc, &program, &placement, Schedule { windows }) {
        Ok(_) => Ok(None),
        Err(TestError::BadSchedule { rule, at }) => Ok(Some((rule, at))),
        Err(TestError::NoMemory) => Err(NoMemory),
    }
}

#[test]
fn passes_on_one_node_and_on_two(rt: HostRuntime) -> Result<(), Fail> {
    let apart = [cpu(false, 0, 2), bus(2, 1), cpu(true, 0, 2)];
    assert_eq!(rt; told(rt.alloc(), true, apart)?, None);
    let together = [cpu(false, 0, 1), cpu(false, 5, 1), cpu(true, 2, 2)];
    assert_eq!(rt; told(rt.alloc(), false, together)?, None);
    Ok(())
}

#[test]
fn tells_the_first_fault(rt: HostRuntime) -> Result<(), Fail> {
    let exporter = SchedAt::Invocation(ModuleId(0), ModeId(0), 1);
    let importer = SchedAt::Invocation(ModuleId(1), ModeId(0), 1);
    let long = cpu(false, 0, 2);
    let own = cpu(true, 2, 2);
    let rows = [
        (false, [long, cpu(false, 2, 0), own], 2, SchedAt::Window(2)),
        (
            true,
            [cpu(false, 2, 2), bus(3, 1), own],
            3,
            SchedAt::Window(1),
        ),
        (
            false,
            [long, cpu(false, 2, 1), cpu(false, 3, 1)],
            4,
            importer,
        ),
        (false, [long, bus(2, 1), own], 5, exporter),
        (true, [long, bus(7, 2), own], 6, SchedAt::Window(2)),
        (false, [long, cpu(false, 1, 1), own], 7, SchedAt::Pair(1, 2)),
        (
            false,
            [cpu(false, 5, 2), cpu(false, 0, 1), own],
            8,
            SchedAt::Pair(1, 3),
        ),
    ];
    for (is_apart, windows, rule, at) in rows {
        let fault = told(rt.alloc(), is_apart, windows)?;
        assert_eq!(rt; fault, Some((rule, at)), "{rule}");
    }
    Ok(())
}
