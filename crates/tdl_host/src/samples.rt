//! A module of one job, with a guard, a driver and two modes.
ghost use Rattle.std.specs.Prelude.{◌≡◌, false, All, length, IfOk};
ghost use Rattle.tdl_stack.specs.Lawful.{IsLawful};
ghost use Rattle.tdl_stack.specs.Lawful.{shape_of};
ghost use Rattle.tdl_image.specs.declared.hosted.ImageWindow.{ImageWindow};
ghost use Rattle.tdl_node.specs.Machines.{IsOneHost};
ghost use Rattle.tdl_host.specs.CheckedCodes.{IsCheckedCode, IsCheckedTask, HasCheckedCodes, HasCheckedModules};

use std::alloc::Global;
use tdl_base::{BinOp, Kind, Listed, ModuleId, NoMemory, Place, PortKey, TaskId, Text};
use tdl_ecode::{Block, EInstr};
use tdl_image::{
    Bundle, CallEntry, Driver, Hosted, Image, ImageWindow, Initial, ReleaseEntry, TaskTable,
};
use tdl_stack::{Code, Instr, Shape, check_code};

const OUTPUT: PortKey = PortKey {
    module: ModuleId(0),
    task: TaskId(0),
    output: 0,
};

fn list<T: Copy>(alloc: Global, items: &[T]) -> Result<Listed<T>, NoMemory>
    ensures { IfOk result (λ list. list ≡ items.now) }
{
    let items = Vec::from_slice(alloc, items)?;
    Ok(Listed::from_vec(items))
}

// A code that passes its check under a shape; one that does not pass is no memory.
fn code(alloc: Global, shape: &Shape, instrs: &[Instr]) -> Result<Code, NoMemory>
    ensures { IfOk result (λ code. IsLawful code.instrs (shape_of shape.now)) }
{
    if !check_code(alloc, instrs, shape)? {
        return Err(NoMemory);
    }
    Ok(Code {
        instrs: list(alloc, instrs)?,
    })
}

fn port(alloc: Global, kind: Kind) -> Result<Listed<Initial>, NoMemory>
    ensures { IfOk result (λ ports. length ports ≡ 1) }
{
    let port = Initial {
        kind,
        name: Text::from_str(alloc, "p")?,
        initial: 1,
    };
    Listed::only(alloc, port)
}

const BLOCKS: [(u8, &[EInstr]); 5] = [
    (3, &[EInstr::Mode(0), EInstr::Future(0, 1), EInstr::Return]),
    (
        4,
        &[EInstr::Release(0), EInstr::Future(5, 2), EInstr::Return],
    ),
    (1, &[EInstr::End(0), EInstr::Future(0, 3), EInstr::Return]),
    (
        2,
        &[
            EInstr::If(0, 2),
            EInstr::Call(0),
            EInstr::Future(0, 4),
            EInstr::Return,
        ],
    ),
    (
        3,
        &[
            EInstr::Mode(1),
            EInstr::Jump(3),
            EInstr::Mode(0),
            EInstr::Future(5, 0),
            EInstr::Return,
        ],
    ),
];

fn blocks(alloc: Global) -> Result<Listed<Block>, NoMemory> {
    let mut blocks = Listed::new(alloc);
    for (phase, code) in BLOCKS {
        blocks.push(Block {
            phase,
            code: list(alloc, code)?,
        })?;
    }
    Ok(blocks)
}

fn table(alloc: Global) -> Result<TaskTable, NoMemory>
    ensures checked { IfOk result IsCheckedTask }
    ensures inputs { IfOk result (λ table. length table.inputs ≡ 1) }
{
    let shape = Shape {
        cells: 3,
        sensors: 0,
        keys: &[],
        expression: false,
    };
    let sum = [
        Instr::Load(Place::Cell(1)),
        Instr::Load(Place::Cell(0)),
        Instr::Bin(BinOp::Add),
        Instr::Store(1),
    ];
    Ok(TaskTable {
        name: Text::from_str(alloc, "inc")?,
        worst: 2,
        inputs: Listed::only(alloc, Kind::Int)?,
        outputs: port(alloc, Kind::Int)?,
        locals: Listed::only(alloc, Kind::Int)?,
        body: code(alloc, &shape, &sum)?,
    })
}

fn load(alloc: Global, place: Place) -> Result<Code, NoMemory>
    ensures { IfOk result IsCheckedCode }
{
    let shape = Shape {
        cells: 0,
        sensors: 1,
        keys: &[OUTPUT],
        expression: true,
    };
    code(alloc, &shape, &[Instr::Load(place)])
}

/// A module whose job has a window of so many microseconds from 1 on, an actuator that takes the
/// output where the sensor is not 0, and a second mode, from which it begins again.
fn module(alloc: Global, length: u32) -> Result<Hosted, NoMemory>
    ensures off_bus { IfOk result (λ host. All (λ (w : ImageWindow). w.bus ≡ false) host.windows) }
    ensures codes { IfOk result HasCheckedCodes }
{
    let call = CallEntry {
        task: 0,
        args: Listed::only(alloc, load(alloc, Place::Sensor(0))?)?,
    };
    let release = ReleaseEntry {
        mode: 0,
        invocation: 1,
        call: 0,
    };
    let driver = Driver {
        actuator: 0,
        value: load(alloc, Place::Port(OUTPUT))?,
    };
    let window = ImageWindow {
        bus: false,
        mode: 0,
        invocation: 1,
        offset: 1,
        length,
    };
    Ok(Hosted {
        number: ModuleId(0),
        name: Text::from_str(alloc, "M")?,
        sensors: Listed::new(alloc),
        actuators: port(alloc, Kind::Byte)?,
        tasks: Listed::only(alloc, table(alloc)?)?,
        modes: Listed::new(alloc),
        calls: Listed::only(alloc, call)?,
        releases: Listed::only(alloc, release)?,
        guards: Listed::only(alloc, load(alloc, Place::Sensor(0))?)?,
        drivers: Listed::only(alloc, driver)?,
        windows: Listed::only(alloc, window)?,
        blocks: blocks(alloc)?,
        entry: 0,
    })
}

/// The bundle of a node that hosts such a module alone, and does so many instructions an instant.
pub fn alone(alloc: Global, declared: u32, length: u32) -> Result<Bundle, NoMemory>
    ensures one_host { IfOk result IsOneHost }
    ensures codes { IfOk result HasCheckedModules }
{
    let image = Image {
        node: Text::from_str(alloc, "n1")?,
        declared,
        hosted: Listed::only(alloc, module(alloc, length)?)?,
        stubs: Listed::new(alloc),
    };
    Ok(Bundle {
        images: Listed::only(alloc, image)?,
    })
}
