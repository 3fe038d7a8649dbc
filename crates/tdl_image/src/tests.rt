ghost use Rattle.std.specs.Prelude.{◌≡◌, [], ◌∷◌, IfOk};
ghost use Rattle.tdl_image.specs.Example.{output, task, call, host, counting};

use crate::{
    Bundle, COUNTING_BYTES, CallEntry, Hosted, Image, ImageWindow, Initial, KindName, ReleaseEntry,
    TaskTable, write_bundle,
};
use std::alloc::Global;
use std::test::Fail;
use tdl_base::{BinOp, Kind, Listed, ModuleId, NoMemory, Place, Text};
use tdl_ecode::{Block, EInstr};
use tdl_stack::{Code, Instr};

fn one<T: Drop>(alloc: Global, item: T) -> Result<Listed<T>, NoMemory>
    ensures { IfOk result (λ items. items ≡ item ∷ []) }
{
    let mut items = Listed::new(alloc);
    items.push(item)?;
    Ok(items)
}

fn code(alloc: Global, instrs: &[Instr]) -> Result<Code, NoMemory>
    ensures { IfOk result (λ code. code ≡ record { instrs = instrs.now }) }
{
    let instrs = Vec::from_slice(alloc, instrs)?;
    Ok(Code {
        instrs: Listed::from_vec(instrs),
    })
}

fn block(alloc: Global, phase: u8, code: &[EInstr]) -> Result<Block, NoMemory>
    ensures { IfOk result (λ block. block ≡ record { phase = phase; code = code.now }) }
{
    let code = Vec::from_slice(alloc, code)?;
    Ok(Block {
        phase,
        code: Listed::from_vec(code),
    })
}

fn counting_output(alloc: Global) -> Result<Initial, NoMemory>
    ensures { IfOk result (λ made. made ≡ output) }
{
    Ok(Initial {
        kind: Kind::Int,
        name: Text::from_str(alloc, "o")?,
        initial: 10,
    })
}

fn counting_task(alloc: Global) -> Result<TaskTable, NoMemory>
    ensures { IfOk result (λ made. made ≡ task) }
{
    let body = [
        Instr::Load(Place::Cell(1)),
        Instr::Load(Place::Cell(0)),
        Instr::Bin(BinOp::Add),
        Instr::Store(1),
    ];
    Ok(TaskTable {
        name: Text::from_str(alloc, "inc")?,
        worst: 200,
        inputs: one(alloc, Kind::Int)?,
        outputs: one(alloc, counting_output(alloc)?)?,
        locals: Listed::new(alloc),
        body: code(alloc, &body)?,
    })
}

fn counting_call(alloc: Global) -> Result<CallEntry, NoMemory>
    ensures { IfOk result (λ made. made ≡ call) }
{
    let argument = code(alloc, &[Instr::Load(Place::Sensor(0))])?;
    Ok(CallEntry {
        task: 0,
        args: one(alloc, argument)?,
    })
}

fn counting_blocks(alloc: Global) -> Result<Listed<Block>, NoMemory>
    ensures { IfOk result (λ made. made ≡ host.blocks) }
{
    let start = [EInstr::Mode(0), EInstr::Future(0, 1), EInstr::Return];
    let release = [EInstr::Release(0), EInstr::Future(5000, 2), EInstr::Return];
    let end = [EInstr::End(0), EInstr::Future(0, 3), EInstr::Return];
    let update = [EInstr::Future(0, 4), EInstr::Return];
    let mut blocks = Listed::new(alloc);
    blocks.push(block(alloc, 3, &start)?)?;
    blocks.push(block(alloc, 4, &release)?)?;
    blocks.push(block(alloc, 1, &end)?)?;
    blocks.push(block(alloc, 2, &update)?)?;
    blocks.push(block(alloc, 3, &start)?)?;
    Ok(blocks)
}

fn counting_host(alloc: Global) -> Result<Hosted, NoMemory>
    ensures { IfOk result (λ made. made ≡ host) }
{
    let sensor = KindName {
        kind: Kind::Int,
        name: Text::from_str(alloc, "s")?,
    };
    let release = ReleaseEntry {
        mode: 0,
        invocation: 1,
        call: 0,
    };
    let window = ImageWindow {
        bus: false,
        mode: 0,
        invocation: 1,
        offset: 0,
        length: 200,
    };
    Ok(Hosted {
        number: ModuleId(0),
        name: Text::from_str(alloc, "P")?,
        sensors: one(alloc, sensor)?,
        actuators: Listed::new(alloc),
        tasks: one(alloc, counting_task(alloc)?)?,
        modes: one(alloc, Text::from_str(alloc, "main")?)?,
        calls: one(alloc, counting_call(alloc)?)?,
        releases: one(alloc, release)?,
        guards: Listed::new(alloc),
        drivers: Listed::new(alloc),
        windows: one(alloc, window)?,
        blocks: counting_blocks(alloc)?,
        entry: 0,
    })
}

fn counting_bundle(alloc: Global) -> Result<Bundle, NoMemory>
    ensures { IfOk result (λ made. made ≡ counting) }
{
    let image = Image {
        node: Text::from_str(alloc, "n1")?,
        declared: 11,
        hosted: one(alloc, counting_host(alloc)?)?,
        stubs: Listed::new(alloc),
    };
    Ok(Bundle {
        images: one(alloc, image)?,
    })
}

#[test]
fn writes_the_example(rt: HostRuntime) -> Result<(), Fail> {
    let bundle = counting_bundle(rt.alloc())?;
    let bytes = write_bundle(rt.alloc(), &bundle)?;
    assert_eq!(rt; bytes.as_slice(), COUNTING_BYTES.as_slice());
    Ok(())
}
