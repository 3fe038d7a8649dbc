ghost use Rattle.std.specs.Prelude.{◌≡◌, ◌≤◌, [], ◌∷◌, pos, IfOk};
ghost use Rattle.tdl_make.specs.PlainBundle.{add_code, sensor_code, plain_blocks, plain_table};
ghost use Rattle.tdl_plain.specs.PlainProgram.{period_us};
ghost use Rattle.tdl_plain.specs.Runnable.{IsRunnable};

use std::alloc::Global;
use tdl_base::{BinOp, Kind, Listed, NoMemory, Place, Text};
use tdl_ecode::{Block, EInstr};
use tdl_image::{Initial, KindName, TaskTable};
use tdl_plain::Form;
use tdl_stack::{Code, Instr};

fn code(alloc: Global, instrs: &[Instr]) -> Result<Code, NoMemory>
    ensures { IfOk result (λ code. code ≡ record { instrs = instrs.now }) }
{
    let instrs = Vec::from_slice(alloc, instrs)?;
    Ok(Code {
        instrs: Listed::from_vec(instrs),
    })
}

fn block(alloc: Global, phase: u8, code: &[EInstr]) -> Result<Block, NoMemory>
    ensures { IfOk result (λ block. block ≡ record { phase = phase; code = code.now }) }
{
    let code = Vec::from_slice(alloc, code)?;
    Ok(Block {
        phase,
        code: Listed::from_vec(code),
    })
}

fn body(alloc: Global) -> Result<Code, NoMemory>
    ensures { IfOk result (λ body. body ≡ add_code) }
{
    let sum = [
        Instr::Load(Place::Cell(1)),
        Instr::Load(Place::Cell(0)),
        Instr::Bin(BinOp::Add),
        Instr::Store(1),
    ];
    code(alloc, &sum)
}

/// The sensor's number, as the task's argument.
pub(crate) fn argument(alloc: Global) -> Result<Code, NoMemory>
    ensures { IfOk result (λ argument. argument ≡ sensor_code) }
{
    code(alloc, &[Instr::Load(Place::Sensor(0))])
}

/// The sensor of the module.
pub(crate) fn sensor(alloc: Global, name: &Text) -> Result<KindName, NoMemory>
    ensures { IfOk result (λ sensor. sensor ≡ record { kind = Kind.Int; name = name.now }) }
{
    Ok(KindName {
        kind: Kind::Int,
        name: Text::from_str(alloc, name.as_str())?,
    })
}

/// The table of the task.
pub(crate) fn table(alloc: Global, form: &Form) -> Result<TaskTable, NoMemory>
    requires { IsRunnable form.now }
    ensures { IfOk result (λ table. table ≡ plain_table form.now) }
{
    let output = Initial {
        kind: Kind::Int,
        name: Text::from_str(alloc, form.output.as_str())?,
        initial: form.initial as i64,
    };
    Ok(TaskTable {
        name: Text::from_str(alloc, form.task.as_str())?,
        worst: form.worst as u32,
        inputs: Listed::only(alloc, Kind::Int)?,
        outputs: Listed::only(alloc, output)?,
        locals: Listed::new(alloc),
        body: body(alloc)?,
    })
}

/// The blocks of the module, its cycle being so many microseconds.
pub(crate) fn blocks(alloc: Global, form: &Form) -> Result<Listed<Block>, NoMemory>
    requires { IsRunnable form.now }
    ensures { IfOk result (λ blocks. blocks ≡ plain_blocks form.now) }
{
    let period = (form.period * 1000) as u32;
    let enter = [EInstr::Mode(0), EInstr::Future(0, 1), EInstr::Return];
    let start = [
        EInstr::Release(0),
        EInstr::Future(period, 2),
        EInstr::Return,
    ];
    let end = [EInstr::End(0), EInstr::Future(0, 3), EInstr::Return];
    let mut blocks = Listed::new(alloc);
    blocks.push(block(alloc, 3, &enter)?)?;
    blocks.push(block(alloc, 4, &start)?)?;
    blocks.push(block(alloc, 1, &end)?)?;
    blocks.push(block(alloc, 2, &[EInstr::Future(0, 4), EInstr::Return])?)?;
    blocks.push(block(alloc, 3, &enter)?)?;
    Ok(blocks)
}
