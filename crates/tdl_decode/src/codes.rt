//! Kinds, codes and blocks at the front of bytes.
ghost use Rattle.std.specs.Prelude.{◌≡◌};
ghost use Rattle.tdl_decode.specs.Reading.{Gives};
ghost use Rattle.tdl_decode.specs.BundleReading.{kind_of, kind_in, bus_of, resource_in, un_of, bin_of, key_in, rep_in, operands_in, stack_instr_in, code_in, einstr_in, block_in};

use crate::fields::{any_short, any_word, byte, long};
use crate::flaw::{CUT, Flaw};
use crate::lists::{Part, long_listed};
use std::alloc::Global;
use tdl_base::{BinOp, Kind, ModuleId, Place, PortKey, TaskId, UnOp};
use tdl_ecode::{Block, EInstr, InstrFault, get_instr};
use tdl_stack::{Code, Instr};

fn kind_of(number: u8) -> Kind
    ensures { result ≡ kind_of number }
{
    match number {
        1 => Kind::Byte,
        2 => Kind::Short,
        3 => Kind::Int,
        4 => Kind::Long,
        _ => Kind::Boolean,
    }
}

impl Part for Kind {
    ghost reading = { kind_in };

    #[tactic(auto, unfolding(crate::specs::BundleReading::kind_in))]
    fn read(_alloc: Global, bytes: &[u8]) -> Result<(Kind, &[u8]), Flaw> {
        let (number, bytes) = byte(bytes, 0, 4)?;
        Ok((kind_of(number), bytes))
    }
}

/// Whether the resource is the bus.
#[tactic(auto, unfolding(crate::specs::BundleReading::resource_in))]
pub fn resource(bytes: &[u8]) -> Result<(bool, &[u8]), Flaw>
    ensures { Gives (λ r. (r.0, r.1.now)) result (resource_in bytes.now) }
{
    let (number, bytes) = byte(bytes, 0, 1)?;
    Ok((number == 1, bytes))
}

fn un_of(number: u8) -> UnOp
    ensures { result ≡ un_of number }
{
    match number {
        1 => UnOp::Not,
        _ => UnOp::Neg,
    }
}

fn bin_of(number: u8) -> BinOp
    ensures { result ≡ bin_of number }
{
    match number {
        1 => BinOp::Sub,
        2 => BinOp::Mul,
        3 => BinOp::Div,
        4 => BinOp::Rem,
        5 => BinOp::Less,
        6 => BinOp::LessEq,
        7 => BinOp::Greater,
        8 => BinOp::GreaterEq,
        9 => BinOp::Equal,
        10 => BinOp::NotEqual,
        11 => BinOp::And,
        12 => BinOp::Or,
        _ => BinOp::Add,
    }
}

#[tactic(auto, unfolding(crate::specs::BundleReading::key_in))]
fn key(bytes: &[u8]) -> Result<(PortKey, &[u8]), Flaw>
    ensures { Gives (λ r. (r.0, r.1.now)) result (key_in bytes.now) }
{
    let (module, bytes) = any_short(bytes)?;
    let (task, bytes) = any_short(bytes)?;
    let (output, bytes) = any_short(bytes)?;
    let key = PortKey {
        module: ModuleId(module),
        task: TaskId(task),
        output,
    };
    Ok((key, bytes))
}

#[tactic(auto, unfolding(crate::specs::BundleReading::rep_in))]
fn rep(bytes: &[u8]) -> Result<(Instr, &[u8]), Flaw>
    ensures { Gives (λ r. (r.0, r.1.now)) result (rep_in bytes.now) }
{
    let (times, bytes) = any_short(bytes)?;
    let (count, bytes) = any_word(bytes)?;
    Ok((Instr::Rep(times, count), bytes))
}

#[tactic(auto, unfolding(crate::specs::BundleReading::operands_in))]
fn operands(opcode: u8, bytes: &[u8]) -> Result<(Instr, &[u8]), Flaw>
    ensures { Gives (λ r. (r.0, r.1.now)) result (operands_in opcode bytes.now) }
{
    match opcode {
        0 => {
            let (number, bytes) = long(bytes, Kind::Long)?;
            Ok((Instr::Const(number), bytes))
        }
        1 => {
            let (sensor, bytes) = any_short(bytes)?;
            Ok((Instr::Load(Place::Sensor(sensor)), bytes))
        }
        2 => {
            let (key, bytes) = key(bytes)?;
            Ok((Instr::Load(Place::Port(key)), bytes))
        }
        3 => {
            let (cell, bytes) = any_short(bytes)?;
            Ok((Instr::Load(Place::Cell(cell)), bytes))
        }
        4 => {
            let (cell, bytes) = any_short(bytes)?;
            Ok((Instr::Store(cell), bytes))
        }
        5 => {
            let (op, bytes) = byte(bytes, 0, 1)?;
            Ok((Instr::Un(un_of(op)), bytes))
        }
        6 => {
            let (op, bytes) = byte(bytes, 0, 12)?;
            Ok((Instr::Bin(bin_of(op)), bytes))
        }
        7 => {
            let (count, bytes) = any_word(bytes)?;
            Ok((Instr::Jz(count), bytes))
        }
        8 => {
            let (count, bytes) = any_word(bytes)?;
            Ok((Instr::Jmp(count), bytes))
        }
        _ => rep(bytes),
    }
}

impl Part for Instr {
    ghost reading = { stack_instr_in };

    #[tactic(auto, unfolding(crate::specs::BundleReading::stack_instr_in))]
    fn read(_alloc: Global, bytes: &[u8]) -> Result<(Instr, &[u8]), Flaw> {
        let (opcode, bytes) = byte(bytes, 0, 9)?;
        operands(opcode, bytes)
    }
}

impl Part for Code {
    ghost reading = { code_in };

    #[tactic(auto, unfolding(crate::specs::BundleReading::code_in))]
    fn read(alloc: Global, bytes: &[u8]) -> Result<(Code, &[u8]), Flaw> {
        let (instrs, bytes) = long_listed(alloc, bytes)?;
        Ok((Code { instrs }, bytes))
    }
}

impl Part for EInstr {
    ghost reading = { einstr_in };

    #[tactic(auto, unfolding(crate::specs::BundleReading::einstr_in))]
    fn read(_alloc: Global, bytes: &[u8]) -> Result<(EInstr, &[u8]), Flaw> {
        match get_instr(bytes) {
            Ok((instr, len)) => Ok((instr, &bytes[len..])),
            Err(InstrFault::Short) => Err(CUT),
            Err(InstrFault::Unknown) => Err(Flaw::Broken {
                rule: 4,
                left: bytes.len(),
            }),
        }
    }
}

impl Part for Block {
    ghost reading = { block_in };

    #[tactic(auto, unfolding(crate::specs::BundleReading::block_in))]
    fn read(alloc: Global, bytes: &[u8]) -> Result<(Block, &[u8]), Flaw> {
        let (phase, bytes) = byte(bytes, 1, 4)?;
        let (code, bytes) = long_listed(alloc, bytes)?;
        Ok((Block { phase, code }, bytes))
    }
}
