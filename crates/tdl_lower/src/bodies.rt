ghost use Rattle.std.specs.Prelude.{◌≡◌, ◌+◌, ◌∷◌, ◌++◌, length, IfOk, OnOk};
ghost use Rattle.tdl_body.specs.Bounds.{IsBounded};
ghost use Rattle.tdl_stack.specs.declared.instr.Instr.TheVariants.{Jmp};
ghost use Rattle.tdl_lower.specs.Templates.{body_code, stmt_code};

use crate::expressions::put_expr;
use std::alloc::Global;
use tdl_base::{Listed, NoMemory};
use tdl_body::{Body, Stmt};
use tdl_stack::{Code, Instr};

/// The code of a body. The memory is not enough for one of more than 2^32 instructions.
pub fn lower(alloc: Global, b: &Body) -> Result<Code, NoMemory>
    requires { IsBounded b.now }
    ensures { IfOk result (λ code. code.instrs ≡ body_code b.now) }
{
    let mut instrs = Listed::new(alloc);
    put_body(b, &mut instrs)?;
    Ok(Code { instrs })
}

// Appends the code of a block.
#[cycle(block)]
fn put_body(block: &Body, into: &mut Listed<Instr>) -> Result<(), NoMemory>
    ensures { OnOk result (into.new ≡ into.old ++ body_code block.now) }
{
    for stmt in block.stmts.as_slice() {
        put_stmt(stmt, into)?;
    }
    Ok(())
}

// Appends the code of a statement.
#[cycle(block)]
fn put_stmt(stmt: &Stmt, into: &mut Listed<Instr>) -> Result<(), NoMemory>
    ensures { OnOk result (into.new ≡ into.old ++ stmt_code stmt.now) }
{
    match stmt {
        Stmt::Assign { cell, value } => {
            put_expr(value, into)?;
            into.push(Instr::Store(*cell))
        }
        Stmt::If {
            cond,
            then: first,
            other,
        } => {
            put_expr(cond, into)?;
            let test = into.len();
            let skipped = put_block(first, into)?;
            let Some(second) = other else {
                into.set(test, Instr::Jz(skipped - 1));
                return Ok(());
            };
            into.set(test, Instr::Jz(skipped));
            let jump = into.len();
            let jumped = put_block(second, into)?;
            into.set(jump, Instr::Jmp(jumped - 1));
            Ok(())
        }
        Stmt::Repeat { count, body: block } => {
            let place = into.len();
            let repeated = put_block(block, into)?;
            into.set(place, Instr::Rep(*count, repeated - 1));
            Ok(())
        }
    }
}

// Appends a place for the instruction before a block, and the block's code. Gives how many
// instructions these are.
#[cycle(block)]
fn put_block(block: &Body, into: &mut Listed<Instr>) -> Result<u32, NoMemory>
    ensures code { OnOk result (into.new ≡ into.old ++ Jmp 0 ∷ body_code block.now) }
    ensures count { IfOk result (λ n. n ≡ length (body_code block.now) + 1) }
{
    let place = into.len();
    into.push(Instr::Jmp(0))?;
    put_body(block, into)?;
    match u32::try_from(into.len() - place) {
        Ok(count) => Ok(count),
        Err(_too_many) => Err(NoMemory),
    }
}
