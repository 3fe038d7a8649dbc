ghost use Rattle.std.specs.Prelude.{◌≡◌, [], ◌∷◌, IfOk};
ghost use Rattle.tdl_body.specs.declared.tree.Stmt.TheVariants.{Assign};
ghost use Rattle.tdl_body.specs.Examples.{minus, choice, adds_thrice};

use crate::{lower, lower_expr};
use sqlite_items::{Boxed, Items};
use std::alloc::{AllocError, Global};
use std::test::Fail;
use tdl_base::{BinOp, NoMemory, Place, UnOp};
use tdl_body::{Body, Expr, Stmt};
use tdl_stack::Instr;

// A block of one statement.
fn block(alloc: Global, stmt: Stmt) -> Result<Body, AllocError>
    ensures { IfOk result (λ b. b ≡ record { stmts = stmt ∷ [] }) }
{
    let mut stmts = Items::new(alloc);
    stmts.push(stmt)?;
    Ok(Body { stmts })
}

// o := value;
fn assigned(alloc: Global, value: Expr) -> Result<Body, AllocError>
    ensures { IfOk result (λ b. b ≡ record { stmts = Assign 1 value ∷ [] }) }
{
    block(alloc, Stmt::Assign { cell: 1, value })
}

// if a > 0 { o := 1; } else { o := 2; }
fn chosen(alloc: Global) -> Result<Body, AllocError>
    ensures { IfOk result (λ b. b ≡ choice) }
{
    let a = Boxed::new(alloc, Expr::Load(Place::Cell(0)))?;
    let zero = Boxed::new(alloc, Expr::Const(0))?;
    let then = assigned(alloc, Expr::Const(1))?;
    let other = assigned(alloc, Expr::Const(2))?;
    block(
        alloc,
        Stmt::If {
            cond: Expr::Bin(BinOp::Greater, a, zero),
            then,
            other: Some(other),
        },
    )
}

// repeat 3 { o := o + a; }
fn repeated(alloc: Global) -> Result<Body, AllocError>
    ensures { IfOk result (λ b. b ≡ adds_thrice) }
{
    let o = Boxed::new(alloc, Expr::Load(Place::Cell(1)))?;
    let a = Boxed::new(alloc, Expr::Load(Place::Cell(0)))?;
    let body = assigned(alloc, Expr::Bin(BinOp::Add, o, a))?;
    block(alloc, Stmt::Repeat { count: 3, body })
}

// -r
fn negated(alloc: Global) -> Result<Expr, AllocError>
    ensures { IfOk result (λ e. e ≡ minus) }
{
    let r = Boxed::new(alloc, Expr::Load(Place::Sensor(0)))?;
    Ok(Expr::Un(UnOp::Neg, r))
}

#[test]
fn a_choice_skips_one_block(rt: HostRuntime) -> Result<(), Fail> {
    let body = chosen(rt.alloc())?;
    let code = lower(rt.alloc(), &body)?;
    let expected = [
        Instr::Load(Place::Cell(0)),
        Instr::Const(0),
        Instr::Bin(BinOp::Greater),
        Instr::Jz(3),
        Instr::Const(1),
        Instr::Store(1),
        Instr::Jmp(2),
        Instr::Const(2),
        Instr::Store(1),
    ];
    assert_eq!(rt; code.instrs.as_slice(), expected.as_slice());
    Ok(())
}

#[test]
fn a_repetition_tells_its_block(rt: HostRuntime) -> Result<(), Fail> {
    let body = repeated(rt.alloc())?;
    let code = lower(rt.alloc(), &body)?;
    let expected = [
        Instr::Rep(3, 4),
        Instr::Load(Place::Cell(1)),
        Instr::Load(Place::Cell(0)),
        Instr::Bin(BinOp::Add),
        Instr::Store(1),
    ];
    assert_eq!(rt; code.instrs.as_slice(), expected.as_slice());
    Ok(())
}

#[test]
fn an_operator_comes_last(rt: HostRuntime) -> Result<(), Fail> {
    let e = negated(rt.alloc())?;
    let code = lower_expr(rt.alloc(), &e)?;
    let expected = [Instr::Load(Place::Sensor(0)), Instr::Un(UnOp::Neg)];
    assert_eq!(rt; code.instrs.as_slice(), expected.as_slice());
    Ok(())
}
