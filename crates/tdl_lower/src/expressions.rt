ghost use Rattle.std.specs.Prelude.{◌≡◌, ◌++◌, IfOk, OnOk};
ghost use Rattle.tdl_body.specs.Bounds.{IsBoundedExpr};
ghost use Rattle.tdl_lower.specs.Templates.{expr_code};

use std::alloc::Global;
use tdl_base::{Listed, NoMemory};
use tdl_body::Expr;
use tdl_stack::{Code, Instr};

/// The code of an expression.
pub fn lower_expr(alloc: Global, e: &Expr) -> Result<Code, NoMemory>
    requires { IsBoundedExpr e.now }
    ensures { IfOk result (λ code. code.instrs ≡ expr_code e.now) }
{
    let mut instrs = Listed::new(alloc);
    put_expr(e, &mut instrs)?;
    Ok(Code { instrs })
}

// Appends the code of an expression.
pub(crate) fn put_expr(e: &Expr, into: &mut Listed<Instr>) -> Result<(), NoMemory>
    ensures { OnOk result (into.new ≡ into.old ++ expr_code e.now) }
{
    match e {
        Expr::Const(v) => into.push(Instr::Const(*v)),
        Expr::Load(place) => into.push(Instr::Load(*place)),
        Expr::Un(op, a) => {
            put_expr(a.get(), into)?;
            into.push(Instr::Un(*op))
        }
        Expr::Bin(op, a, b) => {
            put_expr(a.get(), into)?;
            put_expr(b.get(), into)?;
            into.push(Instr::Bin(*op))
        }
    }
}
