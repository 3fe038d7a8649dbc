ghost use Rattle.std.specs.Prelude.{◌≡◌, length, slice_index_or};
ghost use Rattle.tdl_base.specs.declared.kinds.Kind.TheVariants.{Long};
ghost use Rattle.tdl_base.specs.Numbers.{is_true};
ghost use Rattle.tdl_base.specs.Cells.{stored};
ghost use Rattle.tdl_body.specs.Values.{value_of};
ghost use Rattle.tdl_body.specs.Effects.{effect_of};
ghost use Rattle.tdl_body.proofs.Equations.{effect_of_stmt};
ghost use Rattle.tdl_eval.specs.Envs.{made_of, cells_of, cells_alone, OnlyCells};

use crate::Env;
use crate::expressions::value;
use crate::view::view_of_cells;
use tdl_base::{Kind, Listed, narrow};
use tdl_body::{Body, Expr, Stmt};

/// Does what a body says to the cells, each number narrowed to the kind of its cell. It takes no
/// memory, and reads no sensor and no output of the environment: a body has none, and where it had
/// one, it would be 0.
pub fn exec(b: &Body, env: &mut Env)
    ensures done { cells_of env.new ≡ effect_of b.now (cells_of env.old) }
    ensures only { OnlyCells env.old env.new }
{
    run_body(b, &env.kinds, &mut env.cells);
}

/// The same to cells of these kinds alone.
pub fn exec_cells(b: &Body, kinds: &Listed<Kind>, cells: &mut Listed<i64>)
    ensures done { made_of kinds.now cells.new ≡ effect_of b.now (made_of kinds.now cells.old) }
    ensures count { length cells.new ≡ length cells.old }
{
    run_body(b, kinds, cells);
}

#[cycle(body)]
fn run_body(b: &Body, kinds: &Listed<Kind>, cells: &mut Listed<i64>)
    ensures done { made_of kinds.now cells.new ≡ effect_of b.now (made_of kinds.now cells.old) }
    ensures count { length cells.new ≡ length cells.old }
{
    for stmt in b.stmts.as_slice() {
        run_stmt(stmt, kinds, cells);
    }
}

#[cycle(body)]
fn run_stmt(stmt: &Stmt, kinds: &Listed<Kind>, cells: &mut Listed<i64>)
    ensures done { made_of kinds.now cells.new ≡
        effect_of_stmt stmt.now (made_of kinds.now cells.old) }
    ensures count { length cells.new ≡ length cells.old }
{
    match stmt {
        Stmt::Assign { cell, value } => store(*cell, number(value, cells), kinds, cells),
        Stmt::If {
            cond,
            then: first,
            other,
        } => {
            if holds(cond, cells) {
                run_body(first, kinds, cells);
            } else if let Some(second) = other {
                run_body(second, kinds, cells);
            }
        }
        Stmt::Repeat { count, body } => {
            for _ in 0..*count {
                run_body(body, kinds, cells);
            }
        }
    }
}

fn holds(cond: &Expr, cells: &Listed<i64>) -> bool
    ensures { result ≡ is_true (value_of cond.now (cells_alone cells.now)) }
{
    number(cond, cells) != 0
}

// The number of an expression over cells alone.
fn number(e: &Expr, cells: &Listed<i64>) -> i64
    ensures { result ≡ value_of e.now (cells_alone cells.now) }
{
    value(e, &view_of_cells(cells.as_slice()))
}

// The cell takes the number, narrowed to its kind. Nothing changes where there is no such cell.
fn store(cell: u16, v: i64, kinds: &Listed<Kind>, cells: &mut Listed<i64>)
    ensures done { made_of kinds.now cells.new ≡ stored cell v (made_of kinds.now cells.old) }
    ensures count { length cells.new ≡ length cells.old }
{
    let at = usize::from(cell);
    if at < cells.len() {
        cells.set(at, narrow(kind_at(kinds.as_slice(), at), v));
    }
}

fn kind_at(kinds: &[Kind], at: usize) -> Kind
    ensures { result ≡ slice_index_or kinds.now at Long }
{
    kinds.get(at).copied().unwrap_or(Kind::Long)
}
