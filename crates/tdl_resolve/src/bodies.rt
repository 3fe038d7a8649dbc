ghost use Rattle.std.specs.Prelude.{◌≡◌, ◌≤◌, [], ◌∷◌, length, map, IfOk, MatchOption};
ghost use Rattle.tdl_base.specs.declared.limits.TheConstants.{PORTS};
ghost use Rattle.tdl_program.specs.Bodies as says;
ghost use Rattle.tdl_resolve.specs.Standing.{Stands};
ghost use Rattle.tdl_resolve.specs.Turns.{KeepsTurns};

use crate::Numbers;
use crate::expressions::expression_in;
use crate::resolver::Resolver;
use sqlite_items::Items;
use std::alloc::Global;
use tdl_base::NoMemory;
use tdl_body::{Body, Stmt};
use tdl_names::{Ports, Scope};
use tdl_tree::StmtTree;

/// The statement that a tree says; `None` where a `repeat` takes more turns than it may.
#[cycle(block)]
fn statement_in(
    alloc: Global,
    resolver: &Resolver,
    statement: &StmtTree,
) -> Result<Option<Stmt>, NoMemory>
    ensures { IfOk result (λ made. MatchOption made (KeepsTurns (statement.now ∷ []) → ⊥)
        (λ said. said ≡ says.statement_of resolver.now statement.now)) }
{
    match statement {
        StmtTree::Assign { target, value } => Ok(Some(Stmt::Assign {
            cell: resolver.cell_named(target),
            value: expression_in(alloc, resolver, value)?,
        })),
        StmtTree::If {
            cond,
            then: first,
            other,
        } => {
            let cond = expression_in(alloc, resolver, cond)?;
            let then = match block_in(alloc, resolver, first.as_slice())? {
                None => return Ok(None),
                Some(then) => then,
            };
            match other {
                None => Ok(Some(Stmt::If {
                    cond,
                    then,
                    other: None,
                })),
                Some(second) => match block_in(alloc, resolver, second.as_slice())? {
                    None => Ok(None),
                    Some(other) => Ok(Some(Stmt::If {
                        cond,
                        then,
                        other: Some(other),
                    })),
                },
            }
        }
        StmtTree::Repeat { count, body } => match u16::try_from(count.value) {
            Err(_too_many) => Ok(None),
            Ok(count) => match block_in(alloc, resolver, body.as_slice())? {
                None => Ok(None),
                Some(body) => Ok(Some(Stmt::Repeat { count, body })),
            },
        },
    }
}

/// The block that statements say; `None` where a `repeat` takes more turns than it may.
#[cycle(block)]
fn block_in(
    alloc: Global,
    resolver: &Resolver,
    statements: &[StmtTree],
) -> Result<Option<Body>, NoMemory>
    ensures { IfOk result (λ made. MatchOption made (KeepsTurns statements.now → ⊥)
        (λ said. said ≡ says.block_of (map (says.statement_of resolver.now) statements.now))) }
{
    let mut stmts = Items::new(alloc);
    for statement in statements {
        match statement_in(alloc, resolver, statement)? {
            None => return Ok(None),
            Some(said) => stmts.push(said)?,
        }
    }
    Ok(Some(Body { stmts }))
}

/// The body of a task that has these ports, in a module of the scope; `None` where a `repeat` takes
/// more turns than it may.
pub(crate) fn body_in<'b, 'a>(
    alloc: Global,
    numbers: &Numbers<'b, 'a>,
    scope: &Scope<'b, 'a>,
    ports: &'b Ports<'a>,
    statements: &[StmtTree],
) -> Result<Option<Body>, NoMemory>
    requires stands { Stands numbers.now scope.now }
    requires few { length ports.now ≤ PORTS }
    ensures { IfOk result (λ made. MatchOption made (KeepsTurns statements.now → ⊥)
        (λ said. said ≡ says.body_of scope.now ports.now statements.now)) }
{
    let scope = scope.in_body(ports);
    block_in(alloc, &Resolver::new(numbers, &scope), statements)
}

/// The body of a task that has these ports, in a module of the scope. No `repeat` takes more turns
/// than it may.
pub fn body_of<'b, 'a>(
    alloc: Global,
    numbers: &Numbers<'b, 'a>,
    scope: &Scope<'b, 'a>,
    ports: &'b Ports<'a>,
    statements: &[StmtTree],
) -> Result<Body, NoMemory>
    requires stands { Stands numbers.now scope.now }
    requires few { length ports.now ≤ PORTS }
    requires turns { KeepsTurns statements.now }
    ensures { IfOk result (λ made. made ≡ says.body_of scope.now ports.now statements.now) }
{
    let Some(body) = body_in(alloc, numbers, scope, ports, statements)? else {
        unreachable!();
    };
    Ok(body)
}
