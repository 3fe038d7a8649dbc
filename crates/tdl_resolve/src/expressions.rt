ghost use Rattle.std.specs.Prelude.{◌≡◌, IfOk};
ghost use Rattle.tdl_program.specs.Expressions as says;
ghost use Rattle.tdl_resolve.specs.Standing.{Stands};

use crate::Numbers;
use crate::literals::{number_of, truth_of};
use crate::resolver::Resolver;
use sqlite_items::Boxed;
use std::alloc::Global;
use tdl_base::NoMemory;
use tdl_body::Expr;
use tdl_names::Scope;
use tdl_tree::{ExprNode, ExprTree};

/// The expression that a tree says.
pub(crate) fn expression_in(
    alloc: Global,
    resolver: &Resolver,
    tree: &ExprTree,
) -> Result<Expr, NoMemory>
    ensures { IfOk result (λ made. made ≡ says.expression_of resolver.now tree.now) }
{
    match &tree.node {
        ExprNode::Number(number) => Ok(Expr::Const(number_of(number.value))),
        ExprNode::Truth(holds) => Ok(Expr::Const(truth_of(*holds))),
        ExprNode::Name { parts } => Ok(resolver.name(parts.as_slice())),
        ExprNode::Un(op, a) => {
            let a = expression_in(alloc, resolver, a.get())?;
            Ok(Expr::Un(*op, Boxed::new(alloc, a)?))
        }
        ExprNode::Bin(op, a, b) => {
            let a = expression_in(alloc, resolver, a.get())?;
            let b = expression_in(alloc, resolver, b.get())?;
            let a = Boxed::new(alloc, a)?;
            Ok(Expr::Bin(*op, a, Boxed::new(alloc, b)?))
        }
    }
}

/// The expression that a tree says where it stands.
pub fn expression_of(
    alloc: Global,
    numbers: &Numbers,
    scope: &Scope,
    tree: &ExprTree,
) -> Result<Expr, NoMemory>
    requires { Stands numbers.now scope.now }
    ensures { IfOk result (λ made. made ≡ says.expression_of scope.now tree.now) }
{
    expression_in(alloc, &Resolver::new(numbers, scope), tree)
}

/// The guard, where there is one.
pub fn guard_of(
    alloc: Global,
    numbers: &Numbers,
    scope: &Scope,
    guard: &Option<ExprTree>,
) -> Result<Option<Expr>, NoMemory>
    requires { Stands numbers.now scope.now }
    ensures { IfOk result (λ made. made ≡ says.guard_of scope.now guard.now) }
{
    match guard {
        None => Ok(None),
        Some(tree) => Ok(Some(expression_of(alloc, numbers, scope, tree)?)),
    }
}
