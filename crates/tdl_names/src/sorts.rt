ghost use Rattle.std.specs.Prelude.{◌≡◌};
ghost use Rattle.tdl_rules.specs.Sorts as sorts;

use crate::{Scope, found_in};
use tdl_base::{BinOp, Kind, UnOp};
use tdl_rules::Found;
use tdl_tree::{ExprNode, ExprTree};

/// Whether a kind is boolean.
pub fn is_truth(kind: Kind) -> bool
    ensures { result ≡ sorts.is_truth kind }
{
    matches!(kind, Kind::Boolean)
}

/// Whether an expression is boolean; `None` where its sort is unknown.
pub fn sort_in(scope: &Scope, expression: &ExprTree) -> Option<bool>
    ensures { result ≡ sorts.sort_of scope.now expression.now }
{
    match &expression.node {
        ExprNode::Number(_) => Some(false),
        ExprNode::Truth(_) => Some(true),
        ExprNode::Name { parts } => match found_in(scope, parts.as_slice()) {
            Found::Is { kind, .. } => Some(is_truth(kind)),
            _ => None,
        },
        ExprNode::Un(op, _) => Some(matches!(op, UnOp::Not)),
        ExprNode::Bin(op, _, _) => Some(!matches!(
            op,
            BinOp::Add | BinOp::Sub | BinOp::Mul | BinOp::Div | BinOp::Rem
        )),
    }
}
