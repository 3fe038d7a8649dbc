ghost use Rattle.std.specs.Prelude.{◌≡◌, ◌++◌};
ghost use Rattle.tdl_rules.specs.Earliest.{earliest};
ghost use Rattle.tdl_rules.specs.SortRules as rules;

use crate::needs::needs;
use tdl_base::{BinOp, UnOp};
use tdl_names::{Scope, sort_in};
use tdl_rules::Fault;
use tdl_tree::{ExprNode, ExprTree};
use tdl_walk::OnExpression;

/// Both operands where booleans are needed, or else numbers.
fn both_need(
    scope: &Scope,
    left: &ExprTree,
    right: &ExprTree,
    truth: bool,
    best: &mut Option<Fault>,
)
    ensures { best.new ≡ earliest best.old
        (rules.needs scope.now left.now truth ++ rules.needs scope.now right.now truth) }
{
    needs(scope, left, truth, best);
    needs(scope, right, truth, best);
}

/// The operands of an operator of two.
#[tactic(auto, unfolding(tdl_rules::specs::Earliest::earliest))]
fn binary_operands(
    scope: &Scope,
    op: BinOp,
    left: &ExprTree,
    right: &ExprTree,
    best: &mut Option<Fault>,
)
    ensures { best.new ≡ earliest best.old (rules.binary_operands scope.now op left.now right.now) }
{
    match op {
        BinOp::And | BinOp::Or => both_need(scope, left, right, true, best),
        BinOp::Equal | BinOp::NotEqual => {
            if let Some(truth) = sort_in(scope, left) {
                needs(scope, right, truth, best);
            }
        }
        _ => both_need(scope, left, right, false, best),
    }
}

/// The operands of an expression.
pub(crate) struct Operands;

impl OnExpression for Operands {
    ghost use Rattle.tdl_rules.specs.SortRules.{c5_operands};

    ghost gives = { λ _ scope expression. c5_operands scope expression };

    #[tactic(auto, unfolding(tdl_rules::specs::Earliest::earliest))]
    fn at(&self, scope: &Scope, expression: &ExprTree, best: &mut Option<Fault>) {
        match &expression.node {
            ExprNode::Number(_) => {}
            ExprNode::Truth(_) => {}
            ExprNode::Name { .. } => {}
            ExprNode::Un(op, operand) => match op {
                UnOp::Neg => needs(scope, operand.get(), false, best),
                UnOp::Not => needs(scope, operand.get(), true, best),
            },
            ExprNode::Bin(op, left, right) => {
                binary_operands(scope, *op, left.get(), right.get(), best);
            }
        }
    }
}
