ghost use Rattle.std.specs.Prelude.{◌≡◌, nat_lt};
ghost use Rattle.tdl_rules.specs.BoundRules as bounds;
ghost use Rattle.tdl_rules.specs.Earliest.{earliest};
ghost use Rattle.tdl_rules.specs.Trees.{depth};

use tdl_base::limits::EXPRESSION_DEPTH;
use tdl_names::{Scope, Sources, spot_of_expression};
use tdl_rules::Fault;
use tdl_tree::{ExprNode, ExprTree};
use tdl_walk::{OnExpression, in_outermost, note_if};

/// Whether an expression is deeper than `most`. It is looked at no deeper than that.
fn is_deeper(expression: &ExprTree, most: usize) -> bool
    ensures { result ≡ nat_lt most (depth expression.now) }
{
    match &expression.node {
        ExprNode::Number(_) => most < 1,
        ExprNode::Truth(_) => most < 1,
        ExprNode::Name { .. } => most < 1,
        ExprNode::Un(_, operand) => {
            if most < 1 {
                return true;
            }
            is_deeper(operand.get(), most - 1)
        }
        ExprNode::Bin(_, left, right) => {
            if most < 1 {
                return true;
            }
            is_deeper(left.get(), most - 1) || is_deeper(right.get(), most - 1)
        }
    }
}

/// Expressions that are deeper than is allowed.
struct DeepExpressions;

impl OnExpression for DeepExpressions {
    ghost gives = { λ _ scope expression. bounds.c19_outermost scope expression };

    fn at(&self, scope: &Scope, expression: &ExprTree, best: &mut Option<Fault>) {
        let fault = scope.broken(19, spot_of_expression(expression));
        note_if(best, is_deeper(expression, EXPRESSION_DEPTH), fault);
    }
}

/// C19: an outermost expression that is deeper than 32.
pub fn deep_expressions(sources: &Sources, best: &mut Option<Fault>)
    ensures { best.new ≡ earliest best.old (bounds.c19 sources.now) }
{
    in_outermost(&DeepExpressions, sources, best);
}
