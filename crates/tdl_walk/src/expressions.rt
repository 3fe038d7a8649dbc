ghost use Rattle.std.specs.Prelude.{◌≡◌};
ghost use Rattle.tdl_rules.specs.Earliest.{earliest};
ghost use Rattle.tdl_rules.specs.Lists.{each};
ghost use Rattle.tdl_rules.specs.Trees.{within};

use tdl_names::Scope;
use tdl_rules::Fault;
use tdl_tree::{ExprNode, ExprTree};

/// A rule on expressions.
pub trait OnExpression {
    ghost use Rattle.std.specs.Prelude.{List};
    ghost use Rattle.tdl_rules.specs.declared.fault.Fault.{Fault};
    ghost use Rattle.tdl_rules.specs.Naming.{Scope as Standing};
    ghost use Rattle.tdl_tree.specs.declared.expressions.ExprTree.{ExprTree};

    /// The faults at one expression.
    ghost gives: { Self → Standing → ExprTree → List Fault };

    /// Notes the faults at one expression.
    fn at(&self, scope: &Scope, expression: &ExprTree, best: &mut Option<Fault>)
        ensures { best.new ≡ earliest best.old (gives self.now scope.now expression.now) };
}

/// A rule at an expression and at each inside it.
pub fn on_within<R: OnExpression>(
    rule: &R,
    scope: &Scope,
    expression: &ExprTree,
    best: &mut Option<Fault>,
)
    ensures { best.new ≡
        earliest best.old (each (R.gives rule.now scope.now) (within expression.now)) }
{
    rule.at(scope, expression, best);
    match &expression.node {
        ExprNode::Number(_) => {}
        ExprNode::Truth(_) => {}
        ExprNode::Name { .. } => {}
        ExprNode::Un(_, operand) => on_within(rule, scope, operand.get(), best),
        ExprNode::Bin(_, left, right) => {
            on_within(rule, scope, left.get(), best);
            on_within(rule, scope, right.get(), best);
        }
    }
}
