ghost use Rattle.std.specs.Prelude.{◌≡◌};
ghost use Rattle.tdl_rules.specs.Earliest.{earliest};
ghost use Rattle.tdl_rules.specs.Lists.{each};
ghost use Rattle.tdl_rules.specs.Parts as parts;
ghost use Rattle.tdl_rules.specs.Trees.{expressions_in};

use crate::{OnActivity, OnExpression, OnStatement, in_activities, in_statements, on_within};
use tdl_names::{Scope, Sources};
use tdl_rules::Fault;
use tdl_tree::{Act, ActKind, ExprTree, StmtTree, Time};

/// A rule at each outermost expression of a statement or an activity.
#[derive(Drop)]
struct AtOutermost<'r, R> {
    rule: &'r R,
}

impl<'r, R: OnExpression> OnStatement for AtOutermost<'r, R> {
    ghost use Rattle.tdl_rules.specs.Lists.{each};
    ghost use Rattle.tdl_rules.specs.Trees.{expressions_of};

    ghost gives = { λ it scope statement. each (R.gives it.rule.now scope) (expressions_of statement) };

    #[tactic(auto, unfolding(tdl_rules::specs::Earliest::earliest))]
    fn at(&self, scope: &Scope, statement: &StmtTree, best: &mut Option<Fault>) {
        match statement {
            StmtTree::Assign { value, .. } => self.rule.at(scope, value, best),
            StmtTree::If { cond, .. } => self.rule.at(scope, cond, best),
            StmtTree::Repeat { .. } => {}
        }
    }
}

/// A rule at each expression of a list.
#[tactic(auto, unfolding(tdl_rules::specs::Earliest::earliest))]
fn on_list<R: OnExpression>(
    rule: &R,
    scope: &Scope,
    expressions: &[ExprTree],
    best: &mut Option<Fault>,
)
    ensures { best.new ≡ earliest best.old (each (R.gives rule.now scope.now) expressions.now) }
{
    for expression in expressions {
        rule.at(scope, expression, best);
    }
}

/// A rule at what an activity computes.
#[tactic(auto, unfolding(tdl_rules::specs::Earliest::earliest))]
fn on_values<R: OnExpression>(rule: &R, scope: &Scope, what: &ActKind, best: &mut Option<Fault>)
    ensures { best.new ≡ earliest best.old (each (R.gives rule.now scope.now) (expressions_in what.now)) }
{
    match what {
        ActKind::Task { args, .. } => on_list(rule, scope, args.as_slice(), best),
        ActKind::Update { value, .. } => rule.at(scope, value, best),
        ActKind::Switch { .. } => {}
    }
}

impl<'r, R: OnExpression> OnActivity for AtOutermost<'r, R> {
    ghost use Rattle.tdl_rules.specs.Lists.{each};
    ghost use Rattle.tdl_rules.specs.Trees.{activity_expressions};

    ghost gives = { λ it scope period act. each (R.gives it.rule.now scope) (activity_expressions act) };

    #[tactic(auto, unfolding(tdl_rules::specs::Earliest::earliest))]
    fn at(&self, scope: &Scope, _period: &Time, act: &Act, best: &mut Option<Fault>) {
        on_values(self.rule, scope, &act.what, best);
        if let Some(guard) = &act.guard {
            self.rule.at(scope, guard, best);
        }
    }
}

/// A rule at each outermost expression of the program: of statements, then of activities.
pub fn in_outermost<R: OnExpression>(rule: &R, sources: &Sources, best: &mut Option<Fault>)
    ensures { best.new ≡ earliest best.old (parts.in_outermost (R.gives rule.now) sources.now) }
{
    in_statements(&AtOutermost { rule }, sources, best);
    in_activities(&AtOutermost { rule }, sources, best);
}

/// A rule at an expression and at each inside it.
#[derive(Drop)]
struct Within<'r, R> {
    rule: &'r R,
}

impl<'r, R: OnExpression> OnExpression for Within<'r, R> {
    ghost use Rattle.tdl_rules.specs.Lists.{each};
    ghost use Rattle.tdl_rules.specs.Trees.{within};

    ghost gives = { λ it scope expression. each (R.gives it.rule.now scope) (within expression) };

    fn at(&self, scope: &Scope, expression: &ExprTree, best: &mut Option<Fault>) {
        on_within(self.rule, scope, expression, best);
    }
}

/// A rule at each expression of the program, however deep.
pub fn in_expressions<R: OnExpression>(rule: &R, sources: &Sources, best: &mut Option<Fault>)
    ensures { best.new ≡ earliest best.old (parts.in_expressions (R.gives rule.now) sources.now) }
{
    in_outermost(&Within { rule }, sources, best);
}
