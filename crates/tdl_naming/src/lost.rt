ghost use Rattle.std.specs.Prelude.{◌≡◌};
ghost use Rattle.tdl_rules.specs.Earliest.{earliest};
ghost use Rattle.tdl_rules.specs.NameRules as rules;
ghost use Rattle.tdl_rules.specs.Naming as naming;

use std::slice;
use tdl_names::{Scope, Sources, found_in, is_meant, spot_of};
use tdl_rules::{Fault, Found};
use tdl_tree::{Act, ActKind, ExprNode, ExprTree, Id, StmtTree, Time};
use tdl_walk::{
    OnActivity, OnExpression, OnStatement, in_activities, in_expressions, in_statements, note,
    note_if,
};

/// The part of a name that is lost.
#[tactic(auto, unfolding(tdl_rules::specs::Earliest::earliest))]
fn note_lost(scope: &Scope, found: Found, best: &mut Option<Fault>)
    ensures { best.new ≡ earliest best.old (rules.lost_at scope.now.file found) }
{
    match found {
        Found::Is { .. } => {}
        Found::Lost { rule, at } => note(best, scope.broken(rule, at)),
        Found::Unknown => {}
    }
}

/// The name that an expression may be.
struct Names;

impl OnExpression for Names {
    ghost use Rattle.tdl_rules.specs.NameRules.{c3_name};

    ghost gives = { λ _ scope expression. c3_name scope expression };

    #[tactic(auto, unfolding(tdl_rules::specs::Earliest::earliest))]
    fn at(&self, scope: &Scope, expression: &ExprTree, best: &mut Option<Fault>) {
        match &expression.node {
            ExprNode::Number(_) => {}
            ExprNode::Truth(_) => {}
            ExprNode::Name { parts } => note_lost(scope, found_in(scope, parts.as_slice()), best),
            ExprNode::Un(_, _) => {}
            ExprNode::Bin(_, _, _) => {}
        }
    }
}

/// The target of an assignment.
struct Targets;

impl OnStatement for Targets {
    ghost use Rattle.tdl_rules.specs.NameRules.{c3_target};

    ghost gives = { λ _ scope statement. c3_target scope statement };

    #[tactic(auto, unfolding(tdl_rules::specs::Earliest::earliest))]
    fn at(&self, scope: &Scope, statement: &StmtTree, best: &mut Option<Fault>) {
        match statement {
            StmtTree::Assign { target, .. } => {
                note_lost(scope, found_in(scope, slice::from_ref(target)), best);
            }
            StmtTree::If { .. } => {}
            StmtTree::Repeat { .. } => {}
        }
    }
}

/// The name in an activity.
fn name_in(what: &ActKind) -> &Id
    ensures { result.now ≡ naming.activity_name what.now }
{
    match what {
        ActKind::Task { task, .. } => task,
        ActKind::Update { actuator, .. } => actuator,
        ActKind::Switch { target } => target,
    }
}

/// What an activity names.
struct Activities;

impl OnActivity for Activities {
    ghost use Rattle.tdl_rules.specs.NameRules.{c3_activity};

    ghost gives = { λ _ scope period act. c3_activity scope period act };

    fn at(&self, scope: &Scope, _period: &Time, act: &Act, best: &mut Option<Fault>) {
        let spot = spot_of(name_in(&act.what));
        note_if(best, !is_meant(scope, &act.what), scope.broken(3, spot));
    }
}

/// Names of which a part is not found (C3), or is not what is needed (C4).
pub fn lost_names(sources: &Sources, best: &mut Option<Fault>)
    ensures { best.new ≡ earliest best.old (rules.c3_c4 sources.now) }
{
    in_expressions(&Names, sources, best);
    in_statements(&Targets, sources, best);
    in_activities(&Activities, sources, best);
}
