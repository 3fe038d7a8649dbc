ghost use Rattle.std.specs.Prelude.{◌≡◌};
ghost use Rattle.tdl_rules.specs.Earliest.{earliest};
ghost use Rattle.tdl_rules.specs.NameRules as rules;

use std::slice;
use tdl_names::{Scope, Sources, found_in, is_input, spot_of};
use tdl_rules::{Fault, Found, Target};
use tdl_tree::StmtTree;
use tdl_walk::{OnStatement, in_statements, note_if};

/// Whether what a name means is found, and no value can be assigned to it.
fn is_no_target(scope: &Scope, found: Found) -> bool
    ensures { result ≡ rules.no_target scope.now.body found }
{
    let Found::Is { target, .. } = found else {
        return false;
    };
    let Target::Port(number) = target else {
        return true;
    };
    let Some(ports) = scope.body() else {
        return true;
    };
    match ports.get(number) {
        None => false,
        Some(port) => is_input(port),
    }
}

/// The target of an assignment.
struct Targets;

impl OnStatement for Targets {
    ghost use Rattle.tdl_rules.specs.NameRules.{c6_statement};

    ghost gives = { λ _ scope statement. c6_statement scope statement };

    #[tactic(auto, unfolding(tdl_rules::specs::Earliest::earliest))]
    fn at(&self, scope: &Scope, statement: &StmtTree, best: &mut Option<Fault>) {
        match statement {
            StmtTree::Assign { target, .. } => {
                let found = found_in(scope, slice::from_ref(target));
                let fault = scope.broken(6, spot_of(target));
                note_if(best, is_no_target(scope, found), fault);
            }
            StmtTree::If { .. } => {}
            StmtTree::Repeat { .. } => {}
        }
    }
}

/// Targets of assignments that are an input or a constant (C6).
pub fn unassignable_targets(sources: &Sources, best: &mut Option<Fault>)
    ensures { best.new ≡ earliest best.old (rules.c6 sources.now) }
{
    in_statements(&Targets, sources, best);
}
