ghost use Rattle.std.specs.Prelude.{◌≡◌};
ghost use Rattle.tdl_rules.specs.Earliest.{earliest};
ghost use Rattle.tdl_rules.specs.SortRules as rules;

use crate::needs::needs;
use std::slice;
use tdl_names::{Scope, found_in, is_truth};
use tdl_rules::{Fault, Found};
use tdl_tree::{ExprTree, StmtTree};
use tdl_walk::OnStatement;

/// A value that is assigned to what a name means, where it is found.
#[tactic(auto, unfolding(tdl_rules::specs::Earliest::earliest))]
fn needs_kind(scope: &Scope, value: &ExprTree, found: Found, best: &mut Option<Fault>)
    ensures { best.new ≡ earliest best.old (rules.needs_kind scope.now value.now found) }
{
    match found {
        Found::Is { kind, .. } => needs(scope, value, is_truth(kind), best),
        Found::Lost { .. } => {}
        Found::Unknown => {}
    }
}

/// The assigned values and the conditions.
pub(crate) struct Statements;

impl OnStatement for Statements {
    ghost use Rattle.tdl_rules.specs.SortRules.{c5_statement};

    ghost gives = { λ _ scope statement. c5_statement scope statement };

    #[tactic(auto, unfolding(tdl_rules::specs::Earliest::earliest))]
    fn at(&self, scope: &Scope, statement: &StmtTree, best: &mut Option<Fault>) {
        match statement {
            StmtTree::Assign { target, value } => {
                needs_kind(scope, value, found_in(scope, slice::from_ref(target)), best);
            }
            StmtTree::If { cond, .. } => needs(scope, cond, true, best),
            StmtTree::Repeat { .. } => {}
        }
    }
}
