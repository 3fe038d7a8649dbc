ghost use Rattle.std.specs.Prelude.{◌≡◌};
ghost use Rattle.tdl_rules.specs.Earliest.{earliest};
ghost use Rattle.tdl_rules.specs.SortRules as rules;

use crate::assigned::Statements;
use crate::literals::{OnLiteral, in_literals};
use crate::needs::differs;
use crate::operands::Operands;
use crate::values::Activities;
use tdl_base::Kind;
use tdl_names::{Scope, Sources, is_truth, spot_of_literal};
use tdl_rules::Fault;
use tdl_tree::{Lit, LitValue};
use tdl_walk::{in_activities, in_expressions, in_statements, note_if};

/// The literals of declarations.
struct Literals;

impl OnLiteral for Literals {
    ghost use Rattle.tdl_rules.specs.SortRules.{c5_literal};

    ghost gives = { λ _ scope literal. c5_literal scope.file literal.0 literal.1 };

    fn at(&self, scope: &Scope, kind: Kind, literal: Lit, best: &mut Option<Fault>) {
        let truth = matches!(literal.value, LitValue::Truth(_));
        let fault = scope.broken(5, spot_of_literal(&literal));
        note_if(best, differs(Some(truth), is_truth(kind)), fault);
    }
}

/// Booleans where a number is needed, and the reverse (C5).
pub fn wrong_sorts(sources: &Sources, best: &mut Option<Fault>)
    ensures { best.new ≡ earliest best.old (rules.c5 sources.now) }
{
    in_expressions(&Operands, sources, best);
    in_statements(&Statements, sources, best);
    in_activities(&Activities, sources, best);
    in_literals(&Literals, sources, best);
}
