ghost use Rattle.std.specs.Prelude.{◌≡◌};
ghost use Rattle.tdl_rules.specs.Earliest.{earliest};
ghost use Rattle.tdl_rules.specs.ModeRules as rules;

use tdl_names::{Entry, Scope, Sources, spot_of_number};
use tdl_rules::Fault;
use tdl_times::is_in_ten_seconds;
use tdl_tree::Decl;
use tdl_walk::{OnDeclaration, in_declarations, note_if};

/// The period of a mode.
struct Periods;

impl OnDeclaration for Periods {
    ghost use Rattle.tdl_rules.specs.ModeRules.{c9_declaration};

    ghost gives = { λ _ scope decl. c9_declaration scope decl };

    #[tactic(auto, unfolding(tdl_rules::specs::Earliest::earliest))]
    fn at<'b, 'a>(&self, scope: &Scope<'b, 'a>, entry: &Entry<'b, 'a>, best: &mut Option<Fault>) {
        if let Decl::Mode { period, .. } = entry.decl() {
            let fault = scope.broken(9, spot_of_number(&period.number));
            note_if(best, !is_in_ten_seconds(period), fault);
        }
    }
}

/// Periods below 1 us or above 10 s (C9).
pub fn wrong_periods(sources: &Sources, best: &mut Option<Fault>)
    ensures { best.new ≡ earliest best.old (rules.c9 sources.now) }
{
    in_declarations(&Periods, sources, best);
}
