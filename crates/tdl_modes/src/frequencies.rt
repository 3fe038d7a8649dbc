ghost use Rattle.std.specs.Prelude.{◌≡◌};
ghost use Rattle.tdl_rules.specs.Earliest.{earliest};
ghost use Rattle.tdl_rules.specs.ModeRules as rules;

use tdl_names::{Scope, Sources, spot_of_number};
use tdl_rules::Fault;
use tdl_times::divides;
use tdl_tree::{Act, Time};
use tdl_walk::{OnActivity, in_activities, note_if};

/// The frequency of an activity.
struct Frequencies;

impl OnActivity for Frequencies {
    ghost use Rattle.tdl_rules.specs.ModeRules.{c10_activity};

    ghost gives = { λ _ scope period act. c10_activity scope period act };

    fn at(&self, scope: &Scope, period: &Time, act: &Act, best: &mut Option<Fault>) {
        let fault = scope.broken(10, spot_of_number(&act.freq));
        note_if(best, !divides(act.freq.value, period), fault);
    }
}

/// Frequencies that are 0, above 1,000, or do not divide the period (C10).
pub fn wrong_frequencies(sources: &Sources, best: &mut Option<Fault>)
    ensures { best.new ≡ earliest best.old (rules.c10 sources.now) }
{
    in_activities(&Frequencies, sources, best);
}
