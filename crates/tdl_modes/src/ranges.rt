ghost use Rattle.std.specs.Prelude.{◌≡◌};
ghost use Rattle.tdl_rules.specs.Earliest.{earliest};
ghost use Rattle.tdl_rules.specs.ModeRules as rules;

use tdl_names::{Scope, Sources, spot_of_number};
use tdl_rules::Fault;
use tdl_times::bad_range;
use tdl_tree::{Act, Time};
use tdl_walk::{OnActivity, in_activities, note};

/// The ranges of an activity.
struct Ranges;

impl OnActivity for Ranges {
    ghost use Rattle.tdl_rules.specs.ModeRules.{c11_activity};

    ghost gives = { λ _ scope period act. c11_activity scope period act };

    #[tactic(auto, unfolding(tdl_rules::specs::Earliest::earliest))]
    fn at(&self, scope: &Scope, _period: &Time, act: &Act, best: &mut Option<Fault>) {
        match bad_range(act.freq.value, act.slots.as_slice()) {
            None => {}
            Some(range) => note(best, scope.broken(11, spot_of_number(&range.first))),
        }
    }
}

/// Ranges of slots that are not in order or go past the frequency (C11).
pub fn wrong_ranges(sources: &Sources, best: &mut Option<Fault>)
    ensures { best.new ≡ earliest best.old (rules.c11 sources.now) }
{
    in_activities(&Ranges, sources, best);
}
