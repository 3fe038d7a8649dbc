ghost use Rattle.std.specs.Prelude.{◌≡◌};
ghost use Rattle.std.specs.List.{list_any};
ghost use Rattle.tdl_rules.specs.Earliest.{earliest};
ghost use Rattle.tdl_rules.specs.ModeRules as rules;
ghost use Rattle.tdl_rules.specs.Times.{time_us};
ghost use Rattle.tdl_slots.specs.Choices.{offsets_in};

use tdl_names::{Scope, Sources, spot_of};
use tdl_rules::Fault;
use tdl_slots::{Chosen, OnOffset, chosen_by};
use tdl_tree::{Act, ActKind, Time};
use tdl_walk::{OnMode, in_modes, is_past, note_if};

/// An offset that stands inside an invocation of a task.
#[derive(Drop)]
struct Cut<'a> {
    invoked: Chosen<'a>,
}

impl<'a> OnOffset for Cut<'a> {
    ghost use Rattle.tdl_rules.specs.ModeRules.{cuts};
    ghost use Rattle.tdl_slots.specs.Choices.{spans_in};

    ghost passes = { λ it offset. cuts (spans_in it.invoked) offset };

    fn test(&self, offset: u64) -> bool {
        self.invoked.is_inside(offset)
    }
}

/// Whether a switch cuts an invocation by an activity of its mode.
fn is_cut_by(period: &Time, switched: &Chosen, act: &Act) -> bool
    ensures { result ≡ list_any (rules.cuts (rules.task_lets
        (time_us period.now) act.now act.now.what)) (offsets_in switched.now) }
{
    match &act.what {
        ActKind::Task { .. } => switched.any_offset(&Cut {
            invoked: chosen_by(period, act),
        }),
        ActKind::Update { .. } => false,
        ActKind::Switch { .. } => false,
    }
}

/// Whether a switch cuts an invocation of its mode.
fn is_cut(period: &Time, switched: &Chosen, acts: &[Act]) -> bool
    ensures { result ≡ list_any (rules.cuts (rules.mode_lets (time_us period.now) acts.now))
        (offsets_in switched.now) }
{
    for act in acts {
        if is_cut_by(period, switched, act) {
            return true;
        }
    }
    false
}

/// An activity of a mode. One behind the best fault so far is passed over.
#[tactic(auto, unfolding(tdl_rules::specs::Earliest::earliest))]
fn of_activity(scope: &Scope, period: &Time, acts: &[Act], act: &Act, best: &mut Option<Fault>)
    ensures { best.new ≡ earliest best.old
        (rules.c15_activity scope.now (time_us period.now) (rules.mode_lets
        (time_us period.now) acts.now) act.now act.now.what) }
{
    match &act.what {
        ActKind::Task { .. } => {}
        ActKind::Update { .. } => {}
        ActKind::Switch { target } => {
            let fault = scope.broken(15, spot_of(target));
            if is_past(best, fault) {
                return;
            }
            let switched = chosen_by(period, act);
            note_if(best, is_cut(period, &switched, acts), fault);
        }
    }
}

/// The switches of a mode.
struct Switches;

impl OnMode for Switches {
    ghost use Rattle.tdl_rules.specs.ModeRules.{c15_mode};

    ghost gives = { λ _ scope period acts. c15_mode scope period acts };

    #[tactic(auto, unfolding(tdl_rules::specs::Earliest::earliest))]
    fn at(&self, scope: &Scope, period: &Time, acts: &[Act], best: &mut Option<Fault>) {
        for act in acts {
            of_activity(scope, period, acts, act, best);
        }
    }
}

/// Switches that stand inside an invocation of their mode (C15).
pub fn cutting_switches(sources: &Sources, best: &mut Option<Fault>)
    ensures { best.new ≡ earliest best.old (rules.c15 sources.now) }
{
    in_modes(&Switches, sources, best);
}
