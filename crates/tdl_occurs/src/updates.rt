ghost use Rattle.std.specs.Prelude.{◌≡◌, map};
ghost use Rattle.tdl_rules.specs.Earliest.{earliest};
ghost use Rattle.tdl_rules.specs.Lists.{each, clashes_after};
ghost use Rattle.tdl_rules.specs.ModeRules as rules;
ghost use Rattle.tdl_rules.specs.Naming.{spot_of as spot};
ghost use Rattle.tdl_rules.specs.Parts.{broken};
ghost use Rattle.tdl_rules.specs.Times.{time_us};
ghost use Rattle.tdl_slots.specs.Choices.{offsets_in};
ghost use Rattle.tdl_occurs.specs.Invocations.{updates, is_met};

use tdl_names::{Scope, Sources, actuator_of, spot_of};
use tdl_rules::Fault;
use tdl_slots::{Chosen, OnOffset, chosen_by};
use tdl_tree::{Act, ActKind, Id, Time};
use tdl_walk::{OnMode, in_modes, is_past, note_if};

/// An offset that is this one.
#[derive(Drop)]
struct Same {
    offset: u64,
}

impl OnOffset for Same {
    ghost use Rattle.std.specs.Prelude.{◌==◌};

    ghost passes = { λ it offset. offset == it.offset };

    fn test(&self, offset: u64) -> bool {
        offset == self.offset
    }
}

/// An offset that is one of an earlier activity.
#[derive(Drop)]
struct Again<'a> {
    earlier: Chosen<'a>,
}

impl<'a> OnOffset for Again<'a> {
    ghost use Rattle.std.specs.List.{list_any};
    ghost use Rattle.tdl_slots.specs.Choices.{offsets_in};
    ghost use Rattle.tdl_occurs.specs.Invocations.{is_same};

    ghost passes = { λ it offset. list_any (λ earlier. is_same earlier offset)
        (offsets_in it.earlier) };

    fn test(&self, offset: u64) -> bool {
        self.earlier.any_offset(&Same { offset })
    }
}

/// Whether updates of an actuator, which is declaration `actuator`, stand where an earlier activity
/// has one.
fn update_again(
    scope: &Scope,
    period: &Time,
    earlier: &Act,
    actuator: usize,
    name: &Id,
    offsets: &Chosen,
) -> bool
    ensures { result ≡ is_met rules.same_update
        (rules.updated scope.now (time_us period.now) earlier.now earlier.now.what)
        (updates actuator name.now (offsets_in offsets.now)) }
{
    match &earlier.what {
        ActKind::Task { .. } => false,
        ActKind::Update {
            actuator: other,
            ..
        } => {
            let Some((number, _)) = actuator_of(scope.module(), other) else {
                return false;
            };
            if number != actuator {
                return false;
            }
            offsets.any_offset(&Again {
                earlier: chosen_by(period, earlier),
            })
        }
        ActKind::Switch { .. } => false,
    }
}

/// Whether updates of an actuator stand where an earlier activity of their mode has one.
fn update_any(
    scope: &Scope,
    period: &Time,
    earlier: &[Act],
    actuator: usize,
    name: &Id,
    offsets: &Chosen,
) -> bool
    ensures { result ≡ is_met rules.same_update
        (each (λ act. rules.updated scope.now (time_us period.now) act act.what) earlier.now)
        (updates actuator name.now (offsets_in offsets.now)) }
{
    for act in earlier {
        if update_again(scope, period, act, actuator, name, offsets) {
            return true;
        }
    }
    false
}

/// An activity of a mode, after the earlier ones. One behind the best fault so far is passed over.
#[tactic(auto, unfolding(tdl_rules::specs::Earliest::earliest))]
fn of_activity(scope: &Scope, period: &Time, earlier: &[Act], act: &Act, best: &mut Option<Fault>)
    ensures { best.new ≡ earliest best.old (map (λ u. broken 14 scope.now.file (spot u.name))
        (clashes_after rules.same_update
        (each (λ a. rules.updated scope.now (time_us period.now) a a.what) earlier.now)
        (rules.updated scope.now (time_us period.now) act.now act.now.what))) }
{
    match &act.what {
        ActKind::Task { .. } => {}
        ActKind::Update { actuator, .. } => {
            let Some((number, _)) = actuator_of(scope.module(), actuator) else {
                return;
            };
            let offsets = chosen_by(period, act);
            let fault = scope.broken(14, spot_of(actuator));
            if is_past(best, fault) {
                return;
            }
            let again = update_any(scope, period, earlier, number, actuator, &offsets);
            note_if(best, again, fault);
        }
        ActKind::Switch { .. } => {}
    }
}

/// The updates of a mode.
struct Updates;

impl OnMode for Updates {
    ghost use Rattle.tdl_rules.specs.ModeRules.{c14_mode};

    ghost gives = { λ _ scope period acts. c14_mode scope period acts };

    #[tactic(auto, unfolding(tdl_rules::specs::Earliest::earliest))]
    fn at(&self, scope: &Scope, period: &Time, acts: &[Act], best: &mut Option<Fault>) {
        for number in 0..acts.len() {
            of_activity(scope, period, &acts[..number], &acts[number], best);
        }
    }
}

/// Actuators that are updated twice at one offset of a mode (C14).
pub fn overlapping_updates(sources: &Sources, best: &mut Option<Fault>)
    ensures { best.new ≡ earliest best.old (rules.c14 sources.now) }
{
    in_modes(&Updates, sources, best);
}
