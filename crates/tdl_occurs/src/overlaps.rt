ghost use Rattle.std.specs.Prelude.{◌≡◌, map};
ghost use Rattle.std.specs.List.{list_any};
ghost use Rattle.tdl_rules.specs.Earliest.{earliest};
ghost use Rattle.tdl_rules.specs.Lists.{each, clashes_after};
ghost use Rattle.tdl_rules.specs.ModeRules as rules;
ghost use Rattle.tdl_rules.specs.Naming.{spot_of as spot};
ghost use Rattle.tdl_rules.specs.Parts.{broken};
ghost use Rattle.tdl_rules.specs.Times.{time_us};
ghost use Rattle.tdl_slots.specs.Choices.{spans_in};
ghost use Rattle.tdl_occurs.specs.Invocations.{invocations, is_met};

use tdl_names::{Scope, Sources, spot_of, task_of};
use tdl_rules::Fault;
use tdl_slots::{Chosen, OnSpan, chosen_by};
use tdl_tree::{Act, ActKind, Id, Time};
use tdl_walk::{OnMode, in_modes, is_past, note_if};

/// A logical execution time that overlaps the one from `start` to before `end`.
#[derive(Drop)]
struct Overlap {
    start: u64,
    end: u64,
}

impl OnSpan for Overlap {
    ghost use Rattle.std.specs.Prelude.{◌&&◌, nat_lt};

    ghost passes = { λ it span. nat_lt span.s it.end && nat_lt it.start span.e };

    fn test(&self, start: u64, end: u64) -> bool {
        start < self.end && self.start < end
    }
}

/// A logical execution time that overlaps one of an earlier activity.
#[derive(Drop)]
struct Meets<'a> {
    earlier: Chosen<'a>,
}

impl<'a> OnSpan for Meets<'a> {
    ghost use Rattle.std.specs.List.{list_any};
    ghost use Rattle.tdl_slots.specs.Choices.{spans_in};
    ghost use Rattle.tdl_occurs.specs.Invocations.{spans_overlap};

    ghost passes = { λ it span. list_any (λ earlier. spans_overlap earlier span)
        (spans_in it.earlier) };

    fn test(&self, start: u64, end: u64) -> bool {
        self.earlier.any_span(&Overlap { start, end })
    }
}

/// Whether invocations of a task, which is declaration `task`, overlap one by an earlier activity.
fn overlap_one(
    scope: &Scope,
    period: &Time,
    earlier: &Act,
    task: usize,
    name: &Id,
    spans: &Chosen,
) -> bool
    ensures { result ≡ is_met rules.overlap
        (rules.invoked scope.now (time_us period.now) earlier.now earlier.now.what)
        (invocations task name.now (spans_in spans.now)) }
{
    match &earlier.what {
        ActKind::Task { task: other, .. } => {
            let Some(invoked) = task_of(scope.module(), other) else {
                return false;
            };
            if invoked.number != task {
                return false;
            }
            spans.any_span(&Meets {
                earlier: chosen_by(period, earlier),
            })
        }
        ActKind::Update { .. } => false,
        ActKind::Switch { .. } => false,
    }
}

/// Whether invocations of a task overlap one by an earlier activity of their mode.
fn overlap_any(
    scope: &Scope,
    period: &Time,
    earlier: &[Act],
    task: usize,
    name: &Id,
    spans: &Chosen,
) -> bool
    ensures { result ≡ is_met rules.overlap
        (each (λ act. rules.invoked scope.now (time_us period.now) act act.what) earlier.now)
        (invocations task name.now (spans_in spans.now)) }
{
    for act in earlier {
        if overlap_one(scope, period, act, task, name, spans) {
            return true;
        }
    }
    false
}

/// An activity of a mode, after the earlier ones. One behind the best fault so far is passed over.
#[tactic(auto, unfolding(tdl_rules::specs::Earliest::earliest))]
fn of_activity(scope: &Scope, period: &Time, earlier: &[Act], act: &Act, best: &mut Option<Fault>)
    ensures { best.new ≡ earliest best.old (map (λ i. broken 13 scope.now.file (spot i.name))
        (clashes_after rules.overlap (each (λ a. rules.invoked scope.now
        (time_us period.now) a a.what) earlier.now)
        (rules.invoked scope.now (time_us period.now) act.now act.now.what))) }
{
    match &act.what {
        ActKind::Task { task, .. } => {
            let Some(invoked) = task_of(scope.module(), task) else {
                return;
            };
            let spans = chosen_by(period, act);
            let fault = scope.broken(13, spot_of(task));
            if is_past(best, fault) {
                return;
            }
            let overlaps = overlap_any(scope, period, earlier, invoked.number, task, &spans);
            note_if(best, overlaps, fault);
        }
        ActKind::Update { .. } => {}
        ActKind::Switch { .. } => {}
    }
}

/// The invocations of a mode.
struct Invocations;

impl OnMode for Invocations {
    ghost use Rattle.tdl_rules.specs.ModeRules.{c13_mode};

    ghost gives = { λ _ scope period acts. c13_mode scope period acts };

    #[tactic(auto, unfolding(tdl_rules::specs::Earliest::earliest))]
    fn at(&self, scope: &Scope, period: &Time, acts: &[Act], best: &mut Option<Fault>) {
        for number in 0..acts.len() {
            of_activity(scope, period, &acts[..number], &acts[number], best);
        }
    }
}

/// Invocations of one task in one mode that overlap (C13).
pub fn overlapping_invocations(sources: &Sources, best: &mut Option<Fault>)
    ensures { best.new ≡ earliest best.old (rules.c13 sources.now) }
{
    in_modes(&Invocations, sources, best);
}
