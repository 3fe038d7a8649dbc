ghost use Rattle.std.specs.Prelude.{◌≡◌, ◌-◌, nat_lt};
ghost use Rattle.std.specs.List.{list_any};
ghost use Rattle.tdl_rules.specs.Earliest.{earliest};
ghost use Rattle.tdl_rules.specs.ModeRules as rules;
ghost use Rattle.tdl_rules.specs.Times.{lets, time_us};

use tdl_names::{Entry, Scope, Sources, spot_of, spot_of_number, task_of};
use tdl_rules::Fault;
use tdl_slots::{OnSpan, chosen_by};
use tdl_times::{capped_us, is_in_ten_seconds};
use tdl_tree::{Act, ActKind, Decl, Time};
use tdl_walk::{OnActivity, OnDeclaration, in_activities, in_declarations, note_if};

/// The worst case of a task.
struct WorstCases;

impl OnDeclaration for WorstCases {
    ghost use Rattle.tdl_rules.specs.ModeRules.{c17_declaration};

    ghost gives = { λ _ scope decl. c17_declaration scope decl };

    #[tactic(auto, unfolding(tdl_rules::specs::Earliest::earliest))]
    fn at<'b, 'a>(&self, scope: &Scope<'b, 'a>, entry: &Entry<'b, 'a>, best: &mut Option<Fault>) {
        if let Decl::Task { worst, .. } = entry.decl() {
            let fault = scope.broken(17, spot_of_number(&worst.number));
            note_if(best, !is_in_ten_seconds(worst), fault);
        }
    }
}

/// A logical execution time that is shorter than a worst case.
#[derive(Drop)]
struct Short {
    worst: Time,
}

impl OnSpan for Short {
    ghost use Rattle.std.specs.Prelude.{nat_lt, ◌-◌};
    ghost use Rattle.tdl_rules.specs.Times.{time_us};

    ghost passes = { λ it span. nat_lt (span.e - span.s) (time_us it.worst) };

    fn test(&self, start: u64, end: u64) -> bool {
        end.saturating_sub(start) < capped_us(&self.worst)
    }
}

/// Whether a logical execution time of a task's activity is shorter than a worst case.
fn has_short(period: &Time, act: &Act, worst: Time) -> bool
    ensures { result ≡ list_any (λ span. nat_lt (span.e - span.s) (time_us worst)) (lets
        (time_us period.now) act.now) }
{
    chosen_by(period, act).any_span(&Short { worst })
}

/// The logical execution times of a task.
struct ShortSpans;

impl OnActivity for ShortSpans {
    ghost use Rattle.tdl_rules.specs.ModeRules.{c17_what};

    ghost gives = { λ _ scope period act. c17_what scope period act act.what };

    #[tactic(auto, unfolding(tdl_rules::specs::Earliest::earliest))]
    fn at(&self, scope: &Scope, period: &Time, act: &Act, best: &mut Option<Fault>) {
        match &act.what {
            ActKind::Task { task, .. } => {
                let Some(invoked) = task_of(scope.module(), task) else {
                    return;
                };
                let is_short = has_short(period, act, invoked.worst);
                note_if(best, is_short, scope.broken(17, spot_of(task)));
            }
            ActKind::Update { .. } => {}
            ActKind::Switch { .. } => {}
        }
    }
}

/// Worst cases below 1 us or above 10 s, and tasks of which a logical execution time is shorter
/// (C17).
pub fn wrong_worst_cases(sources: &Sources, best: &mut Option<Fault>)
    ensures { best.new ≡ earliest best.old (rules.c17 sources.now) }
{
    in_declarations(&WorstCases, sources, best);
    in_activities(&ShortSpans, sources, best);
}
