ghost use Rattle.std.specs.Prelude.{◌≡◌};
ghost use Rattle.tdl_rules.specs.Earliest.{earliest};
ghost use Rattle.tdl_rules.specs.NameRules as rules;

use tdl_names::{Scope, Sources, input_count, spot_of, task_of};
use tdl_rules::Fault;
use tdl_tree::{Act, ActKind, Time};
use tdl_walk::{OnActivity, in_activities, note_if};

/// The arguments of an activity.
struct Arguments;

impl OnActivity for Arguments {
    ghost use Rattle.tdl_rules.specs.NameRules.{c7_what};

    ghost gives = { λ _ scope period act. c7_what scope act.what };

    #[tactic(auto, unfolding(tdl_rules::specs::Earliest::earliest))]
    fn at(&self, scope: &Scope, _period: &Time, act: &Act, best: &mut Option<Fault>) {
        match &act.what {
            ActKind::Task { task, args } => {
                let Some(invoked) = task_of(scope.module(), task) else {
                    return;
                };
                let differ = args.len() != input_count(invoked.ports);
                note_if(best, differ, scope.broken(7, spot_of(task)));
            }
            ActKind::Update { .. } => {}
            ActKind::Switch { .. } => {}
        }
    }
}

/// Activities whose arguments are not as many as their task's inputs (C7).
pub fn wrong_argument_counts(sources: &Sources, best: &mut Option<Fault>)
    ensures { best.new ≡ earliest best.old (rules.c7 sources.now) }
{
    in_activities(&Arguments, sources, best);
}
