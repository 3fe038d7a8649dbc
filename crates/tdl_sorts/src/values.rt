ghost use Rattle.std.specs.Prelude.{◌≡◌};
ghost use Rattle.tdl_rules.specs.Earliest.{earliest};
ghost use Rattle.tdl_rules.specs.Naming.{inputs};
ghost use Rattle.tdl_rules.specs.SortRules as rules;

use crate::needs::needs;
use tdl_names::{Scope, actuator_of, input_count, is_input, is_truth, task_of};
use tdl_rules::Fault;
use tdl_tree::{Act, ActKind, ExprTree, PortDecl, Time};
use tdl_walk::OnActivity;

/// The arguments against the inputs among a task's ports, side by side.
fn arguments_need(scope: &Scope, args: &[ExprTree], ports: &[PortDecl], best: &mut Option<Fault>)
    ensures { best.new ≡ earliest best.old
        (rules.arguments_need scope.now args.now (inputs ports.now)) }
{
    let mut rest = args;
    for port in ports {
        if is_input(port) {
            let [argument, more @ ..] = rest else {
                return;
            };
            needs(scope, argument, is_truth(port.kind), best);
            rest = more;
        }
    }
}

/// What an activity computes.
#[tactic(auto, unfolding(tdl_rules::specs::Earliest::earliest))]
fn what_needs(scope: &Scope, what: &ActKind, best: &mut Option<Fault>)
    ensures { best.new ≡ earliest best.old (rules.what_needs scope.now what.now) }
{
    match what {
        ActKind::Task { task, args } => {
            if let Some(invoked) = task_of(scope.module(), task) {
                if args.len() == input_count(invoked.ports) {
                    arguments_need(scope, args.as_slice(), invoked.ports, best);
                }
            }
        }
        ActKind::Update { actuator, value } => {
            if let Some((_, kind)) = actuator_of(scope.module(), actuator) {
                needs(scope, value, is_truth(kind), best);
            }
        }
        ActKind::Switch { .. } => {}
    }
}

/// The guard, where there is one.
#[tactic(auto, unfolding(tdl_rules::specs::Earliest::earliest))]
fn guard_needs(scope: &Scope, guard: &Option<ExprTree>, best: &mut Option<Fault>)
    ensures { best.new ≡ earliest best.old (rules.guard_needs scope.now guard.now) }
{
    if let Some(guard) = guard {
        needs(scope, guard, true, best);
    }
}

/// The expressions of activities.
pub(crate) struct Activities;

impl OnActivity for Activities {
    ghost use Rattle.tdl_rules.specs.SortRules.{c5_activity};

    ghost gives = { λ _ scope period act. c5_activity scope period act };

    fn at(&self, scope: &Scope, _period: &Time, act: &Act, best: &mut Option<Fault>) {
        what_needs(scope, &act.what, best);
        guard_needs(scope, &act.guard, best);
    }
}
