ghost use Rattle.std.specs.Prelude.{◌≡◌};
ghost use Rattle.tdl_rules.specs.Earliest.{earliest};
ghost use Rattle.tdl_rules.specs.Lists.{each};
ghost use Rattle.tdl_rules.specs.ModeRules as rules;

use tdl_names::{Scope, Sources, mode_of, spot_of};
use tdl_rules::Fault;
use tdl_tree::{Act, ActKind, Decl};
use tdl_walk::{OnModule, in_modules, note_if};

/// An activity of the mode that is declaration `mode`.
#[tactic(auto, unfolding(tdl_rules::specs::Earliest::earliest))]
fn own_target(scope: &Scope, mode: usize, what: &ActKind, best: &mut Option<Fault>)
    ensures { best.new ≡ earliest best.old (rules.c16_activity scope.now mode what.now) }
{
    match what {
        ActKind::Task { .. } => {}
        ActKind::Update { .. } => {}
        ActKind::Switch { target } => {
            let is_own = mode_of(scope.module(), target) == Some(mode);
            note_if(best, is_own, scope.broken(16, spot_of(target)));
        }
    }
}

/// The activities of the mode that is declaration `mode`.
#[tactic(auto, unfolding(tdl_rules::specs::Earliest::earliest))]
fn of_mode(scope: &Scope, mode: usize, acts: &[Act], best: &mut Option<Fault>)
    ensures { best.new ≡ earliest best.old (each
        (λ act. rules.c16_activity scope.now mode act.what) acts.now) }
{
    for act in acts {
        own_target(scope, mode, &act.what, best);
    }
}

/// A declaration with its number.
#[tactic(auto, unfolding(tdl_rules::specs::Earliest::earliest))]
fn of_declaration(scope: &Scope, number: usize, decl: &Decl, best: &mut Option<Fault>)
    ensures { best.new ≡ earliest best.old (rules.c16_mode scope.now (number, decl.now)) }
{
    if let Decl::Mode { acts, .. } = decl {
        of_mode(scope, number, acts.as_slice(), best);
    }
}

/// The switches of a module.
struct Targets;

impl OnModule for Targets {
    ghost use Rattle.tdl_base.specs.Lists.{numbered};
    ghost use Rattle.tdl_rules.specs.Lists.{each};
    ghost use Rattle.tdl_rules.specs.ModeRules.{c16_mode};

    ghost gives = { λ _ scope. each (c16_mode scope)
        (numbered 0 (λ k d. (k, d)) scope.tree.decls) };

    #[tactic(auto, unfolding(tdl_rules::specs::Earliest::earliest))]
    fn at(&self, scope: &Scope, best: &mut Option<Fault>) {
        for number in 0..scope.module().tree().decls.len() {
            let Some(entry) = scope.module().entry(number) else {
                return;
            };
            of_declaration(scope, number, entry.decl(), best);
        }
    }
}

/// Switches that name their own mode (C16).
pub fn own_targets(sources: &Sources, best: &mut Option<Fault>)
    ensures { best.new ≡ earliest best.old (rules.c16 sources.now) }
{
    in_modules(&Targets, sources, best);
}
