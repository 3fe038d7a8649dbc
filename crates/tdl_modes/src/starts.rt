ghost use Rattle.std.specs.Prelude.{◌≡◌, [], ◌∷◌, Some, None, option_map, MatchOption};
ghost use Rattle.tdl_rules.specs.Earliest.{earliest};
ghost use Rattle.tdl_rules.specs.ModeRules as rules;
ghost use Rattle.tdl_modes.specs.Starts.{if_any};

use tdl_names::{Scope, Sources, spot_of};
use tdl_rules::Fault;
use tdl_tree::{Decl, Id};
use tdl_walk::{OnModule, in_modules, note_if};

/// The name of a start mode.
fn start_of(decl: &Decl) -> Option<&Id>
    ensures { if_any (option_map (λ id. id.now) result) ≡ rules.start_of decl.now }
{
    match decl {
        Decl::Mode {
            start: true,
            name,
            ..
        } => Some(name),
        _ => None,
    }
}

/// The start modes of a module.
struct Starts;

impl OnModule for Starts {
    ghost use Rattle.tdl_rules.specs.Lists.{each};
    ghost use Rattle.tdl_rules.specs.ModeRules.{start_of as starts_in, starts_broken};

    ghost gives = { λ _ scope. starts_broken scope (each starts_in scope.tree.decls) };

    #[tactic(auto, unfolding(tdl_rules::specs::Earliest::earliest))]
    fn at(&self, scope: &Scope, best: &mut Option<Fault>) {
        let tree = scope.module().tree();
        let mut is_started = false;
        let decls = tree.decls.as_slice();
        for decl in decls {
            if let Some(name) = start_of(decl) {
                note_if(best, is_started, scope.broken(12, spot_of(name)));
                is_started = true;
            }
        }
        note_if(best, !is_started, scope.broken(12, spot_of(&tree.name)));
    }
}

/// Modules without a start mode, and start modes after the first (C12).
pub fn wrong_starts(sources: &Sources, best: &mut Option<Fault>)
    ensures { best.new ≡ earliest best.old (rules.c12 sources.now) }
{
    in_modules(&Starts, sources, best);
}
