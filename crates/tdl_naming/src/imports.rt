ghost use Rattle.std.specs.Prelude.{◌≡◌};
ghost use Rattle.tdl_rules.specs.Earliest.{earliest};
ghost use Rattle.tdl_rules.specs.NameRules as rules;

use tdl_names::{Scope, Sources, exporter_of, spot_of};
use tdl_rules::Fault;
use tdl_tree::Id;
use tdl_walk::{OnModule, in_modules, note_if};

/// An import.
fn note_import(scope: &Scope, id: &Id, best: &mut Option<Fault>)
    ensures { best.new ≡ earliest best.old (rules.c2_import scope.now id.now) }
{
    let is_found = exporter_of(scope, id.text.as_str()).is_some();
    note_if(best, !is_found, scope.broken(2, spot_of(id)));
}

/// The imports of a module.
struct Imports;

impl OnModule for Imports {
    ghost use Rattle.tdl_rules.specs.Lists.{each};
    ghost use Rattle.tdl_rules.specs.NameRules.{c2_import};

    ghost gives = { λ _ scope. each (c2_import scope) scope.tree.imports };

    #[tactic(auto, unfolding(tdl_rules::specs::Earliest::earliest))]
    fn at(&self, scope: &Scope, best: &mut Option<Fault>) {
        let imports = scope.module().tree().imports.as_slice();
        for id in imports {
            note_import(scope, id, best);
        }
    }
}

/// Imports that name no module of an earlier source (C2).
pub fn unknown_imports(sources: &Sources, best: &mut Option<Fault>)
    ensures { best.new ≡ earliest best.old (rules.c2 sources.now) }
{
    in_modules(&Imports, sources, best);
}
