ghost use Rattle.std.specs.Prelude.{◌≡◌};
ghost use Rattle.tdl_rules.specs.Earliest.{earliest};
ghost use Rattle.tdl_rules.specs.Lists.{each};
ghost use Rattle.tdl_rules.specs.Parts as parts;

use tdl_names::{Entry, Scope, Sources};
use tdl_rules::Fault;

/// A rule on whole modules.
pub trait OnModule {
    ghost use Rattle.std.specs.Prelude.{List};
    ghost use Rattle.tdl_rules.specs.declared.fault.Fault.{Fault};
    ghost use Rattle.tdl_rules.specs.Naming.{Scope as Standing};

    /// The faults of one module.
    ghost gives: { Self → Standing → List Fault };

    /// Notes the faults of the module in which the scope stands, outside of bodies.
    fn at(&self, scope: &Scope, best: &mut Option<Fault>)
        ensures { best.new ≡ earliest best.old (gives self.now scope.now) };
}

/// A rule at each module.
#[tactic(auto, unfolding(tdl_rules::specs::Earliest::earliest))]
pub fn in_modules<R: OnModule>(rule: &R, sources: &Sources, best: &mut Option<Fault>)
    ensures { best.new ≡ earliest best.old (each (R.gives rule.now) (parts.modules sources.now)) }
{
    for file in 0..sources.len() {
        let Some(scope) = sources.scope(file) else {
            return;
        };
        rule.at(&scope, best);
    }
}

/// A rule on declarations.
pub trait OnDeclaration {
    ghost use Rattle.std.specs.Prelude.{List};
    ghost use Rattle.tdl_rules.specs.declared.fault.Fault.{Fault};
    ghost use Rattle.tdl_rules.specs.Naming.{Scope as Standing};
    ghost use Rattle.tdl_tree.specs.declared.declarations.Decl.{Decl};

    /// The faults at one declaration of the module in which the scope stands.
    ghost gives: { Self → Standing → Decl → List Fault };

    /// Notes the faults at one declaration.
    fn at<'b, 'a>(&self, scope: &Scope<'b, 'a>, entry: &Entry<'b, 'a>, best: &mut Option<Fault>)
        ensures { best.new ≡ earliest best.old (gives self.now scope.now entry.now) };
}

/// A rule at each declaration of a module.
#[derive(Drop)]
struct AtDeclarations<'r, R> {
    rule: &'r R,
}

impl<'r, R: OnDeclaration> OnModule for AtDeclarations<'r, R> {
    ghost gives = { λ it scope. each (R.gives it.rule.now scope) scope.tree.decls };

    #[tactic(auto, unfolding(tdl_rules::specs::Earliest::earliest))]
    fn at(&self, scope: &Scope, best: &mut Option<Fault>) {
        for number in 0..scope.module().tree().decls.len() {
            let Some(entry) = scope.module().entry(number) else {
                return;
            };
            self.rule.at(scope, &entry, best);
        }
    }
}

/// A rule at each declaration of each module.
pub fn in_declarations<R: OnDeclaration>(rule: &R, sources: &Sources, best: &mut Option<Fault>)
    ensures { best.new ≡ earliest best.old (parts.in_declarations (R.gives rule.now) sources.now) }
{
    in_modules(&AtDeclarations { rule }, sources, best);
}
