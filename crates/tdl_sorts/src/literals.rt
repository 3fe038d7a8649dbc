ghost use Rattle.std.specs.Prelude.{◌≡◌};
ghost use Rattle.tdl_rules.specs.Earliest.{earliest};
ghost use Rattle.tdl_rules.specs.Lists.{each};
ghost use Rattle.tdl_rules.specs.Parts as parts;
ghost use Rattle.tdl_rules.specs.SortRules as rules;

use tdl_base::Kind;
use tdl_names::{Entry, Scope, Sources};
use tdl_rules::Fault;
use tdl_tree::{Decl, Lit, PortDecl};
use tdl_walk::{OnDeclaration, in_declarations};

/// A rule on literals.
pub(crate) trait OnLiteral {
    ghost use Rattle.std.specs.Prelude.{List};
    ghost use Rattle.tdl_base.specs.declared.kinds.Kind.{Kind};
    ghost use Rattle.tdl_rules.specs.declared.fault.Fault.{Fault};
    ghost use Rattle.tdl_rules.specs.Naming.{Scope as Standing};
    ghost use Rattle.tdl_tree.specs.declared.names.Lit.{Lit};

    /// The faults at one literal, with the kind that it is for.
    ghost gives: { Self → Standing → Kind × Lit → List Fault };

    /// Notes the faults at one literal.
    fn at(&self, scope: &Scope, kind: Kind, literal: Lit, best: &mut Option<Fault>)
        ensures { best.new ≡ earliest best.old (gives self.now scope.now (kind, literal)) };
}

/// A rule at an initial literal, where there is one.
#[tactic(auto, unfolding(tdl_rules::specs::Earliest::earliest))]
fn on_initial<R: OnLiteral>(
    rule: &R,
    scope: &Scope,
    kind: Kind,
    initial: Option<Lit>,
    best: &mut Option<Fault>,
)
    ensures { best.new ≡ earliest best.old
        (each (R.gives rule.now scope.now) (rules.initial_of kind initial)) }
{
    if let Some(literal) = initial {
        rule.at(scope, kind, literal, best);
    }
}

/// A rule at the initial literals of a task's ports.
#[tactic(auto, unfolding(tdl_rules::specs::Earliest::earliest))]
fn on_ports<R: OnLiteral>(rule: &R, scope: &Scope, ports: &[PortDecl], best: &mut Option<Fault>)
    ensures { best.new ≡ earliest best.old (each (R.gives rule.now scope.now)
        (each (λ port. rules.initial_of port.kind port.initial) ports.now)) }
{
    for port in ports {
        on_initial(rule, scope, port.kind, port.initial, best);
    }
}

/// A rule at the literals of declarations.
#[derive(Drop)]
struct AtLiterals<'r, R> {
    rule: &'r R,
}

impl<'r, R: OnLiteral> OnDeclaration for AtLiterals<'r, R> {
    ghost use Rattle.tdl_rules.specs.Lists.{each};
    ghost use Rattle.tdl_rules.specs.SortRules.{literals};

    ghost gives = { λ it scope decl. each (R.gives it.rule.now scope) (literals decl) };

    #[tactic(auto, unfolding(tdl_rules::specs::Earliest::earliest))]
    fn at<'b, 'a>(&self, scope: &Scope<'b, 'a>, entry: &Entry<'b, 'a>, best: &mut Option<Fault>) {
        match entry.decl() {
            Decl::Const { kind, value, .. } => {
                on_initial(self.rule, scope, *kind, Some(*value), best);
            }
            Decl::Sensor { .. } => {}
            Decl::Actuator { kind, initial, .. } => {
                on_initial(self.rule, scope, *kind, *initial, best);
            }
            Decl::Task { ports, .. } => on_ports(self.rule, scope, ports.as_slice(), best),
            Decl::Mode { .. } => {}
        }
    }
}

/// A rule at each literal of each declaration.
pub(crate) fn in_literals<R: OnLiteral>(rule: &R, sources: &Sources, best: &mut Option<Fault>)
    ensures { best.new ≡ earliest best.old (parts.in_declarations
        (λ scope decl. each (R.gives rule.now scope) (rules.literals decl)) sources.now) }
{
    in_declarations(&AtLiterals { rule }, sources, best);
}
