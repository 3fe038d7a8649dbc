ghost use Rattle.std.specs.Prelude.{◌≡◌, option_map};
ghost use Rattle.tdl_bounds.specs.Parts.{names_of, alone};
ghost use Rattle.tdl_rules.specs.BoundRules as bounds;
ghost use Rattle.tdl_rules.specs.Earliest.{earliest};
ghost use Rattle.tdl_rules.specs.Lists.{each};
ghost use Rattle.tdl_rules.specs.Parts as walked;

use tdl_base::limits::{ACTUATORS, CONSTANTS, MODES, PORTS, SENSORS, TASKS};
use tdl_names::{Entry, Scope, Sources, spot_of};
use tdl_rules::Fault;
use tdl_tree::{Decl, Id};
use tdl_walk::{OnDeclaration, OnModule, in_declarations, in_modules, note};

/// What a module declares and is counted.
#[derive(Clone, Copy)]
enum Part {
    Task,
    Mode,
    Constant,
    Sensor,
    Actuator,
}

/// The name of a declaration of the part.
fn name_in(part: Part, decl: &Decl) -> Option<&Id>
    ensures { alone (option_map (λ id. id.now) result) ≡ names_of part decl.now }
{
    match (part, decl) {
        (Part::Task, Decl::Task { name, .. }) => Some(name),
        (Part::Mode, Decl::Mode { name, .. }) => Some(name),
        (Part::Constant, Decl::Const { name, .. }) => Some(name),
        (Part::Sensor, Decl::Sensor { name, .. }) => Some(name),
        (Part::Actuator, Decl::Actuator { name, .. }) => Some(name),
        _ => None,
    }
}

/// The name with which there are more than `most` of the part.
fn passing(part: Part, most: usize, decls: &[Decl]) -> Option<&Id>
    ensures { option_map (λ id. id.now) result
        ≡ bounds.passing most (each (names_of part) decls.now) }
{
    let mut left = most;
    for decl in decls {
        if let Some(name) = name_in(part, decl) {
            if left == 0 {
                return Some(name);
            }
            left -= 1;
        }
    }
    None
}

/// Notes the name with which a module has more than `most` of the part.
#[tactic(auto, unfolding(tdl_rules::specs::Earliest::earliest))]
fn note_passing(part: Part, most: usize, scope: &Scope, best: &mut Option<Fault>)
    ensures { best.new ≡ earliest best.old
        (bounds.past scope.now (bounds.passing most (each (names_of part) scope.now.tree.decls))) }
{
    if let Some(name) = passing(part, most, scope.module().tree().decls.as_slice()) {
        note(best, scope.broken(21, spot_of(name)));
    }
}

/// Modules of too many tasks, modes, constants, sensors or actuators.
struct ManyParts;

impl OnModule for ManyParts {
    ghost gives = { λ _ scope. bounds.c21_module scope };

    fn at(&self, scope: &Scope, best: &mut Option<Fault>) {
        note_passing(Part::Task, TASKS, scope, best);
        note_passing(Part::Mode, MODES, scope, best);
        note_passing(Part::Constant, CONSTANTS, scope, best);
        note_passing(Part::Sensor, SENSORS, scope, best);
        note_passing(Part::Actuator, ACTUATORS, scope, best);
    }
}

/// C21 on what modules declare.
pub(crate) fn many_parts(sources: &Sources, best: &mut Option<Fault>)
    ensures { best.new ≡ earliest best.old (each bounds.c21_module (walked.modules sources.now)) }
{
    in_modules(&ManyParts, sources, best);
}

/// Tasks of too many ports.
struct ManyPorts;

impl OnDeclaration for ManyPorts {
    ghost gives = { λ _ scope decl. bounds.c21_ports scope decl };

    #[tactic(auto, unfolding(tdl_rules::specs::Earliest::earliest))]
    fn at<'b, 'a>(&self, scope: &Scope<'b, 'a>, entry: &Entry<'b, 'a>, best: &mut Option<Fault>) {
        if let Some(port) = entry.ports().get(PORTS) {
            note(best, scope.broken(21, spot_of(&port.name)));
        }
    }
}

/// C21 on ports.
pub(crate) fn many_ports(sources: &Sources, best: &mut Option<Fault>)
    ensures { best.new ≡ earliest best.old (walked.in_declarations bounds.c21_ports sources.now) }
{
    in_declarations(&ManyPorts, sources, best);
}
