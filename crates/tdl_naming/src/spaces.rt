ghost use Rattle.std.specs.Prelude.{◌≡◌, not};
ghost use Rattle.tdl_rules.specs.Earliest.{earliest};
ghost use Rattle.tdl_rules.specs.NameRules as rules;
ghost use Rattle.tdl_naming.specs.Spaces.{is_first, later_at, space_faults};

use tdl_names::{Entry, Scope, Sources, Table, exporter_of, spot_of};
use tdl_rules::Fault;
use tdl_tree::Id;
use tdl_walk::{OnDeclaration, OnModule, in_declarations, in_modules, note_if};

/// A module that is not the first of its name.
struct Modules;

impl OnModule for Modules {
    ghost use Rattle.tdl_rules.specs.NameRules.{c1_module};

    ghost gives = { λ _ scope. c1_module scope };

    fn at(&self, scope: &Scope, best: &mut Option<Fault>) {
        let name = &scope.module().tree().name;
        let is_later = exporter_of(scope, name.text.as_str()).is_some();
        note_if(best, is_later, scope.broken(1, spot_of(name)));
    }
}

/// Whether the name at a place of a space is not the first of its text.
fn is_later(names: &Table, place: usize, id: &Id) -> bool
    ensures { result ≡ not (is_first names.now (place, id.now)) }
{
    match names.place(id.text.as_str()) {
        None => false,
        Some(first) => first != place,
    }
}

/// The name at a place of a space, where it is not the first of its text.
fn note_later(scope: &Scope, names: &Table, place: usize, id: &Id, best: &mut Option<Fault>)
    ensures { best.new ≡ earliest best.old (later_at scope.now.file names.now (place, id.now)) }
{
    note_if(
        best,
        is_later(names, place, id),
        scope.broken(1, spot_of(id)),
    );
}

/// The names of a space that are not the first of their text.
fn note_space(scope: &Scope, names: &Table, best: &mut Option<Fault>)
    ensures { best.new ≡ earliest best.old (space_faults scope.now.file names.now) }
{
    let ids = names.ids();
    for place in 0..ids.len() {
        note_later(scope, names, place, ids[place], best);
    }
}

/// The space of a module.
struct Spaces;

impl OnModule for Spaces {
    ghost use Rattle.tdl_rules.specs.Naming.{space};
    ghost use Rattle.tdl_naming.specs.Spaces.{space_faults};

    ghost gives = { λ _ scope. space_faults scope.file (space scope.tree) };

    fn at(&self, scope: &Scope, best: &mut Option<Fault>) {
        note_space(scope, scope.module().names(), best);
    }
}

/// The space of a task's ports.
struct TaskPorts;

impl OnDeclaration for TaskPorts {
    ghost use Rattle.tdl_rules.specs.NameRules.{c1_ports};

    ghost gives = { λ _ scope decl. c1_ports scope decl };

    fn at<'b, 'a>(&self, scope: &Scope<'b, 'a>, entry: &Entry<'b, 'a>, best: &mut Option<Fault>) {
        note_space(scope, entry.ports().names(), best);
    }
}

/// Names that are declared a second time in their space (C1).
pub fn repeated_names(sources: &Sources, best: &mut Option<Fault>)
    ensures { best.new ≡ earliest best.old (rules.c1 sources.now) }
{
    in_modules(&Modules, sources, best);
    in_modules(&Spaces, sources, best);
    in_declarations(&TaskPorts, sources, best);
}
