ghost use Rattle.std.specs.Prelude.{◌≡◌, ◌&&◌, is_none, false, option_map, unwrap_or, slice_get};
ghost use Rattle.std.specs.List.{list_any};
ghost use Rattle.tdl_mode.specs.Imports.{is_among, imports_of};
ghost use Rattle.tdl_mode.specs.declared.program.Task.{Task as Definition};
ghost use Rattle.tdl_deploy.specs.Placed.{is_remote};
ghost use Rattle.tdl_place.specs.PlacementRules.{invokes, mode_invokes, has_remote, is_hosted, has_unplaced};
ghost use Rattle.tdl_place.specs.Importers.{is_imported_among, imports_afar};

use tdl_base::{ModuleId, TaskId};
use tdl_deploy::{PlacedNode, Placement};
use tdl_mode::{Mode, Module, Program};

/// Whether a module is one of these.
fn is_among(number: usize, modules: &[ModuleId]) -> bool
    ensures { result ≡ is_among number modules.now }
{
    modules.iter().any(|m| usize::from(m.0) == number)
}

/// Whether some node hosts a module.
fn is_hosted(placement: &Placement, number: usize) -> bool
    ensures { result ≡ is_hosted placement.now number }
{
    placement
        .nodes
        .as_slice()
        .iter()
        .any(|node| is_among(number, node.modules.as_slice()))
}

/// Whether some module of the program is on no node.
pub(crate) fn has_unplaced(program: &Program, placement: &Placement) -> bool
    ensures { result ≡ has_unplaced program.now placement.now }
{
    for (number, _) in program.modules.as_slice().iter().enumerate() {
        if !is_hosted(placement, number) {
            return true;
        }
    }
    false
}

/// Whether a module imports another directly.
fn is_imported_by(program: &Program, number: usize, importer: ModuleId) -> bool
    ensures { result ≡ is_among number (imports_of program.now importer.0) }
{
    match program.modules.get(usize::from(importer.0)) {
        None => false,
        Some(definition) => is_among(number, definition.imports.as_slice()),
    }
}

/// Whether one of these modules imports another directly.
fn is_imported_among(program: &Program, number: usize, modules: &[ModuleId]) -> bool
    ensures { result ≡ is_imported_among program.now number modules.now }
{
    modules.iter().any(|m| is_imported_by(program, number, *m))
}

/// Whether a node has an importer of a module that it does not host.
fn imports_afar(program: &Program, number: usize, node: &PlacedNode) -> bool
    ensures { result ≡ imports_afar program.now number node.now }
{
    let modules = node.modules.as_slice();
    !is_among(number, modules) && is_imported_among(program, number, modules)
}

/// Whether some node has an importer of a module that it does not host.
fn is_imported_afar(program: &Program, placement: &Placement, number: usize) -> bool
    ensures { result ≡ list_any (imports_afar program.now number) placement.now.nodes }
{
    placement
        .nodes
        .as_slice()
        .iter()
        .any(|node| imports_afar(program, number, node))
}

/// Whether a task of a module is public.
fn is_public(owner: &Module, task: TaskId) -> bool
    ensures { result ≡ unwrap_or
        (option_map (λ (t : Definition). t.public) (slice_get owner.now.tasks task.0)) false }
{
    match owner.tasks.get(usize::from(task.0)) {
        None => false,
        Some(definition) => definition.public,
    }
}

/// Whether a mode invokes a public task.
fn mode_invokes_public(owner: &Module, mode: &Mode) -> bool
    ensures { result ≡ mode_invokes (λ t. t.public) owner.now mode.now }
{
    mode.invocations
        .as_slice()
        .iter()
        .any(|invocation| is_public(owner, invocation.task))
}

/// Whether a module invokes a public task.
fn invokes_public(owner: &Module) -> bool
    ensures { result ≡ invokes (λ t. t.public) owner.now }
{
    owner
        .modes
        .as_slice()
        .iter()
        .any(|mode| mode_invokes_public(owner, mode))
}

/// Whether a module invokes a remote task.
fn invokes_remote(program: &Program, placement: &Placement, number: usize, owner: &Module) -> bool
    ensures { result ≡ invokes (is_remote program.now placement.now number) owner.now }
{
    is_imported_afar(program, placement, number) && invokes_public(owner)
}

/// Whether some invocation of the program is remote.
fn has_remote(program: &Program, placement: &Placement) -> bool
    ensures { result ≡ has_remote program.now placement.now }
{
    for (number, owner) in program.modules.as_slice().iter().enumerate() {
        if invokes_remote(program, placement, number, owner) {
            return true;
        }
    }
    false
}

/// Whether there is no bus, and some invocation is remote.
pub(crate) fn lacks_bus(program: &Program, placement: &Placement) -> bool
    ensures { result ≡ (is_none placement.now.bus && has_remote program.now placement.now) }
{
    placement.bus.is_none() && has_remote(program, placement)
}
