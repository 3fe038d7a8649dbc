ghost use Rattle.std.specs.Prelude.{◌≡◌};
ghost use Rattle.std.specs.List.{list_any};
ghost use Rattle.tdl_base.specs.declared.numbers.ModuleId.{ModuleId as Number};
ghost use Rattle.tdl_mode.specs.Imports.{is_among, imports_of};
ghost use Rattle.tdl_deploy.specs.Placed.{is_remote};
ghost use Rattle.tdl_window.specs.Afar.{imports_afar};

use tdl_base::ModuleId;
use tdl_deploy::{PlacedNode, Placement};
use tdl_mode::{Program, Task};

/// Whether a module is one of these.
pub(crate) fn is_among(number: ModuleId, modules: &[ModuleId]) -> bool
    ensures { result ≡ is_among number.0 modules.now }
{
    modules.iter().any(|m| m.0 == number.0)
}

/// Whether a module imports another directly.
fn is_imported_by(program: &Program, number: ModuleId, importer: ModuleId) -> bool
    ensures { result ≡ is_among number.0 (imports_of program.now importer.0) }
{
    match program.modules.get(usize::from(importer.0)) {
        None => false,
        Some(definition) => is_among(number, definition.imports.as_slice()),
    }
}

/// Whether one of these modules imports another directly.
fn is_imported_among(program: &Program, number: ModuleId, modules: &[ModuleId]) -> bool
    ensures { result ≡ list_any
        (λ (h : Number). is_among number.0 (imports_of program.now h.0)) modules.now }
{
    modules.iter().any(|m| is_imported_by(program, number, *m))
}

/// Whether a node has an importer of a module that it does not host.
fn imports_afar(program: &Program, number: ModuleId, node: &PlacedNode) -> bool
    ensures { result ≡ imports_afar program.now number.0 node.now }
{
    let modules = node.modules.as_slice();
    !is_among(number, modules) && is_imported_among(program, number, modules)
}

/// Whether some node has an importer of a module that it does not host.
fn is_imported_afar(program: &Program, placement: &Placement, number: ModuleId) -> bool
    ensures { result ≡ list_any (imports_afar program.now number.0) placement.now.nodes }
{
    placement
        .nodes
        .as_slice()
        .iter()
        .any(|node| imports_afar(program, number, node))
}

/// Whether a task of a module is remote.
pub(crate) fn is_remote(
    program: &Program,
    placement: &Placement,
    number: ModuleId,
    task: &Task,
) -> bool
    ensures { result ≡ is_remote program.now placement.now number.0 task.now }
{
    task.public && is_imported_afar(program, placement, number)
}
