ghost use Rattle.std.specs.Prelude.{◌≡◌, map, IfOk};
ghost use Rattle.tdl_program.specs.Programs as programs;

use crate::declarations::{actuators_of, constants_of, sensors_of};
use crate::home::Home;
use crate::modes::modes_of;
use crate::names::copied;
use crate::tasks::tasks_of;
use std::alloc::Global;
use tdl_base::{Listed, ModuleId, NoMemory};
use tdl_mode::Module;

/// The modules that a module imports.
fn imports_of(alloc: Global, home: &Home) -> Result<Listed<ModuleId>, NoMemory>
    ensures { IfOk result (λ list. list ≡
        map (programs.import_of home.now) home.now.tree.imports) }
{
    let mut list = Listed::new(alloc);
    let ids = home.tree().imports.as_slice();
    for id in ids {
        list.push(home.import(id))?;
    }
    Ok(list)
}

/// The module of a source.
pub(crate) fn module_of(alloc: Global, home: &Home) -> Result<Module, NoMemory>
    ensures { IfOk result (λ made. made ≡ programs.module_of home.now) }
{
    let tree = home.tree();
    let decls = tree.decls.as_slice();
    Ok(Module {
        name: copied(alloc, &tree.name)?,
        imports: imports_of(alloc, home)?,
        constants: constants_of(alloc, decls)?,
        sensors: sensors_of(alloc, decls)?,
        actuators: actuators_of(alloc, decls)?,
        tasks: tasks_of(alloc, home)?,
        modes: modes_of(alloc, home)?,
        start: home.start(),
    })
}
