ghost use Rattle.std.specs.Prelude.{◌≡◌, ◌≤◌, length, IfOk};
ghost use Rattle.tdl_base.specs.Lists.{numbered};
ghost use Rattle.tdl_deploy.specs.Named.{one_node};
ghost use Rattle.tdl_mode.specs.declared.program.Module.{Module as Definition};
ghost use Rattle.tdl_place.specs.declared.limits.TheConstants.{MODULES};

use std::alloc::Global;
use tdl_base::{Listed, ModuleId, NoMemory, Text};
use tdl_deploy::{PlacedNode, Placement};
use tdl_mode::Program;

/// The numbers of all modules.
fn all_modules(alloc: Global, program: &Program) -> Result<Listed<ModuleId>, NoMemory>
    requires { length program.now.modules ≤ MODULES }
    ensures { IfOk result (λ all.
        all ≡ numbered 0 (λ m (d : Definition). record { 0 = m }) program.now.modules) }
{
    let mut all = Listed::new(alloc);
    for (number, _) in program.modules.as_slice().iter().enumerate() {
        all.push(ModuleId(number as u16))?;
    }
    Ok(all)
}

/// The placement of all modules on one node `n1`, with no bus.
pub fn one_node(alloc: Global, program: &Program) -> Result<Placement, NoMemory>
    requires { length program.now.modules ≤ MODULES }
    ensures { IfOk result (λ placement. placement ≡ one_node program.now) }
{
    let node = PlacedNode {
        name: Text::from_str(alloc, "n1")?,
        modules: all_modules(alloc, program)?,
    };
    Ok(Placement {
        nodes: Listed::only(alloc, node)?,
        bus: None,
    })
}
