ghost use Rattle.std.specs.Prelude.{◌≡◌, IfOk};
ghost use Rattle.tdl_base.specs.Lists.{first_of};
ghost use Rattle.tdl_place.specs.SaidPlaces.{without_lines};

use std::alloc::Global;
use tdl_base::{Listed, NoMemory};
use tdl_deploy::{BusCost, PlacedNode};
use tdl_lines::Said;

/// The nodes that lines say, without their lines.
pub(crate) fn nodes_of(
    alloc: Global,
    said: Vec<Said<PlacedNode>>,
) -> Result<Listed<PlacedNode>, NoMemory>
    ensures { IfOk result (λ nodes. nodes ≡ without_lines said.items) }
{
    let mut nodes = Listed::new(alloc);
    for node in said {
        nodes.push(node.what)?;
    }
    Ok(nodes)
}

/// The first cost of the bus, where lines say one.
pub(crate) fn first_cost(said: &[Said<BusCost>]) -> Option<BusCost>
    ensures { result ≡ first_of (without_lines said.now) }
{
    match said {
        [first, ..] => Some(first.what),
        [] => None,
    }
}
