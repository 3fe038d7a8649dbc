ghost use Rattle.std.specs.Prelude.{◌≡◌, option_map};
ghost use Rattle.std.specs.Option.{option_copied};
ghost use Rattle.tdl_scenario.specs.Looked.{short, first_from, module_named, port_named, task_named, node_named, sensor_at, part_at, task_at};

use crate::entry::Part;
use tdl_base::{Kind, ModuleId, NodeId, TaskId, Text, Us};
use tdl_trace::{ModuleNames, Named, Names, TaskNames};

/// The number of a thing, which has 16 bits.
fn short(place: usize) -> Option<u16>
    ensures { result ≡ short place }
{
    if place > 65_535 {
        return None;
    }
    Some(place as u16)
}

/// The first module of a name.
fn module_named<'a>(names: &'a Names, name: &[u8]) -> Option<&'a ModuleNames>
    ensures { option_copied result ≡ module_named names.now name.now }
{
    names
        .modules
        .as_slice()
        .iter()
        .find(|m| m.name.as_str().as_bytes() == name)
}

/// The number and the kind of the first sensor or actuator of a name.
fn port_named(ports: &[Named], name: &[u8]) -> Option<(u16, Kind)>
    ensures { result ≡ port_named ports.now name.now }
{
    for (place, port) in ports.iter().enumerate() {
        if port.name.as_str().as_bytes() == name {
            return short(place).map(|number| (number, port.kind));
        }
    }
    None
}

/// The number and the worst case of the first task of a name.
fn task_named(tasks: &[TaskNames], name: &[u8]) -> Option<(u16, Us)>
    ensures { result ≡ task_named tasks.now name.now }
{
    for (place, task) in tasks.iter().enumerate() {
        if task.name.as_str().as_bytes() == name {
            return short(place).map(|number| (number, task.worst));
        }
    }
    None
}

/// The first node of a name.
pub(crate) fn node_named(nodes: &[Text], name: &[u8]) -> Option<NodeId>
    ensures { result ≡ node_named nodes.now name.now }
{
    for (place, node) in nodes.iter().enumerate() {
        if node.as_str().as_bytes() == name {
            return short(place).map(NodeId);
        }
    }
    None
}

/// The sensor of a module, by their names.
pub(crate) fn sensor_at(
    names: &Names,
    module_name: &[u8],
    name: &[u8],
) -> Option<(ModuleId, u16, Kind)>
    ensures { result ≡ sensor_at names.now module_name.now name.now }
{
    let module = module_named(names, module_name)?;
    let (number, kind) = port_named(module.sensors.as_slice(), name)?;
    Some((module.number, number, kind))
}

/// The task of a module, by their names.
pub(crate) fn task_at(
    names: &Names,
    module_name: &[u8],
    name: &[u8],
) -> Option<(ModuleId, TaskId, Us)>
    ensures { result ≡ task_at names.now module_name.now name.now }
{
    let module = module_named(names, module_name)?;
    let (number, worst) = task_named(module.tasks.as_slice(), name)?;
    Some((module.number, TaskId(number), worst))
}

/// The sensor of a module, or else the actuator, by their names.
pub(crate) fn part_at(names: &Names, module_name: &[u8], name: &[u8]) -> Option<Part>
    ensures { result ≡ part_at names.now module_name.now name.now }
{
    let module = module_named(names, module_name)?;
    match port_named(module.sensors.as_slice(), name) {
        Some((index, _)) => Some(Part {
            sensor: true,
            module: module.number,
            index,
        }),
        None => {
            let (index, _) = port_named(module.actuators.as_slice(), name)?;
            Some(Part {
                sensor: false,
                module: module.number,
                index,
            })
        }
    }
}
