ghost use Rattle.std.specs.Prelude.{◌≡◌, [], ◌∷◌, map, IfOk};
ghost use Rattle.tdl_base.specs.declared.numbers.TheConstants.{FIRST_NODE};
ghost use Rattle.tdl_node.specs.Machines.{IsOneHost};
ghost use Rattle.tdl_verify.specs.Texts as texts;

use std::alloc::Global;
use tdl_base::{FIRST_NODE, Kind, Listed, NoMemory, Text, Us};
use tdl_image::{Bundle, Hosted, Initial, KindName, TaskTable};
use tdl_trace::{ModuleNames, Named, Names, TaskNames};

fn copies(alloc: Global, names: &[Text]) -> Result<Listed<Text>, NoMemory>
    ensures { IfOk result (λ list. list ≡ names.now) }
{
    let mut list = Listed::new(alloc);
    for name in names {
        list.push(Text::from_str(alloc, name.as_str())?)?;
    }
    Ok(list)
}

fn named(alloc: Global, kind: Kind, name: &Text) -> Result<Named, NoMemory>
    ensures { IfOk result (λ named. named ≡ record { kind = kind; name = name.now }) }
{
    Ok(Named {
        kind,
        name: Text::from_str(alloc, name.as_str())?,
    })
}

fn sensor_names(alloc: Global, sensors: &[KindName]) -> Result<Listed<Named>, NoMemory>
    ensures { IfOk result (λ list. list ≡ map texts.sensor_named sensors.now) }
{
    let mut list = Listed::new(alloc);
    for sensor in sensors {
        list.push(named(alloc, sensor.kind, &sensor.name)?)?;
    }
    Ok(list)
}

fn port_names(alloc: Global, ports: &[Initial]) -> Result<Listed<Named>, NoMemory>
    ensures { IfOk result (λ list. list ≡ map texts.port_named ports.now) }
{
    let mut list = Listed::new(alloc);
    for port in ports {
        list.push(named(alloc, port.kind, &port.name)?)?;
    }
    Ok(list)
}

fn table_names(alloc: Global, table: &TaskTable) -> Result<TaskNames, NoMemory>
    ensures { IfOk result (λ names. names ≡ texts.table_names table.now) }
{
    Ok(TaskNames {
        name: Text::from_str(alloc, table.name.as_str())?,
        worst: Us(u64::from(table.worst)),
        outputs: port_names(alloc, table.outputs.as_slice())?,
    })
}

fn task_names(alloc: Global, tables: &[TaskTable]) -> Result<Listed<TaskNames>, NoMemory>
    ensures { IfOk result (λ list. list ≡ map texts.table_names tables.now) }
{
    let mut list = Listed::new(alloc);
    for table in tables {
        list.push(table_names(alloc, table)?)?;
    }
    Ok(list)
}

/// The names of a module that the first node hosts.
fn host_names(alloc: Global, host: &Hosted) -> Result<ModuleNames, NoMemory>
    ensures { IfOk result (λ names. names ≡ texts.hosted_names FIRST_NODE.0 host.now) }
{
    Ok(ModuleNames {
        number: host.number,
        node: FIRST_NODE,
        name: Text::from_str(alloc, host.name.as_str())?,
        sensors: sensor_names(alloc, host.sensors.as_slice())?,
        actuators: port_names(alloc, host.actuators.as_slice())?,
        tasks: task_names(alloc, host.tasks.as_slice())?,
        modes: copies(alloc, host.modes.as_slice())?,
    })
}

/// The names that the rows of a bundle of one module are printed with, or NoMemory.
pub fn bundle_names(alloc: Global, bundle: &Bundle) -> Result<Names, NoMemory>
    requires { IsOneHost bundle.now }
    ensures { IfOk result (λ names. names ≡ texts.bundle_names bundle.now) }
{
    let Some(image) = bundle.images.get(0) else {
        unreachable!()
    };
    let Some(host) = image.hosted.get(0) else {
        unreachable!()
    };
    Ok(Names {
        nodes: Listed::only(alloc, Text::from_str(alloc, image.node.as_str())?)?,
        modules: Listed::only(alloc, host_names(alloc, host)?)?,
    })
}
