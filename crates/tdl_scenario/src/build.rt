ghost use Rattle.std.specs.Prelude.{◌≡◌, ◌++◌, ◌∷◌, [], List, IfOk, OnOk};
ghost use Rattle.tdl_scenario.specs.ReadScenario.{scenario_of, scenario_said, binding};
ghost use Rattle.tdl_scenario.specs.Building.{with_more};
ghost use Rattle.tdl_scenario.specs.declared.entry.Entry.{Entry as Statement};

use crate::entry::{Entry, Part, Plug};
use std::alloc::Global;
use tdl_base::{Listed, NoMemory, NodeId, Us};
use tdl_lines::Said;
use tdl_scen::{Bind, Scenario, Sense};

/// A sensor or an actuator, and its port.
fn binding(part: &Part, plug: &Plug) -> Bind
    ensures { result ≡ binding part.now plug.now }
{
    Bind {
        sensor: part.sensor,
        module: part.module,
        index: part.index,
        plant: plug.plant,
        port: plug.port,
    }
}

/// Puts nodes after those of an order.
fn put_nodes(order: &mut Listed<NodeId>, nodes: &[NodeId]) -> Result<(), NoMemory>
    ensures { OnOk result (order.new ≡ order.old ++ nodes.now) }
{
    for node in nodes {
        order.push(*node)?;
    }
    Ok(())
}

/// Puts what a line says after what the lines before it say.
fn put(scenario: &mut Scenario, entry: Entry) -> Result<(), NoMemory>
    ensures { OnOk result ((more : List Statement) →
        with_more scenario.new more ≡ with_more scenario.old (entry ∷ more)) }
{
    match entry {
        Entry::Horizon(time) => scenario.horizon = time,
        Entry::Sense {
            module,
            sensor,
            at,
            value: Some(value),
        } => scenario.senses.push(Sense {
            module,
            sensor,
            at,
            value,
        })?,
        Entry::Exec { times, .. } => scenario.times.push(times)?,
        Entry::Order(Some(nodes)) => put_nodes(&mut scenario.order, nodes.as_slice())?,
        Entry::Bind {
            part,
            plug: Some(plug),
        } => scenario.binds.push(binding(&part, &plug))?,
        _ => {}
    }
    Ok(())
}

/// What lines say.
pub(crate) fn scenario_said(alloc: Global, lines: Vec<Said<Entry>>) -> Result<Scenario, NoMemory>
    ensures { IfOk result (λ s. s ≡ scenario_said lines.items) }
{
    let mut scenario = Scenario {
        horizon: Us(0),
        senses: Listed::new(alloc),
        times: Listed::new(alloc),
        order: Listed::new(alloc),
        binds: Listed::new(alloc),
    };
    for said in lines {
        put(&mut scenario, said.what)?;
    }
    Ok(scenario)
}
