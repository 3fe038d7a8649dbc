ghost use Rattle.std.specs.Prelude.{◌≡◌, ◌≤◌, ◌∷◌, map, length, IfOk};
ghost use Rattle.tdl_scen.specs.Lines.{number_of};
ghost use Rattle.tdl_scenario.specs.Entries.{all_of, sensed, timed, bound, horizon_said, sense_said, exec_said, order_said, bind_said, said_after, entry_of};
ghost use Rattle.tdl_scenario.specs.Looked.{node_named};
ghost use Rattle.tdl_scenario.specs.declared.plants.TheConstants.{PLANTS};

use crate::PlantPorts;
use crate::entry::{Entry, Part};
use crate::found::{node_named, part_at, sensor_at, task_at};
use crate::kinds::value_in;
use crate::plants::plug_of;
use std::alloc::Global;
use tdl_base::{Kind, Listed, ModuleId, NoMemory, NodeId, TaskId, Text, Us};
use tdl_lines::dotted_pair;
use tdl_scen::{TaskTimes, number, signed_number};
use tdl_trace::Names;

/// The numbers that words are; `None` where one is no number.
fn numbers(alloc: Global, words: &[&[u8]]) -> Result<Option<Listed<u64>>, NoMemory>
    ensures { IfOk result (λ all. all ≡ all_of number_of (map (λ word. word.now) words.now)) }
{
    let mut found = Listed::new(alloc);
    for word in words {
        let Some(value) = number(word) else {
            return Ok(None);
        };
        found.push(value)?;
    }
    Ok(Some(found))
}

/// The nodes that words name; `None` where one is no node's name.
fn nodes_named(
    alloc: Global,
    nodes: &[Text],
    words: &[&[u8]],
) -> Result<Option<Listed<NodeId>>, NoMemory>
    ensures { IfOk result (λ all.
        all ≡ all_of (node_named nodes.now) (map (λ word. word.now) words.now)) }
{
    let mut found = Listed::new(alloc);
    for word in words {
        let Some(node) = node_named(nodes, word) else {
            return Ok(None);
        };
        found.push(node)?;
    }
    Ok(Some(found))
}

/// A value of a sensor that is looked up.
fn sensed(at: u64, value: i128, found: Option<(ModuleId, u16, Kind)>) -> Entry
    ensures { result ≡ sensed at value found }
{
    let Some((module, sensor, kind)) = found else {
        return Entry::Unknown;
    };
    Entry::Sense {
        module,
        sensor,
        at: Us(at),
        value: value_in(kind, value),
    }
}

/// Times of a task that is looked up.
fn timed(times: Listed<u64>, found: Option<(ModuleId, TaskId, Us)>) -> Entry
    ensures { result ≡ timed times found }
{
    let Some((module, task, worst)) = found else {
        return Entry::Unknown;
    };
    Entry::Exec {
        worst,
        times: TaskTimes {
            module,
            task,
            times,
        },
    }
}

/// A port of a plant for a sensor or an actuator that is looked up.
fn bound(plants: &[PlantPorts], plant: u64, port: u64, found: Option<Part>) -> Entry
    requires { length plants.now ≤ PLANTS }
    ensures { result ≡ bound plants.now plant port found }
{
    let Some(part) = found else {
        return Entry::Unknown;
    };
    Entry::Bind {
        part,
        plug: plug_of(plants, part.sensor, plant, port),
    }
}

/// The words after `horizon`.
fn horizon_said(words: &[&[u8]]) -> Option<Entry>
    ensures { result ≡ horizon_said (map (λ word. word.now) words.now) }
{
    let [time] = words else {
        return None;
    };
    number(time).map(|time| Entry::Horizon(Us(time)))
}

/// The words after `sense`.
fn sense_said(names: &Names, words: &[&[u8]]) -> Option<Entry>
    ensures { result ≡ sense_said names.now (map (λ word. word.now) words.now) }
{
    let [name, time, value] = words else {
        return None;
    };
    let (module, sensor) = dotted_pair(name)?;
    let at = number(time)?;
    let value = signed_number(value)?;
    Some(sensed(at, value, sensor_at(names, module, sensor)))
}

/// The words after `exec`.
fn exec_said(alloc: Global, names: &Names, words: &[&[u8]]) -> Result<Option<Entry>, NoMemory>
    ensures { IfOk result (λ said.
        said ≡ exec_said names.now (map (λ word. word.now) words.now)) }
{
    let [name, _, ..] = words else {
        return Ok(None);
    };
    let Some((module, task)) = dotted_pair(name) else {
        return Ok(None);
    };
    let Some(times) = numbers(alloc, &words[1..])? else {
        return Ok(None);
    };
    Ok(Some(timed(times, task_at(names, module, task))))
}

/// The words after `order`.
#[tactic(auto, using(crate::proofs::SaidLemmas::some_order))]
fn order_said(alloc: Global, names: &Names, words: &[&[u8]]) -> Result<Option<Entry>, NoMemory>
    ensures { IfOk result (λ said.
        said ≡ order_said names.now (map (λ word. word.now) words.now)) }
{
    let [_, ..] = words else {
        return Ok(None);
    };
    let nodes = nodes_named(alloc, names.nodes.as_slice(), words)?;
    Ok(Some(Entry::Order(nodes)))
}

/// The words after `bind`.
fn bind_said(names: &Names, plants: &[PlantPorts], words: &[&[u8]]) -> Option<Entry>
    requires { length plants.now ≤ PLANTS }
    ensures { result ≡ bind_said names.now plants.now (map (λ word. word.now) words.now) }
{
    let [name, plant, port] = words else {
        return None;
    };
    let (module, part) = dotted_pair(name)?;
    let plant = number(plant)?;
    let port = number(port)?;
    Some(bound(plants, plant, port, part_at(names, module, part)))
}

/// What words say after their first.
fn said_after(
    alloc: Global,
    names: &Names,
    plants: &[PlantPorts],
    key: &[u8],
    words: &[&[u8]],
) -> Result<Option<Entry>, NoMemory>
    requires { length plants.now ≤ PLANTS }
    ensures { IfOk result (λ said.
        said ≡ said_after names.now plants.now key.now (map (λ word. word.now) words.now)) }
{
    if key == b"horizon".as_slice() {
        return Ok(horizon_said(words));
    }
    if key == b"sense".as_slice() {
        return Ok(sense_said(names, words));
    }
    if key == b"exec".as_slice() {
        return exec_said(alloc, names, words);
    }
    if key == b"order".as_slice() {
        return order_said(alloc, names, words);
    }
    if key == b"bind".as_slice() {
        return Ok(bind_said(names, plants, words));
    }
    Ok(None)
}

/// What the words of a line say.
pub(crate) fn entry_of(
    alloc: Global,
    names: &Names,
    plants: &[PlantPorts],
    words: &[&[u8]],
) -> Result<Entry, NoMemory>
    requires { length plants.now ≤ PLANTS }
    ensures { IfOk result (λ said.
        said ≡ entry_of names.now plants.now (map (λ word. word.now) words.now)) }
{
    let [key, rest @ ..] = words else {
        return Ok(Entry::Formless);
    };
    match said_after(alloc, names, plants, key, rest)? {
        None => Ok(Entry::Formless),
        Some(said) => Ok(said),
    }
}
