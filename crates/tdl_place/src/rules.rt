ghost use Rattle.std.specs.Prelude.{◌≡◌, ◌++◌, map, OnOk, IfOk};
ghost use Rattle.std.specs.List.{list_any};
ghost use Rattle.tdl_lines.specs.Faults.{earliest};
ghost use Rattle.tdl_lines.specs.declared.said.Said.{Said as Line};
ghost use Rattle.tdl_deploy.specs.declared.placement.PlacedNode.{PlacedNode as Node};
ghost use Rattle.tdl_base.specs.declared.numbers.ModuleId.{ModuleId as Number};
ghost use Rattle.tdl_place.specs.PlacementRules.{beyond, repeated, same_module, same_name};
ghost use Rattle.tdl_place.specs.SaidPlaces.{on_line, places_of};

use std::alloc::Global;
use tdl_base::{ModuleId, NoMemory};
use tdl_deploy::PlacedNode;
use tdl_lines::{Fault, Said, note_if};

/// Notes that lines beyond the first so many break a rule.
pub(crate) fn note_beyond<T>(said: &[Said<T>], most: usize, rule: u8, best: &mut Option<Fault>)
    ensures { best.new ≡ earliest best.old (beyond most rule said.now) }
{
    for place in most..said.len() {
        note_if(best, true, said[place].line, rule);
    }
}

/// Puts the modules of a line after those of other lines.
fn put_places(
    places: &mut Vec<Said<ModuleId>>,
    line: u32,
    modules: &[ModuleId],
) -> Result<(), NoMemory>
    ensures { OnOk result (
        places.new.items ≡ places.old.items ++ map (on_line line) modules.now) }
{
    for module in modules {
        places.push(Said {
            line,
            what: *module,
        })?;
    }
    Ok(())
}

/// The places of modules that nodes give.
fn places_of(alloc: Global, nodes: &[Said<PlacedNode>]) -> Result<Vec<Said<ModuleId>>, NoMemory>
    ensures { IfOk result (λ places. places.items ≡ places_of nodes.now) }
{
    let mut places = Vec::new(alloc);
    for node in nodes {
        put_places(&mut places, node.line, node.what.modules.as_slice())?;
    }
    Ok(places)
}

/// Whether one of these places is the module's.
fn is_placed(number: ModuleId, places: &[Said<ModuleId>]) -> bool
    ensures { result ≡ list_any (λ (x : Line Number). same_module number x.what) places.now }
{
    places.iter().any(|place| place.what == number)
}

/// Notes the places of modules that have an earlier place.
fn note_places(places: &[Said<ModuleId>], best: &mut Option<Fault>)
    ensures { best.new ≡ earliest best.old (repeated same_module 3 places.now) }
{
    for (i, place) in places.iter().enumerate() {
        note_if(best, is_placed(place.what, &places[..i]), place.line, 3);
    }
}

/// P3.
pub(crate) fn note_twice_placed(
    alloc: Global,
    nodes: &[Said<PlacedNode>],
    best: &mut Option<Fault>,
) -> Result<(), NoMemory>
    ensures { OnOk result (
        best.new ≡ earliest best.old (repeated same_module 3 (places_of nodes.now))) }
{
    let places = places_of(alloc, nodes)?;
    note_places(&places, best);
    Ok(())
}

/// Whether one of these nodes has the name of a node.
fn is_named(node: &PlacedNode, nodes: &[Said<PlacedNode>]) -> bool
    ensures { result ≡ list_any (λ (x : Line Node). same_name node.now x.what) nodes.now }
{
    let name = node.name.as_str().as_bytes();
    nodes
        .iter()
        .any(|other| other.what.name.as_str().as_bytes() == name)
}

/// Notes the nodes that have the name of an earlier one.
pub(crate) fn note_twice_named(nodes: &[Said<PlacedNode>], best: &mut Option<Fault>)
    ensures { best.new ≡ earliest best.old (repeated same_name 5 nodes.now) }
{
    for (i, node) in nodes.iter().enumerate() {
        note_if(best, is_named(&node.what, &nodes[..i]), node.line, 5);
    }
}
