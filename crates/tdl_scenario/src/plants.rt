ghost use Rattle.std.specs.Prelude.{◌≡◌, ◌≤◌, length};
ghost use Rattle.tdl_scenario.specs.Plants.{plug_of, port_count};

use crate::entry::Plug;

/// The most plants of a run.
pub const PLANTS: usize = 65_535;

/// How many sensing and how many settling ports a plant has, each numbered from 0.
#[derive(Clone, Copy, Debug, PartialEq, Eq)]
pub struct PlantPorts {
    pub senses: u16,
    pub settles: u16,
}

/// How many ports of a plant a sensor, or else an actuator, can take.
fn port_count(ports: &PlantPorts, sensor: bool) -> u16
    ensures { result ≡ port_count ports.now sensor }
{
    if sensor { ports.senses } else { ports.settles }
}

/// The port of a plant by their numbers, where both exist.
pub(crate) fn plug_of(plants: &[PlantPorts], sensor: bool, plant: u64, port: u64) -> Option<Plug>
    requires { length plants.now ≤ PLANTS }
    ensures { result ≡ plug_of plants.now sensor plant port }
{
    let ports = plants.get(plant as usize)?;
    if port >= u64::from(port_count(ports, sensor)) {
        return None;
    }
    Some(Plug {
        plant: plant as u16,
        port: port as u16,
    })
}
