ghost use Rattle.std.specs.Prelude.{◌≡◌, OnOk};
ghost use Rattle.tdl_scenario.specs.Rules.{seen_in, unseen, after, with_part, is_bound, is_sensed};

use crate::entry::{Entry, Part};
use crate::table::Table;
use std::alloc::Global;
use tdl_base::NoMemory;

/// What the lines before a line say, as far as the rules ask.
#[derive(Drop)]
pub(crate) struct Seen {
    /// Whether there was a horizon.
    pub horizon: bool,
    /// Whether there was an order.
    pub order: bool,
    /// The last time of each sensor.
    pub latest: Table,
    /// The sensors that are bound, each with 0.
    pub sensors: Table,
    /// The actuators that are bound, each with 0.
    pub actuators: Table,
}

impl Seen {
    /// Before the first line. It takes no memory.
    pub fn new(alloc: Global) -> Seen
        ensures { seen_in result ≡ unseen }
    {
        Seen {
            horizon: false,
            order: false,
            latest: Table::new(alloc),
            sensors: Table::new(alloc),
            actuators: Table::new(alloc),
        }
    }

    /// One more line is over.
    pub fn learn(&mut self, entry: &Entry) -> Result<(), NoMemory>
        ensures { OnOk result (seen_in self.new ≡ after entry.now (seen_in self.old)) }
    {
        match entry {
            Entry::Horizon(_) => self.horizon = true,
            Entry::Order(_) => self.order = true,
            Entry::Sense {
                module,
                sensor,
                at,
                ..
            } => self.latest.put(module.0, *sensor, at.0)?,
            Entry::Bind { part, .. } => self.bind(part)?,
            Entry::Formless | Entry::Unknown | Entry::Exec { .. } => {}
        }
        Ok(())
    }

    /// A sensor or an actuator is bound.
    fn bind(&mut self, part: &Part) -> Result<(), NoMemory>
        ensures { OnOk result (
            seen_in self.new ≡ with_part part.now (seen_in self.old)) }
    {
        if part.sensor {
            self.sensors.put(part.module.0, part.index, 0)
        } else {
            self.actuators.put(part.module.0, part.index, 0)
        }
    }

    /// Whether a sensor or an actuator is bound.
    pub fn is_bound(&self, part: &Part) -> bool
        ensures { result ≡ is_bound (seen_in self.now) part.now }
    {
        if part.sensor {
            self.sensors.get(part.module.0, part.index).is_some()
        } else {
            self.actuators.get(part.module.0, part.index).is_some()
        }
    }

    /// Whether it is a sensor that is sensed.
    pub fn is_sensed(&self, part: &Part) -> bool
        ensures { result ≡ is_sensed (seen_in self.now) part.now }
    {
        part.sensor && self.latest.get(part.module.0, part.index).is_some()
    }
}
