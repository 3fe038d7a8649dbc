ghost use Rattle.std.specs.Prelude.{◌≡◌, OnOk, None};
ghost use Rattle.tdl_scenario.specs.Tables.{nowhere, put_at, numbers_in};

use std::alloc::Global;
use std::collections::HashMap;
use tdl_base::NoMemory;

/// A number for each of some sensors or actuators, by module and place.
#[derive(Drop)]
pub(crate) struct Table {
    numbers: HashMap<(u16, u16), u64>,
}

impl Table {
    /// No numbers. It takes no memory.
    pub fn new(alloc: Global) -> Table
        ensures { numbers_in result ≡ nowhere }
    {
        Table {
            numbers: HashMap::new(alloc),
        }
    }

    /// The number of a sensor or actuator, where it has one.
    pub fn get(&self, owner: u16, index: u16) -> Option<u64>
        ensures { result ≡ numbers_in self.now owner index }
    {
        self.numbers.get(&(owner, index)).copied()
    }

    /// Gives a sensor or actuator a number, in place of the one that it had.
    pub fn put(&mut self, owner: u16, index: u16, number: u64) -> Result<(), NoMemory>
        ensures { OnOk result (
            numbers_in self.new ≡ put_at (numbers_in self.old) owner index number) }
    {
        self.numbers.insert((owner, index), number)?;
        Ok(())
    }
}
