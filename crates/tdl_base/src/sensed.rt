ghost use Rattle.std.specs.Prelude.{◌≡◌, ◌<◌, ◌↔◌, length, IfOk, IsTrue, replicate, slice_set, pos, slice_index_or};
ghost use Rattle.std.specs.Bool.{OnTrue, OnFalse};
ghost use Rattle.tdl_base.specs.Sensed.{all_zero, HasSensor, sensed_at, with_sensed};

use crate::{Listed, ModuleId, NoMemory};
use std::alloc::Global;
use std::marker::Model;

/// The numbers sensed at one instant. Contracts see them as a list for each module, in order, with
/// a number for each of its sensors.
#[derive(Debug, Drop)]
pub struct Sensed {
    modules: Vec<Listed<i64>>,
}

impl Model for Sensed {
    ghost use Rattle.std.specs.Prelude.{List, ℤ};

    ghost Value = { List (List ℤ) };

    ghost view = { λ s. s.modules.items };
}

impl Sensed {
    /// All sensors 0, where `counts` says how many each module has.
    pub fn new(alloc: Global, counts: &[u16]) -> Result<Sensed, NoMemory>
        ensures { IfOk result (λ s. s ≡ all_zero counts.now) }
    {
        let mut modules = Vec::new(alloc);
        for count in counts {
            modules.push(zeros(alloc, *count)?)?;
        }
        Ok(Sensed { modules })
    }

    /// The number of a sensor, 0 where there is no such sensor.
    pub fn get(&self, m: ModuleId, sensor: u16) -> i64
        ensures { result ≡ sensed_at self.now m.0 sensor }
    {
        match self.modules.get(usize::from(m.0)) {
            None => 0,
            Some(numbers) => number_at(numbers, usize::from(sensor)),
        }
    }

    /// Sets a sensor to a number. False, with nothing changed, where there is no such sensor.
    pub fn set(&mut self, m: ModuleId, sensor: u16, v: i64) -> bool
        ensures found { IsTrue result ↔ HasSensor self.old m.0 sensor }
        ensures changed { OnTrue result (self.new ≡ with_sensed self.old m.0 sensor v) }
        ensures unchanged { OnFalse result (self.new ≡ self.old) }
    {
        match self.modules.get_mut(usize::from(m.0)) {
            None => false,
            Some(numbers) => set_number(numbers, usize::from(sensor), v),
        }
    }
}

fn zeros(alloc: Global, count: u16) -> Result<Listed<i64>, NoMemory>
    ensures { IfOk result (λ numbers. numbers ≡ replicate count (pos 0)) }
{
    let numbers = vec![in alloc; 0i64; usize::from(count)]?;
    Ok(Listed::from_vec(numbers))
}

fn number_at(numbers: &Listed<i64>, at: usize) -> i64
    ensures { result ≡ slice_index_or numbers.now at (pos 0) }
{
    numbers.get(at).copied().unwrap_or(0)
}

fn set_number(numbers: &mut Listed<i64>, at: usize, v: i64) -> bool
    ensures found { IsTrue result ↔ (at < length numbers.old) }
    ensures changed { OnTrue result (numbers.new ≡ slice_set numbers.old at v) }
    ensures unchanged { OnFalse result (numbers.new ≡ numbers.old) }
{
    if at >= numbers.len() {
        return false;
    }
    numbers.set(at, v);
    true
}

#[cfg(test)]
mod tests {
    use super::*;
    use std::test::Fail;

    #[test]
    fn sets_one_sensor(rt: HostRuntime) -> Result<(), Fail> {
        let mut sensed = Sensed::new(rt.alloc(), &[2, 0, 1])?;
        assert!(rt; sensed.set(ModuleId(0), 1, -4));
        assert!(rt; !sensed.set(ModuleId(1), 0, 5));
        assert!(rt; !sensed.set(ModuleId(3), 0, 5));
        let rows = [
            (0, 0, 0),
            (0, 1, -4),
            (0, 2, 0),
            (1, 0, 0),
            (2, 0, 0),
            (3, 0, 0),
        ];
        for (m, sensor, want) in rows {
            assert_eq!(rt; sensed.get(ModuleId(m), sensor), want, "{m} {sensor}");
        }
        Ok(())
    }
}
