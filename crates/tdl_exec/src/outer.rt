ghost use Rattle.std.specs.Prelude.{◌≡◌, position};
ghost use Rattle.tdl_exec.specs.Views.{shown, number_of, is_same};

use crate::View;
use crate::cells::number_at;
use tdl_base::{ModuleId, PortKey, Sensed};

/// What the expressions of a module read: its sensors, of which those that are not sensed are 0,
/// and outputs with their numbers, of which those that are not among the keys are 0. Where a key
/// stands twice, its first number counts.
#[derive(Clone, Copy, Debug)]
pub struct Outer<'a> {
    pub module: ModuleId,
    pub sensed: &'a Sensed,
    pub keys: &'a [PortKey],
    pub values: &'a [i64],
}

impl View for Outer<'_> {
    ghost outer = { shown };

    fn sensor(&self, number: u16) -> i64 {
        self.sensed.get(self.module, number)
    }

    fn port(&self, key: &PortKey) -> i64 {
        number_of(self.keys, self.values, key)
    }
}

fn is_same(a: &PortKey, b: &PortKey) -> bool
    ensures { result ≡ is_same a.now b.now }
{
    a.module.0 == b.module.0 && a.task.0 == b.task.0 && a.output == b.output
}

fn place_of(keys: &[PortKey], key: &PortKey) -> Option<usize>
    ensures { result ≡ position (λ k. is_same k key.now) keys.now }
{
    keys.iter().position(|k| is_same(k, key))
}

fn number_of(keys: &[PortKey], values: &[i64], key: &PortKey) -> i64
    ensures { result ≡ number_of keys.now values.now key.now }
{
    match place_of(keys, key) {
        Some(place) => number_at(values, place),
        None => 0,
    }
}
