ghost use Rattle.std.specs.Prelude.{◌≡◌, pos, position, slice_index_or};
ghost use Rattle.tdl_body.specs.Values.{read};
ghost use Rattle.tdl_eval.specs.Envs.{is_same, number_beside, seen, look_of, cells_alone};

use crate::{Env, Reader};
use tdl_base::{Place, PortKey};

// What an expression reads: cells, sensors, and outputs with their numbers.
#[derive(Clone, Copy, Debug)]
pub(crate) struct View<'a> {
    pub cells: &'a [i64],
    pub sensed: &'a [i64],
    pub keys: &'a [PortKey],
    pub ports: &'a [i64],
}

impl Reader for View<'_> {
    ghost look = { seen };

    fn read(&self, place: &Place) -> i64 {
        match place {
            Place::Sensor(k) => number_at(self.sensed, usize::from(*k)),
            Place::Port(key) => number_beside(key, self.keys, self.ports),
            Place::Cell(k) => number_at(self.cells, usize::from(*k)),
        }
    }
}

pub(crate) fn view_of(env: &Env) -> View<'_>
    ensures { seen result ≡ look_of env.now }
{
    View {
        cells: env.cells.as_slice(),
        sensed: env.sensed.as_slice(),
        keys: env.keys.as_slice(),
        ports: env.ports.as_slice(),
    }
}

// What a body reads.
pub(crate) fn view_of_cells(cells: &[i64]) -> View<'_>
    ensures { seen result ≡ cells_alone cells.now }
{
    View {
        cells,
        sensed: &[],
        keys: &[],
        ports: &[],
    }
}

fn number_at(numbers: &[i64], place: usize) -> i64
    ensures { result ≡ slice_index_or numbers.now place (pos 0) }
{
    numbers.get(place).copied().unwrap_or(0)
}

fn number_beside(key: &PortKey, keys: &[PortKey], ports: &[i64]) -> i64
    ensures { result ≡ number_beside key.now keys.now ports.now }
{
    match place_of(key, keys) {
        None => 0,
        Some(place) => number_at(ports, place),
    }
}

fn place_of(key: &PortKey, keys: &[PortKey]) -> Option<usize>
    ensures { result ≡ position (λ k. is_same k key.now) keys.now }
{
    keys.iter().position(|k| is_same(k, key))
}

fn is_same(a: &PortKey, b: &PortKey) -> bool
    ensures { result ≡ is_same a.now b.now }
{
    a.module.0 == b.module.0 && a.task.0 == b.task.0 && a.output == b.output
}
