ghost use Rattle.std.specs.Prelude.{◌≡◌, pos, slice_index_or};
ghost use Rattle.tdl_base.specs.declared.kinds.Kind.TheVariants.{Long};
ghost use Rattle.tdl_base.specs.Cells.{Cells, stored};
ghost use Rattle.tdl_stack.specs.Running.{no_cells};

use std::marker::Model;
use tdl_base::{Kind, Listed, narrow};

/// The cells of a job: its inputs, then its outputs, then its locals. Contracts see their kinds and
/// their numbers.
#[derive(Debug, Drop)]
pub struct Cells {
    kinds: Listed<Kind>,
    values: Listed<i64>,
}

impl Model for Cells {
    ghost use Rattle.tdl_base.specs.Cells.{Cells};

    ghost Value = { Cells };

    ghost view = { λ c. record {
      kinds = c.kinds;
      values = c.values;
    } };
}

impl Cells {
    /// Cells of these kinds with these numbers. A cell without a kind takes numbers as `Long`.
    pub fn new(kinds: Listed<Kind>, values: Listed<i64>) -> Cells
        ensures { result ≡ record {
          kinds = kinds;
          values = values;
        } }
    {
        Cells { kinds, values }
    }

    /// The numbers of the cells.
    pub fn values(&self) -> &[i64]
        ensures { result.now ≡ self.now.values }
    {
        self.values.as_slice()
    }

    /// The kinds and the numbers of the cells, the cells being given up.
    pub fn into_parts(self) -> (Listed<Kind>, Listed<i64>)
        ensures kinds { result.0 ≡ self.kinds }
        ensures values { result.1 ≡ self.values }
    {
        let Cells { kinds, values } = self;
        (kinds, values)
    }

    /// The numbers of the cells, the cells being given up.
    pub fn into_values(self) -> Listed<i64>
        ensures { result ≡ self.values }
    {
        let Cells { kinds: _, values } = self;
        values
    }
}

/// What a code works on.
pub(crate) trait CellStore {
    /// The cells.
    ghost cells: { Self → Cells };

    /// The number of a cell; 0 where there is no such cell.
    fn load(&self, cell: u16) -> i64
        ensures { result ≡ slice_index_or (cells self.now).values cell (pos 0) };

    /// Sets a cell to the number, narrowed to the cell's kind. Nothing changes where there is no
    /// such cell.
    fn store(&mut self, cell: u16, v: i64)
        ensures { cells self.new ≡ stored cell v (cells self.old) };
}

impl CellStore for Cells {
    ghost cells = { λ c. c };

    fn load(&self, cell: u16) -> i64 {
        number_at(self.values.as_slice(), usize::from(cell))
    }

    fn store(&mut self, cell: u16, v: i64) {
        let at = usize::from(cell);
        let kind = kind_at(self.kinds.as_slice(), at);
        if at < self.values.len() {
            self.values.set(at, narrow(kind, v));
        }
    }
}

pub(crate) fn number_at(numbers: &[i64], at: usize) -> i64
    ensures { result ≡ slice_index_or numbers.now at (pos 0) }
{
    numbers.get(at).copied().unwrap_or(0)
}

fn kind_at(kinds: &[Kind], at: usize) -> Kind
    ensures { result ≡ slice_index_or kinds.now at Long }
{
    kinds.get(at).copied().unwrap_or(Kind::Long)
}

/// The cells of an expression: none.
#[derive(Drop)]
pub(crate) struct NoCells;

impl CellStore for NoCells {
    ghost cells = { λ _. no_cells };

    fn load(&self, _cell: u16) -> i64 {
        0
    }

    fn store(&mut self, _cell: u16, _v: i64) {}
}
