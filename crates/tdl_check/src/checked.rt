ghost use Rattle.std.specs.Prelude.{◌≡◌};
ghost use Rattle.tdl_check.specs.IsChecked.{IsChecked};

use std::marker::Model;
use tdl_mode::Program;

/// A program that sources say which break no rule, at most 64: it is well-formed, keeps the limits
/// of its parts, the bounds of its bodies and the counts, and its names are identifiers and differ.
#[derive(Debug, Drop)]
pub struct Checked {
    pub(crate) program: Program,
}

impl Model for Checked {
    ghost use Rattle.tdl_mode.specs.declared.program.Program.{Program as Said};
    ghost use Rattle.tdl_mode.specs.contracts.program.Program.{the_row};
    ghost use Rattle.tdl_check.specs.IsChecked.{IsChecked};

    ghost Value = { Said };

    ghost coded = { the_row.coded };

    ghost view = { λ c. c.program };

    ghost invariant = { λ c. IsChecked c.program };
}

impl Checked {
    /// The program.
    pub fn program(&self) -> &Program
        ensures same { result.now ≡ self.now }
        ensures facts { IsChecked result.now }
    {
        &self.program
    }
}
