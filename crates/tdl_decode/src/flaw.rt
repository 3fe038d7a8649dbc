use tdl_base::NoMemory as Wanting;

/// Why a part of a bundle was not read.
#[derive(Clone, Copy, Debug, PartialEq, Eq)]
pub enum Flaw {
    /// Memory could not be had.
    NoMemory,
    /// The rule that is broken, and how many bytes are left from the broken place on.
    Broken { rule: u8, left: usize },
}

impl From<Wanting> for Flaw {
    ghost use Rattle.std.specs.Prelude.{◌≡◌};
    ghost use Rattle.tdl_decode.specs.declared.flaw.Flaw.TheVariants.{NoMemory};

    ghost from_gives = { λ _ e. e ≡ NoMemory };

    fn from(_refused: Wanting) -> Flaw {
        Flaw::NoMemory
    }
}

/// The bytes end within a field.
pub const CUT: Flaw = Flaw::Broken { rule: 2, left: 0 };
