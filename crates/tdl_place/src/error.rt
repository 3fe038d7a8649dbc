use tdl_lines::Fault;
use thiserror::Error;

/// Why a placement was not read.
#[derive(Clone, Copy, Debug, PartialEq, Eq, Error)]
pub enum PlaceError {
    /// A line breaks a rule, first this one.
    #[error("a line of the placement breaks a rule")]
    BadPlacement(Fault),
    #[error("no memory")]
    NoMemory,
}

impl From<tdl_base::NoMemory> for PlaceError {
    ghost use Rattle.std.specs.Prelude.{◌≡◌};
    ghost use Rattle.tdl_place.specs.declared.error.PlaceError.TheVariants.{NoMemory};

    ghost from_gives = { λ _ e. e ≡ NoMemory };

    fn from(_refused: tdl_base::NoMemory) -> PlaceError {
        PlaceError::NoMemory
    }
}
