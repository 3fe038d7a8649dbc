use tdl_rules::Fault;
use thiserror::Error;

/// Why sources are no program.
#[derive(Clone, Copy, Debug, PartialEq, Eq, Error)]
pub enum CheckError {
    /// A rule is broken, first here.
    #[error("a rule is broken")]
    BadProgram(Fault),
    #[error("no memory")]
    NoMemory,
}

impl From<tdl_base::NoMemory> for CheckError {
    ghost use Rattle.std.specs.Prelude.{◌≡◌};
    ghost use Rattle.tdl_check.specs.declared.error.CheckError.TheVariants.{NoMemory};

    ghost from_gives = { λ _ e. e ≡ NoMemory };

    fn from(_refused: tdl_base::NoMemory) -> CheckError {
        CheckError::NoMemory
    }
}
