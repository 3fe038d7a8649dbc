use tdl_lines::Fault;
use thiserror::Error;

/// Why a schedule was not read.
#[derive(Clone, Copy, Debug, PartialEq, Eq, Error)]
pub enum SchedError {
    /// A line breaks a rule, first this one: 0 or 1.
    #[error("a line of the schedule breaks a rule")]
    BadSchedule(Fault),
    #[error("no memory")]
    NoMemory,
}

impl From<tdl_base::NoMemory> for SchedError {
    ghost use Rattle.std.specs.Prelude.{◌≡◌};
    ghost use Rattle.tdl_sched.specs.declared.error.SchedError.TheVariants.{NoMemory};

    ghost from_gives = { λ _ e. e ≡ NoMemory };

    fn from(_refused: tdl_base::NoMemory) -> SchedError {
        SchedError::NoMemory
    }
}
