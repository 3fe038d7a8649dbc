use tdl_lines::Fault;
use thiserror::Error;

/// Why a scenario was not read.
#[derive(Clone, Copy, Debug, PartialEq, Eq, Error)]
pub enum ScenError {
    /// A line breaks a rule, first this one.
    #[error("a line of the scenario breaks a rule")]
    BadScenario(Fault),
    #[error("no memory")]
    NoMemory,
}

impl From<tdl_base::NoMemory> for ScenError {
    ghost use Rattle.std.specs.Prelude.{◌≡◌};
    ghost use Rattle.tdl_scenario.specs.declared.error.ScenError.TheVariants.{NoMemory};

    ghost from_gives = { λ _ e. e ≡ NoMemory };

    fn from(_refused: tdl_base::NoMemory) -> ScenError {
        ScenError::NoMemory
    }
}
