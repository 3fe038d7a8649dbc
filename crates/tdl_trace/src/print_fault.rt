ghost use Rattle.std.specs.Prelude.{◌≡◌};
ghost use Rattle.tdl_trace.specs.declared.print_fault.PrintFault.TheVariants.{WriteFailed, NoMemory as NoMemoryFault};

use tdl_base::NoMemory;
use tdl_io::SinkFailed;
use thiserror::Error;

/// Why rows were not printed whole.
#[derive(Clone, Copy, Debug, PartialEq, Eq, Error)]
pub enum PrintFault {
    #[error("the rows could not be written")]
    WriteFailed,
    #[error("no memory")]
    NoMemory,
}

impl From<NoMemory> for PrintFault {
    ghost from_gives = { λ _ e. e ≡ NoMemoryFault };

    fn from(_refused: NoMemory) -> PrintFault {
        PrintFault::NoMemory
    }
}

impl From<SinkFailed> for PrintFault {
    ghost from_gives = { λ _ e. e ≡ WriteFailed };

    fn from(_failed: SinkFailed) -> PrintFault {
        PrintFault::WriteFailed
    }
}
