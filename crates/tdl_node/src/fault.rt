ghost use Rattle.std.specs.Prelude.{◌≡◌};
ghost use Rattle.tdl_node.specs.Steps.{fault_of, printing_fault};

use crate::Stop;
use tdl_trace::{PrintFault, Why};
use thiserror::Error;

/// Why a run was not printed whole.
#[derive(Clone, Copy, Debug, PartialEq, Eq, Error)]
pub enum NodeFault {
    #[error("a trap")]
    Trapped(Why),
    #[error("the rows could not be written")]
    WriteFailed,
    #[error("no memory")]
    NoMemory,
}

impl From<Stop> for NodeFault {
    ghost from_gives = { λ stop fault. fault ≡ fault_of stop };

    fn from(stop: Stop) -> NodeFault {
        match stop {
            Stop::Trapped(why) => NodeFault::Trapped(why),
            Stop::NoMemory => NodeFault::NoMemory,
        }
    }
}

impl From<PrintFault> for NodeFault {
    ghost from_gives = { λ refused fault. fault ≡ printing_fault refused };

    fn from(refused: PrintFault) -> NodeFault {
        match refused {
            PrintFault::WriteFailed => NodeFault::WriteFailed,
            PrintFault::NoMemory => NodeFault::NoMemory,
        }
    }
}
