ghost use Rattle.std.specs.Prelude.{◌≤◌, OnOk, OnErr};
ghost use Rattle.tdl_io.specs.Outside.{Rose, Appends, AppendsPart};
ghost use Rattle.tdl_io.specs.Told.{SinkTold};

use thiserror::Error;

/// A sink failed: its count of faults rose.
#[derive(Clone, Copy, Debug, PartialEq, Eq, Error)]
#[error("the bytes could not be written")]
pub struct SinkFailed;

/// What takes bytes, in order.
pub trait Sink {
    /// What it holds, and a count of its faults, which never falls and may stand still at the
    /// greatest u64.
    ghost told: { Self → SinkTold };

    /// Takes all the bytes, or fails and may have taken the first of them.
    fn put(&mut self, bytes: &[u8]) -> Result<(), SinkFailed>
        ensures ok { OnOk result
            (Appends (told self.old).contents (told self.new).contents bytes.now) }
        ensures err { OnErr result
            (AppendsPart (told self.old).contents (told self.new).contents bytes.now) }

        ensures later { (told self.old).faults ≤ (told self.new).faults }
        ensures cause { OnErr result (Rose (told self.old).faults (told self.new).faults) };
}
