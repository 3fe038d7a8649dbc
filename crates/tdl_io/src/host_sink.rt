ghost use Rattle.std.specs.Prelude.{◌≡◌, None};

use crate::{Sink, SinkFailed};
use std::io::{Print, Stderr};

/// The process's standard output or standard error, and a count of the puts that failed, which
/// stands still at the greatest u64. It does not tell what it holds.
#[derive(Drop)]
pub struct HostSink<P> {
    to: P,
    faults: u64,
}

impl<'a, R: Print> HostSink<&'a R> {
    /// The standard output.
    pub fn out(rt: &'a R) -> HostSink<&'a R>
        ensures { (⟦<HostSink<&'a R> as Sink>⟧.told result).faults ≡ 0 }
    {
        HostSink { to: rt, faults: 0 }
    }
}

impl HostSink<Stderr> {
    /// The standard error.
    pub fn err(rt: &HostRuntime) -> HostSink<Stderr>
        ensures { (⟦<HostSink<Stderr> as Sink>⟧.told result).faults ≡ 0 }
    {
        HostSink {
            to: rt.stderr(),
            faults: 0,
        }
    }
}

impl<P: Print> Sink for HostSink<P> {
    ghost told = { λ s. record { contents = None; faults = s.faults } };

    /// To take no byte of some is a failure as well.
    fn put(&mut self, bytes: &[u8]) -> Result<(), SinkFailed> {
        match self.to.write_all(bytes) {
            Ok(()) => Ok(()),
            Err(_) => {
                self.faults = self.faults.saturating_add(1);
                Err(SinkFailed)
            }
        }
    }
}
