use crate::{Done, Idle, Ready};

/// The slot of a task, in any state.
pub enum Slot {
    Idle(Idle),
    Ready(Ready),
    Done(Done),
}

impl Slot {
    /// Gives up a slot in any state, when a run is over.
    pub fn scrap(self) {
        match self {
            Slot::Idle(idle) => idle.scrap(),
            Slot::Ready(ready) => ready.scrap(),
            Slot::Done(done) => done.scrap(),
        }
    }
}
