/// Why a run ends.
#[derive(Clone, Copy, Debug, PartialEq, Eq)]
pub enum Why {
    /// A frame or an end of a job that is not done.
    Late,
    /// A task was released again before its job ended.
    Busy,
    /// Two windows on one processor, or two frames on the bus.
    Clash,
    /// More instructions at one instant than the declared count.
    Budget,
    /// A number without a place.
    Lost,
}
