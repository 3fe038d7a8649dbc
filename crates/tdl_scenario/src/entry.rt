use tdl_base::{Listed, ModuleId, NodeId, Us};
use tdl_scen::TaskTimes;

/// What a line says, where its names are looked up.
#[derive(Debug, Drop)]
pub(crate) enum Entry {
    /// The line is of no form.
    Formless,
    /// It names a module, a sensor, a task or an actuator that is not there.
    Unknown,
    /// `horizon T`
    Horizon(Us),
    /// `sense M.S T V`; no value where V is outside the sensor's kind.
    Sense {
        module: ModuleId,
        sensor: u16,
        at: Us,
        value: Option<i64>,
    },
    /// `exec M.T E E`, with the task's worst case.
    Exec {
        worst: Us,
        times: TaskTimes,
    },
    /// `order NODE NODE`; no list where a name is no node's.
    Order(Option<Listed<NodeId>>),
    /// `bind M.X PLANT PORT`; no plug where there is no such plant or port.
    Bind {
        part: Part,
        plug: Option<Plug>,
    },
}

/// A sensor, or else an actuator.
#[derive(Clone, Copy, Debug, PartialEq, Eq)]
pub(crate) struct Part {
    pub sensor: bool,
    pub module: ModuleId,
    pub index: u16,
}

/// A port of a plant.
#[derive(Clone, Copy, Debug, PartialEq, Eq)]
pub(crate) struct Plug {
    pub plant: u16,
    pub port: u16,
}
