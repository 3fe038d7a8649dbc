use std::alloc::Global;
use tdl_base::{Listed, ModuleId, NodeId, TaskId, Us};

/// A scenario: what is sensed and how long jobs take, up to a horizon.
#[derive(Debug, Drop)]
pub struct Scenario {
    /// The last instant.
    pub horizon: Us,
    /// What the sensors read, in order of the file.
    pub senses: Listed<Sense>,
    /// How long the jobs of some tasks take; other jobs take their task's worst case.
    pub times: Listed<TaskTimes>,
    /// The order in which the nodes step; none means their own order.
    pub order: Listed<NodeId>,
    /// The ports of plants that sensors and actuators are bound to.
    pub binds: Listed<Bind>,
}

/// From `at` on the sensor reads `value`, until its next entry.
#[derive(Clone, Copy, Debug, PartialEq, Eq)]
pub struct Sense {
    pub module: ModuleId,
    pub sensor: u16,
    pub at: Us,
    pub value: i64,
}

/// How long the jobs of a task take, in microseconds, in order of their release. A later entry of
/// the same task goes on where this one ends.
#[derive(Debug, Drop)]
pub struct TaskTimes {
    pub module: ModuleId,
    pub task: TaskId,
    pub times: Listed<u64>,
}

/// A sensor, or else an actuator, is bound to a port of a plant.
#[derive(Clone, Copy, Debug, PartialEq, Eq)]
pub struct Bind {
    pub sensor: bool,
    pub module: ModuleId,
    /// The number of the sensor or actuator in its module.
    pub index: u16,
    pub plant: u16,
    pub port: u16,
}
