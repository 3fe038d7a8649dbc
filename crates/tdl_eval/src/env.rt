ghost use Rattle.std.specs.Prelude.{◌≡◌, length};

use tdl_base::{Kind, Listed, PortKey};

/// What expressions read, and the cells that a body works on. A cell, a sensor or an output that is
/// not there reads as 0. A body reads its cells alone.
#[derive(Debug, Drop)]
pub struct Env {
    /// The kind of each cell.
    pub kinds: Listed<Kind>,
    /// The cells: the inputs of the job, then its outputs, then its locals.
    pub cells: Listed<i64>,
    /// The numbers of the module's sensors.
    pub sensed: Listed<i64>,
    /// The outputs that may be read. Where one stands twice, its first number counts.
    pub keys: Listed<PortKey>,
    /// The number of each of these outputs.
    pub ports: Listed<i64>,
    pub ghost kind_each: { length cells ≡ length kinds },
    pub ghost number_each: { length ports ≡ length keys },
}
