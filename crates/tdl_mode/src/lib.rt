//! Programs: modules with their tasks and modes. What they mean is in specs/: the offsets of a
//! mode, the logical instant with its four phases, and the states of a run.
#![tactic(auto)]

pub mod laws;
mod program;

pub use program::{Constant, Invocation, Mode, Module, PortDef, Program, Switch, Task, Update};
