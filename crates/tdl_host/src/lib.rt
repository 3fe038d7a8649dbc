//! The machine of one hosted module: a node that runs its blocks, its jobs and its codes. It goes
//! once the node of any image stands, with any modules, stubs and frames.
#![tactic(auto)]

mod act;
mod job;
mod machine;
mod micro;
#[cfg(test)]
mod samples;
mod seen;
mod state;
mod step;
mod task;
#[cfg(test)]
mod tests;
mod times;
mod turn;

pub use machine::HostMachine;
