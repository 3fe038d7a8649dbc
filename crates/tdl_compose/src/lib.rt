//! The program that sources say which break no rule, made by tables.
#![tactic(auto)]

mod declarations;
mod home;
mod invocations;
mod modes;
mod modules;
mod names;
mod program;
mod starts;
mod switches;
mod tasks;
mod updates;

pub use program::program_of;
