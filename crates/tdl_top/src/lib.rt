//! The one call that does all that the program does.
#![tactic(auto)]

mod inputs;
mod load;
mod print;
mod save;
mod sources;
mod top;

pub use tdl_report::Status;
pub use top::tdl;

#[cfg(test)]
mod cases;
#[cfg(test)]
mod compile_tests;
#[cfg(test)]
mod exec_tests;
#[cfg(test)]
mod fault_tests;
#[cfg(test)]
mod plain_tests;
#[cfg(test)]
mod run_tests;
#[cfg(test)]
mod samples;
#[cfg(test)]
mod scenario_tests;
#[cfg(test)]
mod sources_tests;
#[cfg(test)]
mod syntax_tests;
#[cfg(test)]
mod words_tests;
