//! The rules of programs on whole sources, from their bytes to the first fault. Tests alone.
#![tactic(auto)]

#[cfg(test)]
mod bound_tests;
#[cfg(test)]
mod choice_tests;
#[cfg(test)]
mod count_tests;
#[cfg(test)]
mod name_tests;
#[cfg(test)]
mod program_tests;
#[cfg(test)]
mod rule_tests;
#[cfg(test)]
mod sort_tests;
#[cfg(test)]
mod time_tests;
#[cfg(test)]
mod verdict;
