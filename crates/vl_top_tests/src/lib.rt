//! Tests of `vl_top`: what its commands keep in a vault, through crashes, faults and damage.
//!
//! `program_tests` runs the program over a vault in memory, `vaults_tests` makes vaults, `inputs_tests` makes lines,
//! and `visitors_tests` makes the visitors of a server. The tests stand in modules of their own, by what happens to the
//! vault.
#![tactic(auto)]

#[cfg(test)]
mod crash_tests;
#[cfg(test)]
mod damage_tests;
#[cfg(test)]
mod day_tests;
#[cfg(test)]
mod fault_tests;
mod inputs_tests;
#[cfg(test)]
mod load_tests;
mod program_tests;
#[cfg(test)]
mod serve_tests;
mod vaults_tests;
mod visitors_tests;

pub use inputs_tests::{group_lines, row_lines};
pub use program_tests::{Ended, count_after_crash, load, query, query_after_crash, run_on, serve};
pub use vaults_tests::{VaultFault, copied, damaged, image_of, new_vault, spread_choice};
pub use visitors_tests::{PacedSource, Replies, ReplySink, TestDoors, insertions};
