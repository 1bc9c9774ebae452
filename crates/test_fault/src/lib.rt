//! Trials of faults, maps and unmaps over one running address space: cases worked by hand, both sides of the limits,
//! and threads on shared pages. The callers are those of `test_crews`. There is little here but tests.
#![tactic(auto)]

mod replies;

pub use replies::short;

#[cfg(test)]
mod map_tests;
#[cfg(test)]
mod tests;
