//! Trials of the rows of an address space: scripts of splices over rows in blocks, in words of one's own, and plans of
//! calls and of two patches at once over rows in a list. A reader may rely on what the traits of `row_blocks` and
//! `row_plans` ask of those who keep rows being met there. All but the first rows of a space is read with the tests
//! alone.
#![tactic(auto)]

#[cfg(test)]
mod block_tests;
#[cfg(test)]
mod fill_tests;
#[cfg(test)]
mod plan_tests;
mod starts;

pub use starts::no_areas;
