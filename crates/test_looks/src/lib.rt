//! Trials of looks at a running address space of either kind: worked cases, both sides of the ends of areas and of the
//! limits. What a test expects is reckoned by hand. There is little here but tests.
#![tactic(auto)]

mod looking;
#[cfg(test)]
mod tests;

pub use looking::{area_by, areas_by, counts_by, fill_by};
