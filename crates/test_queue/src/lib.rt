//! Trials of a range lock on which callers queue. Worked cases on one thread say who gives way to whom, and what
//! happens to announcements; threads count how often one that waits is overtaken. What is expected was reckoned by
//! hand.
#![tactic(auto)]

#[cfg(test)]
mod opened;
#[cfg(test)]
mod plays;
#[cfg(test)]
mod stress;
#[cfg(test)]
mod stress_tests;
#[cfg(test)]
mod tests;
