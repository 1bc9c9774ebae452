//! Trials of changes of protection by threads over one running address space, and worked cases through the public
//! calls: callers that move the boundaries between their areas back and forth, beside others that fault on both sides.
//! They show how a layer above uses `protect`, and keep the way of each call; each call's contract says what it leaves
//! of the crew. A fault beside an open scan is tried here too.
#![tactic(auto)]

#[cfg(test)]
mod block_tests;
#[cfg(test)]
mod claims;
#[cfg(test)]
mod scan_tests;
#[cfg(test)]
mod scanning;
mod single;
#[cfg(test)]
mod tests;
#[cfg(test)]
mod thread_tests;
#[cfg(test)]
mod trials;
#[cfg(test)]
mod ways;

pub use single::{change, protect_by};
