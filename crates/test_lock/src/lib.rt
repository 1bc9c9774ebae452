//! Trials of the range lock by threads: a guard with a rule of its own, and worked cases through the public calls.
//! One guard counts the writers that are inside in a client word, and keeps in each pass what its writers came for;
//! another counts what the seats bring in. A reader may take them as examples of how a layer above the lock is written.
//! Beside them stand which lists a range takes under a cut, row by row, and tries in a table of several lists.
#![tactic(auto)]

#[cfg(test)]
mod adds;
#[cfg(test)]
mod crowd;
#[cfg(test)]
mod cut_rows;
#[cfg(test)]
mod holds;
#[cfg(test)]
mod opened;
#[cfg(test)]
mod pairs;
#[cfg(test)]
mod regions;
mod repeats;
#[cfg(test)]
mod set_tests;
mod tally;
#[cfg(test)]
mod tests;
#[cfg(test)]
mod turns;
mod turnstile;
#[cfg(test)]
mod visits;

pub use repeats::hold_times;
pub use tally::{Brought, Tally};
pub use turnstile::{Turnstile, Visits};
