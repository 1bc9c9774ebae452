//! A table of atomic words, opened with one seat for each number from 0 on, and a counter of steps that costs
//! nothing. It stands on `atomic_table`, whose rule and views it takes over; a reader may rely on each seat beginning
//! with the view that its rule gives to its number.
#![tactic(auto)]

mod backoff;
mod open;
mod rule;
mod steps;

pub use backoff::{Backoff, KEPT_LOOKS, LONGEST_WAIT, MOST_LOOKS, REFUSED_ROUNDS, SHORTEST_WAIT};
pub use open::open_words;
pub use rule::{Start, StartRule};
pub use steps::Steps;
