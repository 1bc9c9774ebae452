//! A sorted list of rows that stands in blocks, so that what a change moves doesn't grow with the list. The first row
//! of each block stands in a directory of heads and nowhere else, and the layout tells which words are rows. There are
//! no atomics here and no threads: words are loaded and stored by a hand, under the conditions of the traits `Loads`
//! and `Words`. A reader may rely on each operation leaving the words laid out, with the rows that its contract says,
//! in a bounded number of steps.
#![tactic(auto)]

mod coming;
mod cutting;
mod deleting;
mod filling;
mod finding;
mod fits;
mod gaps;
mod inserting;
mod laying;
mod merging;
mod moves;
mod positions;
mod removing;
mod rooms;
mod settling;
mod splitting;
mod words;
mod writing;

pub use deleting::delete;
pub use filling::{blocks_for, fill, gather};
pub use finding::{Found, find};
pub use fits::gap_before;
pub use inserting::insert;
pub use laying::lay;
pub use merging::merge;
pub use positions::{Position, next, previous, row_at};
pub use removing::take_out;
pub use splitting::split;
pub use words::{Loads, Words};
pub use writing::write;
