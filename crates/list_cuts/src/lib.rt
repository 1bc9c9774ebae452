//! How the numbers of a range lock are shared out among several lists, so that threads at ranges apart change no word
//! in common: a cut deals blocks of numbers out to regions in turn, and each region has a list of its own. A reader may
//! rely on a range taking the list of each of its numbers, and on two ranges that overlap taking a list in common;
//! that is what exclusion over several lists rests on. This project's own profile.
#![tactic(auto)]

mod cut;
pub mod laws;

pub use cut::{BadCut, Cut};
