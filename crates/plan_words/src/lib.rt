//! The words of a running address space, as a caller that holds everything finds them: the rows as a plan asks for
//! them, and the writing of the splice that it makes of them. A reader may rely on each step being one that the guard
//! of `area_guard` allows, and on the rows showing the last state again when the sequence word is raised.
#![tactic(auto)]

mod held;
mod steps;
mod words;
mod writing;

pub use held::{HeldRows, HeldWords};
pub use writing::write_splice;
