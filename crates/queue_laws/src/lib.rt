//! A queue in front of a range lock, as a pure machine: seats that were refused announce the ranges that they wait for,
//! and each seat looks at the announcements before it tries. An older announcement in conflict makes it give way, as
//! an older ticket does in Lamport's bakery (CACM 1974). A reader may rely on the law that bounds how often a seat
//! that has announced its range is overtaken; it is stated over every run of the machine.
#![tactic(auto)]

mod laws;
mod places;
mod steps;

pub use laws::{bounds_overtaking, conflicts_are_exact, gives_way_to_what_stands};
pub use places::{Announcement, Look, Telling};
pub use steps::QueueStep;
