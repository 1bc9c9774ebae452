//! The speculative mprotect of Kogan, Dice and Issa, EuroSys 2020, on a running address space: a change of protection
//! that changes no number of rows holds its one area and a page on each side, and so runs beside faults and other
//! changes elsewhere. A reader may rely on each answer naming truly by which way the call went, and why: `IsProtected`
//! of `specs/Protects.antt`.
#![tactic(auto)]

mod beside;
mod laws;
mod path;
mod protecting;
mod steps;
#[cfg(test)]
mod tests;

pub use beside::protect_beside;
pub use laws::{lone_protects_hold_their_area, paths_are_of_the_history};
pub use path::{Cause, Path, Protected};
pub use protecting::{make_protect, protect};
