//! Trials of whole runs of the program, by the public calls of `trace_driver`: ports that fail or that move single
//! bytes, a gate that counts lines or holds a worker back, and the history that a status carries. What a run of the
//! built program shows is a case in `tests/` instead. They stand apart from the crate that they try, which is then
//! proved once. There is little here but tests.
#![tactic(auto)]

#[cfg(test)]
mod clean_tests;
#[cfg(test)]
mod gate_tests;
#[cfg(test)]
mod port_tests;
mod trial;
#[cfg(test)]
mod worker_tests;

pub use trial::{Status, ended, plain};
