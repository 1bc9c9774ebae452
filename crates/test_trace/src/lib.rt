//! Trials of traces and logs, by the public calls: lines that are read, texts that are written, written lines that are
//! read back, logs that are judged, and raw logs, at cases worked by hand. They stand apart from the crates that they
//! try, which are then proved once. There is little here but tests.
#![tactic(auto)]

mod entries;
#[cfg(test)]
mod log_line_tests;
#[cfg(test)]
mod log_tests;
#[cfg(test)]
mod printer_tests;
#[cfg(test)]
mod raw_tests;
#[cfg(test)]
mod reader_tests;
#[cfg(test)]
mod round_tests;
#[cfg(test)]
mod shell_tests;

pub use entries::entry;
