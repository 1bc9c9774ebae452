//! Trials of workers that play lines beside each other, through the public calls: worked cases, a gate that holds one
//! worker back until another got on, and histories that are looked at line by line when the space is closed. They show
//! how a layer above plays a trace, and what no contract says: that workers run beside each other. The set of pages
//! that workers touch is tried here too. All but the lines is read with the tests alone.
#![tactic(auto)]

#[cfg(test)]
mod beside;
#[cfg(test)]
mod dealt;
mod lines;
#[cfg(test)]
mod signs;
#[cfg(test)]
mod tests;
#[cfg(test)]
mod touch_tests;

pub use lines::{one_line, page_lines, read_line, read_lists};
