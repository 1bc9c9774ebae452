//! Trials of the base, by the public calls: the check of a call's arguments, the space of one thread, the ports, the
//! words of a command line and the lines of a load, at cases worked by hand. They stand apart from the crates that they
//! try, which are then proved once. There is little here but tests: tables, each of which one small loop plays.
#![tactic(auto)]

#[cfg(test)]
mod argument_tests;
#[cfg(test)]
mod command_tests;
#[cfg(test)]
mod load_tests;
#[cfg(test)]
mod port_tests;
mod replies;
#[cfg(test)]
mod space_tests;

pub use replies::einval;
