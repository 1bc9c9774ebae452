//! Where bytes come from and where they go: a `Source` gives bytes and a `Sink` takes them, after std's `Read` and
//! `Write`. Contracts say which bytes moved, and that a failure was the port's own: a port counts its failed calls,
//! and `Failed` comes only where that count rose. Code over the two traits is proved once, for pipes, files and memory
//! alike; what each count is and when it rises is this project's own profile.
#![tactic(auto)]

mod clean;
mod drip;
mod fill;
mod input;
mod memory;
mod moves;
mod ports;
mod standard;
mod whole;

pub use clean::{CleanSink, CleanSource};
pub use drip::{DripSink, DripSource};
pub use fill::FillSource;
pub use input::{Unread, read_all};
pub use memory::{MemorySink, MemorySource};
pub use ports::{Failed, Sink, Source};
pub use standard::{StdSink, StdSource};
pub use whole::{write_all, write_decimal, write_numbered};
