//! Raw logs of strace(1) up to the texts of one address space, in their order: lines without messages of strace's own,
//! what options add taken away, each with its number, and of the process that is asked for. `AreTexts` in
//! `specs/Reading.antt` is the whole. `read_log` is exactly it.
#![tactic(auto)]

mod choosing;
mod counts;
mod fault;
mod healing;
mod lines;
mod numbering;
mod reading;
mod spaces;
mod told;

pub use counts::{Counts, Sort};
pub use fault::LogFault;
pub use lines::{LINE_LIMIT, Lines};
pub use numbering::Numbering;
pub use reading::{Texts, read_log};
