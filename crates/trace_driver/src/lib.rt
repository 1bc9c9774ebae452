//! The whole program `range_cli` as a library, over a source and two sinks: from the words of its command line to the
//! report, the line on standard error and the exit status. As the driver of a compiler it runs the stages in their
//! order, and the program over it is a few lines. A reader may rely on the clauses of `run`, which say all that is
//! proved of the program; `run_clean` says it of ports that fail as seldom as they can.
#![tactic(auto)]

mod checking;
mod clean;
mod dealing;
mod error_line;
mod input;
mod laws;
mod load;
mod opening;
mod play;
mod processes;
mod report;
pub mod run;
mod script;
mod shown;
mod status;
mod trace;

pub use clean::run_clean;
pub use error_line::write_error;
pub use laws::{carried_logs_are_good, one_worker_has_one_report, one_worker_plays_one_history};
pub use status::{EarlyEnd, Status, Which};
