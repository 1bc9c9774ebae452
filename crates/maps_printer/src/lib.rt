//! The texts of an address space: its maps as proc_pid_maps(5) has them, a call as strace(1) prints it, and this
//! project's own log, changes and summary. Each text is a definition in `specs/`, a function from what it shows to
//! bytes. Each call here appends exactly that text to a sink, or a first part of it where the sink failed, and takes no
//! memory.
#![tactic(auto)]

mod buffer;
mod calls;
mod changes;
mod differing;
mod log;
mod maps;
mod numbers;
mod words;

pub use calls::write_call;
pub use changes::write_changes;
pub use differing::{DifferingReply, write_differing};
pub use log::{is_line_of, write_log};
pub use maps::{is_line_of_area, write_maps, write_summary, write_touched};
