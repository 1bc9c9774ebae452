//! Crews: all callers of one running address space, each to be used by name or on a thread of its own. A layer above
//! opens a crew, has it make calls, faults, maps and unmaps among them, and closes the space, which gives the whole
//! history. Each call's contract says what it leaves of the crew. The trials and the programs that measure stand on it.
#![tactic(auto)]

mod calls;
mod crew;
mod held;
mod work;

pub use calls::make_call;
pub use crew::{call_by, open_crew, open_cut_crew, try_beside, try_by, try_read, work_all};
pub use held::{HeldCalls, Holding, hold_beside};
pub use work::{Work, call_at, not_replacing, replacing};
