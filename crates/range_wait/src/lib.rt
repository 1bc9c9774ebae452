//! A range lock on which callers queue and sleep. A caller that was refused eight times announces its range, and sleeps
//! between two tries; who gives a range or an announcement back wakes those who are counted. A reader may rely on each
//! try that the lock refuses having a look behind it, and on no caller reaching the lock otherwise.
#![tactic(auto)]

mod client;
mod opening;
mod refused;
mod table;
mod threads;
mod trying;
mod up_to;
mod waiting;

pub use table::{WaitSeat, WaitTable};
pub use threads::is_send_and_sync;
pub use waiting::AWAKE_TRIES;
