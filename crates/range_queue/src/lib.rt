//! The calls of a queue in front of a range lock. A caller that was refused announces the range that it waits for; each
//! try of another looks at the announcements first, and gives way to an older one in conflict. The table owns its lock,
//! over a guard with a queue in front, so the announcements stand among its client words. A reader may rely on a try's
//! look being over before its first step on the lock, and on no caller reaching the lock otherwise.
#![tactic(auto)]

mod announcing;
mod answers;
mod client;
mod laws;
mod looking;
mod meaning;
mod table;
mod telling;
mod threads;
mod trying;
mod words;

pub use answers::{NotAnnounced, NotYet};
pub use laws::bounds_overtaking;
pub use queue_laws::Announcement;
pub use table::{QueueSeat, QueueTable};
pub use threads::is_send_and_sync;
