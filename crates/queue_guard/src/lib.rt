//! The words of a queue beside those of another guard: what each seat may do to them, and the rule that all keep. The
//! announcements of `queue_laws` stand in client words of a range lock, in front of the words of the guard given; each
//! step on one of them is a line of the queue's machine. A reader may rely on the guard given seeing its own words
//! alone, as if there were no queue.
#![tactic(auto)]

mod guard;
mod laws;
mod passes;

pub use guard::Queued;
pub use laws::acts_are_lines;
pub use passes::{Act, Doing, Ends, QueuePass};
