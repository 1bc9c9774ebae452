//! Several ranges at once, all or none: up to four ranges, held with four seats of one table of `range_rw`. Each want
//! is tried once, in order, and where one is refused those before it are given back; so nobody waits for one range
//! while it holds another. A reader may rely on a refused set holding nothing, and on a granted one holding all of it
//! when the call returns.
#![tactic(auto)]

mod set;
mod taking;
mod threads;
mod wants;

pub use set::SetSeat;
pub use taking::{SetRefused, release_set, try_set};
pub use threads::is_send_and_sync;
pub use wants::{Want, clash};
