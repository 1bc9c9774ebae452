//! A table may be shared by threads by reference, and a seat may go from one thread to another. Nothing is asked of
//! the guard for it, since no value of its types is made when the program runs.
use crate::table::{WaitSeat, WaitTable};
use lock_core::Guard;

fn sends<T: Send>() {}

fn shares<T: Sync>() {}

/// That a table is Send and Sync, and a seat is Send, over every guard. It does nothing.
pub fn is_send_and_sync<G: Guard>() {
    sends::<WaitTable<G>>();
    shares::<WaitTable<G>>();
    sends::<WaitSeat<G>>();
}
