//! A set of seats may go from one thread to another, as its seats may. Nothing is asked of the guard for it, since no
//! value of its types is made when the program runs.
use crate::set::SetSeat;
use lock_core::Guard;

fn sends<T: Send>() {}

/// That a set of seats is Send, over every guard. It does nothing.
pub fn is_send_and_sync<G: Guard>() {
    sends::<SetSeat<G>>();
}
