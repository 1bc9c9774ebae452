//! A list may be shared by threads by reference, and a hand may go from one thread to another. Nothing is asked of the
//! guard for it, since no value of its types is made when the program runs.
use crate::hand::Hand;
use crate::list::List;
use lock_core::Guard;

fn sends<T: Send>() {}

fn shares<T: Sync>() {}

/// That a list is Send and Sync, and a hand is Send, over every guard. It does nothing.
pub fn is_send_and_sync<G: Guard>() {
    sends::<List<G>>();
    shares::<List<G>>();
    sends::<Hand<G>>();
}
