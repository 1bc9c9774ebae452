//! An event count may be shared by threads by reference, and a seat may go from one thread to another.
use crate::table::{EventCount, EventSeat};

fn sends<T: Send>() {}

fn shares<T: Sync>() {}

/// That an event count is Send and Sync, and a seat is Send. It does nothing.
pub fn is_send_and_sync() {
    sends::<EventCount>();
    shares::<EventCount>();
    sends::<EventSeat>();
}
