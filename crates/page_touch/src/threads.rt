//! A set of touched pages may be shared by threads by reference, and a seat may go from one thread to another.
use crate::table::{TouchSeat, Touches};

fn sends<T: Send>() {}

fn shares<T: Sync>() {}

/// That a set is Send and Sync, and a seat is Send. It does nothing.
pub fn is_send_and_sync() {
    sends::<Touches>();
    shares::<Touches>();
    sends::<TouchSeat>();
}
