//! A set of page numbers that only grows, shared by threads without a lock, in one table of words. A word is 0 or a
//! page plus 1, and a page is looked for by linear probing (Knuth, The Art of Computer Programming, volume 3, 6.4). A
//! reader may rely on the first touch of each page being answered once over all threads (`AreFirstTouches` in
//! `specs/Touched.antt`), and on the closing giving just the pages that were touched.
#![tactic(auto)]

mod closing;
mod laws;
mod opening;
mod plays;
mod records;
mod rule;
mod table;
mod threads;
mod touching;

pub use closing::TouchCloseRefused;
pub use laws::keeps_first_touches;
pub use table::{TouchFault, TouchSeat, Touches};
pub use threads::is_send_and_sync;
pub use touching::Touched;
