//! An event count, by which callers that wait sleep, on two atomic words: how many callers count themselves as
//! sleepers, and the event word, which each wake advances (Reed and Kanodia, CACM 1979; the count of sleepers as in
//! Vyukov's eventcount). A caller counts itself and reads the event word, looks once more at what it waits for, and
//! sleeps only while the word is what it read; who has changed what others wait for loads the count, and writes only if
//! somebody is counted. A reader may rely on each call's exact steps, and on the count being that of the callers.
#![tactic(auto)]

mod calls;
mod laws;
mod opening;
mod plays;
mod records;
mod rule;
mod sleeping;
mod table;
mod threads;

pub use calls::Notified;
pub use laws::counts_each_sleeper;
pub use records::{EventStep, Sleeper};
pub use sleeping::Slept;
pub use table::{EventCount, EventFault, EventSeat};
pub use threads::is_send_and_sync;
