//! A range lock over atomic words for up to 16 threads, and client words beside it that the layer above guards by a
//! rule of its own. Ranges are held as readers or writers in a list with marked nodes, as in Kogan, Dice and Issa,
//! "Scalable Range Locks for Scalable Address Spaces and Beyond", EuroSys 2020. A reader may rely on it that between
//! any two steps no two conflicting ranges are held and the guard's rule holds of the client words.
#![tactic(auto)]

mod acquire;
mod client;
mod inserting;
mod keeping;
mod laws;
mod nodes;
mod patience;
mod refusals;
mod release;
mod scan;
mod several;
mod table;
mod threads;
mod trying;

pub use epoch_pools::{LastClient, Looked, Lost, Met, Occupied, Record, Stuck};
pub use keeping::{looks_after, next_refused};
pub use laws::{keeps_apart, keeps_lock, keeps_no_reuse};
pub use patience::Anew;
pub use refusals::{NotHeld, OpenFault};
pub use scan::{Scan, Scanned};
pub use table::{CloseRefused, MOST_SEATS, RangeTable, Seat};
pub use threads::is_send_and_sync;
