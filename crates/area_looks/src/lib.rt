//! What a reader wants of a running address space, kept or unkept: the areas of a span as they are at one moment, for a
//! snapshot, a core dump or a copy, as proc_pid_maps(5) prints them. They are looks and no calls of the history: the
//! caller's entries, its number and what it has seen stay. Faults go on beside, since they are readers too. A reader
//! may rely on the list being that of every moment at which the caller goes on holding the span (`specs/Shown.antt`).
#![tactic(auto)]

mod at;
mod counted;
mod held;
mod told;
mod waiting;

pub use at::{Found, area_at, area_round};
pub use counted::{counts, fill_held, fill_round};
pub use held::areas_held;
pub use told::{Counts, Told};
pub use waiting::{areas, hold_areas};
