//! What is proved of the list lock as a whole, over every interleaving of its seats: the invariant, the law that each
//! step of the pure machine in `lock_core` keeps it, and what follows for every run. The functions have nothing to run;
//! their contracts are the laws, and a reader may rely on them as on any contract. The lock follows Kogan, Dice and
//! Issa, "Scalable Range Locks for Scalable Address Spaces and Beyond", EuroSys 2020, who argue for it in prose.
#![tactic(auto)]

mod laws;
mod runs;

pub use laws::{
    grants_change, idle_steps_show, leaves_ready_by_clear_home, loads_find, lock_has_no_reuse,
    lock_is_exclusive, paths_are_short, reader_stands_first, start_is_lock, steps_keep,
    views_are_sound,
};
pub use runs::{play, runs_are_exclusive, runs_have_no_reuse};
