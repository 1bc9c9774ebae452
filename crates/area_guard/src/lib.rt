//! The guard of a running address space, and its laws: what the callers of the space know, which steps on its words
//! they may make, and that between any two steps the words, what the callers know and the ranges that they hold have
//! one history. It has no code that runs. A reader may rely on `HasHistory` of `specs/History.antt` at every moment of
//! a space that stands under this guard, and on the laws of `specs/Stored.antt`, which say what it comes to.
#![tactic(auto)]

mod guard;
mod laws;

pub use guard::{Change, Look, Note, Pass, Pending, ReadRow, RowGuard, Splice};
pub use laws::{
    count_is_of_everything, draws_hold, history_is_stored, kept_word_stands, runs_are_legal,
    stores_are_new,
};
