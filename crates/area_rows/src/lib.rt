//! The rows of a running address space in atomic words, in blocks under the guard of the range lock, and its one
//! history. Callers on many threads read rows, draw numbers and change rows, each under the range that it holds;
//! taken by number, their calls are a legal history of the one-thread address space of `space_model`. A reader may
//! rely on the rule of `area_guard`, which holds between any two steps, and on what `close` gives: that history,
//! whole. A space may also keep none: `open_unkept`, `close_areas`.
#![tactic(auto)]

mod answer;
mod area;
mod beside;
mod change;
mod close;
mod collect;
mod first_words;
mod holding;
mod noted;
mod opening;
mod row;
mod rows;
mod scan;
mod space;
mod steps;
mod whole;
mod words;
mod writing;

pub use answer::Answer;
pub use area::AreaPlan;
pub use area_guard::{
    Change, Look, Note, Pass, Pending, ReadRow, RowGuard, Splice, count_is_of_everything,
    draws_hold, history_is_stored, kept_word_stands, runs_are_legal, stores_are_new,
};
pub use close::{Closed, SpaceCloseRefused};
pub use row::Row;
pub use row_plans::Cut;
pub use scan::SpaceScan;
pub use space::{Caller, Space, SpaceFault, is_send_and_sync};
