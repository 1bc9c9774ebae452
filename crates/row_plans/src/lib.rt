//! The rows of an address space as words, and what a call makes of them: a plan, which is a splice of the rows, before
//! any word is stored. Rows are found and loaded where the plan needs them, by the places where they stand. There are
//! no atomics here and no threads; `area_rows` loads rows under a held range, and writes what was planned. A reader may
//! rely on a plan being what the one-thread model of `space_model` answers on the areas of the rows, and on no memory
//! being taken.
#![tactic(auto)]

mod places;
mod plan;
mod planning;
mod row_words;
mod rows;

pub use places::free_pages;
pub use plan::{Planned, plan_rows};
pub use planning::{Cut, plan_change};
pub use row_words::{read_row, write_row};
pub use rows::{Found, Rows};
