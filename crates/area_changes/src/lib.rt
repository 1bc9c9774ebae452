//! What the calls of a history change in an address space, as spans of pages with their kinds before and after: an
//! unmap in the middle of an area is one span, and the areas that it leaves on both sides are none. `AreChanges` in
//! `specs/` says it page by page, and there is one list for two lists of areas. The changes of a call are found in the
//! pages that its arguments and its reply name, whatever else is mapped.
#![tactic(auto)]

mod changes;
mod history;
mod laws;
mod runs;
mod stretches;
mod touched;

pub use changes::{AreaChange, EntryChange};
pub use history::changes_of;
pub use laws::{entries_make_one_list, only_one_list_of_changes};
