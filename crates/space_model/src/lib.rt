//! The address space of one thread: a list of areas, changed by `mmap`, `munmap`, `mprotect`, `mseal`, `brk` and
//! `mremap` and asked by page faults, after mmap(2), munmap(2), mprotect(2), mseal(2), brk(2), mremap(2) and
//! proc_pid_maps(5). `Answers` in `specs/` says by the kinds of pages what each call replies and leaves;
//! `PlainSpace::step` does exactly that, and `legal` judges a history of calls by it. Everything that runs calls beside
//! each other is measured by this crate.
#![tactic(auto)]

mod areas;
mod blocks;
mod build;
mod calls;
mod counts;
mod entries;
mod faults;
mod fits;
mod heap;
mod held;
mod history;
mod judged;
mod judging;
mod laws;
mod moving;
mod order;
mod paint;
mod reserved;
mod search;
mod sorts;
mod space;
mod splice;
mod stored;

pub use areas::{Area, have_named_kinds};
pub use calls::judge;
pub use entries::{Entry, Under, have_named_calls};
pub use faults::{AreasFault, NotAreas};
pub use held::keeps_rows;
pub use history::{by_number, legal};
pub use judged::{Change, Judged, full_reply};
pub use judging::{Pages, access_reply, mapped_kind};
pub use laws::{
    areas_are_maximal_runs, beginnings_are_legal, brks_keep_to_their_heap, calls_add_few_rows,
    calls_have_one_answer, faults_are_granted_by_their_page, faults_find_what_was_mapped,
    histories_leave_one_state, only_one_list_has_kinds, protect_twice_is_once,
    refused_rows_are_few, remaps_leave_their_pages, rows_are_counted_by_their_starts,
    same_calls_have_same_replies, seal_twice_is_once, sealed_pages_stay,
    simple_protects_are_of_four_kinds, simple_protects_keep_rows, states_follow_one_another,
    unmap_twice_is_once,
};
pub use paint::{Paint, Patch};
pub use reserved::ReservedSpace;
pub use sorts::{Sort, is_sort};
pub use space::PlainSpace;
