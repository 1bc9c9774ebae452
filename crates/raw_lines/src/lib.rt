//! One raw line of strace(1): what it is without what options add, whether it is a message of strace's own, how it is
//! mended where the reader of lines refuses it, and what it tells of new threads. Each function decides a form of
//! `specs/`, which is a relation between whole texts; the crate above puts lines in their order.
#![tactic(auto)]

mod beginnings;
mod fields;
mod makers;
mod marks;
mod mends;
mod numbers;
mod plain;

pub use beginnings::{changes_space, is_known, is_of_profile};
pub use makers::{MadeAs, Making, told_by};
pub use marks::{UNREAD_MARK, broken, is_message, is_stack_line, is_unread};
pub use mends::{Splice, mend, mended};
pub use numbers::number_end;
pub use plain::{is_still, plain_parts};
