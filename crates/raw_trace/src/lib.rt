//! Raw logs of strace(1) as lines of the profile: whole calls, in the order in which the kernel made them as far as a
//! log tells, of one address space. `IsRewriting` in `specs/Rewriting.antt` is the whole, over the lines of the log;
//! `specs/Laws.antt` says what it comes to. `rewrite` is exactly it.
#![tactic(auto)]

mod calls;
mod fault;
mod halves;
mod heaps;
mod laws;
mod order;
mod piece;
mod rewriting;
mod roles;
mod settling;
mod tally;
mod waiting;
mod writing;

pub use calls::{Pages, ReadCall};
pub use fault::{Cause, Fault, Trouble};
pub use laws::{
    good_lines_stay, good_texts_stay, has_one_fault, has_one_rewriting, rewriting_keeps_calls,
    rewriting_keeps_orders,
};
pub use rewriting::{Rewriting, rewrite};
pub use settling::Ending;
pub use tally::Tally;
