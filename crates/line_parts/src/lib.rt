//! Lines of a text, and parts of lines: how a line is read from left to right, part by part, up to the first refusal.
//! `specs/Lines.antt` says what the lines are, and `specs/Parts.antt` has the relation between texts and values, after
//! attribute grammars and parser combinators; what the parts are is this project's own profile of what strace(1)
//! prints. Each function of a part gives exactly what its definition on lists in `specs/Reading.antt` gives; the crates
//! above put parts together.
#![tactic(auto)]

mod bytes;
mod lines;
mod numbers;
mod refusal;

pub use bytes::{
    begins, begins_digit, behind_first, byte, letters, name, skip_digits, skip_spaces, until, word,
};
pub use lines::next_line;
pub use numbers::{digits, is_hex, number};
pub use refusal::{Refusal, What};
