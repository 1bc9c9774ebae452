//! Handles for programs in C: what the static libraries of this repository have in common. A handle is a pointer and a
//! flag, and behind an open one is a box, which a call takes out, works with and puts back. A reader may rely on the
//! box coming back as it went (`Parts`), and on what the definitions say of handles whatever is behind them.
#![tactic(auto)]

mod asked;
mod parts;

pub use asked::{mode_of, pause};
pub use parts::Parts;
