//! The range lock for programs in C: a thin static library over `range_rw`, whose header is `gz_range.h`. A handle is a
//! pointer and a flag, and behind an open one are an owner of the table and one seat of it. A reader may rely on each
//! call telling a closed handle from an open one, and on the answer being the code of a cause that its contract names.
#![tactic(auto)]

mod answers;
mod calls;
mod exports;
mod handle;
mod opening;
mod recording;
mod shelf;
mod showing;
mod state;
