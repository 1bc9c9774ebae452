//! The address space for programs in C: a thin static library over `area_rows` and `page_fault`, whose header is
//! `gz_space.h`. A handle is a pointer and a flag, and behind an open one are an owner of the space and one caller of
//! it. Each call is one try and waits for no other thread. A reader may rely on the answer being the code of a cause
//! that the call's contract names, and on each call that is done having its one place in one legal history.
#![tactic(auto)]

mod answers;
mod areas;
mod asked;
mod calls;
mod exports;
mod handle;
mod looks;
mod opening;
mod rounds;
mod shown;
mod state;
