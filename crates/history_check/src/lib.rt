//! A checker of printed logs: whether what a run prints with its log is a legal history, in which each call held what
//! it has to, and what that history leaves. `IsGoodLog` in `specs/` says which texts are good, and `IsVerdict` which
//! verdict a text has. A reader may rely on it for a log of any origin: where the verdict is `Legal` the history is
//! legal.
#![tactic(auto)]

mod calls;
mod checking;
mod held;
mod holding;
mod laws;
mod line;
mod numbers;
mod replies;
mod rest;
mod taking;
mod verdict;

pub use checking::{check, judged};
pub use holding::fits;
pub use laws::printed_logs_are_good;
pub use line::read_log_line;
pub use verdict::{Verdict, WrongLog};
