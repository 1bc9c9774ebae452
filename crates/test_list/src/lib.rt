//! Trials of the running list lock: scripts of calls and single steps, each with what it comes to, and threads that
//! hold ranges at one list; and worked schedules of the pure machine whose steps these are. What a step or a call may
//! be is asked of the hand's own view when a trial runs, so a trial can hand in any; a reader may rely on one that may
//! not be made changing nothing. The calls are those of `marked_list`, after Kogan, Dice and Issa, EuroSys 2020, with
//! this project's own barrier before a node is used again. All but lists and their closing is read with the tests
//! alone.
#![tactic(auto)]

#[cfg(test)]
mod asking;
#[cfg(test)]
mod call_tests;
#[cfg(test)]
mod calls;
#[cfg(test)]
mod keeping;
mod kept;
#[cfg(test)]
mod machine_tests;
mod opened;
#[cfg(test)]
mod playing;
#[cfg(test)]
mod rows;
#[cfg(test)]
mod words;

pub use kept::Kept;
pub use opened::{close_all, is_idle, open_list};
