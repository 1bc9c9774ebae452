//! What the printer writes of a call, the reader reads as the same call. The two crates have a definition each, of the
//! text of a call and of the calls that a line spells, both after strace(1). This crate has the law between them, so
//! that neither needs the other; and the law that the text of a log tells its entries, which rests on it.
#![tactic(auto)]

mod calls;
mod logs;

pub use calls::{read_written, reads_back};
pub use logs::{has_word_numbers, logs_tell_entries, words_fit};
