//! A line as it is written, with what the order and the counts ask of it. `Entry` in `specs/Order.antt` is the same in
//! the definitions.

use crate::calls::ReadCall;
use crate::fault::Trouble;
use crate::settling::Ending;

/// A line as it is written.
#[derive(Debug, Drop)]
pub(crate) struct Piece {
    /// The number of its line in the log; of two halves, that of the first.
    pub(crate) number: u32,
    /// Its process; 0 where it names none.
    pub(crate) process: u32,
    /// The line, without a newline.
    pub(crate) line: Vec<u8>,
    /// How it became so.
    pub(crate) ending: Ending,
    /// Whether two halves make it.
    pub(crate) joined: bool,
    /// Why it is left unread, or isn't played though it changes an address space.
    pub(crate) trouble: Option<Trouble>,
    /// The call that it is read as.
    pub(crate) call: Option<ReadCall>,
}
