//! What the calls on a list answer: a walk or a validation, and an exchange that links or unlinks. Each answer comes
//! only by its cause at a step of the call, which the definitions of `specs/` say; a reader may rely on it that a
//! caller which is told of a conflict or of a lost exchange can name another seat's step that brought it about.
use lock_core::{Mode, Range};

/// An exchange found another value than it expected, so it changed nothing.
#[derive(Clone, Copy, Debug, PartialEq, Eq)]
pub struct Lost {
    /// The place of the word in the table.
    pub place: u32,
    /// What the exchange expected.
    pub expected: u64,
    /// What it found; it differs from what was expected.
    pub found: u64,
}

/// What a walk, a validation or a sweep came to.
#[derive(Clone, Copy, Debug, PartialEq, Eq)]
pub enum Walked {
    /// The walk is at the place of the own node, the validation holds the range, or the sweep is at the end.
    Place,
    /// A node of another seat, unmarked at a step of this call, is in conflict. Its range may be held or asked for.
    Conflict {
        /// The number of the seat whose node it is.
        owner: u32,
        /// The range of the node.
        range: Range,
        /// The mode of the node.
        mode: Mode,
    },
    /// An exchange of this call found another value; the next walk begins anew.
    Lost(Lost),
    /// As many nodes were looked at as one walk may: 16 for each seat and one more.
    Long {
        /// How many nodes this walk has looked at.
        visits: u32,
    },
}

/// What an exchange that links or unlinks the own node came to.
#[derive(Clone, Copy, Debug, PartialEq, Eq)]
pub enum Linked {
    /// The exchange was made.
    Done,
    /// It found another value.
    Lost(Lost),
}

/// What one call of a scan came to.
#[derive(Clone, Copy, Debug, PartialEq, Eq)]
pub enum Passed {
    /// The scan went past this node, unmarked at a step of this call. Its range may be held or asked for.
    Found {
        /// The number of the seat whose node it is.
        owner: u32,
        /// The range of the node.
        range: Range,
        /// The mode of the node.
        mode: Mode,
    },
    /// The end of the list was read, and this call went past no node.
    End,
    /// An exchange of this call found another value; the next call begins at the head.
    Lost(Lost),
    /// As many nodes were looked at as one walk may, and this call went past none.
    Long {
        /// How many nodes this walk has looked at.
        visits: u32,
    },
}
