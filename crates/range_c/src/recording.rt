//! The guard of the client words that C works with. It allows every step, and it records: a seat knows what the words
//! were when its table was opened, and of its last step on one of them which step it was, what that found in the word
//! and what it left there. So a contract can say which step a call made. Nothing of it is there when a program runs.
use lock_core::{Guard, Means};
use std::collections::LinkedList;

/// A step on a client word.
#[derive(Clone, Copy, Drop)]
pub enum WordStep {
    Load,
    Store(u64),
    Add(u64),
    Exchange { expected: u64, new: u64 },
}

/// A step that was made.
pub struct Made {
    /// The client word's number, counted from 0.
    pub place: u32,
    pub step: WordStep,
    /// The word's value before.
    pub found: u64,
    /// The word's value after it.
    pub left: u64,
}

/// What a seat knows of the client words.
pub struct Recorded {
    /// The words when the table was opened, in their order.
    pub opened: LinkedList<u64>,
    /// The last step that the seat made on one of them.
    pub last: Option<Made>,
}

/// Allows every step, and records it.
pub struct Recording;

impl Guard for Recording {
    ghost use Rattle.range_c.specs.Recording.{begun, IsBegun, IsRecorded, keeps_begun, loses_begun};

    type Pass = Recorded;

    type Note = ();

    ghost first = { begun };

    ghost holds = { IsBegun };

    ghost allows = { IsRecorded };

    ghost rested = { λ pass. pass };

    ghost is_at_rest = { λ _. Unit {0} };

    ghost keeps = { λ grants words passes seat step note after. keeps_begun grants words passes seat step after };

    ghost gains = { λ grants words passes seat h met nothing free. met };

    ghost loses = { λ grants words passes seat pass met own rest. loses_begun grants words passes seat pass met own };

    ghost stays_at_rest = { λ _ _. tt };
}

/// A step means nothing beside what it does.
impl Means<Recording> for Recording {
    ghost note = { tt };
}
