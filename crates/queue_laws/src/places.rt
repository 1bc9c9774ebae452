//! What a seat of the queue has told the others, and how far its look at what they have told is. Both are plain data; a
//! queue on atomic words keeps them in proofs, beside the words that say so. Seats are counted from 0, tickets from 1.
use lock_core::Held;

/// The range that a seat waits for, with its mode, and its place among those that wait: the lower ticket is the older.
#[derive(Clone, Copy, Debug, PartialEq, Eq)]
pub struct Announcement {
    pub ticket: u64,
    pub held: Held,
}

/// What a seat has told the others.
pub enum Telling {
    /// Nothing.
    Silent,
    /// That there is something to look for. It has no ticket yet, or none any more.
    Counted,
    /// The same, and it has drawn this ticket, which nobody can read yet.
    Drawn(u64),
    /// Its announcement stands where all can read it.
    Shown(Announcement),
}

/// How far a seat's look at the announcements is.
pub enum Look {
    /// No look was begun since the seat last held a range.
    Idle,
    /// It has passed the seats below this number. `noted` is the ticket of an older announcement that it found there,
    /// whose range it has still to judge.
    At {
        asked: Held,
        seat: u32,
        noted: Option<u64>,
    },
    /// It has passed all seats, and may try.
    Clear(Held),
    /// It has met this announcement of that seat, and gives way.
    Way {
        asked: Held,
        seat: u32,
        met: Announcement,
    },
}
