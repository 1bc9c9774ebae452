//! What a seat knows of the queue, as plain data that exists in proofs alone, and what it means by a step on one of the
//! queue's words. `IsAct` of `specs/Acts.antt` says which step each is, and what the seat knows after it.
use lock_core::Held;
use queue_laws::{Look, Telling};

/// The two words of a range: its lower end, and its higher end with the mode.
pub struct Ends {
    pub lo: Option<u64>,
    pub hi: Option<u64>,
}

/// What a seat knows, and beside it what the guard behind the queue has it know.
pub struct QueuePass<P> {
    /// How many seats the table has.
    pub seats: u32,
    pub telling: Telling,
    pub look: Look,
    /// What its own range words are, where it has written them.
    pub own: Ends,
    /// What it has read of the range of the announcement that it noted.
    pub read: Ends,
    /// How many looks it has begun.
    pub begun: u64,
    pub inner: P,
}

/// What a seat does to a word of the queue.
pub enum Act {
    /// Loads the next ticket.
    Glances,
    /// Loads the count, and begins to look for this range.
    Begins(Held),
    /// Loads the ticket of the seat at which its look is.
    Notes,
    /// Loads the lower end of the announcement that it noted.
    ReadsLo,
    /// Loads its higher end.
    ReadsHi,
    /// Loads its ticket again, and judges it.
    Judges,
    /// Stores the lower end of its own range.
    WritesLo,
    /// Stores its higher end.
    WritesHi,
    /// Counts itself.
    Counts,
    /// Exchanges the next ticket for the one behind it.
    Draws,
    /// Stores its ticket.
    Shows,
    /// Stores 0 in its place.
    Hides,
    /// Counts itself out.
    Uncounts,
}

/// What a seat means by a step: an act of the queue, or what the guard behind it has it mean.
pub enum Doing<N> {
    Queue(Act),
    Inner(N),
}
