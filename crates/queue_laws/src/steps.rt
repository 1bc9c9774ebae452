//! The steps of a seat of the queue, each a change of its own place by what it finds at one moment. `IsLine` of
//! `specs/Machine.antt` has a line for each: when it may be made, and what the seat's place is after it.
use lock_core::Held;

/// A step of a seat.
pub enum QueueStep {
    /// It counts itself, so that others look.
    Count,
    /// It draws the next ticket.
    Draw,
    /// It shows its ticket, with the range that it waits for.
    Show(Held),
    /// It takes its announcement back.
    Hide,
    /// It counts itself out.
    Uncount,
    /// It begins to look for a range that it is about to try for. If nobody is counted, its look is over.
    Begin(Held),
    /// It looks at the announcement of the next seat, and notes an older one.
    Note,
    /// It judges the range of the one that it noted, gives way or passes on.
    Judge,
    /// It is granted the range for which its look is over.
    Gain(Held),
    /// It gives its range back.
    Give,
}
