//! Why a try doesn't hold its range, and why a seat has announced nothing. `specs/Tries.antt` states the cause of each
//! refusal of a try, and `specs/Looks.antt` to which announcements a caller gives way.
use queue_laws::Announcement;
use range_rw::NotHeld;
use thiserror::Error;

/// Why a try was refused.
#[derive(Debug, Drop, PartialEq, Eq, Error)]
pub enum NotYet {
    /// The lock refused it, by a cause of its own.
    #[error("{0}")]
    Refused(NotHeld),
    /// It gave way to the announcement of that seat, counted from 0, which stood at a step of this call, is older than
    /// the caller's own if it has one, and conflicts with what was asked for. No step on the lock was made.
    #[error("seat {seat} waits with ticket {}", .met.ticket)]
    Behind { seat: u32, met: Announcement },
}

/// Why a seat has announced nothing.
#[derive(Clone, Copy, Debug, PartialEq, Eq, Error)]
pub enum NotAnnounced {
    /// Another seat drew the ticket `expected` between two steps of this call; the next one was `found` then.
    #[error("the next ticket was {found}, where {expected} was expected")]
    Again { expected: u64, found: u64 },
    /// All tickets are drawn: there are 2^62 less one.
    #[error("no ticket is left")]
    Full,
}
