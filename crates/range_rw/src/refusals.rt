//! Why a call of a range lock is refused. Each refusal has a cause, which `specs/Contract.antt` states over the record
//! of the seat's steps; the one without a cause that a clause could name is that there was no memory.
use epoch_pools::Stuck;
use lock_core::{Mode, Range};
use thiserror::Error;

/// Why no table was opened.
#[derive(Debug, Drop, PartialEq, Eq, Error)]
pub enum OpenFault {
    /// The number of seats, where it is 0 or above 16.
    #[error("{0} seats, where a table has from 1 to 16")]
    Seats(u32),
    /// There was no memory.
    #[error("out of memory")]
    Memory,
}

/// Why a try was refused.
#[derive(Debug, Drop, PartialEq, Eq, Error)]
pub enum NotHeld {
    /// At a step of this call the seat `owner` held this range or asked for it, and it conflicts with the one that was
    /// asked for.
    #[error("seat {owner} holds {} to {} as a {}", .range.lo(), .range.hi(), name_of(*.mode))]
    Busy {
        owner: u32,
        range: Range,
        mode: Mode,
    },
    /// An exchange of this call on the word at `place` of a list, counted from 0 as the lists are, found `found` where
    /// it expected `expected`: another seat linked or unlinked a node there.
    #[error("the word at place {place} of list {list} was {found}, where {expected} was expected")]
    Again {
        list: u32,
        place: u32,
        expected: u64,
        found: u64,
    },
    /// A walk of this call looked at as many nodes as one may: 16 for each seat and one more.
    #[error("a walk looked at {visits} nodes")]
    Long {
        visits: u32,
    },
    /// The seat has no node to take in that list, counted from 0.
    #[error("no node to take in list {list}: {stuck:?}")]
    NoNode {
        list: u32,
        stuck: Stuck,
    },
}

fn name_of(mode: Mode) -> &'static str {
    match mode {
        Mode::Reader => "reader",
        Mode::Writer => "writer",
    }
}
