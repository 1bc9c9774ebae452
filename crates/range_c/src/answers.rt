//! What the calls answer, and the number by which each answer goes to C: one enum for all calls, one function that
//! gives its code, and one that gives what C is shown of a range in conflict. `specs/Codes.antt` has the same numbers
//! as definitions; a reader may rely on no two answers having one code, so a code tells its cause.
ghost use Rattle.std.specs.Prelude.{◌≡◌};
ghost use Rattle.range_c.specs.Codes.{code_of, refusal_code, scan_code, shown_by, shown_of, shown_in};

use lock_core::Mode;
use range_rw::{NotHeld, Scanned};

/// What a call came to.
#[derive(Drop)]
pub enum Answer {
    /// The call did what it is for.
    Done,
    /// The last try of this call was refused, for this cause.
    Refused(NotHeld),
    /// No try was asked for.
    NotTried,
    /// The ends bound no range.
    BadRange,
    /// The handle's seat holds a range already.
    HasOne,
    /// The handle's seat holds no range.
    HasNone,
    /// The handle is closed.
    Closed,
    /// The handle is open.
    Open,
    /// There was no memory.
    Memory,
    /// The number of seats is 0 or above 16.
    Seats,
    /// There are more than 2^20 client words.
    Words,
    /// All seats of the handle's table that it could share have been shared.
    NoneLeft,
    /// There is no client word of that number.
    NoWord,
    /// The client word had another value than the expected one.
    Other,
    /// The two numbers make no cut: there is no region or more than 16, or a block has more than 2^62 numbers.
    BadCut,
    /// What the last call of a scan came to.
    Ended(Scanned),
}

/// A range of a seat, as C reads it: that of another seat which refused a try, all 0 where no try was refused so; the
/// one that a handle holds; or one that a scan went past.
#[repr(C)]
#[derive(Clone, Copy, Drop)]
pub struct GzBusy {
    /// The lowest number of the range.
    pub lo: u64,
    /// The first number above the range.
    pub hi: u64,
    /// The number of the seat that has it, counted from 0.
    pub owner: u32,
    /// Whether it is a writer's.
    pub writer: bool,
}

/// The code of a refusal by the lock, below that of each other refusal.
fn refusal(why: &NotHeld) -> u32
    ensures { result ≡ refusal_code why.now }
{
    match why {
        NotHeld::Busy { .. } => 1,
        NotHeld::Again { .. } => 2,
        NotHeld::Long { .. } => 3,
        NotHeld::NoNode { .. } => 4,
    }
}

/// The code of what the last call of a scan came to. A node for which there is no place is the reason to stop.
fn ended(last: &Scanned) -> u32
    ensures { result ≡ scan_code last.now }
{
    match last {
        Scanned::End => 0,
        Scanned::Again { .. } => 2,
        Scanned::Long { .. } => 3,
        Scanned::Found { .. } => 18,
    }
}

/// What C is shown of the node that a call of a scan went past, if it went past one.
pub(crate) fn node_of(answer: &Scanned) -> Option<GzBusy>
    ensures { result ≡ shown_by answer.now }
{
    match answer {
        Scanned::Found { owner, range, mode } => Some(GzBusy {
            lo: range.lo(),
            hi: range.hi(),
            owner: *owner,
            writer: *mode == Mode::Writer,
        }),
        _ => None,
    }
}

/// What C is shown of a refusal by the lock.
fn shown(why: &NotHeld) -> GzBusy
    ensures { result ≡ shown_in why.now }
{
    match why {
        NotHeld::Busy { owner, range, mode } => GzBusy {
            lo: range.lo(),
            hi: range.hi(),
            owner: *owner,
            writer: *mode == Mode::Writer,
        },
        _ => NOTHING,
    }
}

/// What C is shown where no range was in conflict.
pub(crate) const NOTHING: GzBusy = GzBusy {
    lo: 0,
    hi: 0,
    owner: 0,
    writer: false,
};

impl Answer {
    /// The number by which C knows the answer.
    pub(crate) fn code(&self) -> u32
        ensures { result ≡ code_of self.now }
    {
        match self {
            Answer::Done => 0,
            Answer::Refused(why) => refusal(why),
            Answer::NotTried => 5,
            Answer::BadRange => 6,
            Answer::HasOne => 7,
            Answer::HasNone => 8,
            Answer::Closed => 9,
            Answer::Open => 10,
            Answer::Memory => 11,
            Answer::Seats => 12,
            Answer::Words => 13,
            Answer::NoneLeft => 14,
            Answer::NoWord => 15,
            Answer::Other => 16,
            Answer::BadCut => 17,
            Answer::Ended(last) => ended(last),
        }
    }

    /// The range in conflict that C is shown with the answer.
    pub(crate) fn shown(&self) -> GzBusy
        ensures { result ≡ shown_of self.now }
    {
        match self {
            Answer::Refused(why) => shown(why),
            _ => NOTHING,
        }
    }
}
