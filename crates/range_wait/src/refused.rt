//! A try that was refused, and how its caller goes on.
ghost use Rattle.std.specs.Prelude.{◌≡◌};
ghost use Rattle.range_wait.specs.Moves.{next_by, next_of};

use range_queue::NotYet;
use range_rw::NotHeld;

/// A try that was refused.
#[derive(Drop)]
pub(crate) struct Missed {
    pub(crate) why: NotYet,
    /// Whether the look behind a refusal of the lock met an announcement to which the caller gives way.
    pub(crate) way: bool,
}

/// How a counted caller goes on behind a refusal.
#[derive(Clone, Copy, PartialEq, Eq)]
pub(crate) enum Next {
    /// Another seat has to move first, and wakes it then.
    Sleeps,
    /// It gives way to an older one, which may have met the node of its try.
    Wakes,
    /// Nobody wakes it: it tries again.
    Anew,
}

fn next_by(why: &NotHeld) -> Next
    ensures { result ≡ next_by why.now }
{
    match why {
        NotHeld::Busy { .. } => Next::Sleeps,
        NotHeld::Again { .. } => Next::Anew,
        NotHeld::Long { .. } => Next::Anew,
        NotHeld::NoNode { .. } => Next::Anew,
    }
}

pub(crate) fn next_of(why: &NotYet, way: bool) -> Next
    ensures { result ≡ next_of why.now way }
{
    match why {
        NotYet::Behind { .. } => Next::Sleeps,
        NotYet::Refused(cause) => { if way { Next::Wakes } else { next_by(cause) } }
    }
}
