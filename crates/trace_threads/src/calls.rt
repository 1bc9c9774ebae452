//! The call of a line, handed on whole to who makes it: a fault to `page_fault`, a change of protection to
//! `area_protect`, and any other to the space itself. Who makes a call is decided here alone, and the contract doesn't
//! say.
ghost use Rattle.std.specs.Prelude.{true, ◌≡◌, ◌<◌, None};
ghost use Rattle.area_rows.specs.Rows.{keeps_by};
ghost use Rattle.page_types.specs.Named.{IsNamedCall};
ghost use Rattle.trace_threads.specs.Workers.{IsLineAnswer, IsPlayedAs};

use crate::worker::Line;
use area_protect::{Protected, make_protect};
use area_rows::{Answer, Caller, Space};
use page_fault::make_fault;
use page_types::Call;
use space_model::Entry;
use std::sync::Wait;

/// A caller makes the call of a line.
pub(crate) fn make_call<R: Wait>(wait: &R, space: &Space, caller: &mut Caller, line: Line) -> Answer
    requires table { caller.old.seat.table ≡ space.now.table }
    requires keeps { keeps_by space.now.table ≡ true }
    requires free { caller.old.seat.held ≡ None }
    requires named { IsNamedCall line.call }
    ensures answer { IsLineAnswer caller.old line result caller.new }
{
    let number = line.line;
    match line.call {
        Call::Map { .. }
        | Call::Unmap { .. }
        | Call::Seal { .. }
        | Call::Brk { .. }
        | Call::Remap { .. } => space.call(wait, caller, number, line.call),
        Call::Protect { .. } => match make_protect(space, wait, caller, number, line.call) {
            Protected::Given { entry, .. } => Answer::Given(entry),
            Protected::Spent => Answer::Spent,
        },
        Call::Fault { .. } => make_fault(space, wait, caller, number, line.call),
    }
}

/// A caller with a number left makes the call of a line, which then has an entry. The answer to a fault has a place of
/// its own, so that an entry which nobody looks at is not written there.
#[inline(always)]
pub(crate) fn answer_line<R: Wait>(
    wait: &R,
    space: &Space,
    caller: &mut Caller,
    line: Line,
) -> Entry
    requires table { caller.old.seat.table ≡ space.now.table }
    requires keeps { keeps_by space.now.table ≡ true }
    requires free { caller.old.seat.held ≡ None }
    requires left { 0 < caller.old.left }
    requires named { IsNamedCall line.call }
    ensures played { IsPlayedAs caller.old line result caller.new }
{
    if let Call::Fault { .. } = line.call {
        return match make_fault(space, wait, caller, line.line, line.call) {
            Answer::Given(entry) => entry,
            Answer::Spent => unreachable!(),
        };
    }
    match make_call(wait, space, caller, line) {
        Answer::Given(entry) => entry,
        Answer::Spent => unreachable!(),
    }
}
