//! The three calls: `map` is mmap(2), `unmap` is munmap(2), and `seal` is in the manner of mseal(2). All are answered
//! by `Space::call` of `area_rows`: nothing where the caller has no number left, the reply of the arguments where these
//! decide, and otherwise a call that may change the number of rows. What a reader may rely on is `IsAnswered` of
//! `area_rows`, one clause for all calls that give an entry.
ghost use Rattle.std.specs.Prelude.{◌≡◌, None};
ghost use Rattle.page_types.specs.declared.calls.Call.TheVariants.{Map, Unmap, Seal};
ghost use Rattle.page_types.specs.Named.{IsNamedCall};
ghost use Rattle.area_rows.specs.Called.{AsksAtCall, IsAnswered, TakesSteps};

use area_rows::{Answer, Caller, Space};
use page_types::{Call, MapFlags, Prot};
use std::sync::Wait;

/// Maps the `len` bytes from `addr` on, rounded up to whole pages, as mmap(2) does; where no fixed flag binds it `addr`
/// is a hint, and the pages go as high as they fit. The caller is of this space and holds nothing, and `prot` and
/// `flags` have named bits alone; `line` is the line of the input that names the call, counted from 1.
/// It waits until the caller holds all pages; a call that its arguments decide holds nothing. `Spent` comes exactly
/// where the caller has no number left, and nothing has changed then.
pub fn map<R: Wait>(
    space: &Space,
    wait: &R,
    caller: &mut Caller,
    line: u32,
    addr: u64,
    len: u64,
    prot: Prot,
    flags: MapFlags,
) -> Answer
    requires table { caller.old.seat.table ≡ space.now.table }
    requires free { caller.old.seat.held ≡ None }
    requires named { IsNamedCall (Map addr len prot flags) }
    ensures answer { IsAnswered caller.old line (Map addr len prot flags) result caller.new }
    ensures steps { TakesSteps caller.old.seat (Map addr len prot flags) result caller.new.seat }
    ensures asks { AsksAtCall (Map addr len prot flags) result caller.old.seat.trace.asked caller.new.seat.trace.asked }
{
    let call = Call::Map {
        addr,
        len,
        prot,
        flags,
    };
    space.call(wait, caller, line, call)
}

/// Takes the pages of the `len` bytes from `addr` on away, as munmap(2) does; pages that aren't mapped are no error.
/// The caller is of this space and holds nothing; `line` is the line of the input that names the call, counted from 1.
/// It waits until the caller holds all pages; a call that its arguments decide holds nothing. `Spent` comes exactly
/// where the caller has no number left, and nothing has changed then.
pub fn unmap<R: Wait>(
    space: &Space,
    wait: &R,
    caller: &mut Caller,
    line: u32,
    addr: u64,
    len: u64,
) -> Answer
    requires table { caller.old.seat.table ≡ space.now.table }
    requires free { caller.old.seat.held ≡ None }
    ensures answer { IsAnswered caller.old line (Unmap addr len) result caller.new }
    ensures steps { TakesSteps caller.old.seat (Unmap addr len) result caller.new.seat }
    ensures asks { AsksAtCall (Unmap addr len) result caller.old.seat.trace.asked caller.new.seat.trace.asked }
{
    space.call(wait, caller, line, Call::Unmap { addr, len })
}

/// Seals the pages of the `len` bytes from `addr` on, rounded up to whole pages, in the manner of mseal(2): from then
/// on they refuse to be unmapped, replaced or protected, and nothing takes the seal away. A page that isn't mapped
/// refuses it; one that is sealed already doesn't. `flags` is 0, or refused. The caller is of this space and holds
/// nothing; `line` is the line of the input that names the call, counted from 1. It waits until the caller holds all
/// pages; a call that its arguments decide holds nothing. `Spent` comes exactly where the caller has no number left,
/// and nothing has changed then.
pub fn seal<R: Wait>(
    space: &Space,
    wait: &R,
    caller: &mut Caller,
    line: u32,
    addr: u64,
    len: u64,
    flags: u64,
) -> Answer
    requires table { caller.old.seat.table ≡ space.now.table }
    requires free { caller.old.seat.held ≡ None }
    ensures answer { IsAnswered caller.old line (Seal addr len flags) result caller.new }
    ensures steps { TakesSteps caller.old.seat (Seal addr len flags) result caller.new.seat }
    ensures asks { AsksAtCall (Seal addr len flags) result caller.old.seat.trace.asked caller.new.seat.trace.asked }
{
    space.call(wait, caller, line, Call::Seal { addr, len, flags })
}
