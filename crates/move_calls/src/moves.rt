//! The two calls: `brk` is brk(2), with the heap's base said in each call, and `remap` is mremap(2) without its fixed
//! forms. Both are answered by `Space::call` of `area_rows`, as those of `map_calls` are, with one entry each, also
//! where two stretches of pages change. What a reader may rely on is `IsAnswered` of `area_rows`, one clause for all
//! calls that give an entry.
ghost use Rattle.std.specs.Prelude.{◌≡◌, None};
ghost use Rattle.page_types.specs.declared.calls.Call.TheVariants.{Brk, Remap};
ghost use Rattle.area_rows.specs.Called.{AsksAtCall, IsAnswered, TakesSteps};

use area_rows::{Answer, Caller, Space};
use page_types::Call;
use std::sync::Wait;

/// Moves the end of the heap that begins at `base` to `addr`, both in bytes, as brk(2) does. The heap is the run of
/// pages from the base on that may be read and written, are private and aren't sealed, whoever mapped them. An `addr`
/// below the base changes nothing, and so does one for whose pages there is no room, or too few rows: the reply is then
/// the address at which the heap ends, and `addr` otherwise. Only a base that is 0, isn't that of a page, or is no user
/// address is refused. The caller is of this space and holds nothing; `line` is the line of the input that names the
/// call, counted from 1. It waits until the caller holds all pages; a call that its arguments decide holds nothing.
/// `Spent` comes exactly where the caller has no number left, and nothing has changed then.
pub fn brk<R: Wait>(
    space: &Space,
    wait: &R,
    caller: &mut Caller,
    line: u32,
    base: u64,
    addr: u64,
) -> Answer
    requires table { caller.old.seat.table ≡ space.now.table }
    requires free { caller.old.seat.held ≡ None }
    ensures answer { IsAnswered caller.old line (Brk base addr) result caller.new }
    ensures steps { TakesSteps caller.old.seat (Brk base addr) result caller.new.seat }
    ensures asks { AsksAtCall (Brk base addr) result caller.old.seat.trace.asked caller.new.seat.trace.asked }
{
    space.call(wait, caller, line, Call::Brk { base, addr })
}

/// Makes the pages of the `old_len` bytes from `addr` on those of `new_len` bytes, both rounded up to whole pages, as
/// mremap(2) does. The old pages are mapped and of one kind, or the first that isn't refuses the call, and none of them
/// is sealed. Fewer pages stay where they are. More are put, with `may_move`, at `hint`, where that isn't 0 and they
/// are free there; or else where the old ones stand, where those behind are free; or else, with `may_move`, as high as
/// they fit in the low window. What is free is so before the call. The caller is of this space and holds nothing;
/// `line` is the line of the input that names the call, counted from 1. It waits until the caller holds all pages; a
/// call that its arguments decide holds nothing. `Spent` comes exactly where the caller has no number left, and nothing
/// has changed then.
pub fn remap<R: Wait>(
    space: &Space,
    wait: &R,
    caller: &mut Caller,
    line: u32,
    addr: u64,
    old_len: u64,
    new_len: u64,
    may_move: bool,
    hint: u64,
) -> Answer
    requires table { caller.old.seat.table ≡ space.now.table }
    requires free { caller.old.seat.held ≡ None }
    ensures answer { IsAnswered caller.old line (Remap addr old_len new_len may_move hint) result caller.new }
    ensures steps { TakesSteps caller.old.seat (Remap addr old_len new_len may_move hint) result caller.new.seat }
    ensures asks { AsksAtCall (Remap addr old_len new_len may_move hint) result caller.old.seat.trace.asked caller.new.seat.trace.asked }
{
    let call = Call::Remap {
        addr,
        old_len,
        new_len,
        may_move,
        hint,
    };
    space.call(wait, caller, line, call)
}
