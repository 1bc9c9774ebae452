//! Any call of a caller, by the crate that makes it: a fault, or a call that may change the number of rows. A Protect
//! is made as one of these: it holds all pages.
ghost use Rattle.std.specs.Prelude.{◌≡◌, None};
ghost use Rattle.page_types.specs.Named.{IsNamedCall};
ghost use Rattle.area_rows.specs.Called.{IsAnswered};

use area_rows::{Answer, Caller, Space};
use map_calls::{map, seal, unmap};
use move_calls::{brk, remap};
use page_fault::make_fault;
use page_types::Call;
use std::sync::Wait;

/// One call of a caller, for a line of the input.
pub fn make_call<R: Wait>(
    rt: &R,
    space: &Space,
    caller: &mut Caller,
    line: u32,
    call: Call,
) -> Answer
    requires table { caller.old.seat.table ≡ space.now.table }
    requires free { caller.old.seat.held ≡ None }
    requires named { IsNamedCall call }
    ensures answer { IsAnswered caller.old line call result caller.new }
{
    match call {
        Call::Map {
            addr,
            len,
            prot,
            flags,
        } => map(space, rt, caller, line, addr, len, prot, flags),
        Call::Unmap { addr, len } => unmap(space, rt, caller, line, addr, len),
        Call::Seal { addr, len, flags } => seal(space, rt, caller, line, addr, len, flags),
        Call::Brk { base, addr } => brk(space, rt, caller, line, base, addr),
        Call::Remap {
            addr,
            old_len,
            new_len,
            may_move,
            hint,
        } => remap(
            space, rt, caller, line, addr, old_len, new_len, may_move, hint,
        ),
        Call::Protect { .. } => space.call(rt, caller, line, call),
        Call::Fault { .. } => make_fault(space, rt, caller, line, call),
    }
}
