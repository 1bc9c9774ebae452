//! What callers do in a trial: which call each makes at each of its turns. The pages and the kinds of calls are spread
//! by small steps and not at random, so that every run makes the same calls, in an order that the threads choose.
ghost use Rattle.std.specs.Prelude.{◌≡◌, ◌<◌, ◌*◌, None};
ghost use Rattle.page_types.specs.Named.{IsNamedCall};
ghost use Rattle.page_types.specs.Sets.{IsNamedFlags};
ghost use Rattle.test_crews.specs.Crews.{HasCalled, IsIdleAgain};

use crate::calls::make_call;
use area_rows::{Caller, Space};
use bitflags::Flags;
use page_types::{Access, Call, MapFlags, PAGE, Prot};
use std::sync::Wait;

/// The first page that is worked on.
const FIRST: u64 = 16;

/// At how many pages a call of mixed work may begin; it takes up to two pages more, so that 64 are worked on.
const STARTS: u64 = 62;

/// What a caller does at its turns.
#[derive(Clone, Copy, Debug, PartialEq, Eq)]
pub enum Work {
    /// It maps the first page and takes it away, in turn.
    OnePage,
    /// It maps one page or two, reads, and takes three pages away.
    Mixed,
    /// It reads a page of the same.
    Reads,
    /// It reads one of the first four pages, in turn.
    FourPages,
}

impl Work {
    /// This work for a caller that does it, and reading for another.
    pub fn of(self, does: bool) -> Work {
        if does { self } else { Work::Reads }
    }
}

/// The first byte of the page of a caller's turn.
fn addr_at(worker: u32, turn: u32) -> u64
    ensures { result < 80 * 4096 }
{
    let step = u64::from(turn) * 13 + u64::from(worker) * 29;
    (FIRST + step % STARTS) * PAGE
}

/// The flags of a Map whose address binds, and which replaces what is mapped there.
pub fn replacing() -> MapFlags
    ensures { IsNamedFlags result }
{
    MapFlags::PRIVATE.union(MapFlags::FIXED)
}

/// The flags of a Map whose address binds, and which is refused where a page is mapped there.
pub fn not_replacing() -> MapFlags
    ensures { IsNamedFlags result }
{
    MapFlags::PRIVATE.union(MapFlags::FIXED_NOREPLACE)
}

/// A read of the byte `addr`.
fn read(addr: u64) -> Call
    ensures { IsNamedCall result }
{
    Call::Fault {
        addr,
        access: Access::Read,
    }
}

/// The call of a turn of mixed work, at the byte `addr`.
fn mixed_call(addr: u64, turn: u32) -> Call
    ensures { IsNamedCall result }
{
    match turn % 5 {
        0 => Call::Map {
            addr,
            len: PAGE,
            prot: Prot::READ,
            flags: replacing(),
        },
        1 => Call::Map {
            addr,
            len: 2 * PAGE,
            prot: Prot::WRITE,
            flags: not_replacing(),
        },
        2 => Call::Unmap {
            addr,
            len: 3 * PAGE,
        },
        _ => read(addr),
    }
}

/// The call of a turn of work on one page.
fn one_page_call(turn: u32) -> Call
    ensures { IsNamedCall result }
{
    let addr = FIRST * PAGE;
    if turn % 2 == 0 {
        Call::Map {
            addr,
            len: PAGE,
            prot: Prot::READ,
            flags: replacing(),
        }
    } else {
        Call::Unmap { addr, len: PAGE }
    }
}

/// The call that a caller makes at a turn, counted from 0.
pub fn call_at(work: Work, worker: u32, turn: u32) -> Call
    ensures { IsNamedCall result }
{
    let addr = addr_at(worker, turn);
    match work {
        Work::OnePage => one_page_call(turn),
        Work::Mixed => mixed_call(addr, turn),
        Work::Reads => read(addr),
        Work::FourPages => read((FIRST + u64::from(turn % 4)) * PAGE),
    }
}

/// So many calls of a caller, for the lines from 1 on.
pub fn work_turns<R: Wait>(rt: &R, space: &Space, caller: &mut Caller, work: Work, turns: u32)
    requires table { caller.old.seat.table ≡ space.now.table }
    requires free { caller.old.seat.held ≡ None }
    ensures back { IsIdleAgain caller.old caller.new }
    ensures called { HasCalled turns caller.old caller.new }
{
    for turn in 0..turns {
        let call = call_at(work, caller.worker(), turn);
        make_call(rt, space, caller, turn + 1, call);
    }
}
