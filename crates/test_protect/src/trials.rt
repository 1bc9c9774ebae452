//! All callers of a crew take their turns, each on a thread of its own: the first four change protections at the
//! boundaries between their areas, and the others read.
ghost use Rattle.std.specs.Prelude.{true, ◌≡◌, ◌<◌, ◌+◌, ◌^◌, None};
ghost use Rattle.page_types.specs.Named.{IsNamedCall};
ghost use Rattle.page_types.specs.Sets.{IsNamedProt};
ghost use Rattle.area_rows.specs.Rows.{keeps_by};
ghost use Rattle.area_rows.specs.Called.{IsAnswered};
ghost use Rattle.test_crews.specs.Crews.{HasCalled, HaveCalled, IsCrew, IsIdleAgain};

use crate::single::change;
use crate::ways::Ways;
use area_rows::{Answer, Caller, Space};
use page_types::{Access, Call, PAGE, Prot};
use std::sync::Wait;
use std::thread;
use std::thread::Threads;
use test_crews::{make_call, replacing};

/// The first page that is worked on. Below it areas of single pages begin at page 18. So at the opening the start of
/// the second area that is worked on is the first row of a block of rows, by which others look for theirs.
pub const FIRST: u64 = 40;

/// How many pages each of the areas has at the start.
pub const WIDE: u64 = 4;

/// How many areas are worked on.
pub const AREAS: u64 = 5;

/// How many callers of a crew change protections; the others fault.
const CHANGING: u32 = 4;

/// The caller of a crew that maps pages in the trial of blocks.
const MAPPING: u32 = 5;

/// How many pages it maps before it takes them away.
const MAPPED: u32 = 40;

/// What the callers of a crew do that change protections.
#[derive(Clone, Copy, Debug, PartialEq, Eq)]
pub enum Trial {
    /// Each moves the boundary between its area and the next one back and forth.
    Boundaries,
    /// The same, but at each eighth turn the last of them gives a page in the middle of its area another protection, or
    /// its old one, which holds everything.
    Splits,
    /// The same as with the boundaries, but one that faults maps single pages behind the areas instead, which splits
    /// blocks of rows, and takes all of them away at once, which empties several.
    Blocks,
}

/// The protection of the areas, one and the other in turn.
pub fn prot_of(one: bool) -> Prot
    ensures { IsNamedProt result }
{
    if one { Prot::READ } else { Prot::WRITE }
}

/// A change of the protection of one page.
fn one_page(page: u64, prot: Prot) -> Call
    requires page { page < 2 ^ 32 }
    requires named { IsNamedProt prot }
    ensures { IsNamedCall result }
{
    Call::Protect {
        addr: page * PAGE,
        len: PAGE,
        prot,
    }
}

/// The call of a turn of the caller that maps pages: one page more, with a gap before it, or all of them go.
fn mapping_call(turn: u32) -> Call
    ensures { IsNamedCall result }
{
    let behind = FIRST + AREAS * WIDE + 2;
    let at = turn % (MAPPED + 1);
    if at == MAPPED {
        return Call::Unmap {
            addr: behind * PAGE,
            len: 2 * u64::from(MAPPED) * PAGE,
        };
    }
    Call::Map {
        addr: (behind + 2 * u64::from(at)) * PAGE,
        len: PAGE,
        prot: Prot::READ,
        flags: replacing(),
    }
}

/// The call of a caller's turn, both counted from 0: of one that changes protections the last page of its area, which
/// goes to the next area and comes back, and of another a read of one of the areas' pages.
pub fn call_of(trial: Trial, worker: u32, turn: u32) -> Call
    ensures { IsNamedCall result }
{
    if trial == Trial::Blocks && worker == MAPPING {
        return mapping_call(turn);
    }
    if worker >= CHANGING {
        let page = FIRST + u64::from(turn) % (AREAS * WIDE);
        return Call::Fault {
            addr: page * PAGE,
            access: Access::Read,
        };
    }
    let first = FIRST + WIDE * u64::from(worker);
    if trial == Trial::Splits && worker == CHANGING - 1 && turn % 8 == 7 {
        return one_page(first + 1, prot_of(turn % 16 == 7));
    }
    let own = worker % 2 == 0;
    one_page(first + WIDE - 1, prot_of(own == (turn % 2 == 1)))
}

/// One call of a caller. Where it changes a protection, its way is kept if it is told. The line is that of the turn,
/// counted from 1.
fn take_turn<R: Wait>(
    rt: &R,
    space: &Space,
    caller: &mut Caller,
    turn: u32,
    call: Call,
    told: bool,
    ways: &Ways,
) -> Answer
    requires turn { turn + 1 < 2 ^ 32 }
    requires table { caller.old.seat.table ≡ space.now.table }
    requires free { caller.old.seat.held ≡ None }
    requires told { told ≡ true → keeps_by space.now.table ≡ true }
    requires named { IsNamedCall call }
    ensures answer { IsAnswered caller.old (turn + 1) call result caller.new }
{
    let Call::Protect { addr, len, prot } = call else {
        return make_call(rt, space, caller, turn + 1, call);
    };
    let (answer, path) = change(rt, space, caller, told, turn + 1, addr, len, prot);
    if let Some(path) = path {
        ways.keep(caller.worker(), turn, path);
    }
    answer
}

/// So many turns of a caller, for the lines from 1 on.
fn turns<R: Wait>(
    rt: &R,
    space: &Space,
    caller: &mut Caller,
    trial: Trial,
    turns: u32,
    told: bool,
    ways: &Ways,
)
    requires table { caller.old.seat.table ≡ space.now.table }
    requires free { caller.old.seat.held ≡ None }
    requires told { told ≡ true → keeps_by space.now.table ≡ true }
    ensures back { IsIdleAgain caller.old caller.new }
    ensures called { HasCalled turns caller.old caller.new }
{
    for turn in 0..turns {
        let call = call_of(trial, caller.worker(), turn);
        take_turn(rt, space, caller, turn, call, told, ways);
    }
}

/// Each caller takes so many turns, on a thread of its own, and the ways of the changes are kept where they are told.
pub fn change_all<R: Threads + Wait + Sync>(
    rt: &R,
    space: &Space,
    callers: &mut [Caller],
    trial: Trial,
    count: u32,
    told: bool,
    ways: &Ways,
)
    requires crew { IsCrew space.now.table space.now.seats callers.old }
    requires told { told ≡ true → keeps_by space.now.table ≡ true }
    ensures crew { IsCrew space.now.table space.now.seats callers.new }
    ensures called { HaveCalled count callers.old callers.new }
{
    let turn = |_: usize, caller: &mut Caller|
        requires { (caller.now.seat.table ≡ space.now.table) × (caller.now.seat.held ≡ None)
            × (told ≡ true → keeps_by space.now.table ≡ true) }
        ensures { IsIdleAgain caller.entry.now caller.exit.now × HasCalled count caller.entry.now caller.exit.now }
    { turns(rt, space, caller, trial, count, told, ways) };
    thread::for_each_mut(rt, callers, 16, &turn);
}
