//! Calls by which a caller goes on holding what it held, beside tries of another one: while it holds all pages, or one
//! page as a reader. A layer above, such as a pager, makes what a call has changed stand elsewhere meanwhile.
ghost use Rattle.std.specs.Prelude.{false, ◌≡◌, ◌<◌, ◌≤◌, None};
ghost use Rattle.area_rows.specs.Rows.{keeps_by};
ghost use Rattle.test_crews.specs.declared.held.Holding.TheVariants.{ReadsAlone};
ghost use Rattle.test_crews.specs.Crews.{IsCrew, IsIdleAgain};

use area_rows::{Answer, Caller, Space};
use page_fault::{
    TriedFault, fault_held, fault_held_alone, hold_fault, hold_fault_alone, try_fault,
};
use page_types::{Access, Call, MapFlags, PAGE, Prot};
use space_model::Entry;
use std::marker::Brand;
use std::sync::Wait;
use std::sync::ledger::{Blank, Ledger};
use word_rows::Steps;

/// The byte at which all calls are made.
const BYTE: u64 = 16 * PAGE;

/// Which calls a caller makes that goes on holding what it held.
#[derive(Clone, Copy, Debug, PartialEq, Eq)]
pub enum Holding {
    /// It maps the page and takes it away, and holds all pages.
    Maps,
    /// It reads a byte of the page twice, and holds the page as a reader.
    Reads,
    /// The same, but it holds the page as a writer.
    ReadsAlone,
}

/// What two calls of such a caller answered, and what another one's read of the page came to, tried once between them
/// and once when all was given back.
#[derive(Drop)]
pub struct HeldCalls {
    pub first: Entry,
    pub between: TriedFault,
    pub second: Entry,
    pub behind: TriedFault,
}

/// A caller maps the page and takes it away. None where it has too few numbers left.
fn map_held<L: Ledger, R: Wait>(
    rt: &R,
    space: &Space,
    holder: &mut Caller,
    other: &mut Caller,
    steps: &mut Steps<L>,
) -> Option<HeldCalls>
    requires holder { (holder.old.seat.table ≡ space.now.table) × (holder.old.seat.held ≡ None) }
    requires other { (other.old.seat.table ≡ space.now.table) × (other.old.seat.held ≡ None) }
    ensures holder { IsIdleAgain holder.old holder.new }
    ensures other { IsIdleAgain other.old other.new }
{
    if holder.left() < 2 {
        return None;
    }
    let map = Call::Map {
        addr: BYTE,
        len: PAGE,
        prot: Prot::READ,
        flags: MapFlags::PRIVATE,
    };
    let unmap = Call::Unmap {
        addr: BYTE,
        len: PAGE,
    };
    let first = space.hold_call(rt, holder, 1, map);
    let between = try_fault(space, other, 1, BYTE, Access::Read, steps);
    let second = space.call_held(holder, 2, unmap);
    space.release(holder, steps);
    let behind = try_fault(space, other, 2, BYTE, Access::Read, steps);
    Some(HeldCalls {
        first,
        between,
        second,
        behind,
    })
}

/// A caller reads the page twice. None where it has too few numbers left.
fn read_held<L: Ledger, R: Wait>(
    rt: &R,
    space: &Space,
    holder: &mut Caller,
    other: &mut Caller,
    steps: &mut Steps<L>,
) -> Option<HeldCalls>
    requires holder { (holder.old.seat.table ≡ space.now.table) × (holder.old.seat.held ≡ None) }
    requires other { (other.old.seat.table ≡ space.now.table) × (other.old.seat.held ≡ None) }
    ensures holder { IsIdleAgain holder.old holder.new }
    ensures other { IsIdleAgain other.old other.new }
{
    if holder.left() < 2 {
        return None;
    }
    let held = hold_fault(space, rt, holder, 1, BYTE, Access::Read);
    let Answer::Given(first) = held else {
        return None;
    };
    let between = try_fault(space, other, 1, BYTE, Access::Read, steps);
    let second = fault_held(space, holder, 2, BYTE, Access::Read, steps);
    space.release(holder, steps);
    let behind = try_fault(space, other, 2, BYTE, Access::Read, steps);
    Some(HeldCalls {
        first,
        between,
        second,
        behind,
    })
}

/// The same with the page held as a writer.
fn read_alone<L: Ledger, R: Wait>(
    rt: &R,
    space: &Space,
    holder: &mut Caller,
    other: &mut Caller,
    steps: &mut Steps<L>,
) -> Option<HeldCalls>
    requires holder { (holder.old.seat.table ≡ space.now.table) × (holder.old.seat.held ≡ None) }
    requires other { (other.old.seat.table ≡ space.now.table) × (other.old.seat.held ≡ None) }
    requires unkept { keeps_by space.now.table ≡ false }
    ensures holder { IsIdleAgain holder.old holder.new }
    ensures other { IsIdleAgain other.old other.new }
{
    if holder.left() < 2 {
        return None;
    }
    let held = hold_fault_alone(space, rt, holder, 1, BYTE, Access::Read);
    let Answer::Given(first) = held else {
        return None;
    };
    let between = try_fault(space, other, 1, BYTE, Access::Read, steps);
    let second = fault_held_alone(space, holder, 2, BYTE, Access::Read, steps);
    space.release(holder, steps);
    let behind = try_fault(space, other, 2, BYTE, Access::Read, steps);
    Some(HeldCalls {
        first,
        between,
        second,
        behind,
    })
}

/// One caller makes such calls beside another one.
fn hold_counting<L: Ledger, R: Wait>(
    rt: &R,
    space: &Space,
    holder: &mut Caller,
    holding: Holding,
    other: &mut Caller,
    blank: Blank,
) -> Option<HeldCalls>
    requires blank { (blank.name ≡ L.name) × (blank.parts ≡ L.parts) × (0 < L.parts) }
    requires holder { (holder.old.seat.table ≡ space.now.table) × (holder.old.seat.held ≡ None) }
    requires other { (other.old.seat.table ≡ space.now.table) × (other.old.seat.held ≡ None) }
    requires unkept { holding ≡ ReadsAlone → keeps_by space.now.table ≡ false }
    ensures holder { IsIdleAgain holder.old holder.new }
    ensures other { IsIdleAgain other.old other.new }
{
    let mut steps = Steps::<L>::new(blank);
    match holding {
        Holding::Maps => map_held(rt, space, holder, other, &mut steps),
        Holding::Reads => read_held(rt, space, holder, other, &mut steps),
        Holding::ReadsAlone => read_alone(rt, space, holder, other, &mut steps),
    }
}

/// The first caller of the crew makes such calls, for lines 1 and 2, beside the second one. None where it has too few
/// numbers left. A page is held as a writer only in a space that keeps no history.
pub fn hold_beside<R: Wait>(
    rt: &R,
    space: &Space,
    callers: &mut [Caller],
    holding: Holding,
) -> Option<HeldCalls>
    requires crew { IsCrew space.now.table space.now.seats callers.old }
    requires two { 2 ≤ space.now.seats }
    requires unkept { holding ≡ ReadsAlone → keeps_by space.now.table ≡ false }
    ensures crew { IsCrew space.now.table space.now.seats callers.new }
{
    let (first, others) = callers.split_at_mut(1);
    hold_counting::<Brand, R>(
        rt,
        space,
        &mut first[0],
        holding,
        &mut others[0],
        Blank::new(1),
    )
}
