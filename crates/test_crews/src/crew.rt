//! A crew: all callers of one space in order of their numbers. One of them makes a call, or one tries once beside
//! another that holds a span as a writer, or each makes calls on a thread of its own. After each of these the crew may
//! go on or be closed.
ghost use Rattle.std.specs.Prelude.{true, ◌≡◌, ◌<◌, ◌≤◌, ◌^◌, None, drop, length, IfOk, IfErr};
ghost use Rattle.space_model.specs.Areas.{row_count};
ghost use Rattle.page_types.specs.declared.sets.Access.TheVariants.{Read};
ghost use Rattle.page_types.specs.Named.{IsNamedCall};
ghost use Rattle.area_rows.specs.Rows.{keeps_by};
ghost use Rattle.area_rows.specs.Callers.{IsSpaceFault};
ghost use Rattle.area_rows.specs.Called.{IsAnswered};
ghost use Rattle.page_fault.specs.Faults.{IsTried};
ghost use Rattle.test_crews.specs.Crews.{HasCalled, HaveCalled, IsIdleAgain, IsCrew, OfCaller};

use crate::calls::make_call;
use crate::work::{Work, work_turns};
use area_rows::{Answer, Caller, Space, SpaceFault};
use list_cuts::Cut;
use lock_core::Mode;
use page_fault::{TriedFault, try_fault};
use page_types::{Access, Call, Span};
use space_model::PlainSpace;
use std::alloc::Global;
use std::marker::Brand;
use std::sync::Wait;
use std::sync::ledger::{Blank, Ledger};
use std::thread;
use std::thread::Threads;
use word_rows::Steps;

/// A space over a start, and its crew.
pub fn open_crew(
    alloc: Global,
    calls: &[u32],
    start: &PlainSpace,
) -> Result<(Space, Vec<Caller>), SpaceFault>
    requires { length calls.now < 2 ^ 32 }
    ensures refused { IfErr result (IsSpaceFault (length calls.now) (row_count start.now)) }
    ensures count { IfOk result (λ r. r.0.seats ≡ length calls.now) }
    ensures keeps { IfOk result (λ r. keeps_by r.0.table ≡ true) }
    ensures crew { IfOk result (λ r. IsCrew r.0.table r.0.seats r.1.items) }
{
    open_cut_crew(alloc, true, calls, Cut::one(), start)
}

/// The same over a lock with a list for each region of a cut of the pages, and with a history or without one. Without
/// it a caller may make more calls than were asked for.
pub fn open_cut_crew(
    alloc: Global,
    keeps: bool,
    calls: &[u32],
    cut: Cut,
    start: &PlainSpace,
) -> Result<(Space, Vec<Caller>), SpaceFault>
    requires { length calls.now < 2 ^ 32 }
    ensures refused { IfErr result (IsSpaceFault (length calls.now) (row_count start.now)) }
    ensures count { IfOk result (λ r. r.0.seats ≡ length calls.now) }
    ensures keeps { IfOk result (λ r. keeps_by r.0.table ≡ keeps) }
    ensures crew { IfOk result (λ r. IsCrew r.0.table r.0.seats r.1.items) }
{
    if keeps {
        Space::open_cut(alloc, calls, cut, start)
    } else {
        Space::open_unkept(alloc, calls.len() as u32, cut, start)
    }
}

/// The first caller of the crew makes a call, whose sets have named bits alone, and the others are as they were.
pub fn call_by<R: Wait>(
    rt: &R,
    space: &Space,
    callers: &mut [Caller],
    line: u32,
    call: Call,
) -> Answer
    requires crew { IsCrew space.now.table space.now.seats callers.old }
    requires named { IsNamedCall call }
    ensures crew { IsCrew space.now.table space.now.seats callers.new }
    ensures answer { OfCaller 0 callers.old callers.new (λ before after. IsAnswered before line call result after) }
    ensures others { drop 1 callers.new ≡ drop 1 callers.old }
{
    make_call(rt, space, &mut callers[0], line, call)
}

/// One caller faults in one try.
fn try_alone<L: Ledger>(space: &Space, caller: &mut Caller, addr: u64, blank: Blank) -> TriedFault
    requires blank { (blank.name ≡ L.name) × (blank.parts ≡ L.parts) × (0 < L.parts) }
    requires caller { (caller.old.seat.table ≡ space.now.table) × (caller.old.seat.held ≡ None) }
    ensures caller { IsIdleAgain caller.old caller.new }
    ensures tried { IsTried space.now.seats caller.old 1 addr Read result caller.new }
{
    let mut steps = Steps::<L>::new(blank);
    try_fault(space, caller, 1, addr, Access::Read, &mut steps)
}

/// A caller reads a byte in one try, for line 1. It is of this space and holds nothing.
pub fn try_read(space: &Space, caller: &mut Caller, addr: u64) -> TriedFault
    requires caller { (caller.old.seat.table ≡ space.now.table) × (caller.old.seat.held ≡ None) }
    ensures caller { IsIdleAgain caller.old caller.new }
    ensures tried { IsTried space.now.seats caller.old 1 addr Read result caller.new }
{
    try_alone::<Brand>(space, caller, addr, Blank::new(1))
}

/// The first caller of the crew reads a byte in one try, for line 1.
pub fn try_by(space: &Space, callers: &mut [Caller], addr: u64) -> TriedFault
    requires crew { IsCrew space.now.table space.now.seats callers.old }
    ensures crew { IsCrew space.now.table space.now.seats callers.new }
    ensures tried { OfCaller 0 callers.old callers.new (λ before after. IsTried space.now.seats before 1 addr Read result after) }
{
    try_read(space, &mut callers[0], addr)
}

/// One caller faults in one try while another one holds a span as a writer.
fn try_counting<L: Ledger, R: Wait>(
    rt: &R,
    space: &Space,
    writer: &mut Caller,
    span: Span,
    caller: &mut Caller,
    addr: u64,
    blank: Blank,
) -> TriedFault
    requires blank { (blank.name ≡ L.name) × (blank.parts ≡ L.parts) × (0 < L.parts) }
    requires writer { (writer.old.seat.table ≡ space.now.table) × (writer.old.seat.held ≡ None) }
    requires caller { (caller.old.seat.table ≡ space.now.table) × (caller.old.seat.held ≡ None) }
    ensures writer { IsIdleAgain writer.old writer.new }
    ensures caller { IsIdleAgain caller.old caller.new }
    ensures tried { IsTried space.now.seats caller.old 1 addr Read result caller.new }
{
    let mut steps = Steps::<L>::new(blank);
    space.acquire(rt, writer, span, Mode::Writer);
    let answer = try_fault(space, caller, 1, addr, Access::Read, &mut steps);
    space.release(writer, &mut steps);
    answer
}

/// The second caller of the crew reads a byte in one try, for line 1, while the first one holds a span as a writer.
pub fn try_beside<R: Wait>(
    rt: &R,
    space: &Space,
    callers: &mut [Caller],
    span: Span,
    addr: u64,
) -> TriedFault
    requires crew { IsCrew space.now.table space.now.seats callers.old }
    requires two { 2 ≤ space.now.seats }
    ensures crew { IsCrew space.now.table space.now.seats callers.new }
    ensures tried { OfCaller 1 callers.old callers.new (λ before after. IsTried space.now.seats before 1 addr Read result after) }
{
    let (first, others) = callers.split_at_mut(1);
    try_counting::<Brand, R>(
        rt,
        space,
        &mut first[0],
        span,
        &mut others[0],
        addr,
        Blank::new(1),
    )
}

/// Each caller makes so many calls, on a thread of its own: the first `changing` ones do the work, and the others read.
pub fn work_all<R: Threads + Wait + Sync>(
    rt: &R,
    space: &Space,
    callers: &mut [Caller],
    work: Work,
    changing: usize,
    turns: u32,
)
    requires { IsCrew space.now.table space.now.seats callers.old }
    ensures crew { IsCrew space.now.table space.now.seats callers.new }
    ensures called { HaveCalled turns callers.old callers.new }
{
    let turn = |index: usize, caller: &mut Caller|
        requires { (caller.now.seat.table ≡ space.now.table) × (caller.now.seat.held ≡ None) }
        ensures { IsIdleAgain caller.entry.now caller.exit.now × HasCalled turns caller.entry.now caller.exit.now }
    { work_turns(rt, space, caller, work.of(index < changing), turns) };
    thread::for_each_mut(rt, callers, 16, &turn);
}
