//! The calls for a fault: one waits until the page is held, and one tries once and names the cause where it isn't. Who
//! has the call in one piece hands it to `make_fault`, over which `fault` stands. A fault that its arguments decide
//! holds nothing. What a reader may rely on is said by `IsAnswer` and `IsTried` (`specs/Faults.antt`); the replies are
//! those of sigaction(2).
ghost use Rattle.std.specs.Prelude.{false, ◌≡◌, ◌<◌, ◌≤◌, ◌+◌, ◌*◌, ℕ, Some, None};
ghost use Rattle.page_types.specs.Named.{IsNamedCall};
ghost use Rattle.page_types.specs.PlainReply.{plain_reply};
ghost use Rattle.lock_core.specs.declared.range.Mode.TheVariants.{Reader, Writer};
ghost use Rattle.space_model.specs.declared.entries.Under.TheVariants.{Reader as AsReader};
ghost use Rattle.range_rw.specs.Contract.{IsReadyLeft, pools_at};
ghost use Rattle.page_types.specs.Classes.{IsFault};
ghost use Rattle.page_types.specs.declared.TheConstants.{SEARCH};
ghost use Rattle.area_rows.specs.History.{HoldsFor, IsAtRest};
ghost use Rattle.area_rows.specs.Rows.{keeps_by};
ghost use Rattle.area_rows.specs.Callers.{held_span};
ghost use Rattle.area_rows.specs.Called.{IsCalled, IsAnswered};
ghost use Rattle.page_types.specs.declared.calls.Call.TheVariants.{Fault};
ghost use Rattle.page_fault.specs.Faults.{AsksPage, AsksPageAs, AsksPageOf, FindsSoon, IsAccess, IsAnswer, IsFaulted, IsHeldAnswer, IsTried};
ghost use Rattle.page_fault.specs.Faults.{MayHold, page_alone, page_held, page_held_as};

use area_rows::{Answer, Caller, Space};
use lock_core::Mode;
use page_types::{Access, Call, LIMIT, PAGE, Reply, Span, plain};
use range_rw::NotHeld;
use space_model::{Entry, Under, access_reply};
use std::marker::Brand;
use std::sync::Wait;
use std::sync::ledger::{Blank, Ledger};
use word_rows::Steps;

/// The answer to a fault that waits for nobody.
#[derive(Debug, Drop, PartialEq, Eq)]
pub enum TriedFault {
    /// The fault's entry.
    Answered(Entry),
    /// The page wasn't got in this try: why.
    NotHeld(NotHeld),
    /// The caller has no number left.
    Spent,
}

/// The reply to a call that its arguments alone decide, as `plain` gives it; that is asked only where it may have one.
#[inline(always)]
fn decided(call: &Call) -> Option<Reply>
    ensures { result ≡ plain_reply call.now }
{
    if let Call::Fault { addr, .. } = *call {
        if addr / PAGE < LIMIT {
            return None;
        }
    }
    plain(call)
}

/// What is done to which page by a fault that its arguments don't decide.
fn access_of(call: Call) -> (Access, Span)
    requires call { IsFault call }
    requires undecided { plain_reply call ≡ None }
    ensures { IsAccess call result.0 result.1 }
{
    let Call::Fault { addr, access } = call else {
        unreachable!()
    };
    (access, Span::of_page(addr / PAGE))
}

/// A fault that its arguments decide: it draws its number and holds nothing.
fn number_plain<L: Ledger>(
    space: &Space,
    caller: &mut Caller,
    line: u32,
    call: Call,
    reply: Reply,
    steps: &mut Steps<L>,
) -> Entry
    requires table { caller.old.seat.table ≡ space.now.table }
    requires free { caller.old.seat.held ≡ None }
    requires left { 0 < caller.old.left }
    requires named { IsNamedCall call }
    requires decided { plain_reply call ≡ Some reply }
    ensures called { IsCalled caller.old line call result caller.new }
    ensures asked { caller.new.seat.trace.asked ≡ caller.old.seat.trace.asked }
    ensures pools { caller.new.seat.pools ≡ caller.old.seat.pools }
    ensures further { caller.new.seat.further ≡ caller.old.seat.further }
    ensures took { caller.new.seat.pass.took ≤ caller.old.seat.pass.since + (SEARCH + 3) }
    ensures since { caller.new.seat.pass.since ≡ 0 }
    ensures bound { caller.new.seat.trace.taken ≤ caller.old.seat.trace.taken + 1 }
    ensures counted { steps.new + caller.old.seat.trace.taken ≡ steps.old + caller.new.seat.trace.taken }
{
    steps.tick();
    space.call_plain(caller, line, call, reply)
}

/// A fault whose page the caller holds, and goes on holding: it reads the page's row and draws its number, in at most
/// `SEARCH + 4` steps.
#[inline(always)]
fn answer_held<L: Ledger>(
    space: &Space,
    caller: &mut Caller,
    line: u32,
    call: Call,
    access: Access,
    span: Span,
    steps: &mut Steps<L>,
) -> Entry
    requires table { caller.old.seat.table ≡ space.now.table }
    requires left { 0 < caller.old.left }
    requires undecided { plain_reply call ≡ None }
    requires access { IsAccess call access span }
    requires held { HoldsFor (keeps_by caller.old.seat.table) caller.old.seat.held (AsReader span) }
    requires rest { IsAtRest caller.old.seat.pass }
    ensures called { IsCalled (record caller.old { seat = record caller.old.seat { held = None } }) line call result
        (record caller.new { seat = record caller.new.seat { held = None } }) }
    ensures held { caller.new.seat.held ≡ caller.old.seat.held }
    ensures asked { caller.new.seat.trace.asked ≡ caller.old.seat.trace.asked }
    ensures pools { caller.new.seat.pools ≡ caller.old.seat.pools }
    ensures further { caller.new.seat.further ≡ caller.old.seat.further }
    ensures took { caller.new.seat.pass.took ≤ caller.old.seat.pass.since + (SEARCH + 3) }
    ensures since { caller.new.seat.pass.since ≡ 0 }
    ensures bound { caller.new.seat.trace.taken ≤ caller.old.seat.trace.taken + (SEARCH + 4) }
    ensures counted { steps.new + caller.old.seat.trace.taken ≡ steps.old + caller.new.seat.trace.taken }
{
    let page = span.lo;
    let row = space.row_of(caller, page, steps);
    let reply = access_reply(row.kind, page, access);
    space.number(caller, line, call, reply, Under::Reader(span), steps)
}

/// The same, and it gives the page back: at most `SEARCH + 6` steps together.
#[inline(always)]
fn number_held<L: Ledger>(
    space: &Space,
    caller: &mut Caller,
    line: u32,
    call: Call,
    access: Access,
    span: Span,
    steps: &mut Steps<L>,
) -> Entry
    requires table { caller.old.seat.table ≡ space.now.table }
    requires left { 0 < caller.old.left }
    requires undecided { plain_reply call ≡ None }
    requires access { IsAccess call access span }
    requires held { caller.old.seat.held ≡ Some (held_span span Reader) }
    requires rest { IsAtRest caller.old.seat.pass }
    ensures called { IsCalled (record caller.old { seat = record caller.old.seat { held = None } }) line call result caller.new }
    ensures asked { caller.new.seat.trace.asked ≡ caller.old.seat.trace.asked }
    ensures ready { caller.new.seat.pools.ready ≡ caller.old.seat.pools.ready }
    ensures further { (j : ℕ) → (pools_at caller.new.seat j).ready ≡ (pools_at caller.old.seat j).ready }
    ensures took { caller.new.seat.pass.took ≤ caller.old.seat.pass.since + (SEARCH + 3) }
    ensures since { caller.new.seat.pass.since ≡ 0 }
    ensures bound { caller.new.seat.trace.taken ≤ caller.old.seat.trace.taken + (SEARCH + 6) }
    ensures counted { steps.new + caller.old.seat.trace.taken ≡ steps.old + caller.new.seat.trace.taken }
{
    let entry = answer_held(space, caller, line, call, access, span, steps);
    space.release(caller, steps);
    entry
}

/// One access to the byte at `addr`, below `LIMIT`, by a caller that holds its page as a reader, which it has got by
/// `acquire` or `try_acquire` of the space, and goes on holding; it has a number left and nothing to write. It waits
/// for nobody, and takes at most `SEARCH + 4` steps.
pub fn fault_held<L: Ledger>(
    space: &Space,
    caller: &mut Caller,
    line: u32,
    addr: u64,
    access: Access,
    steps: &mut Steps<L>,
) -> Entry
    requires table { caller.old.seat.table ≡ space.now.table }
    requires left { 0 < caller.old.left }
    requires undecided { plain_reply (Fault addr access) ≡ None }
    requires held { caller.old.seat.held ≡ Some (page_held addr) }
    requires rest { IsAtRest caller.old.seat.pass }
    ensures called { IsFaulted (record caller.old { seat = record caller.old.seat { held = None } }) line addr access result
        (record caller.new { seat = record caller.new.seat { held = None } }) }
    ensures held { caller.new.seat.held ≡ Some (page_held addr) }
    ensures asked { caller.new.seat.trace.asked ≡ caller.old.seat.trace.asked }
    ensures bound { caller.new.seat.trace.taken ≤ caller.old.seat.trace.taken + (SEARCH + 4) }
    ensures counted { steps.new + caller.old.seat.trace.taken ≡ steps.old + caller.new.seat.trace.taken }
{
    let call = Call::Fault { addr, access };
    let (access, span) = access_of(call);
    answer_held(space, caller, line, call, access, span, steps)
}

/// The same by a caller that holds the page as a writer, so that no other fault of the page goes on meanwhile. The
/// space keeps no history; the entry names the page as read, as each entry of a fault.
pub fn fault_held_alone<L: Ledger>(
    space: &Space,
    caller: &mut Caller,
    line: u32,
    addr: u64,
    access: Access,
    steps: &mut Steps<L>,
) -> Entry
    requires table { caller.old.seat.table ≡ space.now.table }
    requires unkept { keeps_by caller.old.seat.table ≡ false }
    requires left { 0 < caller.old.left }
    requires undecided { plain_reply (Fault addr access) ≡ None }
    requires held { caller.old.seat.held ≡ Some (page_alone addr) }
    requires rest { IsAtRest caller.old.seat.pass }
    ensures called { IsFaulted (record caller.old { seat = record caller.old.seat { held = None } }) line addr access result
        (record caller.new { seat = record caller.new.seat { held = None } }) }
    ensures held { caller.new.seat.held ≡ Some (page_alone addr) }
    ensures asked { caller.new.seat.trace.asked ≡ caller.old.seat.trace.asked }
    ensures bound { caller.new.seat.trace.taken ≤ caller.old.seat.trace.taken + (SEARCH + 4) }
    ensures counted { steps.new + caller.old.seat.trace.taken ≡ steps.old + caller.new.seat.trace.taken }
{
    let call = Call::Fault { addr, access };
    let (access, span) = access_of(call);
    answer_held(space, caller, line, call, access, span, steps)
}

/// A fault that waits until it holds its page in this mode, and goes on holding it.
fn hold_counting<L: Ledger, R: Wait>(
    space: &Space,
    wait: &R,
    caller: &mut Caller,
    line: u32,
    addr: u64,
    access: Access,
    mode: Mode,
    blank: Blank,
) -> Entry
    requires blank { (blank.name ≡ L.name) × (blank.parts ≡ L.parts) × (0 < L.parts) }
    requires table { caller.old.seat.table ≡ space.now.table }
    requires free { caller.old.seat.held ≡ None }
    requires left { 0 < caller.old.left }
    requires undecided { plain_reply (Fault addr access) ≡ None }
    requires mode { MayHold mode (keeps_by caller.old.seat.table) }
    ensures called { IsFaulted caller.old line addr access result (record caller.new { seat = record caller.new.seat { held = None } }) }
    ensures held { caller.new.seat.held ≡ Some (page_held_as mode addr) }
    ensures asks { AsksPageAs mode addr access caller.old.seat.trace.asked caller.new.seat.trace.asked }
    ensures took { caller.new.seat.pass.took ≤ caller.old.seat.pass.since + (SEARCH + 3) }
    ensures since { caller.new.seat.pass.since ≡ 0 }
{
    let mut steps = Steps::<L>::new(blank);
    let call = Call::Fault { addr, access };
    let (access, span) = access_of(call);
    space.acquire(wait, caller, span, mode);
    answer_held(space, caller, line, call, access, span, &mut steps)
}

/// The same with an answer for a caller that has no number left.
fn hold_page<R: Wait>(
    space: &Space,
    wait: &R,
    caller: &mut Caller,
    line: u32,
    addr: u64,
    access: Access,
    mode: Mode,
) -> Answer
    requires table { caller.old.seat.table ≡ space.now.table }
    requires free { caller.old.seat.held ≡ None }
    requires undecided { plain_reply (Fault addr access) ≡ None }
    requires mode { MayHold mode (keeps_by caller.old.seat.table) }
    ensures answer { IsHeldAnswer (page_held_as mode addr) caller.old line addr access result caller.new }
    ensures asks { AsksPageAs mode addr access caller.old.seat.trace.asked caller.new.seat.trace.asked }
    ensures steps { FindsSoon caller.old.seat result caller.new.seat }
{
    if caller.left() == 0 {
        return Answer::Spent;
    }
    let blank = Blank::new(1);
    let entry = hold_counting::<Brand, R>(space, wait, caller, line, addr, access, mode, blank);
    Answer::Given(entry)
}

/// One access to the byte at `addr`, below `LIMIT`, as `fault` makes it, but the caller goes on holding the byte's page
/// as a reader, and has nothing to write; `release` of the space gives it back. So while the page is filled by other
/// means no call can take it away or change its protection. `Spent` comes exactly where the caller has no number left,
/// and nothing is held then.
pub fn hold_fault<R: Wait>(
    space: &Space,
    wait: &R,
    caller: &mut Caller,
    line: u32,
    addr: u64,
    access: Access,
) -> Answer
    requires table { caller.old.seat.table ≡ space.now.table }
    requires free { caller.old.seat.held ≡ None }
    requires undecided { plain_reply (Fault addr access) ≡ None }
    ensures answer { IsHeldAnswer (page_held addr) caller.old line addr access result caller.new }
    ensures asks { AsksPage addr access caller.old.seat.trace.asked caller.new.seat.trace.asked }
    ensures steps { FindsSoon caller.old.seat result caller.new.seat }
{
    hold_page(space, wait, caller, line, addr, access, Mode::Reader)
}

/// The same with the page held as a writer, so that no two faults bring one page in twice. The space keeps no history;
/// the entry names the page as read, as each entry of a fault.
pub fn hold_fault_alone<R: Wait>(
    space: &Space,
    wait: &R,
    caller: &mut Caller,
    line: u32,
    addr: u64,
    access: Access,
) -> Answer
    requires table { caller.old.seat.table ≡ space.now.table }
    requires unkept { keeps_by caller.old.seat.table ≡ false }
    requires free { caller.old.seat.held ≡ None }
    requires undecided { plain_reply (Fault addr access) ≡ None }
    ensures answer { IsHeldAnswer (page_alone addr) caller.old line addr access result caller.new }
    ensures asks { AsksPageAs Writer addr access caller.old.seat.trace.asked caller.new.seat.trace.asked }
    ensures steps { FindsSoon caller.old.seat result caller.new.seat }
{
    hold_page(space, wait, caller, line, addr, access, Mode::Writer)
}

#[inline(always)]
fn fault_counting<L: Ledger, R: Wait>(
    space: &Space,
    wait: &R,
    caller: &mut Caller,
    line: u32,
    call: Call,
    blank: Blank,
) -> Entry
    requires blank { (blank.name ≡ L.name) × (blank.parts ≡ L.parts) × (0 < L.parts) }
    requires table { caller.old.seat.table ≡ space.now.table }
    requires free { caller.old.seat.held ≡ None }
    requires left { 0 < caller.old.left }
    requires call { IsFault call }
    ensures called { IsCalled caller.old line call result caller.new }
    ensures asks { AsksPageOf call caller.old.seat.trace.asked caller.new.seat.trace.asked }
    ensures took { caller.new.seat.pass.took ≤ caller.old.seat.pass.since + (SEARCH + 3) }
    ensures since { caller.new.seat.pass.since ≡ 0 }
{
    let mut steps = Steps::<L>::new(blank);
    if let Some(reply) = decided(&call) {
        return number_plain(space, caller, line, call, reply, &mut steps);
    }
    let (access, span) = access_of(call);
    space.acquire(wait, caller, span, Mode::Reader);
    number_held(space, caller, line, call, access, span, &mut steps)
}

/// Makes a call that is a fault, as `fault` does, with the same answers. It stands in its callers with what makes the
/// fault, so that an entry which nobody looks at is not copied up the calls.
#[inline(always)]
pub fn make_fault<R: Wait>(
    space: &Space,
    wait: &R,
    caller: &mut Caller,
    line: u32,
    call: Call,
) -> Answer
    requires table { caller.old.seat.table ≡ space.now.table }
    requires free { caller.old.seat.held ≡ None }
    requires call { IsFault call }
    ensures answer { IsAnswered caller.old line call result caller.new }
    ensures asks { AsksPageOf call caller.old.seat.trace.asked caller.new.seat.trace.asked }
    ensures steps { FindsSoon caller.old.seat result caller.new.seat }
{
    if caller.left() == 0 {
        return Answer::Spent;
    }
    let blank = Blank::new(1);
    let entry = fault_counting::<Brand, R>(space, wait, caller, line, call, blank);
    Answer::Given(entry)
}

/// One access to the byte at `addr`, by the caller, which is of this space and holds nothing; `line` is the line of
/// the input that names it, counted from 1.
/// It waits until the caller holds the byte's page as a reader, and then draws the number; a fault at or above
/// `LIMIT` holds nothing. On its way it asks for no other range, and makes at most `SEARCH + 4` steps on client words,
/// the last of which draws the number. `Spent` comes exactly where the caller has no number left, and nothing has
/// changed then.
pub fn fault<R: Wait>(
    space: &Space,
    wait: &R,
    caller: &mut Caller,
    line: u32,
    addr: u64,
    access: Access,
) -> Answer
    requires table { caller.old.seat.table ≡ space.now.table }
    requires free { caller.old.seat.held ≡ None }
    ensures answer { IsAnswer caller.old line addr access result caller.new }
    ensures asks { AsksPage addr access caller.old.seat.trace.asked caller.new.seat.trace.asked }
    ensures steps { FindsSoon caller.old.seat result caller.new.seat }
{
    make_fault(space, wait, caller, line, Call::Fault { addr, access })
}

/// The same with one try to hold the page, so that it waits for nobody.
/// `NotHeld` comes only for a fault below `LIMIT`, and then exactly as for a try of the one page as a reader, by the
/// same causes; the caller has seen and numbered what it had. Its ready nodes in each list, if it had any there, are
/// afterwards as they were or without the first one. It takes at most `SEARCH + 6` steps more than the lock's try,
/// which is that of one list however the pages are cut: at most `SEARCH + 3` find the row, one draws the number, and
/// one or two give the page back.
pub fn try_fault<L: Ledger>(
    space: &Space,
    caller: &mut Caller,
    line: u32,
    addr: u64,
    access: Access,
    steps: &mut Steps<L>,
) -> TriedFault
    requires table { caller.old.seat.table ≡ space.now.table }
    requires free { caller.old.seat.held ≡ None }
    ensures answer { IsTried space.now.seats caller.old line addr access result caller.new }
    ensures asks { AsksPage addr access caller.old.seat.trace.asked caller.new.seat.trace.asked }
    ensures ready { IsReadyLeft caller.old.seat.pools.ready caller.new.seat.pools.ready }
    ensures further { (j : ℕ) → IsReadyLeft (pools_at caller.old.seat j).ready (pools_at caller.new.seat j).ready }
    ensures bound { caller.new.seat.trace.taken ≤ caller.old.seat.trace.taken + (64 + 386 * space.now.seats) + (SEARCH + 6) }
    ensures counted { steps.new + caller.old.seat.trace.taken ≡ steps.old + caller.new.seat.trace.taken }
{
    if caller.left() == 0 {
        return TriedFault::Spent;
    }
    let call = Call::Fault { addr, access };
    if let Some(reply) = decided(&call) {
        return TriedFault::Answered(number_plain(space, caller, line, call, reply, steps));
    }
    let (access, span) = access_of(call);
    match space.try_acquire(caller, span, Mode::Reader, steps) {
        Ok(()) => TriedFault::Answered(number_held(space, caller, line, call, access, span, steps)),
        Err(why) => TriedFault::NotHeld(why),
    }
}
