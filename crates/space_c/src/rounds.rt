//! One round of a call: where its arguments decide it, it is made at once; otherwise its pages are asked for once, the
//! call is made under them, and they are given back or kept. A reader may rely on `IsMade` and `IsRefusedRound`
//! (`specs/Behind.antt`): what was held is what the call is made under, and nothing else was asked for on the way.
ghost use Rattle.std.specs.Prelude.{Bool, false, ◌≡◌, ◌<◌, Some, None, IfOk, IfErr, IsSome};
ghost use Rattle.page_types.specs.Classes.{IsFault};
ghost use Rattle.page_types.specs.Named.{IsNamedCall};
ghost use Rattle.page_types.specs.PlainReply.{plain_reply};
ghost use Rattle.page_types.specs.declared.calls.Call.TheVariants.{Fault};
ghost use Rattle.area_guard.specs.History.{IsAtRest};
ghost use Rattle.area_guard.specs.Reads.{everything};
ghost use Rattle.area_guard.specs.Rows.{keeps_by};
ghost use Rattle.area_rows.specs.Called.{IsCalled};
ghost use Rattle.page_fault.specs.Faults.{page_held_as};
ghost use Rattle.space_c.specs.Behind.{IsGivenUnless, IsMade, IsMadeHolding, IsRefusedRound, given_back};

use area_rows::{Caller, Space};
use lock_core::Mode;
use page_fault::{fault_held, fault_held_alone};
use page_types::{Access, Call, LIMIT, PAGE, Span, plain};
use range_rw::Anew;
use space_model::Entry;
use std::marker::Brand;
use std::sync::ledger::{Blank, Ledger};
use word_rows::Steps;

/// Gives back what the caller holds, or keeps it.
fn give_unless(space: &Space, caller: &mut Caller, keep: bool)
    requires table { caller.old.seat.table ≡ space.now.table }
    requires holds { IsSome caller.old.seat.held }
    requires rest { IsAtRest caller.old.seat.pass }
    ensures { IsGivenUnless keep caller.old caller.new }
{
    if !keep {
        space.release_uncounted(caller);
    }
}

/// A call that is no fault by a caller that holds all pages.
fn call_holding(space: &Space, caller: &mut Caller, call: Call, keep: bool) -> Entry
    requires table { caller.old.seat.table ≡ space.now.table }
    requires held { caller.old.seat.held ≡ Some everything }
    requires rest { IsAtRest caller.old.seat.pass }
    requires left { 0 < caller.old.left }
    requires call { ¬ IsFault call }
    requires named { IsNamedCall call }
    requires undecided { plain_reply call ≡ None }
    ensures { IsMadeHolding everything call keep caller.old result caller.new }
{
    let entry = space.call_held(caller, 0, call);
    give_unless(space, caller, keep);
    entry
}

/// One round of a call that is no fault and that its arguments don't decide: under all pages.
fn call_under(
    space: &Space,
    caller: &mut Caller,
    call: Call,
    refused: u32,
    keep: bool,
) -> Result<Entry, Anew>
    requires table { caller.old.seat.table ≡ space.now.table }
    requires free { caller.old.seat.held ≡ None }
    requires left { 0 < caller.old.left }
    requires call { ¬ IsFault call }
    requires named { IsNamedCall call }
    requires undecided { plain_reply call ≡ None }
    ensures made { IfOk result (λ e. IsMade everything call keep caller.old e caller.new) }
    ensures refused { IfErr result (λ _. IsRefusedRound space.now.cut everything call refused caller.old caller.new) }
    ensures rest { IsAtRest caller.new.seat.pass }
    ensures table { caller.new.seat.table ≡ caller.old.seat.table }
{
    let all = Span { lo: 0, hi: LIMIT };
    match space.acquire_round(caller, all, Mode::Writer, refused) {
        Ok(()) => Ok(call_holding(space, caller, call, keep)),
        Err(anew) => Err(anew),
    }
}

/// One round of a call that is no fault. The caller holds nothing and has a number left.
pub(crate) fn make_call(
    space: &Space,
    caller: &mut Caller,
    call: Call,
    refused: u32,
    keep: bool,
) -> Result<Entry, Anew>
    requires table { caller.old.seat.table ≡ space.now.table }
    requires free { caller.old.seat.held ≡ None }
    requires rest { IsAtRest caller.old.seat.pass }
    requires left { 0 < caller.old.left }
    requires call { ¬ IsFault call }
    requires named { IsNamedCall call }
    ensures made { IfOk result (λ e. IsMade everything call keep caller.old e caller.new) }
    ensures refused { IfErr result (λ _. IsRefusedRound space.now.cut everything call refused caller.old caller.new) }
    ensures rest { IsAtRest caller.new.seat.pass }
    ensures table { caller.new.seat.table ≡ caller.old.seat.table }
{
    match plain(&call) {
        Some(reply) => Ok(space.call_plain(caller, 0, call, reply)),
        None => call_under(space, caller, call, refused, keep),
    }
}

/// A fault by a caller that holds its page in this mode.
fn fault_counting<L: Ledger>(
    space: &Space,
    caller: &mut Caller,
    addr: u64,
    access: Access,
    mode: Mode,
    blank: Blank,
) -> Entry
    requires blank { (blank.name ≡ L.name) × (blank.parts ≡ L.parts) × (0 < L.parts) }
    requires table { caller.old.seat.table ≡ space.now.table }
    requires unkept { keeps_by caller.old.seat.table ≡ false }
    requires held { caller.old.seat.held ≡ Some (page_held_as mode addr) }
    requires rest { IsAtRest caller.old.seat.pass }
    requires left { 0 < caller.old.left }
    requires undecided { plain_reply (Fault addr access) ≡ None }
    ensures called { IsCalled (given_back caller.old) 0 (Fault addr access) result (given_back caller.new) }
    ensures held { caller.new.seat.held ≡ Some (page_held_as mode addr) }
    ensures asked { caller.new.seat.trace.asked ≡ caller.old.seat.trace.asked }
{
    let mut steps = Steps::<L>::new(blank);
    match mode {
        Mode::Reader => fault_held(space, caller, 0, addr, access, &mut steps),
        Mode::Writer => fault_held_alone(space, caller, 0, addr, access, &mut steps),
    }
}

/// The same, and gives the page back or keeps it.
fn fault_holding(
    space: &Space,
    caller: &mut Caller,
    addr: u64,
    access: Access,
    mode: Mode,
    keep: bool,
) -> Entry
    requires table { caller.old.seat.table ≡ space.now.table }
    requires unkept { keeps_by caller.old.seat.table ≡ false }
    requires held { caller.old.seat.held ≡ Some (page_held_as mode addr) }
    requires rest { IsAtRest caller.old.seat.pass }
    requires left { 0 < caller.old.left }
    requires undecided { plain_reply (Fault addr access) ≡ None }
    ensures { IsMadeHolding (page_held_as mode addr) (Fault addr access) keep caller.old result caller.new }
{
    let blank = Blank::new(1);
    let entry = fault_counting::<Brand>(space, caller, addr, access, mode, blank);
    give_unless(space, caller, keep);
    entry
}

/// One round of a fault that its arguments don't decide: under its page in this mode.
fn fault_under(
    space: &Space,
    caller: &mut Caller,
    addr: u64,
    access: Access,
    mode: Mode,
    keep: bool,
) -> Result<Entry, Anew>
    requires table { caller.old.seat.table ≡ space.now.table }
    requires unkept { keeps_by caller.old.seat.table ≡ false }
    requires free { caller.old.seat.held ≡ None }
    requires left { 0 < caller.old.left }
    requires undecided { plain_reply (Fault addr access) ≡ None }
    ensures made { IfOk result (λ e. IsMade (page_held_as mode addr) (Fault addr access) keep caller.old e caller.new) }
    ensures refused { IfErr result (λ _. IsRefusedRound space.now.cut (page_held_as mode addr) (Fault addr access) 0 caller.old caller.new) }
    ensures rest { IsAtRest caller.new.seat.pass }
    ensures table { caller.new.seat.table ≡ caller.old.seat.table }
{
    let page = Span::of_page(addr / PAGE);
    match space.acquire_round(caller, page, mode, 0) {
        Ok(()) => Ok(fault_holding(space, caller, addr, access, mode, keep)),
        Err(anew) => Err(anew),
    }
}

/// One round of a fault, under its page in this mode. The caller holds nothing and has a number left.
pub(crate) fn make_fault(
    space: &Space,
    caller: &mut Caller,
    addr: u64,
    access: Access,
    mode: Mode,
    keep: bool,
) -> Result<Entry, Anew>
    requires table { caller.old.seat.table ≡ space.now.table }
    requires unkept { keeps_by caller.old.seat.table ≡ false }
    requires free { caller.old.seat.held ≡ None }
    requires rest { IsAtRest caller.old.seat.pass }
    requires left { 0 < caller.old.left }
    ensures made { IfOk result (λ e. IsMade (page_held_as mode addr) (Fault addr access) keep caller.old e caller.new) }
    ensures refused { IfErr result (λ _. IsRefusedRound space.now.cut (page_held_as mode addr) (Fault addr access) 0 caller.old caller.new) }
    ensures rest { IsAtRest caller.new.seat.pass }
    ensures table { caller.new.seat.table ≡ caller.old.seat.table }
{
    let call = Call::Fault { addr, access };
    match plain(&call) {
        Some(reply) => Ok(space.call_plain(caller, 0, call, reply)),
        None => fault_under(space, caller, addr, access, mode, keep),
    }
}
