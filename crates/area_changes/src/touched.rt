//! Which pages a call may have changed, told by its arguments and its reply alone: those that mmap(2), munmap(2),
//! mprotect(2), mseal(2) and mremap(2) name, and a heap that brk(2) lengthens or cuts. A reader may rely on every other
//! page having its kind as before; of the touched ones some may, too.
ghost use Rattle.std.specs.Prelude.{◌≡◌, ◌<◌, ◌≤◌, ◌/◌, ℕ, List};
ghost use Rattle.page_types.specs.declared.TheConstants.{LIMIT};
ghost use Rattle.page_types.specs.declared.calls.Call.{Call as CallOf};
ghost use Rattle.page_types.specs.declared.calls.Reply.TheVariants.{At, Zero};
ghost use Rattle.page_types.specs.Pages.{page_of, end_page};
ghost use Rattle.space_model.specs.declared.areas.Area.{Area as AreaOf};
ghost use Rattle.space_model.specs.Answers.{Answers, IsHeapEnd};
ghost use Rattle.space_model.specs.Areas.{IsAreaList, kind_at};
ghost use Rattle.area_changes.specs.Touching.{IsApart, IsUntouched};

use crate::stretches::Touched;
use bitflags::Flags;
use page_types::{Call, Kind, LIMIT, PAGE, Prot, Reply, end_page, page_count};
use space_model::{Pages, ReservedSpace, Sort};

/// No page.
fn nothing() -> Touched
    ensures { (page : ℕ) → IsUntouched result page }
{
    Touched {
        lo: 0,
        hi: 0,
        next: 0,
        end: 0,
    }
}

/// The pages from `lo` up to `hi`, as far as they lie below `LIMIT`.
fn stretch(lo: u64, hi: u64) -> Touched
    requires { lo ≤ hi }
    ensures { (page : ℕ) → page < LIMIT → IsUntouched result page → IsApart lo hi page }
{
    let end = hi.min(LIMIT);
    Touched {
        lo: lo.min(LIMIT),
        hi: end,
        next: end,
        end,
    }
}

/// The pages from `lo` up to `hi` and from `next` up to `end`, in this order, as far as they lie below `LIMIT`.
fn in_order(lo: u64, hi: u64, next: u64, end: u64) -> Touched
    requires first { lo ≤ hi }
    requires ordered { hi ≤ next }
    requires second { next ≤ end }
    ensures one { (page : ℕ) → page < LIMIT → IsUntouched result page → IsApart lo hi page }
    ensures other { (page : ℕ) → page < LIMIT → IsUntouched result page → IsApart next end page }
{
    Touched {
        lo: lo.min(LIMIT),
        hi: hi.min(LIMIT),
        next: next.min(LIMIT),
        end: end.min(LIMIT),
    }
}

/// The same in any order; where the two overlap, those between them too.
fn two_stretches(lo: u64, hi: u64, next: u64, end: u64) -> Touched
    requires first { lo ≤ hi }
    requires second { next ≤ end }
    ensures one { (page : ℕ) → page < LIMIT → IsUntouched result page → IsApart lo hi page }
    ensures other { (page : ℕ) → page < LIMIT → IsUntouched result page → IsApart next end page }
{
    if hi <= next {
        return in_order(lo, hi, next, end);
    }
    if end <= lo {
        return in_order(next, end, lo, hi);
    }
    stretch(lo.min(next), hi.max(end))
}

/// The pages of so many bytes from an address on.
fn named_pages(addr: u64, len: u64) -> Touched
    ensures { (page : ℕ) → page < LIMIT → IsUntouched result page → IsApart (page_of addr) (end_page addr len) page }
{
    stretch(addr / PAGE, end_page(addr, len))
}

/// The pages that a call named which was done and has no address as its reply.
fn touched_by_done(call: &Call) -> Touched
    ensures { (A B : List AreaOf) (page : ℕ) → Answers A call.now Zero B → page < LIMIT → IsUntouched result page
        → kind_at A page ≡ kind_at B page }
{
    match *call {
        Call::Unmap { addr, len } => named_pages(addr, len),
        Call::Protect { addr, len, .. } => named_pages(addr, len),
        Call::Seal { addr, len, .. } => named_pages(addr, len),
        Call::Map { .. } | Call::Fault { .. } | Call::Brk { .. } | Call::Remap { .. } => nothing(),
    }
}

/// The page after the last one of a heap, whose base is that of a page below `LIMIT`.
fn heap_end(space: &ReservedSpace, base: u64) -> u64
    requires { base / 4096 ≤ LIMIT }
    ensures { IsHeapEnd (kind_at space.now) base result }
{
    let heap = Kind {
        prot: Prot::from_bits_retain(3),
        shared: false,
        sealed: false,
    };
    space.end_of(&mut (), Sort::Unlike(Some(heap)), base / PAGE, LIMIT)
}

/// The pages of a heap, up to the end that a Brk asked for where that is higher.
fn touched_heap(space: &ReservedSpace, base: u64, addr: u64) -> Touched
    ensures { (B : List AreaOf) (page : ℕ) → Answers space.now (CallOf.Brk base addr) (At addr) B → page < LIMIT
        → IsUntouched result page → kind_at space.now page ≡ kind_at B page }
{
    let lo = base / PAGE;
    if lo >= LIMIT {
        return nothing();
    }
    stretch(lo, heap_end(space, base).max(page_count(addr)))
}

/// The pages that a call may have changed whose reply is an address.
fn touched_at(space: &ReservedSpace, call: &Call, at: u64) -> Touched
    ensures { (B : List AreaOf) (page : ℕ) → Answers space.now call.now (At at) B → page < LIMIT
        → IsUntouched result page → kind_at space.now page ≡ kind_at B page }
{
    match *call {
        Call::Map { len, .. } => named_pages(at, len),
        Call::Brk { base, addr } if at == addr => touched_heap(space, base, addr),
        Call::Remap {
            addr,
            old_len,
            new_len,
            ..
        } => two_stretches(
            addr / PAGE,
            end_page(addr, old_len),
            at / PAGE,
            end_page(at, new_len),
        ),
        _ => nothing(),
    }
}

/// The pages that a call with this reply may have changed on `space`.
pub(crate) fn pages_of_call(space: &ReservedSpace, call: &Call, reply: Reply) -> Touched
    ensures { (B : List AreaOf) (page : ℕ) → Answers space.now call.now reply B → IsAreaList space.now → IsAreaList B
        → IsUntouched result page → kind_at space.now page ≡ kind_at B page }
{
    match reply {
        Reply::At(at) => touched_at(space, call, at),
        Reply::Zero => touched_by_done(call),
        Reply::Granted(_) | Reply::Refused(_) => nothing(),
    }
}
