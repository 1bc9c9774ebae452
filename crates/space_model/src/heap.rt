//! A Brk, judged on pages: the heap is the run of pages of its kind from the base on, whoever mapped them, and brk(2)
//! moves its end. What Linux remembers of a heap, each call says here, so nothing is kept between calls. A reader may
//! rely on `Breaks` in `specs/`: it has no refusal, and where it finds no room its reply is the end as it was.

ghost use Rattle.std.specs.Prelude.{Some, ◌≡◌, ◌+◌, ◌≤◌, ◌↔◌, IsTrue, None};
ghost use Rattle.page_types.specs.declared.calls.Call.TheVariants.{Brk};
ghost use Rattle.page_types.specs.PlainReply.{brk_reply};
ghost use Rattle.space_model.specs.Effect.{heap_kind};
ghost use Rattle.space_model.specs.Judges.{IsJudged};
ghost use Rattle.space_model.specs.Looking.{TakesLooks};
ghost use Rattle.space_model.specs.Places.{HasRoom};

use crate::judged::{Change, Judged};
use crate::judging::Pages;
use crate::paint::{Paint, Patch};
use crate::sorts::Sort;
use bitflags::Flags;
use page_types::{Kind, LIMIT, PAGE, Prot, Reply, page_count};

/// The kind of the heap's pages.
fn heap_kind() -> Kind
    ensures { result ≡ heap_kind }
{
    Kind {
        prot: Prot::from_bits_retain(3),
        shared: false,
        sealed: false,
    }
}

/// Whether the pages from `lo` up to `hi` are free and user addresses.
pub(crate) fn has_room<P: Pages>(pages: &P, hand: &mut P::Hand, lo: u64, hi: u64) -> bool
    requires may { P.may_look pages.now hand.old }
    requires ordered { lo ≤ hi }
    ensures room { IsTrue result ↔ HasRoom (P.kinds pages.now hand.old) lo hi }
    ensures looked { P.looked pages.now hand.old hand.new }
    ensures looks { P.looks pages.now hand.new ≤ P.looks pages.now hand.old + P.reach pages.now hand.old lo hi }
{
    if hi > LIMIT {
        return false;
    }
    pages.end_of(hand, Sort::Mapped, lo, hi) == hi
}

/// A change of the heap by one patch, whose reply is `stays` where there would be too many rows.
fn broken(lo: u64, hi: u64, paint: Paint, reply: Reply, stays: Reply) -> Judged
    ensures { result ≡ Judged.Changes (record {
      first = record { lo = lo; hi = hi; paint = paint };
      second = None;
      reply = reply;
      full = Some stays;
    }) }
{
    Judged::Changes(Change {
        first: Patch { lo, hi, paint },
        second: None,
        reply,
        full: Some(stays),
    })
}

/// A Brk.
pub(crate) fn judge_brk<P: Pages>(pages: &P, hand: &mut P::Hand, base: u64, addr: u64) -> Judged
    requires may { P.may_look pages.now hand.old }
    requires undecided { brk_reply base ≡ None }
    ensures judged { IsJudged (P.kinds pages.now hand.old) (Brk base addr) result }
    ensures looked { P.looked pages.now hand.old hand.new }
    ensures looks { TakesLooks (P.kinds pages.now hand.old) (P.reach pages.now hand.old) (P.fit_looks pages.now hand.old) (Brk base addr)
        (P.looks pages.now hand.old) (P.looks pages.now hand.new) }
{
    let heap = heap_kind();
    let end = pages.end_of(hand, Sort::Unlike(Some(heap)), base / PAGE, LIMIT);
    let stays = Reply::At(end * PAGE);
    let want = page_count(addr);
    if addr < base {
        return Judged::Keeps(stays);
    }
    if want <= end {
        return broken(want, end, Paint::Gives(None), Reply::At(addr), stays);
    }
    if has_room(pages, hand, end, want) {
        return broken(end, want, Paint::Gives(Some(heap)), Reply::At(addr), stays);
    }
    Judged::Keeps(stays)
}
