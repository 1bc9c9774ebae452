//! A call, judged on pages, whichever way their kinds are kept: by the areas of a `PlainSpace`, or by row words that
//! were read. Here are mmap(2), munmap(2), mprotect(2) and mseal(2), with this project's own choice of the highest
//! place in a window, and a fault, with the codes of sigaction(2). A reader may rely on `IsJudged`: the reply is the
//! one of the model, and what is left to ask is how many rows a change makes; and on `TakesLooks`: how many looks it
//! took.

ghost use Rattle.std.specs.Prelude.{ℕ, Option, None, IsTrue, IsFalse, Some, ◌↔◌, ◌*◌, ◌+◌, ◌≡◌, ◌<◌, ◌≤◌, ◌^◌, MatchOption};
ghost use Rattle.page_types.specs.declared.TheConstants.{LIMIT};
ghost use Rattle.page_types.specs.declared.calls.Kind.{Kind};
ghost use Rattle.page_types.specs.declared.calls.Call.TheVariants.{Map, Unmap, Protect, Fault, Seal};
ghost use Rattle.page_types.specs.declared.calls.Reply.TheVariants.{At};
ghost use Rattle.page_types.specs.Pages.{page_count};
ghost use Rattle.page_types.specs.PlainReply.{plain_reply, map_reply, unmap_reply, protect_reply, seal_reply};
ghost use Rattle.page_types.specs.Sets.{is_fixed};
ghost use Rattle.space_model.specs.declared.paint.Paint.TheVariants.{Gives};
ghost use Rattle.space_model.specs.Answers.{AnswersFault};
ghost use Rattle.space_model.specs.Effect.{mapped_kind};
ghost use Rattle.space_model.specs.Sorts.{NoneOf, IsLowest, IsEnd};
ghost use Rattle.space_model.specs.Places.{FitsAt, IsHighestFit, window_of};
ghost use Rattle.space_model.specs.Judges.{IsJudged};
ghost use Rattle.space_model.specs.Looking.{TakesLooks};

use crate::judged::{Change, Judged};
use crate::paint::{Paint, Patch};
use crate::sorts::Sort;
use page_types::{
    Access, Kind, LIMIT, LOW, LOWEST, MapFlags, PAGE, Prot, Reply, Short, Span, Why, page_count,
};

/// Pages by their kinds, with the three searches that judging a call takes. A search may need a hand besides, as a
/// caller's seat where the pages are those of a space that threads share; an address space of one thread needs none.
pub trait Pages {
    /// What a search needs besides the pages.
    type Hand;

    /// With this hand the pages may be looked at.
    ghost may_look: { Self → Self.Hand → Type 0 };

    /// The kind of each page, or none, as looks with this hand find it.
    ghost kinds: { Self → Self.Hand → ℕ → Option Kind };

    /// What looks leave of a hand.
    ghost looked: { Self → Self.Hand → Self.Hand → Type 0 };

    /// A hand that didn't look is as it was.
    ghost no_look: { (pages : Self) (hand : Self.Hand) → looked pages hand hand };

    /// One look after another is a look.
    ghost looks_on: { (pages : Self) (one two three : Self.Hand) → looked pages one two → looked pages two three → looked pages one three };

    /// A look leaves the kinds as they were, and the hand may look again.
    ghost same_kinds: { (pages : Self) (one two : Self.Hand) → may_look pages one → looked pages one two
        → may_look pages two × (kinds pages two ≡ kinds pages one) };

    /// How many looks were made with a hand; always 0 where nobody counts them.
    ghost looks: { Self → Self.Hand → ℕ };

    /// How many looks it takes at most to find a page and to go through the pages from there up to another.
    ghost reach: { Self → Self.Hand → ℕ → ℕ → ℕ };

    /// A look leaves that as it was.
    ghost same_reach: { (pages : Self) (one two : Self.Hand) → may_look pages one → looked pages one two → reach pages two ≡ reach pages one };

    /// Pages among others take no more looks than these.
    ghost reach_within: { (pages : Self) (hand : Self.Hand) (lo hi from to : ℕ) → from ≤ lo → hi ≤ to
        → reach pages hand lo hi ≤ reach pages hand from to };

    /// How many looks a search for a place takes at most.
    ghost fit_looks: { Self → Self.Hand → ℕ };

    /// A look leaves that as it was.
    ghost same_fit: { (pages : Self) (one two : Self.Hand) → may_look pages one → looked pages one two → fit_looks pages two ≡ fit_looks pages one };

    /// The kind of a page, or None where it isn't mapped.
    fn kind_of(&self, hand: &mut Self::Hand, page: u64) -> Option<Kind>
        requires may { may_look self.now hand.old }
        requires page { page < LIMIT }
        ensures kind { result ≡ kinds self.now hand.old page }
        ensures looked { looked self.now hand.old hand.new }
        ensures looks { looks self.now hand.new ≤ looks self.now hand.old + reach self.now hand.old page page };

    /// The lowest page of a sort of those from `lo` up to `hi`, or `hi` where there is none.
    fn end_of(&self, hand: &mut Self::Hand, sort: Sort, lo: u64, hi: u64) -> u64
        requires may { may_look self.now hand.old }
        requires ordered { lo ≤ hi }
        requires limit { hi ≤ LIMIT }
        ensures end { IsEnd (kinds self.now hand.old) sort lo hi result }
        ensures looked { looked self.now hand.old hand.new }
        ensures looks { looks self.now hand.new ≤ looks self.now hand.old + reach self.now hand.old lo result };

    /// The highest start of so many free pages, at or above `LOWEST` and with the end at or below the page where the
    /// window ends.
    fn highest_fit(&self, hand: &mut Self::Hand, window: u64, pages: u64) -> Option<u64>
        requires may { may_look self.now hand.old }
        requires window { window ≤ LIMIT }
        requires some { 0 < pages }
        requires few { pages < 2 ^ 62 }
        ensures fit { MatchOption result ((start : ℕ) → ¬ FitsAt (kinds self.now hand.old) window pages start)
            (IsHighestFit (kinds self.now hand.old) window pages) }
        ensures looked { looked self.now hand.old hand.new }
        ensures looks { looks self.now hand.new ≤ looks self.now hand.old + fit_looks self.now hand.old };
}

/// The kind that a Map gives its pages.
pub fn mapped_kind(prot: Prot, flags: MapFlags) -> Kind
    ensures { result ≡ mapped_kind prot flags }
{
    Kind {
        prot,
        shared: flags.is_shared(),
        sealed: false,
    }
}

/// Where the window of a Map ends that binds no address: `LOW` for a hint below it, so that no page above is chosen for
/// a program that knows no such addresses, and otherwise `LIMIT`.
fn window_of(hint: u64) -> u64
    ensures window { result ≡ window_of hint }
    ensures limit { result ≤ LIMIT }
{
    if hint < LOW { LOW } else { LIMIT }
}

/// The lowest page of a sort of those from `lo` up to `hi`.
pub(crate) fn lowest<P: Pages>(
    pages: &P,
    hand: &mut P::Hand,
    sort: Sort,
    lo: u64,
    hi: u64,
) -> Option<u64>
    requires may { P.may_look pages.now hand.old }
    requires ordered { lo ≤ hi }
    requires limit { hi ≤ LIMIT }
    ensures lowest { MatchOption result (NoneOf (P.kinds pages.now hand.old) sort lo hi) (IsLowest (P.kinds pages.now hand.old) sort lo hi) }
    ensures looked { P.looked pages.now hand.old hand.new }
    ensures looks { P.looks pages.now hand.new ≤ P.looks pages.now hand.old + P.reach pages.now hand.old lo hi }
{
    let end = pages.end_of(hand, sort, lo, hi);
    if end < hi { Some(end) } else { None }
}

/// Whether so many free pages start at a page, at or above `LOWEST` and with the end at or below that of the window.
pub(crate) fn fits_at<P: Pages>(
    pages: &P,
    hand: &mut P::Hand,
    window: u64,
    count: u64,
    start: u64,
) -> bool
    requires may { P.may_look pages.now hand.old }
    requires window { window ≤ LIMIT }
    requires end { start + count < 2 ^ 64 }
    ensures fits { IsTrue result ↔ FitsAt (P.kinds pages.now hand.old) window count start }
    ensures looked { P.looked pages.now hand.old hand.new }
    ensures looks { P.looks pages.now hand.new ≤ P.looks pages.now hand.old + P.reach pages.now hand.old start (start + count) }
{
    if start < LOWEST || start + count > window {
        return false;
    }
    pages.end_of(hand, Sort::Mapped, start, start + count) == start + count
}

/// A change by one patch, which is refused where there would be too many rows.
pub(crate) fn changed(lo: u64, hi: u64, paint: Paint, reply: Reply) -> Judged
    ensures { result ≡ Judged.Changes (record {
      first = record { lo = lo; hi = hi; paint = paint };
      second = None;
      reply = reply;
      full = None;
    }) }
{
    Judged::Changes(Change {
        first: Patch { lo, hi, paint },
        second: None,
        reply,
        full: None,
    })
}

/// The change of a Map whose pages start there.
fn mapped_at(start: u64, count: u64, kind: Kind) -> Judged
    requires { start + count ≤ LIMIT }
    ensures { result ≡ Judged.Changes (record {
      first = record { lo = start; hi = start + count; paint = Gives (Some kind) };
      second = None;
      reply = At (start * 4096);
      full = None;
    }) }
{
    changed(
        start,
        start + count,
        Paint::Gives(Some(kind)),
        Reply::At(start * PAGE),
    )
}

/// A Map whose address binds.
pub(crate) fn judge_fixed<P: Pages>(
    pages: &P,
    hand: &mut P::Hand,
    addr: u64,
    len: u64,
    prot: Prot,
    flags: MapFlags,
) -> Judged
    requires may { P.may_look pages.now hand.old }
    requires undecided { map_reply addr len flags ≡ None }
    requires fixed { IsTrue (is_fixed flags) }
    ensures judged { IsJudged (P.kinds pages.now hand.old) (Map addr len prot flags) result }
    ensures looked { P.looked pages.now hand.old hand.new }
    ensures looks { TakesLooks (P.kinds pages.now hand.old) (P.reach pages.now hand.old) (P.fit_looks pages.now hand.old) (Map addr len prot flags)
        (P.looks pages.now hand.old) (P.looks pages.now hand.new) }
{
    let hint = addr / PAGE;
    let count = page_count(len);
    let sort = if flags.is_no_replace() {
        Sort::Mapped
    } else {
        Sort::Sealed
    };
    match lowest(pages, hand, sort, hint, hint + count) {
        Some(page) => {
            if flags.is_no_replace() {
                Judged::Refused(Why::Eexist(page))
            } else {
                Judged::Refused(Why::Eperm(page))
            }
        }
        None => mapped_at(hint, count, mapped_kind(prot, flags)),
    }
}

/// A Map whose address is a hint.
pub(crate) fn judge_hinted<P: Pages>(
    pages: &P,
    hand: &mut P::Hand,
    addr: u64,
    len: u64,
    prot: Prot,
    flags: MapFlags,
) -> Judged
    requires may { P.may_look pages.now hand.old }
    requires undecided { map_reply addr len flags ≡ None }
    requires hint { IsFalse (is_fixed flags) }
    ensures judged { IsJudged (P.kinds pages.now hand.old) (Map addr len prot flags) result }
    ensures looked { P.looked pages.now hand.old hand.new }
    ensures looks { TakesLooks (P.kinds pages.now hand.old) (P.reach pages.now hand.old) (P.fit_looks pages.now hand.old) (Map addr len prot flags)
        (P.looks pages.now hand.old) (P.looks pages.now hand.new) }
{
    let hint = addr / PAGE;
    let count = page_count(len);
    let window = window_of(hint);
    if fits_at(pages, hand, window, count, hint) {
        return mapped_at(hint, count, mapped_kind(prot, flags));
    }
    match pages.highest_fit(hand, window, count) {
        Some(start) => mapped_at(start, count, mapped_kind(prot, flags)),
        None => Judged::Refused(Why::Enomem(Short::NoGap(count))),
    }
}

/// An Unmap.
pub(crate) fn judge_unmap<P: Pages>(pages: &P, hand: &mut P::Hand, addr: u64, len: u64) -> Judged
    requires may { P.may_look pages.now hand.old }
    requires undecided { unmap_reply addr len ≡ None }
    ensures judged { IsJudged (P.kinds pages.now hand.old) (Unmap addr len) result }
    ensures looked { P.looked pages.now hand.old hand.new }
    ensures looks { TakesLooks (P.kinds pages.now hand.old) (P.reach pages.now hand.old) (P.fit_looks pages.now hand.old) (Unmap addr len)
        (P.looks pages.now hand.old) (P.looks pages.now hand.new) }
{
    let gone = Span::of_valid(addr, len);
    match lowest(pages, hand, Sort::Sealed, gone.lo, gone.hi) {
        Some(page) => Judged::Refused(Why::Eperm(page)),
        None => changed(gone.lo, gone.hi, Paint::Gives(None), Reply::Zero),
    }
}

/// A Protect.
pub(crate) fn judge_protect<P: Pages>(
    pages: &P,
    hand: &mut P::Hand,
    addr: u64,
    len: u64,
    prot: Prot,
) -> Judged
    requires may { P.may_look pages.now hand.old }
    requires undecided { protect_reply addr len ≡ None }
    ensures judged { IsJudged (P.kinds pages.now hand.old) (Protect addr len prot) result }
    ensures looked { P.looked pages.now hand.old hand.new }
    ensures looks { TakesLooks (P.kinds pages.now hand.old) (P.reach pages.now hand.old) (P.fit_looks pages.now hand.old) (Protect addr len prot)
        (P.looks pages.now hand.old) (P.looks pages.now hand.new) }
{
    let span = Span::of_valid(addr, len);
    if let Some(page) = lowest(pages, hand, Sort::Missing, span.lo, span.hi) {
        return Judged::Refused(Why::Enomem(Short::Missing(page)));
    }
    match lowest(pages, hand, Sort::Sealed, span.lo, span.hi) {
        Some(page) => Judged::Refused(Why::Eperm(page)),
        None => changed(span.lo, span.hi, Paint::Protects(prot), Reply::Zero),
    }
}

/// A Seal.
pub(crate) fn judge_seal<P: Pages>(
    pages: &P,
    hand: &mut P::Hand,
    addr: u64,
    len: u64,
    flags: u64,
) -> Judged
    requires may { P.may_look pages.now hand.old }
    requires undecided { seal_reply addr len flags ≡ None }
    ensures judged { IsJudged (P.kinds pages.now hand.old) (Seal addr len flags) result }
    ensures looked { P.looked pages.now hand.old hand.new }
    ensures looks { TakesLooks (P.kinds pages.now hand.old) (P.reach pages.now hand.old) (P.fit_looks pages.now hand.old) (Seal addr len flags)
        (P.looks pages.now hand.old) (P.looks pages.now hand.new) }
{
    let span = Span::of_valid(addr, len);
    match lowest(pages, hand, Sort::Missing, span.lo, span.hi) {
        Some(page) => Judged::Refused(Why::Enomem(Short::Missing(page))),
        None => changed(span.lo, span.hi, Paint::Seals, Reply::Zero),
    }
}

/// The reply to a fault whose arguments don't decide it, on a page of this kind or of none.
pub fn access_reply(kind: Option<Kind>, page: u64, access: Access) -> Reply
    ensures { AnswersFault kind page access result }
{
    match kind {
        Some(kind) => {
            if kind.prot.allows(access) {
                Reply::Granted(kind)
            } else {
                Reply::Refused(Why::AccErr(page, kind))
            }
        }
        None => Reply::Refused(Why::MapErr(page)),
    }
}

/// A Fault.
pub(crate) fn judge_fault<P: Pages>(
    pages: &P,
    hand: &mut P::Hand,
    addr: u64,
    access: Access,
) -> Judged
    requires may { P.may_look pages.now hand.old }
    requires undecided { plain_reply (Fault addr access) ≡ None }
    ensures judged { IsJudged (P.kinds pages.now hand.old) (Fault addr access) result }
    ensures looked { P.looked pages.now hand.old hand.new }
    ensures looks { TakesLooks (P.kinds pages.now hand.old) (P.reach pages.now hand.old) (P.fit_looks pages.now hand.old) (Fault addr access)
        (P.looks pages.now hand.old) (P.looks pages.now hand.new) }
{
    let page = addr / PAGE;
    Judged::Keeps(access_reply(pages.kind_of(hand, page), page, access))
}
