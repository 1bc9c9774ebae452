//! Looks for the area at a page. A handle that holds a page doesn't know where its area ends, since others may move its
//! ends; so a look holds pages round it, and where the area doesn't lie in them with a page past each end, it tells
//! those that the next look is to hold. A reader may rely on `IsAreaTry` (`specs/Looks.antt`).
ghost use Rattle.std.specs.Prelude.{◌≡◌, ◌<◌, ◌≤◌, None, IfOk, OnErr};
ghost use Rattle.page_types.specs.declared.TheConstants.{LIMIT};
ghost use Rattle.word_rows.specs.declared.backoff.TheConstants.{KEPT_LOOKS, REFUSED_ROUNDS};
ghost use Rattle.list_cuts.specs.Cut.{TakesTwo};
ghost use Rattle.lock_core.specs.declared.range.Mode.TheVariants.{Reader};
ghost use Rattle.range_rw.specs.Contract.{IsRefusedAfter};
ghost use Rattle.area_rows.specs.Callers.{held_span};
ghost use Rattle.area_looks.specs.Found.{IsFound};
ghost use Rattle.c_handles.specs.Handles.{IsOpen};
ghost use Rattle.space_c.specs.Looks.{IsAreaTry, IsAround, IsLookRound, OnArea, area_shown, look_answer, look_next, look_shown};

use crate::answers::Answer;
use crate::handle::GzSpace;
use crate::shown::bit_for;
use crate::state::State;
use area_looks::{Found, area_round};
use bitflags::Flags;
use core::mem::replace_with;
use page_types::{LIMIT, Span};
use range_rw::Anew;
use space_model::Area;

/// Pages from `lo` on and below `hi`, as C names them.
#[repr(C)]
#[derive(Clone, Copy, Drop)]
pub struct GzSpan {
    /// The lowest page.
    pub lo: u64,
    /// The page behind the last one.
    pub hi: u64,
}

/// An area as C reads it, all 0 where there is none.
#[repr(C)]
#[derive(Clone, Copy, Drop)]
pub struct GzArea {
    /// The first page.
    pub lo: u64,
    /// The page behind the last one.
    pub hi: u64,
    /// The pages' protection.
    pub prot: u32,
    /// 1 where they were mapped with SHARED.
    pub shared: u32,
    /// 1 where they are sealed.
    pub sealed: u32,
    /// 1 where there is an area.
    pub mapped: u32,
}

/// What C is shown where no area is told.
const NO_AREA: GzArea = GzArea {
    lo: 0,
    hi: 0,
    prot: 0,
    shared: 0,
    sealed: 0,
    mapped: 0,
};

/// What C is shown of an area, if there is one.
pub(crate) fn show_area(found: Option<Area>) -> GzArea
    ensures { result ≡ area_shown found }
{
    match found {
        None => NO_AREA,
        Some(area) => GzArea {
            lo: area.lo,
            hi: area.hi,
            prot: u32::from(area.kind.prot.bits()),
            shared: bit_for(area.kind.shared),
            sealed: bit_for(area.kind.sealed),
            mapped: 1,
        },
    }
}

/// The pages round a page that a look is to hold: those that C names, or else the page alone.
fn around_of(page: u64, named: GzSpan) -> Span
    requires page { page < LIMIT }
    ensures { IsAround page named result }
{
    if named.lo <= page && page < named.hi && named.hi <= LIMIT {
        Span {
            lo: named.lo,
            hi: named.hi,
        }
    } else {
        Span::of_page(page)
    }
}

/// What a look came to: the answer, the pages for the next look, and the area.
type Told = (Answer, (GzSpan, GzArea));

fn tell_look(seen: Result<Found, Anew>, named: GzSpan) -> Told
    ensures answer { result.0 ≡ look_answer seen }
    ensures next { result.1.0 ≡ look_next named seen }
    ensures shown { result.1.1 ≡ look_shown seen }
{
    match seen {
        Ok(Found::Free) => (Answer::Done, (named, show_area(None))),
        Ok(Found::Whole(area)) => (Answer::Done, (named, show_area(Some(area)))),
        Ok(Found::Wider(span)) => {
            let next = GzSpan {
                lo: span.lo,
                hi: span.hi,
            };
            (Answer::AtOnce, (next, NO_AREA))
        }
        Err(Anew::Later) => (Answer::Later, (named, NO_AREA)),
        Err(Anew::AtOnce) => (Answer::AtOnce, (named, NO_AREA)),
    }
}

/// A look that C asks for: the page, the pages round it that C names, and how many of its rounds were refused.
#[derive(Clone, Copy, Drop)]
pub(crate) struct AreaAsked {
    pub(crate) page: u64,
    pub(crate) named: GzSpan,
    pub(crate) refused: u32,
}

impl State {
    /// One round of a look, under these pages round the page.
    fn area_once(&mut self, page: u64, wide: Span, refused: u32) -> Result<Found, Anew>
        requires free { self.old.caller.seat.held ≡ None }
        requires page_below { page < LIMIT }
        requires inside { (wide.lo ≤ page) × (page < wide.hi) }
        ensures found { IfOk result (λ found. IsFound self.old.caller.seat page wide found) }
        ensures none { OnErr result (TakesTwo self.old.cut (held_span wide Reader).range → REFUSED_ROUNDS ≤ refused
            → IsRefusedAfter self.old.cut KEPT_LOOKS self.old.caller.seat self.new.caller.seat) }
        ensures round { IsLookRound page self.old self.new }
    {
        area_round(&self.space, &mut self.caller, page, wide, refused)
    }

    /// Looks once for the area at a page.
    fn try_area(&mut self, asked: AreaAsked) -> Told
        ensures { IsAreaTry asked.page asked.named asked.refused result.1.0 result.1.1 result.0 self.old self.new }
    {
        if asked.page >= LIMIT {
            return (Answer::BadCall, (asked.named, NO_AREA));
        }
        if self.space.held(&self.caller).is_some() {
            return (Answer::Holds, (asked.named, NO_AREA));
        }
        let wide = around_of(asked.page, asked.named);
        let seen = self.area_once(asked.page, wide, asked.refused);
        tell_look(seen, asked.named)
    }
}

fn area_behind(handle: GzSpace, asked: AreaAsked) -> (GzSpace, Told)
    requires open { IsOpen handle.pointer.behind }
    ensures looked { OnArea asked.page asked.named asked.refused result.1.1.0 result.1.1.1 result.1.0 handle.pointer.behind result.0.pointer.behind }
{
    let mut b = handle.into_box();
    let told = b.try_area(asked);
    (GzSpace::over(b), told)
}

/// Looks once for the area at a page.
pub(crate) fn area_by(handle: &mut GzSpace, asked: AreaAsked) -> Told
    ensures looked { OnArea asked.page asked.named asked.refused result.1.0 result.1.1 result.0 handle.old.pointer.behind handle.new.pointer.behind }
{
    if !handle.is_open() {
        return (Answer::Closed, (asked.named, NO_AREA));
    }
    replace_with(handle, asked, area_behind)
}
