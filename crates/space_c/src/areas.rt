//! Looks for the areas of a span. C gives places for them, and a look fills as many as there are, and counts all; so it
//! takes no memory, and one without places counts alone. A reader may rely on `IsAreasTry` (`specs/Spans.antt`): the
//! areas are those of one moment at which the whole span was held.
ghost use Rattle.std.specs.Prelude.{◌≡◌, ◌<◌, ◌≤◌, None, Some, IfSome, IfNone, IfOk, OnErr};
ghost use Rattle.page_types.specs.declared.TheConstants.{LIMIT};
ghost use Rattle.c_handles.specs.Handles.{IsOpen};
ghost use Rattle.space_c.specs.Looks.{area_shown};
ghost use Rattle.space_c.specs.Spans.{GotNoSpan, IsAreasTry, IsSpan, IsSpanRound, Names, OnAreas, SawAreas, round_answer, round_shown};

use crate::answers::Answer;
use crate::handle::GzSpace;
use crate::looks::{GzArea, show_area};
use crate::state::State;
use area_looks::{Counts, Told, fill_round};
use core::mem::replace_with;
use page_types::{LIMIT, Span};
use range_rw::Anew;
use space_model::Area;

/// How many areas there are, and how many pages they have together, as C reads it.
#[repr(C)]
#[derive(Clone, Copy, Drop)]
pub struct GzCounts {
    /// How many areas.
    pub areas: u64,
    /// How many pages.
    pub pages: u64,
}

/// What C is shown where nothing was counted.
const NO_COUNTS: GzCounts = GzCounts { areas: 0, pages: 0 };

impl Told for GzArea {
    ghost use Rattle.std.specs.Prelude.{Some};
    ghost use Rattle.space_c.specs.Looks.{area_shown};

    ghost told = { λ area. area_shown (Some area) };

    fn of_area(area: Area) -> GzArea {
        show_area(Some(area))
    }
}

/// A look that C asks for: the pages from `lo` on and below `hi`, how many of its rounds were refused, and whether the
/// pages are kept.
#[derive(Clone, Copy, Drop)]
pub(crate) struct SpanAsked {
    pub(crate) lo: u64,
    pub(crate) hi: u64,
    pub(crate) refused: u32,
    pub(crate) keep: bool,
}

/// The span that C names, if it names one.
fn span_of(asked: SpanAsked) -> Option<Span>
    ensures names { IfSome result (λ span. Names asked span) }
    ensures none { IfNone result (¬ (IsSpan asked)) }
{
    if asked.lo < asked.hi && asked.hi <= LIMIT {
        Some(Span {
            lo: asked.lo,
            hi: asked.hi,
        })
    } else {
        None
    }
}

fn tell_areas(seen: Result<Counts, Anew>) -> (Answer, GzCounts)
    ensures answer { result.0 ≡ round_answer seen }
    ensures shown { result.1 ≡ round_shown seen }
{
    match seen {
        Ok(counts) => {
            let shown = GzCounts {
                areas: counts.areas,
                pages: counts.pages,
            };
            (Answer::Done, shown)
        }
        Err(Anew::Later) => (Answer::Later, NO_COUNTS),
        Err(Anew::AtOnce) => (Answer::AtOnce, NO_COUNTS),
    }
}

impl State {
    /// One round of a look for the areas of this span.
    fn areas_once(
        &mut self,
        span: Span,
        refused: u32,
        keep: bool,
        places: &mut [GzArea],
    ) -> Result<Counts, Anew>
        requires free { self.old.caller.seat.held ≡ None }
        ensures saw { IfOk result (λ counts. SawAreas span keep places.old places.new counts self.old self.new) }
        ensures none { OnErr result (GotNoSpan span refused places.old places.new self.old self.new) }
        ensures round { IsSpanRound span self.old self.new }
    {
        fill_round(&self.space, &mut self.caller, span, refused, keep, places)
    }

    /// Looks once for the areas of the span that C names.
    fn try_areas(&mut self, asked: SpanAsked, places: &mut [GzArea]) -> (Answer, GzCounts)
        ensures { IsAreasTry asked places.old places.new result.1 result.0 self.old self.new }
    {
        let Some(span) = span_of(asked) else {
            return (Answer::BadCall, NO_COUNTS);
        };
        if self.space.held(&self.caller).is_some() {
            return (Answer::Holds, NO_COUNTS);
        }
        let seen = self.areas_once(span, asked.refused, asked.keep, places);
        tell_areas(seen)
    }
}

/// The look behind an open handle. The places come back with what it came to: `replace_with` tells nothing of what is
/// behind a reference that it is given, and all of what it answers.
fn areas_behind<'a>(
    handle: GzSpace,
    asked: SpanAsked,
    places: &'a mut [GzArea],
) -> (GzSpace, ((Answer, GzCounts), &'a mut [GzArea]))
    requires open { IsOpen handle.pointer.behind }
    ensures same_reference { result.1.1.ghost_name ≡ places.entry.ghost_name }
    ensures looked { OnAreas asked places.entry.now result.1.1.now result.1.0.1 result.1.0.0 handle.pointer.behind result.0.pointer.behind }
{
    let mut b = handle.into_box();
    let told = b.try_areas(asked, places);
    (GzSpace::over(b), (told, places))
}

/// Looks once for the areas of a span.
pub(crate) fn areas_by(
    handle: &mut GzSpace,
    asked: SpanAsked,
    places: &mut [GzArea],
) -> (Answer, GzCounts)
    ensures looked { OnAreas asked places.old places.new result.1 result.0 handle.old.pointer.behind handle.new.pointer.behind }
{
    if !handle.is_open() {
        return (Answer::Closed, NO_COUNTS);
    }
    let (told, _places) = replace_with(handle, places, |handle, places| {
        areas_behind(handle, asked, places)
    });
    told
}
