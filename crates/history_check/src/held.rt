//! What an entry says was held: nothing, a span as a reader or as a writer of one area, or all pages. It is the last
//! part of a log line.

ghost use Rattle.std.specs.Prelude.{◌≡◌, ◌<◌, ◌^◌, option_map};
ghost use Rattle.page_types.specs.declared.pages.Span.{Span as SpanOf};
ghost use Rattle.space_model.specs.declared.entries.Under.{Under as UnderOf};
ghost use Rattle.maps_printer.specs.Lines.{span_text, under_text};
ghost use Rattle.round_trip.specs.Logs.{FitsHeld};
ghost use Rattle.history_check.specs.Reading.{ends_at};

use crate::numbers::{page, strip};
use page_types::{LIMIT, Span};
use space_model::Under;

/// The two ends of a span.
#[tactic(auto, unfolding(crate::specs::Reading::ends_at))]
fn ends(text: &[u8]) -> Option<(u64, u64)>
    ensures { result ≡ ends_at text.now }
{
    let (lo, rest) = page(text)?;
    let (hi, _) = page(strip(rest, b"-")?)?;
    Some((lo, hi))
}

/// The span that the text shows, for each text of a span.
fn span(text: &[u8]) -> Option<Span>
    ensures { (s : SpanOf) → s.lo < 2 ^ 64 → s.hi < 2 ^ 64 → text.now ≡ span_text s → result ≡ Some s }
{
    let Some((lo, hi)) = ends(text) else {
        return None;
    };
    if lo >= hi {
        return None;
    }
    if hi > LIMIT {
        return None;
    }
    Some(Span { lo, hi })
}

/// What was held, for each text of it.
pub(crate) fn under(text: &[u8]) -> Option<Under>
    ensures { (u : UnderOf) → FitsHeld u → text.now ≡ under_text u → result ≡ Some u }
{
    if let Some(rest) = strip(text, b"reader ") {
        return match span(rest) {
            Some(held) => Some(Under::Reader(held)),
            None => None,
        };
    }
    if let Some(rest) = strip(text, b"area ") {
        return match span(rest) {
            Some(held) => Some(Under::Area(held)),
            None => None,
        };
    }
    match strip(text, b"none") {
        Some(_) => Some(Under::Nothing),
        None => Some(Under::Whole),
    }
}
