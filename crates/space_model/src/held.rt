//! What a Protect has to hold: its area, where that is sealed or the change keeps the number of areas and of gaps, and
//! otherwise everything, after the speculative mprotect of Kogan, Dice and Issa, EuroSys 2020. `IsSimple` in `specs/`
//! counts the lists before and after; the code looks at the kinds round the two ends of the span alone, and the law
//! `simple_protects_keep_rows` says that this is the same.

ghost use Rattle.std.specs.Prelude.{◌≡◌, ◌<◌, ◌↔◌, ◌⊎◌, None, IsTrue, MatchOption};
ghost use Rattle.page_types.specs.PlainReply.{protect_reply};
ghost use Rattle.space_model.specs.Areas.{IsAreaList, kind_at};
ghost use Rattle.space_model.specs.Effect.{protected_kind};
ghost use Rattle.space_model.specs.Held.{LiesIn, kind_before, HoldsSomeArea, IsSimple, FitsByState};
ghost use Rattle.space_model.specs.Starts.{border, KeepsRows};

use crate::areas::Area;
use crate::build::repainted;
use crate::entries::Under;
use crate::paint::Paint;
use crate::search::{first_above, kind_of};
use page_types::{Call, Kind, Prot, Span};

/// The area that holds all pages from `lo` up to `hi`.
fn area_around(areas: &[Area], lo: u64, hi: u64) -> Option<Area>
    requires in_order { IsAreaList areas.now }
    requires some { lo < hi }
    ensures { MatchOption result ((area : Area) → ¬ LiesIn areas.now area lo hi) (λ area. LiesIn areas.now area lo hi) }
{
    match first_above(areas, lo) {
        Some(area) => {
            if area.lo <= lo && hi <= area.hi {
                Some(area)
            } else {
                None
            }
        }
        None => None,
    }
}

/// The kind of the page before `page`, or None before page 0.
fn kind_before(areas: &[Area], page: u64) -> Option<Kind>
    requires { IsAreaList areas.now }
    ensures { result ≡ kind_before areas.now page }
{
    if page == 0 {
        None
    } else {
        kind_of(areas, page - 1)
    }
}

/// 1 where two neighbouring pages differ in kind.
fn border(left: Option<Kind>, right: Option<Kind>) -> u32
    ensures { result ≡ border left right }
{
    if left == right { 0 } else { 1 }
}

/// Whether neighbouring pages of kind `old` may get kind `new` with as many rows as before, so that only a boundary
/// moves or a whole row changes. The page before the first one is of kind `before`, and the one behind the last of
/// kind `after`; None is the kind of a page that isn't mapped or isn't there.
pub fn keeps_rows(before: Option<Kind>, old: Kind, new: Kind, after: Option<Kind>) -> bool
    ensures { IsTrue result ↔ KeepsRows before old new after }
{
    let was = border(before, Some(old)) + border(Some(old), after);
    was == border(before, Some(new)) + border(Some(new), after)
}

/// Whether a Protect of a span within one area finds it sealed, or keeps the number of rows.
fn is_simple_in(areas: &[Area], area: Area, span: Span, prot: Prot) -> bool
    requires { IsAreaList areas.now }
    ensures { IsTrue result ↔ (IsTrue area.kind.sealed
        ⊎ KeepsRows (kind_before areas.now span.lo) area.kind (protected_kind prot area.kind) (kind_at areas.now span.hi)) }
{
    if area.kind.sealed {
        return true;
    }
    let before = kind_before(areas, span.lo);
    let after = kind_of(areas, span.hi);
    keeps_rows(
        before,
        area.kind,
        repainted(area.kind, Some(Paint::Protects(prot))),
        after,
    )
}

/// What a Protect that its arguments don't decide has to hold.
pub fn protect_under(areas: &[Area], addr: u64, len: u64, prot: Prot) -> Under
    requires in_order { IsAreaList areas.now }
    requires undecided { protect_reply addr len ≡ None }
    ensures fits { FitsByState areas.now (Call.Protect addr len prot) result }
    ensures simple { HoldsSomeArea result ↔ IsSimple areas.now (Call.Protect addr len prot) }
{
    let span = Span::of_valid(addr, len);
    match area_around(areas, span.lo, span.hi) {
        Some(area) => {
            if is_simple_in(areas, area, span, prot) {
                Under::Area(area.widened())
            } else {
                Under::Whole
            }
        }
        None => Under::Whole,
    }
}
