//! Looking pages up in a list of areas: the list is in order, so the areas round a page are found by halving it. The
//! contracts say by the kinds of pages what is found, as the lowest or the highest page with some property, after the
//! choices of mmap(2) and this project's own for the highest place.

ghost use Rattle.std.specs.Prelude.{◌≡◌, ◌+◌, ◌<◌, ◌≤◌, ℕ, None, MatchOption, All};
ghost use Rattle.page_types.specs.declared.TheConstants.{LIMIT};
ghost use Rattle.space_model.specs.Areas.{IsAreaList, kind_at};
ghost use Rattle.space_model.specs.Sorts.{IsEnd};
ghost use Rattle.space_model.specs.Places.{FitsAt, IsHighestFit};
ghost use Rattle.space_model.specs.Cutting.{IsCutBy, IsFirstAbove, IsFound};

use crate::areas::Area;
use crate::sorts::{Sort, is_sort};
use page_types::{Kind, LOWEST};

/// The areas that end at or before a page, and the others.
pub fn cut_by_end(areas: &[Area], page: u64) -> (&[Area], &[Area])
    requires { IsAreaList areas.now }
    ensures { IsCutBy (λ a. a.hi) areas.now page result.0.now result.1.now }
{
    let count = areas.partition_point(|area| area.hi <= page);
    areas.split_at(count)
}

/// The areas that start at or before a page, and the others.
pub fn cut_by_start(areas: &[Area], page: u64) -> (&[Area], &[Area])
    requires { IsAreaList areas.now }
    ensures { IsCutBy (λ a. a.lo) areas.now page result.0.now result.1.now }
{
    let count = areas.partition_point(|area| area.lo <= page);
    areas.split_at(count)
}

/// The first area that ends above a page.
pub fn first_above(areas: &[Area], page: u64) -> Option<Area>
    requires { IsAreaList areas.now }
    ensures { MatchOption result (All (λ a. a.hi ≤ page) areas.now) (IsFirstAbove areas.now page) }
{
    let (_, rest) = cut_by_end(areas, page);
    rest.first().copied()
}

/// The kind of a page, or None where it isn't mapped.
pub fn kind_of(areas: &[Area], page: u64) -> Option<Kind>
    requires { IsAreaList areas.now }
    ensures { result ≡ kind_at areas.now page }
{
    match first_above(areas, page) {
        Some(area) => {
            if area.lo <= page {
                Some(area.kind)
            } else {
                None
            }
        }
        None => None,
    }
}

/// The lowest page of a sort from `at` on, up to the end of an area before which the pages from `at` on are free.
fn lowest_by(sort: Sort, at: u64, area: Area) -> Option<u64>
    ensures { IsFound sort at area result }
{
    if at < area.lo && is_sort(sort, None) {
        return Some(at);
    }
    if is_sort(sort, Some(area.kind)) {
        Some(area.lo.max(at))
    } else {
        None
    }
}

/// The lowest page of a sort of those from `lo` up to `hi`, or `hi` where there is none.
pub fn end_of(areas: &[Area], sort: Sort, lo: u64, hi: u64) -> u64
    requires in_order { IsAreaList areas.now }
    requires ordered { lo ≤ hi }
    ensures { IsEnd (kind_at areas.now) sort lo hi result }
{
    let (_, rest) = cut_by_end(areas, lo);
    let mut at = lo;
    for area in rest {
        if let Some(page) = lowest_by(sort, at, *area) {
            return page.min(hi);
        }
        at = area.hi;
        if hi <= at {
            return hi;
        }
    }
    if is_sort(sort, None) { at.min(hi) } else { hi }
}

/// The highest start of so many free pages, at or above `LOWEST` and with the end at or below the page where the window
/// ends. It looks from the last area down.
pub fn highest_fit(areas: &[Area], window: u64, pages: u64) -> Option<u64>
    requires in_order { IsAreaList areas.now }
    requires window { window ≤ LIMIT }
    requires some { 0 < pages }
    ensures { MatchOption result ((start : ℕ) → ¬ FitsAt (kind_at areas.now) window pages start)
        (IsHighestFit (kind_at areas.now) window pages) }
{
    let mut to = window;
    for i in (0..areas.len()).rev() {
        let area = areas[i];
        let from = area.hi.max(LOWEST);
        if pages <= to.saturating_sub(from) {
            return Some(to - pages);
        }
        to = to.min(area.lo);
    }
    if pages <= to.saturating_sub(LOWEST) {
        Some(to - pages)
    } else {
        None
    }
}
