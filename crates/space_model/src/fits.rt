//! The highest place for so many free pages in a list of areas that stands in blocks, with the choice of `highest_fit`
//! of `search`. Blocks whose gaps are all too short are passed over as a whole, so a search costs the blocks that it
//! passes and the areas of one.

ghost use Rattle.std.specs.Prelude.{◌≡◌, ◌<◌, ◌≤◌, ◌+◌, ℕ, MatchOption, All};
ghost use Rattle.page_types.specs.declared.TheConstants.{LIMIT};
ghost use Rattle.space_model.specs.Areas.{IsAreaList, kind_at};
ghost use Rattle.space_model.specs.Places.{FitsAt, IsHighestFit};
ghost use Rattle.space_model.specs.Blocks.{areas_of, FindsFit, GapsWithin, IsBlock};

use crate::areas::Area;
use crate::blocks::Block;
use crate::splice::end_of;
use page_types::LOWEST;

/// What a search down from a page comes to in some areas.
#[derive(Clone, Copy, PartialEq, Eq, Debug)]
pub enum Fit {
    /// The highest place starts there.
    Fits(u64),
    /// Each place ends at or below this page.
    Below(u64),
}

/// The search in areas, one after another from the last one down.
fn fit_by_area(areas: &[Area], to: u64, pages: u64) -> Fit
    requires some { 0 < pages }
    ensures { FindsFit areas.now pages to result }
{
    let mut at = to;
    for i in (0..areas.len()).rev() {
        let area = areas[i];
        let from = area.hi.max(LOWEST);
        if pages <= at.saturating_sub(from) {
            return Fit::Fits(at - pages);
        }
        at = at.min(area.lo);
    }
    Fit::Below(at)
}

/// The search in areas between which no gap is longer than this one.
fn fit_in(areas: &[Area], gap: u64, to: u64, pages: u64) -> Fit
    requires some { 0 < pages }
    requires gaps { GapsWithin gap areas.now }
    ensures { FindsFit areas.now pages to result }
{
    let Some((first, _)) = areas.split_first() else {
        return Fit::Below(to);
    };
    if to <= first.lo {
        return Fit::Below(to);
    }
    let last = end_of(areas).max(LOWEST);
    if gap < pages {
        if to.saturating_sub(last) < pages {
            return Fit::Below(first.lo);
        }
    }
    fit_by_area(areas, to, pages)
}

/// The highest start of so many free pages, at or above `LOWEST` and with the end at or below the page where the window
/// ends. It looks from the last block down.
pub fn highest_fit(blocks: &[Block], window: u64, pages: u64) -> Option<u64>
    requires in_order { IsAreaList (areas_of blocks.now) }
    requires blocks { All IsBlock blocks.now }
    requires window { window ≤ LIMIT }
    requires some { 0 < pages }
    ensures { MatchOption result ((start : ℕ) → ¬ FitsAt (kind_at (areas_of blocks.now)) window pages start)
        (IsHighestFit (kind_at (areas_of blocks.now)) window pages) }
{
    let mut to = window;
    let mut left = blocks;
    'blocks: while let Some((block, others)) = left.split_last() {
        match fit_in(block.areas.as_slice(), block.gap, to, pages) {
            Fit::Fits(start) => return Some(start),
            Fit::Below(at) => to = at,
        }
        left = others;
    }
    if pages <= to.saturating_sub(LOWEST) {
        Some(to - pages)
    } else {
        None
    }
}
