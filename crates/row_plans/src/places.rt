//! The searches that judging a call takes, over rows that are loaded: the kind of a page, the lowest page of a sort,
//! and the highest place of free pages, which is this project's own choice beside mmap(2). The first two begin at the
//! row of a page, and the last goes down from the last row of its window to one with as many free pages, as whoever
//! keeps the rows finds it. A reader may rely on what is found being so of all kinds that the rows show.
ghost use Rattle.std.specs.Prelude.{max, drop, length, None, ◌+◌, ◌^◌, ℕ, IsTrue, IsFalse, ◌≡◌, ◌<◌, ◌≤◌, Option, MatchOption};
ghost use Rattle.page_types.specs.declared.TheConstants.{LIMIT, LOWEST};
ghost use Rattle.page_types.specs.declared.calls.Kind.{Kind};
ghost use Rattle.page_types.specs.Named.{IsNamedOption};
ghost use Rattle.space_model.specs.Areas.{kind_at};
ghost use Rattle.space_model.specs.Sorts.{IsEnd};
ghost use Rattle.space_model.specs.Places.{FitsAt, IsHighestFit};
ghost use Rattle.row_plans.specs.RowWords.{row_start, row_kind};
ghost use Rattle.row_plans.specs.RowLists.{rows_start, areas_from};
ghost use Rattle.row_plans.specs.Plans.{IsPlaceOf};
ghost use Rattle.row_plans.specs.Gaps.{free_pages};
ghost use Rattle.row_plans.specs.Loads.{search_loads, search_within, fit_loads};

use crate::row_words::read_row;
use crate::rows::Rows;
use page_types::{Kind, LIMIT, LOWEST};
use space_model::{Pages, Sort, is_sort};

/// Rows, as pages by their kinds: those of the areas that the rows stand for.
#[derive(Drop)]
pub(crate) struct RowPages<'a, R: Rows> {
    /// The rows.
    pub(crate) rows: &'a R,
}

impl<'a, R: Rows> Pages for RowPages<'a, R> {
    type Hand = R::Hand;

    ghost may_look = { λ pages hand. R.may_load pages.rows.now hand };

    ghost kinds = { λ pages hand. kind_at (areas_from (R.words pages.rows.now hand)) };

    ghost looked = { λ pages one two. R.loaded pages.rows.now one two };

    ghost no_look = { λ pages hand. R.no_load pages.rows.now hand };

    ghost looks_on = { λ pages one two three. R.loads_on pages.rows.now one two three };

    ghost same_kinds = { λ pages one two may loaded.
        ((R.same_words pages.rows.now one two may loaded).0, λ i. kind_at (areas_from ((R.same_words pages.rows.now one two may loaded).1 i))) };

    ghost looks = { λ pages hand. R.steps pages.rows.now hand };

    ghost reach = { λ pages hand. search_loads (R.words pages.rows.now hand) };

    ghost same_reach = { λ pages one two may loaded. λ i. search_loads ((R.same_words pages.rows.now one two may loaded).1 i) };

    ghost reach_within = { λ pages hand. search_within (R.words pages.rows.now hand) };

    ghost fit_looks = { λ pages hand. fit_loads (R.gap_loads pages.rows.now hand) };

    ghost same_fit = { λ pages one two may loaded. λ i. fit_loads (R.same_gap pages.rows.now one two may loaded i) };

    fn kind_of(&self, hand: &mut R::Hand, page: u64) -> Option<Kind> {
        let rows = self.rows;
        kind_of(rows, hand, page)
    }

    fn end_of(&self, hand: &mut R::Hand, sort: Sort, lo: u64, hi: u64) -> u64 {
        let rows = self.rows;
        end_of(rows, hand, sort, lo, hi)
    }

    fn highest_fit(&self, hand: &mut R::Hand, window: u64, pages: u64) -> Option<u64> {
        let rows = self.rows;
        highest_fit(rows, hand, window, pages)
    }
}

/// Where the row behind another stands, if there is one, and where it starts, or `LIMIT`.
#[derive(Clone, Copy)]
pub(crate) struct Behind<P> {
    pub(crate) next: Option<P>,
    pub(crate) end: u64,
}

/// The row behind another.
pub(crate) fn row_behind<R: Rows>(rows: &R, hand: &mut R::Hand, at: R::Place) -> Behind<R::Place>
    requires may { R.may_load rows.now hand.old }
    requires there { R.number rows.now hand.old at < length (R.words rows.now hand.old) }
    ensures next { IsPlaceOf (R.words rows.now hand.old) (R.number rows.now hand.old) (R.number rows.now hand.old at + 1) result.next }
    ensures end { result.end ≡ rows_start (drop (R.number rows.now hand.old at + 1) (R.words rows.now hand.old)) }
    ensures loaded { R.loaded rows.now hand.old hand.new }
    ensures steps { R.steps rows.now hand.new ≤ R.steps rows.now hand.old + 4 }
{
    let Some(next) = rows.next(hand, at) else {
        return Behind {
            next: None,
            end: LIMIT,
        };
    };
    let (end, _) = read_row(rows.load(hand, next));
    Behind {
        next: Some(next),
        end,
    }
}

/// The kind of a page, or None where it isn't mapped.
fn kind_of<R: Rows>(rows: &R, hand: &mut R::Hand, page: u64) -> Option<Kind>
    requires may { R.may_load rows.now hand.old }
    requires page { page < LIMIT }
    ensures kind { result ≡ kind_at (areas_from (R.words rows.now hand.old)) page }
    ensures loaded { R.loaded rows.now hand.old hand.new }
    ensures steps { R.steps rows.now hand.new ≤ R.steps rows.now hand.old + 20 }
{
    let row = rows.find(hand, page);
    let (_, kind) = read_row(row.word);
    kind
}

/// The lowest page of a sort of those from `lo` up to `hi`, or `hi` where there is none. It goes from the row that has
/// page `lo` to the one that has the last page.
fn end_of<R: Rows>(rows: &R, hand: &mut R::Hand, sort: Sort, lo: u64, hi: u64) -> u64
    requires may { R.may_load rows.now hand.old }
    requires ordered { lo ≤ hi }
    requires limit { hi ≤ LIMIT }
    ensures end { IsEnd (kind_at (areas_from (R.words rows.now hand.old))) sort lo hi result }
    ensures loaded { R.loaded rows.now hand.old hand.new }
    ensures steps { R.steps rows.now hand.new ≤ R.steps rows.now hand.old + search_loads (R.words rows.now hand.old) lo result }
{
    if lo == hi {
        return hi;
    }
    let row = rows.find(hand, lo);
    let (_, kind) = read_row(row.word);
    if is_sort(sort, kind) {
        return lo;
    }
    if row.end >= hi {
        return hi;
    }
    let mut at = row.at;
    'rows: while let Some(next) = rows.next(hand, at) {
        let (start, kind) = read_row(rows.load(hand, next));
        if start >= hi {
            return hi;
        }
        if is_sort(sort, kind) {
            return start;
        }
        at = next;
    }
    hi
}

/// How many free pages a row has, at or above `LOWEST`, from its start up to an end.
pub fn free_pages(word: u64, end: u64) -> u64
    ensures { result ≡ free_pages (row_kind word) (row_start word) end }
{
    let (start, kind) = read_row(word);
    match kind {
        Some(_) => 0,
        None => end.saturating_sub(start.max(LOWEST)),
    }
}

/// The highest start of so many free pages, at or above `LOWEST` and with the end at or below the page where the window
/// ends. The last row that starts in the window may go on behind it; of those before it the last that has so many free
/// pages has the place at its end.
fn highest_fit<R: Rows>(rows: &R, hand: &mut R::Hand, window: u64, pages: u64) -> Option<u64>
    requires may { R.may_load rows.now hand.old }
    requires window { window ≤ LIMIT }
    requires some { 0 < pages }
    ensures fit { MatchOption result ((start : ℕ) → ¬ FitsAt (kind_at (areas_from (R.words rows.now hand.old))) window pages start)
        (IsHighestFit (kind_at (areas_from (R.words rows.now hand.old))) window pages) }
    ensures loaded { R.loaded rows.now hand.old hand.new }
    ensures steps { R.steps rows.now hand.new ≤ R.steps rows.now hand.old + fit_loads (R.gap_loads rows.now hand.old) }
{
    if window == 0 {
        return None;
    }
    let row = rows.find(hand, window - 1);
    let top = row.end.min(window);
    if free_pages(row.word, top) >= pages {
        return Some(top - pages);
    }
    let (start, _) = read_row(row.word);
    match rows.gap_before(hand, row.at, start, pages) {
        Some(end) => Some(end - pages),
        None => None,
    }
}
