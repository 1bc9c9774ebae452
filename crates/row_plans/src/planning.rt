//! The rows that come where pages change, in the place of those that go: a splice of a list of rows. The form of a row
//! word says nothing of its place, so rows behind the splice keep their words, and only those of the pages that change
//! are put together anew, from left to right, at most two more than go for each stretch of pages, in the caller's own
//! room. A reader may rely on the rows after the splice showing the kinds after the patches, whatever kinds the rows
//! before showed.
ghost use Rattle.std.specs.Prelude.{ℕ, All, take, drop, min, ◌≡◌, ◌<◌, ◌≤◌, ◌+◌, ◌*◌, ◌-◌, [], Option, length, slice_index, vec_capacity};
ghost use Rattle.page_types.specs.declared.calls.Kind.{Kind};
ghost use Rattle.page_types.specs.declared.TheConstants.{LIMIT};
ghost use Rattle.page_types.specs.Named.{IsNamedOption};
ghost use Rattle.space_model.specs.Starts.{same_option};
ghost use Rattle.space_model.specs.Effect.{painted, patched, AreRising};
ghost use Rattle.space_model.specs.Cutting.{last_end};
ghost use Rattle.space_model.specs.Judges.{IsNamedPaint, AreNamedPaints, second_of, patches_of};
ghost use Rattle.row_plans.specs.RowLists.{rows_start, ShowFrom, IsBareGap};
ghost use Rattle.row_plans.specs.RowWords.{row_kind};
ghost use Rattle.row_plans.specs.Plans.{spliced, IsPlaceOf};
ghost use Rattle.row_plans.specs.Loads.{change_loads};
ghost use Rattle.row_plans.specs.Planning.{ends_with, put, ShowTo, part_left, repainted, IsNamedRepaint, GoesOn, come_to, IsCome};

use crate::places::row_behind;
use crate::row_words::{read_row, write_row};
use crate::rows::Rows;
use page_types::{Kind, LIMIT};
use space_model::{Change, Paint, Patch};

/// The rows that go where a list of rows is changed: so many, from a place on.
#[derive(Clone, Copy, Debug, PartialEq, Eq)]
pub struct Cut<P> {
    /// Where the first row that goes stands, or any row where none goes.
    pub at: P,
    /// How many rows go.
    pub gone: u32,
}

/// Pages, by their numbers, and what becomes of them: they are painted, or stay as they are.
#[derive(Clone, Copy)]
struct Stretch {
    from: u64,
    to: u64,
    paint: Option<Paint>,
}

/// How far the old rows were gone through: those that start before a page.
#[derive(Clone, Copy)]
struct Come<P> {
    /// The first row that goes.
    at: P,
    /// How many rows from there on start before the page.
    gone: u32,
    /// The kind of the last one of these, or None where there is none.
    kind: Option<Kind>,
    /// The row behind, if there is one.
    next: Option<P>,
    /// Where that one starts, or `LIMIT`.
    end: u64,
}

/// Whether two kinds are the same, None being that of a gap.
fn same_option(one: Option<Kind>, other: Option<Kind>) -> bool
    ensures { result ≡ same_option one other }
{
    one == other
}

/// Whether there is a last row and it is of that kind.
fn ends_with(rows: &[u64], kind: Option<Kind>) -> bool
    ensures { result ≡ ends_with rows.now kind }
{
    if rows.is_empty() {
        return false;
    }
    let (_, last) = read_row(rows[rows.len() - 1]);
    same_option(last, kind)
}

/// Appends a stretch of pages of one kind that begins where the rows end: a new row, unless the last one is of that
/// kind.
fn put_row(rows: &mut Vec<u64>, page: u64, kind: Option<Kind>)
    requires page { page ≤ LIMIT }
    requires named { IsNamedOption kind }
    requires room { length rows.old.items < vec_capacity rows.old }
    requires gaps { All IsBareGap rows.old.items }
    ensures items { rows.new.items ≡ put rows.old.items page kind }
    ensures room { vec_capacity rows.old ≤ vec_capacity rows.new }
    ensures few { length rows.new.items ≤ length rows.old.items + 1 }
    ensures gaps { All IsBareGap rows.new.items }
    ensures shows { (from end : ℕ) (kinds : ℕ → Option Kind) → page < end → ((p : ℕ) → page ≤ p → p < end → kinds p ≡ kind)
        → ShowTo from rows.old.items page kinds → ShowTo from rows.new.items end kinds }
{
    if !ends_with(rows.as_slice(), kind) {
        rows.push_reserved(write_row(page, kind));
    }
}

/// Appends the pages from one up to another, which have one kind, if there are any.
fn put_part(rows: &mut Vec<u64>, from: u64, to: u64, kind: Option<Kind>)
    requires page { from ≤ LIMIT }
    requires named { IsNamedOption kind }
    requires room { length rows.old.items < vec_capacity rows.old }
    requires gaps { All IsBareGap rows.old.items }
    ensures room { vec_capacity rows.old ≤ vec_capacity rows.new }
    ensures few { length rows.new.items ≤ length rows.old.items + min 1 (to - from) }
    ensures gaps { All IsBareGap rows.new.items }
    ensures shows { (first : ℕ) (kinds : ℕ → Option Kind) → from ≤ to → ((p : ℕ) → from ≤ p → p < to → kinds p ≡ kind)
        → ShowTo first rows.old.items from kinds → ShowTo first rows.new.items to kinds }
{
    if from < to {
        put_row(rows, from, kind);
    }
}

/// What becomes of the kind of a page that is painted.
fn painted(paint: Paint, kind: Option<Kind>) -> Option<Kind>
    requires paint { IsNamedPaint paint }
    requires kind { IsNamedOption kind }
    ensures kind { result ≡ painted paint kind }
    ensures named { IsNamedOption result }
{
    match paint {
        Paint::Gives(new) => new,
        Paint::Protects(prot) => match kind {
            Some(old) => Some(Kind { prot, ..old }),
            None => None,
        },
        Paint::Seals => match kind {
            Some(old) => Some(Kind {
                sealed: true,
                ..old
            }),
            None => None,
        },
    }
}

/// What becomes of the kind of a page that is painted, or stays as it is.
fn repainted(paint: Option<Paint>, kind: Option<Kind>) -> Option<Kind>
    requires paint { IsNamedRepaint paint }
    requires kind { IsNamedOption kind }
    ensures kind { result ≡ repainted paint kind }
    ensures named { IsNamedOption result }
{
    match paint {
        Some(paint) => painted(paint, kind),
        None => kind,
    }
}

/// Begins the rows that come with the row before a page, as it stands, where there is one: they go on from it.
fn begin<R: Rows>(rows: &mut Vec<u64>, old: &R, hand: &mut R::Hand, page: u64) -> Come<R::Place>
    requires may { R.may_load old.now hand.old }
    requires none { rows.old.items ≡ [] }
    requires page { page ≤ LIMIT }
    requires room { 0 < vec_capacity rows.old }
    ensures come { IsCome (R.words old.now hand.old) (R.number old.now hand.old) page result }
    ensures at { R.number old.now hand.old result.at < length (R.words old.now hand.old) }
    ensures before { R.number old.now hand.old result.at ≡ come_to (R.number old.now hand.old) result - 1 }
    ensures items { rows.new.items ≡ take result.gone (drop (R.number old.now hand.old result.at) (R.words old.now hand.old)) }
    ensures room { vec_capacity rows.old ≤ vec_capacity rows.new }
    ensures loaded { R.loaded old.now hand.old hand.new }
    ensures steps { R.steps old.now hand.new ≤ R.steps old.now hand.old + 22 * result.gone }
{
    if page == 0 {
        let first = old.first();
        return Come {
            at: first,
            gone: 0,
            kind: None,
            next: Some(first),
            end: 0,
        };
    }
    let row = old.find(hand, page - 1);
    rows.push_reserved(row.word);
    let (_, kind) = read_row(row.word);
    Come {
        at: row.at,
        gone: 1,
        kind,
        next: old.next(hand, row.at),
        end: row.end,
    }
}

/// Goes one row further, which there is.
fn go_on<R: Rows>(old: &R, hand: &mut R::Hand, come: Come<R::Place>) -> Come<R::Place>
    requires may { R.may_load old.now hand.old }
    requires next { IsPlaceOf (R.words old.now hand.old) (R.number old.now hand.old) (come_to (R.number old.now hand.old) come) come.next }
    requires there { come_to (R.number old.now hand.old) come < length (R.words old.now hand.old) }
    ensures at { result.at ≡ come.at }
    ensures gone { result.gone ≡ come.gone + 1 }
    ensures kind { result.kind ≡ row_kind (slice_index (R.words old.now hand.old) (come_to (R.number old.now hand.old) come)) }
    ensures named { IsNamedOption result.kind }
    ensures next { IsPlaceOf (R.words old.now hand.old) (R.number old.now hand.old) (come_to (R.number old.now hand.old) come + 1) result.next }
    ensures end { result.end ≡ rows_start (drop (come_to (R.number old.now hand.old) come + 1) (R.words old.now hand.old)) }
    ensures loaded { R.loaded old.now hand.old hand.new }
    ensures steps { R.steps old.now hand.new ≤ R.steps old.now hand.old + 6 }
{
    let Some(next) = come.next else {
        unreachable!()
    };
    let (_, kind) = read_row(old.load(hand, next));
    let behind = row_behind(old, hand, next);
    Come {
        at: come.at,
        gone: come.gone + 1,
        kind,
        next: behind.next,
        end: behind.end,
    }
}

/// Appends the pages of a stretch with the kinds that they get. The old rows were gone through up to its first page; it
/// goes through them up to the page behind its last one.
fn put_to<R: Rows>(
    rows: &mut Vec<u64>,
    old: &R,
    hand: &mut R::Hand,
    pages: Stretch,
    come: Come<R::Place>,
) -> Come<R::Place>
    requires may { R.may_load old.now hand.old }
    requires paint { IsNamedRepaint pages.paint }
    requires come { IsCome (R.words old.now hand.old) (R.number old.now hand.old) pages.from come }
    requires ordered { pages.from ≤ pages.to }
    requires limit { pages.to ≤ LIMIT }
    requires room { length rows.old.items + length (R.words old.now hand.old) + 1 ≤ come_to (R.number old.now hand.old) come + vec_capacity rows.old }
    requires gaps { All IsBareGap rows.old.items }
    ensures come { IsCome (R.words old.now hand.old) (R.number old.now hand.old) pages.to result }
    ensures at { result.at ≡ come.at }
    ensures few { length rows.new.items + come.gone ≤ length rows.old.items + result.gone
        + part_left (R.words old.now hand.old) pages.from (come_to (R.number old.now hand.old) come) }
    ensures room { vec_capacity rows.old ≤ vec_capacity rows.new }
    ensures gaps { All IsBareGap rows.new.items }
    ensures shows { (from : ℕ) (kinds others : ℕ → Option Kind) → ShowFrom 0 (R.words old.now hand.old) kinds
        → ((p : ℕ) → pages.from ≤ p → p < pages.to → others p ≡ repainted pages.paint (kinds p))
        → ShowTo from rows.old.items pages.from others → ShowTo from rows.new.items pages.to others }
    ensures loaded { R.loaded old.now hand.old hand.new }
    ensures steps { R.steps old.now hand.new + 6 * come.gone ≤ R.steps old.now hand.old + 6 * result.gone }
{
    let end = come.end.min(pages.to);
    put_part(rows, pages.from, end, repainted(pages.paint, come.kind));
    let mut now = come;
    let mut at = end;
    'rows: while at < pages.to {
        now = go_on(old, hand, now);
        put_row(rows, at, repainted(pages.paint, now.kind));
        at = now.end.min(pages.to);
    }
    now
}

/// Appends the pages between two patches and those of the second one, if there is one. The old rows were gone through
/// up to the end of the first patch; it goes through them up to the end of the last one.
fn put_second<R: Rows>(
    rows: &mut Vec<u64>,
    old: &R,
    hand: &mut R::Hand,
    from: u64,
    second: Option<Patch>,
    come: Come<R::Place>,
) -> Come<R::Place>
    requires may { R.may_load old.now hand.old }
    requires paints { AreNamedPaints (second_of second) }
    requires rising { AreRising from (second_of second) }
    requires come { IsCome (R.words old.now hand.old) (R.number old.now hand.old) from come }
    requires room { length rows.old.items + length (R.words old.now hand.old) + 2 * length (second_of second)
        ≤ come_to (R.number old.now hand.old) come + vec_capacity rows.old }
    requires gaps { All IsBareGap rows.old.items }
    ensures come { IsCome (R.words old.now hand.old) (R.number old.now hand.old) (last_end from (second_of second)) result }
    ensures at { result.at ≡ come.at }
    ensures few { length rows.new.items + come.gone ≤ length rows.old.items + result.gone + 2 * length (second_of second) }
    ensures room { vec_capacity rows.old ≤ vec_capacity rows.new }
    ensures gaps { All IsBareGap rows.new.items }
    ensures shows { (begin : ℕ) (kinds others : ℕ → Option Kind) → ShowFrom 0 (R.words old.now hand.old) kinds
        → ((p : ℕ) → from ≤ p → others p ≡ patched (second_of second) kinds p)
        → ShowTo begin rows.old.items from others → ShowTo begin rows.new.items (last_end from (second_of second)) others }
    ensures loaded { R.loaded old.now hand.old hand.new }
    ensures steps { R.steps old.now hand.new + 6 * come.gone ≤ R.steps old.now hand.old + 6 * result.gone }
{
    let Some(patch) = second else {
        return come;
    };
    let between = Stretch {
        from,
        to: patch.lo,
        paint: None,
    };
    let next = put_to(rows, old, hand, between, come);
    let own = Stretch {
        from: patch.lo,
        to: patch.hi,
        paint: Some(patch.paint),
    };
    put_to(rows, old, hand, own, next)
}

/// Ends the rows that come, behind a page up to which the old rows were gone through. What is left of the last of these
/// is put as it was, and the row behind goes where it is of the kind of the last row that comes. It gives how many go.
fn join_on<R: Rows>(
    rows: &mut Vec<u64>,
    old: &R,
    hand: &mut R::Hand,
    to: u64,
    come: Come<R::Place>,
) -> u32
    requires may { R.may_load old.now hand.old }
    requires come { IsCome (R.words old.now hand.old) (R.number old.now hand.old) to come }
    requires limit { to ≤ LIMIT }
    requires room { length rows.old.items < vec_capacity rows.old }
    requires gaps { All IsBareGap rows.old.items }
    ensures gone { come.gone ≤ result }
    ensures there { R.number old.now hand.old come.at + result ≤ length (R.words old.now hand.old) }
    ensures few { length rows.new.items ≤ length rows.old.items + part_left (R.words old.now hand.old) to (come_to (R.number old.now hand.old) come) }
    ensures room { vec_capacity rows.old ≤ vec_capacity rows.new }
    ensures gaps { All IsBareGap rows.new.items }
    ensures ahead { to ≤ rows_start (drop (R.number old.now hand.old come.at + result) (R.words old.now hand.old)) }
    ensures shows { (from : ℕ) (kinds others : ℕ → Option Kind) → ShowFrom 0 (R.words old.now hand.old) kinds
        → ((p : ℕ) → to ≤ p → p < LIMIT → others p ≡ kinds p) → ShowTo from rows.old.items to others
        → ShowTo from rows.new.items (rows_start (drop (R.number old.now hand.old come.at + result) (R.words old.now hand.old))) others }
    ensures differs { GoesOn rows.new.items (drop (R.number old.now hand.old come.at + result) (R.words old.now hand.old)) }
    ensures loaded { R.loaded old.now hand.old hand.new }
    ensures steps { R.steps old.now hand.new ≤ R.steps old.now hand.old + 2 }
{
    put_part(rows, to, come.end, come.kind);
    if let Some(next) = come.next {
        let (_, kind) = read_row(old.load(hand, next));
        if ends_with(rows.as_slice(), kind) {
            return come.gone + 1;
        }
    }
    come.gone
}

/// The page behind the last one that a change paints.
fn end_of(change: Change) -> u64
    ensures { result ≡ last_end 0 (patches_of change) }
{
    match change.second {
        None => change.first.hi,
        Some(second) => second.hi,
    }
}

/// The splice that a change makes of the rows: which go, and which come in their place. Those that come are put into
/// `rows`, which is emptied first and has room for the old ones and two more for each patch. It takes no memory.
pub fn plan_change<R: Rows>(
    old: &R,
    hand: &mut R::Hand,
    change: Change,
    rows: &mut Vec<u64>,
) -> Cut<R::Place>
    requires may { R.may_load old.now hand.old }
    requires paints { AreNamedPaints (patches_of change) }
    requires rising { AreRising 0 (patches_of change) }
    requires room { length (R.words old.now hand.old) + 2 * length (patches_of change) ≤ vec_capacity rows.old }
    ensures at { R.number old.now hand.old result.at < length (R.words old.now hand.old) }
    ensures there { R.number old.now hand.old result.at + result.gone ≤ length (R.words old.now hand.old) }
    ensures few { length rows.new.items ≤ result.gone + 2 * length (patches_of change) }
    ensures room { vec_capacity rows.old ≤ vec_capacity rows.new }
    ensures gaps { All IsBareGap (spliced (R.number old.now hand.old) (R.words old.now hand.old) result rows.new.items) }
    ensures shows { (kinds : ℕ → Option Kind) → ShowFrom 0 (R.words old.now hand.old) kinds
        → ShowFrom 0 (spliced (R.number old.now hand.old) (R.words old.now hand.old) result rows.new.items) (patched (patches_of change) kinds) }
    ensures loaded { R.loaded old.now hand.old hand.new }
    ensures steps { R.steps old.now hand.new ≤ R.steps old.now hand.old
        + change_loads (R.words old.now hand.old) change.first.lo (last_end 0 (patches_of change)) }
{
    rows.clear();
    let first = change.first;
    let begun = begin(rows, old, hand, first.lo);
    let own = Stretch {
        from: first.lo,
        to: first.hi,
        paint: Some(first.paint),
    };
    let next = put_to(rows, old, hand, own, begun);
    let last = put_second(rows, old, hand, first.hi, change.second, next);
    let to = end_of(change);
    Cut {
        at: begun.at,
        gone: join_on(rows, old, hand, to, last),
    }
}
