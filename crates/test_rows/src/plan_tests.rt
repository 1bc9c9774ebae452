//! Plans over rows in a list of one's own: two patches at once, what they join, and a search that goes down to a gap. A
//! reader may rely on what the trait `Rows` asks being met by that list.
ghost use Rattle.std.specs.Prelude.{◌≡◌, ◌≤◌, ◌<◌, ◌+◌, IfOk, IsTrue, MatchOption, length, drop, slice_index};
ghost use Rattle.page_types.specs.declared.TheConstants.{LIMIT};
ghost use Rattle.page_types.specs.Named.{IsNamedCall};
ghost use Rattle.space_model.specs.Judges.{IsNamedPaint};
ghost use Rattle.row_plans.specs.RowWords.{row_start};
ghost use Rattle.row_plans.specs.RowLists.{rows_start};
ghost use Rattle.row_plans.specs.Plans.{IsRowList, spliced};
ghost use Rattle.row_plans.specs.Gaps.{HasNoGap, IsGapBefore};

use crate::starts::no_areas;
use page_types::{Call, Kind, LIMIT, LOW, MapFlags, PAGE, Prot, ROWS, Reply, SPARE};
use row_plans::{Cut, Found, Rows, free_pages, plan_change, plan_rows, read_row};
use space_model::{Change, Paint, Patch};
use std::alloc::{AllocError, Global};
use std::marker::Model;
use std::process::Abort;
use std::test::Fail;

/// The row that has a page.
fn find(rows: &[u64], page: u64) -> Found<u32>
    requires list { IsRowList rows.now }
    requires page { page < LIMIT }
    ensures there { result.at < length rows.now }
    ensures word { result.word ≡ slice_index rows.now result.at }
    ensures end { result.end ≡ rows_start (drop (result.at + 1) rows.now) }
    ensures from { row_start result.word ≤ page }
    ensures until { page < result.end }
{
    let mut at = 0;
    'rows: while at + 1 < rows.len() {
        let (end, _) = read_row(rows[at + 1]);
        if page < end {
            return Found {
                at: at as u32,
                word: rows[at],
                end,
            };
        }
        at += 1;
    }
    Found {
        at: at as u32,
        word: rows[at],
        end: LIMIT,
    }
}

/// The page at which the last row before another one ends that has so many free pages.
fn gap_before(rows: &[u64], at: u32, start: u64, pages: u64) -> Option<u64>
    requires there { at < length rows.now }
    requires start { start ≡ row_start (slice_index rows.now at) }
    ensures { MatchOption result (HasNoGap rows.now 0 at pages) (IsGapBefore rows.now at pages) }
{
    let mut end = start;
    let mut k = at as usize;
    'passed: while k > 0 {
        k -= 1;
        let word = rows[k];
        if free_pages(word, end) >= pages {
            return Some(end);
        }
        let (begin, _) = read_row(word);
        end = begin;
    }
    None
}

/// Rows that were read, as a list.
#[derive(Drop)]
struct ReadRows<'a> {
    rows: &'a [u64],
}

impl<'a> Model for ReadRows<'a> {
    ghost use Rattle.std.specs.Prelude.{ℕ, List};
    ghost use Rattle.row_plans.specs.Plans.{IsRowList};

    ghost Value = { List ℕ };

    ghost view = { λ s. s.rows.now };

    ghost invariant = { λ s. IsRowList s.rows.now };
}

impl<'a> Rows for ReadRows<'a> {
    ghost use Rattle.std.specs.Prelude.{refl};
    ghost use Rattle.row_plans.specs.Plans.{IsRowList};

    type Hand = ();

    type Place = u32;

    ghost may_load = { λ rows _. IsRowList rows };

    ghost words = { λ rows _. rows };

    ghost number = { λ _ _ at. at };

    ghost loaded = { λ _ _ _. Unit {0} };

    ghost no_load = { λ _ _. tt };

    ghost loads_on = { λ _ _ _ _ _ _. tt };

    ghost same_words = { λ _ _ _ may _. (may, refl) };

    ghost same_places = { λ _ _ _ _ _. refl };

    ghost are_rows = { λ _ _ may. may };

    ghost steps = { λ _ _. 0 };

    ghost gap_loads = { λ _ _. 0 };

    ghost same_gap = { λ _ _ _ _ _. refl };

    fn count(&self) -> u32 {
        self.rows.len() as u32
    }

    fn first(&self) -> u32 {
        0
    }

    fn find(&self, _hand: &mut (), page: u64) -> Found<u32> {
        let rows = self.rows;
        find(rows, page)
    }

    fn load(&self, _hand: &mut (), at: u32) -> u64 {
        self.rows[at as usize]
    }

    fn next(&self, _hand: &mut (), at: u32) -> Option<u32> {
        if at as usize + 1 < self.rows.len() {
            return Some(at + 1);
        }
        None
    }

    fn previous(&self, _hand: &mut (), at: u32) -> u32 {
        at - 1
    }

    fn gap_before(&self, _hand: &mut (), at: u32, start: u64, pages: u64) -> Option<u64> {
        let rows = self.rows;
        gap_before(rows, at, start, pages)
    }
}

/// The list with the splice in it.
fn spliced(alloc: Global, rows: &[u64], cut: Cut<u32>, more: &[u64]) -> Result<Vec<u64>, AllocError>
    requires there { cut.at + cut.gone ≤ length rows.now }
    ensures { IfOk result (λ new. new.items ≡ spliced (λ at. at) rows.now cut more.now) }
{
    let mut new = Vec::from_slice(alloc, &rows[..cut.at as usize])?;
    new.extend_from_slice(more)?;
    new.extend_from_slice(&rows[cut.at as usize + cut.gone as usize..])?;
    Ok(new)
}

/// The rows that a call leaves of others.
fn rows_after(alloc: Global, rows: &[u64], call: &Call) -> Result<Vec<u64>, AllocError>
    requires old { IsRowList rows.now }
    requires named { IsNamedCall call.now }
    ensures { IfOk result (λ new. IsRowList new.items) }
{
    let mut new = Vec::with_capacity(alloc, ROWS + SPARE)?;
    let planned = plan_rows(&ReadRows { rows }, &mut (), call, &mut new);
    let after = spliced(alloc, rows, planned.cut, new.as_slice())?;
    Ok(after)
}

/// Whether a paint gives no bit but the named ones.
fn is_named(paint: Paint) -> bool
    ensures { IsTrue result → IsNamedPaint paint }
{
    match paint {
        Paint::Gives(Some(kind)) => kind.is_named(),
        Paint::Gives(None) | Paint::Seals => true,
        Paint::Protects(prot) => prot.is_named(),
    }
}

/// Two patches at once, in the order of their pages.
#[derive(Clone, Copy)]
struct Two(Patch, Patch);

/// Where a row starts, and its kind.
type Row = (u64, Option<Kind>);

/// Changes the rows that two Maps leave by two patches, and compares the rows.
fn change_by(
    rt: &(impl Abort + AllocGlobal),
    maps: (Call, Call),
    patches: Two,
    after: &[Row],
) -> Result<(), Fail> {
    let Two(first, second) = patches;
    assert!(rt; maps.0.is_named() && maps.1.is_named());
    assert!(rt; is_named(first.paint) && is_named(second.paint));
    assert!(rt; first.lo <= first.hi && first.hi <= second.lo);
    assert!(rt; second.lo <= second.hi && second.hi <= LIMIT);
    let none = no_areas(rt.alloc())?;
    let one = rows_after(rt.alloc(), none.as_slice(), &maps.0)?;
    let old = rows_after(rt.alloc(), one.as_slice(), &maps.1)?;
    let change = Change {
        first,
        second: Some(second),
        reply: Reply::Zero,
        full: None,
    };
    let mut more = Vec::with_capacity(rt.alloc(), ROWS + SPARE)?;
    let cut = plan_change(
        &ReadRows {
            rows: old.as_slice(),
        },
        &mut (),
        change,
        &mut more,
    );
    let new = spliced(rt.alloc(), old.as_slice(), cut, more.as_slice())?;
    assert_eq!(rt; new.len(), after.len());
    for i in 0..new.len() {
        assert_eq!(rt; read_row(new[i]), after[i]);
    }
    Ok(())
}

fn kind(prot: Prot) -> Option<Kind> {
    Some(Kind {
        prot,
        shared: false,
        sealed: false,
    })
}

/// A Map of the pages from `lo` up to `hi`.
fn map(lo: u64, hi: u64, prot: Prot) -> Call
    requires { (lo ≤ hi) × (hi < 1000) }
{
    Call::Map {
        addr: lo * PAGE,
        len: (hi - lo) * PAGE,
        prot,
        flags: MapFlags::PRIVATE | MapFlags::FIXED,
    }
}

fn patch(lo: u64, hi: u64, paint: Paint) -> Patch {
    Patch { lo, hi, paint }
}

fn gives(lo: u64, hi: u64, prot: Prot) -> Patch {
    patch(lo, hi, Paint::Gives(kind(prot)))
}

fn frees(lo: u64, hi: u64) -> Patch {
    patch(lo, hi, Paint::Gives(None))
}

#[test]
fn two_patches_are_made_at_once(rt: HostRuntime) -> Result<(), Fail> {
    let both = Prot::READ | Prot::WRITE;
    // apart: a page goes, and one in the middle of another area gets a new protection
    change_by(
        &rt,
        (map(16, 18, both), map(20, 24, Prot::READ)),
        Two(frees(17, 18), patch(21, 22, Paint::Protects(both))),
        &[
            (0, None),
            (16, kind(both)),
            (17, None),
            (20, kind(Prot::READ)),
            (21, kind(both)),
            (22, kind(Prot::READ)),
            (24, None),
        ],
    )?;
    // the second begins where the first ends, in the middle of an area
    change_by(
        &rt,
        (map(16, 24, both), map(30, 31, both)),
        Two(frees(18, 20), gives(20, 22, Prot::READ)),
        &[
            (0, None),
            (16, kind(both)),
            (18, None),
            (20, kind(Prot::READ)),
            (22, kind(both)),
            (24, None),
            (30, kind(both)),
            (31, None),
        ],
    )?;
    // what they make is one row, with those on both sides
    change_by(
        &rt,
        (map(16, 18, both), map(22, 24, both)),
        Two(gives(18, 20, both), gives(20, 22, both)),
        &[(0, None), (16, kind(both)), (24, None)],
    )
}

#[test]
fn patches_join_their_neighbours_and_make_four_rows_at_most(rt: HostRuntime) -> Result<(), Fail> {
    let both = Prot::READ | Prot::WRITE;
    // each joins with both of its neighbours, one of which they share
    change_by(
        &rt,
        (map(16, 17, both), map(20, 21, Prot::READ)),
        Two(frees(16, 17), frees(20, 21)),
        &[(0, None)],
    )?;
    // one without a page changes nothing, and the other goes to the limit
    change_by(
        &rt,
        (map(16, 24, both), map(30, 32, both)),
        Two(gives(18, 18, Prot::READ), gives(31, LIMIT, Prot::READ)),
        &[
            (0, None),
            (16, kind(both)),
            (24, None),
            (30, kind(both)),
            (31, kind(Prot::READ)),
        ],
    )?;
    // four rows more than before, by the middle of an area and of a gap; the first page is one of the patches'
    change_by(
        &rt,
        (map(0, 4, both), map(2, 4, both)),
        Two(frees(1, 2), gives(30, 31, both)),
        &[
            (0, kind(both)),
            (1, None),
            (2, kind(both)),
            (4, None),
            (30, kind(both)),
            (31, None),
        ],
    )
}

/// A Map of so many pages, for whose place there is no hint.
fn map_any(pages: u64) -> Call
    requires { pages < 1000 }
{
    Call::Map {
        addr: 0,
        len: pages * PAGE,
        prot: Prot::READ,
        flags: MapFlags::PRIVATE,
    }
}

/// An Unmap of the pages from `lo` up to `hi`.
fn unmap(lo: u64, hi: u64) -> Call
    requires { (lo ≤ hi) × (hi ≤ LIMIT) }
{
    Call::Unmap {
        addr: lo * PAGE,
        len: (hi - lo) * PAGE,
    }
}

#[test]
fn a_search_goes_down_to_a_gap(rt: HostRuntime) -> Result<(), Fail> {
    let any = map_any(16);
    let gone = unmap(LOW - 12, LOW - 4);
    let hole = unmap(LOW - 32, LOW - 16);
    assert!(rt; any.is_named() && gone.is_named() && hole.is_named());
    let none = no_areas(rt.alloc())?;
    // the pages stand as high as they fit, and the next ones below them
    let one = rows_after(rt.alloc(), none.as_slice(), &any)?;
    assert_eq!(rt; one.len(), 3);
    assert_eq!(rt; read_row(one[1]), (LOW - 16, kind(Prot::READ)));
    let two = rows_after(rt.alloc(), one.as_slice(), &any)?;
    assert_eq!(rt; two.len(), 3);
    assert_eq!(rt; read_row(two[1]), (LOW - 32, kind(Prot::READ)));
    let three = rows_after(rt.alloc(), two.as_slice(), &any)?;
    assert_eq!(rt; three.len(), 3);
    assert_eq!(rt; read_row(three[1]), (LOW - 48, kind(Prot::READ)));
    // a gap that is too small is passed, and one of just so many pages is taken
    let small = rows_after(rt.alloc(), three.as_slice(), &gone)?;
    let wide = rows_after(rt.alloc(), small.as_slice(), &hole)?;
    assert_eq!(rt; wide.len(), 7);
    let four = rows_after(rt.alloc(), wide.as_slice(), &any)?;
    assert_eq!(rt; four.len(), 5);
    assert_eq!(rt; read_row(four[1]), (LOW - 48, kind(Prot::READ)));
    assert_eq!(rt; read_row(four[2]), (LOW - 12, None));
    Ok(())
}
