//! Worked cases of looks on spaces of both kinds.
ghost use Rattle.test_crews.specs.Crews.{IsCrew};

use crate::looking::{area_by, areas_by, counts_by, fill_by};
use area_rows::{Caller, Space};
use list_cuts::Cut;
use page_types::{Kind, LIMIT, Prot, Span};
use space_model::{Area, PlainSpace, have_named_kinds};
use std::alloc::Global;
use std::process::Abort;
use std::sync::Wait;
use test_crews::open_cut_crew;

const fn area(lo: u64, hi: u64, prot: Prot) -> Area {
    Area {
        lo,
        hi,
        kind: Kind {
            prot,
            shared: false,
            sealed: false,
        },
    }
}

/// Two areas that touch, and one apart; one at page 0, and one up to the limit.
fn start_areas() -> [Area; 5] {
    [
        area(0, 1, Prot::EXEC),
        area(16, 18, Prot::READ),
        area(18, 20, Prot::WRITE),
        area(30, 31, Prot::READ),
        area(LIMIT - 2, LIMIT, Prot::READ),
    ]
}

/// A space over these areas, of so many callers, with a history or without one.
fn open<R: Abort>(
    rt: &R,
    alloc: Global,
    keeps: bool,
    calls: &[u32],
    areas: &[Area],
) -> (Space, Vec<Caller>)
    ensures { IsCrew result.0.table result.0.seats result.1.items }
{
    assert!(rt; have_named_kinds(areas) && areas.len() < 1 << 30 && calls.len() < 1 << 20);
    let start = PlainSpace::of_areas(alloc, areas).expect(rt, "an area list");
    let Ok(opened) = open_cut_crew(alloc, keeps, calls, Cut::one(), &start) else {
        panic!(rt; "no space");
    };
    opened
}

/// The areas of the pages from `lo` up to `hi`, read in place of others.
fn areas_read<R: Abort + Wait>(
    rt: &R,
    alloc: Global,
    space: &Space,
    callers: &mut [Caller],
    lo: u64,
    hi: u64,
) -> Vec<Area>
    requires crew { IsCrew space.now.table space.now.seats callers.old }
    ensures crew { IsCrew space.now.table space.now.seats callers.new }
{
    assert!(rt; lo < hi && hi <= LIMIT);
    let mut list = Vec::new(alloc);
    list.push(area(1, 2, Prot::READ)).expect(rt, "memory");
    areas_by(rt, space, callers, Span { lo, hi }, &mut list).expect(rt, "memory");
    list
}

#[test]
fn areas_of_spans_are_clipped_to_them(rt: HostRuntime) {
    let alloc = rt.alloc();
    let start = start_areas();
    for keeps in [true, false] {
        let (space, mut callers) = open(&rt, alloc, keeps, &[1], &start);
        let callers = callers.as_mut_slice();
        let all = areas_read(&rt, alloc, &space, callers, 0, LIMIT);
        assert_eq!(rt; all.as_slice(), start.as_slice());
        let cut = areas_read(&rt, alloc, &space, callers, 17, 19);
        assert_eq!(rt;
            cut.as_slice(),
            [area(17, 18, Prot::READ), area(18, 19, Prot::WRITE)].as_slice()
        );
        let apart = areas_read(&rt, alloc, &space, callers, 19, 31);
        assert_eq!(rt;
            apart.as_slice(),
            [area(19, 20, Prot::WRITE), area(30, 31, Prot::READ)].as_slice()
        );
        let gap = areas_read(&rt, alloc, &space, callers, 20, 30);
        assert!(rt; gap.is_empty());
        let first = areas_read(&rt, alloc, &space, callers, 0, 1);
        assert_eq!(rt; first.as_slice(), [area(0, 1, Prot::EXEC)].as_slice());
        let last = areas_read(&rt, alloc, &space, callers, LIMIT - 1, LIMIT);
        assert_eq!(rt;
            last.as_slice(),
            [area(LIMIT - 1, LIMIT, Prot::READ)].as_slice()
        );
    }
}

#[test]
fn an_empty_space_has_no_area(rt: HostRuntime) {
    let alloc = rt.alloc();
    for keeps in [true, false] {
        let (space, mut callers) = open(&rt, alloc, keeps, &[1], &[]);
        let callers = callers.as_mut_slice();
        assert!(rt; areas_read(&rt, alloc, &space, callers, 0, LIMIT).is_empty());
        assert_eq!(rt; area_by(&rt, &space, callers, 5), None);
    }
}

/// The area at a page, which is below the limit.
fn area_read<R: Abort + Wait>(
    rt: &R,
    space: &Space,
    callers: &mut [Caller],
    page: u64,
) -> Option<Area>
    requires crew { IsCrew space.now.table space.now.seats callers.old }
    ensures crew { IsCrew space.now.table space.now.seats callers.new }
{
    assert!(rt; page < LIMIT);
    area_by(rt, space, callers, page)
}

#[test]
fn the_area_at_a_page_has_its_own_ends(rt: HostRuntime) {
    let alloc = rt.alloc();
    let start = start_areas();
    let [first, read, write, apart, last] = start;
    for keeps in [true, false] {
        let (space, mut callers) = open(&rt, alloc, keeps, &[1], &start);
        let callers = callers.as_mut_slice();
        assert_eq!(rt; area_read(&rt, &space, callers, 0), Some(first));
        assert_eq!(rt; area_read(&rt, &space, callers, 1), None);
        assert_eq!(rt; area_read(&rt, &space, callers, 15), None);
        assert_eq!(rt; area_read(&rt, &space, callers, 16), Some(read));
        assert_eq!(rt; area_read(&rt, &space, callers, 17), Some(read));
        assert_eq!(rt; area_read(&rt, &space, callers, 18), Some(write));
        assert_eq!(rt; area_read(&rt, &space, callers, 20), None);
        assert_eq!(rt; area_read(&rt, &space, callers, 30), Some(apart));
        assert_eq!(rt; area_read(&rt, &space, callers, 31), None);
        assert_eq!(rt; area_read(&rt, &space, callers, LIMIT - 3), None);
        assert_eq!(rt; area_read(&rt, &space, callers, LIMIT - 1), Some(last));
    }
}

/// How many areas and pages a span has, by `counts` and by a round that puts the areas into places, which say the same.
fn count_read<R: Abort + Wait>(
    rt: &R,
    space: &Space,
    callers: &mut [Caller],
    span: Span,
    into: &mut [Area],
) -> (u64, u64)
    requires crew { IsCrew space.now.table space.now.seats callers.old }
    ensures crew { IsCrew space.now.table space.now.seats callers.new }
{
    let counted = counts_by(rt, space, callers, span);
    let filled = fill_by(space, callers, span, into).expect(rt, "nobody else holds it");
    assert_eq!(rt; filled.areas, counted.areas);
    assert_eq!(rt; filled.pages, counted.pages);
    (counted.areas, counted.pages)
}

/// Fewer places than areas: the first areas are there, and all are counted.
fn count_all<R: Abort + Wait>(rt: &R, alloc: Global, keeps: bool) {
    let start = start_areas();
    let [first, read, _, _, _] = start;
    let (space, mut callers) = open(rt, alloc, keeps, &[1], &start);
    let mut places = [area(1, 2, Prot::EXEC); 2];
    let span = Span { lo: 0, hi: LIMIT };
    let (areas, pages) = count_read(rt, &space, callers.as_mut_slice(), span, &mut places);
    assert_eq!(rt; areas, 5);
    assert_eq!(rt; pages, 8);
    let [one, two] = places;
    assert_eq!(rt; one, first);
    assert_eq!(rt; two, read);
}

/// A span that ends within two areas: they are clipped to it, and a place that is too many stays as it was.
fn count_cut<R: Abort + Wait>(rt: &R, alloc: Global, keeps: bool) {
    let (space, mut callers) = open(rt, alloc, keeps, &[1], &start_areas());
    let other = area(1, 2, Prot::EXEC);
    let mut places = [other; 3];
    let span = Span { lo: 17, hi: 19 };
    let (areas, pages) = count_read(rt, &space, callers.as_mut_slice(), span, &mut places);
    assert_eq!(rt; areas, 2);
    assert_eq!(rt; pages, 2);
    let [one, two, three] = places;
    assert_eq!(rt; one, area(17, 18, Prot::READ));
    assert_eq!(rt; two, area(18, 19, Prot::WRITE));
    assert_eq!(rt; three, other);
}

/// A gap has no area and no page.
fn count_gap<R: Abort + Wait>(rt: &R, alloc: Global, keeps: bool) {
    let (space, mut callers) = open(rt, alloc, keeps, &[1], &start_areas());
    let other = area(1, 2, Prot::EXEC);
    let mut places = [other; 1];
    let span = Span { lo: 20, hi: 30 };
    let (areas, pages) = count_read(rt, &space, callers.as_mut_slice(), span, &mut places);
    assert_eq!(rt; areas, 0);
    assert_eq!(rt; pages, 0);
    let [one] = places;
    assert_eq!(rt; one, other);
}

#[test]
fn areas_are_counted_with_fewer_places(rt: HostRuntime) {
    count_all(&rt, rt.alloc(), true);
    count_all(&rt, rt.alloc(), false);
}

#[test]
fn counted_areas_are_clipped(rt: HostRuntime) {
    count_cut(&rt, rt.alloc(), true);
    count_cut(&rt, rt.alloc(), false);
}

#[test]
fn a_gap_counts_nothing(rt: HostRuntime) {
    count_gap(&rt, rt.alloc(), true);
    count_gap(&rt, rt.alloc(), false);
}
