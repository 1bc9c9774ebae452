//! Threads that move the boundaries of areas that touch, beside threads that fault on both sides. Whatever their order,
//! the history is legal by the one-thread model, and each way that `protect` told is true of this history.
use crate::claims::{areas_left, closed_right, is_true, play};
use crate::trials::{AREAS, FIRST, Trial, WIDE, call_of, change_all, prot_of};
use crate::ways::Ways;
use area_protect::Path;
use list_cuts::Cut;
use page_types::{Call, Kind, Prot};
use space_model::{Area, Entry, PlainSpace, have_named_kinds};
use std::alloc::{AllocError, Global};
use std::process::Abort;
use std::sync::Wait;
use std::test::Fail;
use std::thread::Threads;
use test_crews::{open_crew, open_cut_crew};

/// How many turns each caller takes.
const TURNS: u32 = 500;

/// How many ways there were of each kind.
#[derive(Clone, Copy)]
struct Counts {
    over_areas: u64,
    under_everything: u64,
}

fn area(lo: u64, hi: u64, prot: Prot) -> Area {
    Area {
        lo,
        hi,
        kind: Kind {
            prot,
            shared: false,
            sealed: false,
        },
    }
}

/// The way of each change is true. A caller had seen the entries up to its last one when it made a call.
fn ways_are_true(
    rt: &impl Abort,
    alloc: Global,
    start: &PlainSpace,
    entries: &[Entry],
    ways: &Ways,
) -> Result<Counts, Fail> {
    let played = play(rt, alloc, start, entries)?;
    let mut seen = [0u64; 16];
    let mut counts = Counts {
        over_areas: 0,
        under_everything: 0,
    };
    for entry in entries {
        let Some(last) = seen.get_mut(entry.worker as usize) else {
            panic!(rt; "no such caller");
        };
        let seen_before = *last;
        *last = u64::wrapping_add(entry.number, 1);
        let Call::Protect { .. } = entry.call else {
            continue;
        };
        let Some(path) = ways.of(entry.worker, u32::wrapping_sub(entry.line, 1)) else {
            panic!(rt; "a way is missing");
        };
        assert!(rt; entry.call.is_named());
        assert!(rt; is_true(alloc, &played, entry, seen_before, path)?);
        match path {
            Path::Area { .. } => counts.over_areas = u64::wrapping_add(counts.over_areas, 1),
            Path::Whole(_) => {
                counts.under_everything = u64::wrapping_add(counts.under_everything, 1)
            }
            Path::Free => panic!(rt; "the arguments decide no call here"),
        }
    }
    Ok(counts)
}

/// The areas that are worked on, of two kinds in turn, and below them single pages of these kinds: 29 rows.
fn areas_of(alloc: Global) -> Result<Vec<Area>, AllocError> {
    let mut list = Vec::new(alloc);
    for page in 18..FIRST {
        list.push(area(page, page + 1, prot_of(page % 2 == 0)))?;
    }
    for i in 0..AREAS {
        let lo = FIRST + WIDE * i;
        list.push(area(lo, lo + WIDE, prot_of(i % 2 == 0)))?;
    }
    Ok(list)
}

/// Four callers change protections, and two fault or one of them maps pages; how many changes were over their areas,
/// and how many under everything.
fn runs<R: Abort + Threads + Wait + Sync>(
    rt: &R,
    alloc: Global,
    trial: Trial,
) -> Result<Counts, Fail> {
    let areas = areas_of(alloc)?;
    assert!(rt; have_named_kinds(&areas) && areas.len() < 1 << 30);
    let start = PlainSpace::of_areas(alloc, &areas)?;
    let Ok((space, mut callers)) = open_crew(alloc, &[TURNS; 6], &start) else {
        panic!(rt; "no space");
    };
    let ways = Ways::open(alloc, 4, TURNS)?;
    change_all(
        rt,
        &space,
        callers.as_mut_slice(),
        trial,
        TURNS,
        true,
        &ways,
    );
    let closed = closed_right(rt, alloc, space, callers, &start)?;
    assert_eq!(rt; closed.entries().len(), 3000);
    ways_are_true(rt, alloc, &start, closed.entries(), &ways)
}

/// The same calls with no way told, on a space that keeps its history or doesn't. No two callers change one page, so
/// the areas that are left are those of the one-thread model where the callers take their turns one after another.
fn leaves_the_models<R: Abort + Threads + Wait + Sync>(
    rt: &R,
    alloc: Global,
    keeps: bool,
    trial: Trial,
) -> Result<(), Fail> {
    let areas = areas_of(alloc)?;
    assert!(rt; have_named_kinds(&areas) && areas.len() < 1 << 30);
    let start = PlainSpace::of_areas(alloc, &areas)?;
    let Ok((space, mut callers)) = open_cut_crew(alloc, keeps, &[TURNS; 6], Cut::one(), &start)
    else {
        panic!(rt; "no space");
    };
    let ways = Ways::open(alloc, 0, 0)?;
    change_all(
        rt,
        &space,
        callers.as_mut_slice(),
        trial,
        TURNS,
        false,
        &ways,
    );
    let left = areas_left(rt, alloc, space, callers);
    let mut model = start.copied(alloc)?;
    for turn in 0..6 * TURNS {
        model.step(&call_of(trial, turn / TURNS, turn % TURNS))?;
    }
    assert_eq!(rt; model.areas(), left.as_slice());
    Ok(())
}

#[test]
fn without_a_history_the_models_areas_are_left(rt: HostRuntime) -> Result<(), Fail> {
    for trial in [Trial::Boundaries, Trial::Splits, Trial::Blocks] {
        leaves_the_models(&rt, rt.alloc(), false, trial)?;
        leaves_the_models(&rt, rt.alloc(), true, trial)?;
    }
    Ok(())
}

#[test]
fn boundaries_move_back_and_forth_over_areas_alone(rt: HostRuntime) -> Result<(), Fail> {
    let counts = runs(&rt, rt.alloc(), Trial::Boundaries)?;
    assert_eq!(rt; (counts.over_areas, counts.under_everything), (2000, 0));
    Ok(())
}

#[test]
fn splits_beside_moving_boundaries_have_true_causes(rt: HostRuntime) -> Result<(), Fail> {
    let counts = runs(&rt, rt.alloc(), Trial::Splits)?;
    assert!(rt; counts.under_everything >= 62);
    assert_eq!(rt;
        u64::wrapping_add(counts.over_areas, counts.under_everything),
        2000
    );
    Ok(())
}

#[test]
fn boundaries_move_beside_blocks_that_are_split_and_emptied(rt: HostRuntime) -> Result<(), Fail> {
    let counts = runs(&rt, rt.alloc(), Trial::Blocks)?;
    assert_eq!(rt;
        u64::wrapping_add(counts.over_areas, counts.under_everything),
        2000
    );
    Ok(())
}
