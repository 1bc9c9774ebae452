//! Bad cases for rows that stand in blocks: changes that split and merge blocks at nearly every call, one that empties
//! several, and rows that go from some blocks to others while no row more may come. Each history is legal by the
//! one-thread model, and the areas at the end are reckoned by hand. No call tells which blocks there are; the sizes are
//! chosen by the rules of `row_blocks`.
ghost use Rattle.std.specs.Prelude.{◌<◌, ◌≤◌, ◌^◌};

use crate::claims::ends_with;
use area_rows::Answer;
use list_cuts::Cut;
use page_types::{Call, Kind, PAGE, Prot};
use space_model::{Area, PlainSpace, have_named_kinds};
use std::alloc::{AllocError, Global};
use std::process::Abort;
use std::sync::Wait;
use std::test::Fail;
use test_crews::{call_by, open_cut_crew};

/// How many single pages are moved; each makes four rows more. With the three rows at the start that is nearly what
/// eight blocks have room for, which is how many the space has then.
const MOVES: u64 = 94;

/// The area out of which they are moved.
const FROM: u64 = 4096;

/// How many turns rows go from some blocks to others, two rows at each.
const TURNS: u64 = 28;

/// How many areas of one page each there are at the limit on rows, and how many of three pages behind them.
const SINGLES: u64 = 130_459;

const TRIPLES: u64 = 600;

fn area(lo: u64, hi: u64, prot: Prot) -> Area {
    Area {
        lo,
        hi,
        kind: Kind {
            prot,
            shared: false,
            sealed: false,
        },
    }
}

/// Reading, or reading and writing, in turn.
fn prot_of(number: u64) -> Prot {
    if number % 2 == 0 {
        Prot::READ
    } else {
        Prot::READ | Prot::WRITE
    }
}

/// One caller makes the calls on a space that starts with the first areas, and can make no other where it keeps its
/// history. The last ones are left.
fn plays_kind<R: Abort + Wait>(
    rt: &R,
    alloc: Global,
    keeps: bool,
    before: &[Area],
    calls: &[Call],
    after: &[Area],
) -> Result<(), Fail> {
    assert!(rt; have_named_kinds(before) && before.len() < 1 << 30 && calls.len() < 1 << 20);
    let start = PlainSpace::of_areas(alloc, before)?;
    let counts = [calls.len() as u32];
    let Ok((space, mut callers)) = open_cut_crew(alloc, keeps, &counts, Cut::one(), &start) else {
        panic!(rt; "no space");
    };
    for call in calls {
        assert!(rt; call.is_named());
        let answer = call_by(rt, &space, callers.as_mut_slice(), 1, *call);
        assert!(rt; answer != Answer::Spent);
    }
    ends_with(rt, alloc, keeps, space, callers, &start, calls.len(), after)
}

/// The same on a space of each kind.
fn plays<R: Abort + Wait>(
    rt: &R,
    alloc: Global,
    before: &[Area],
    calls: &[Call],
    after: &[Area],
) -> Result<(), Fail> {
    plays_kind(rt, alloc, true, before, calls, after)?;
    plays_kind(rt, alloc, false, before, calls, after)
}

/// Pages out of the middle of an area go to places in the gap below it, and have a page more there. They are taken in
/// steps of `apart`. Then one unmap takes most rows.
fn moves(alloc: Global, apart: u64) -> Result<Vec<Call>, AllocError>
    requires { apart < 94 }
{
    let mut calls = Vec::new(alloc);
    for turn in 0..MOVES {
        let at = turn * apart % MOVES;
        calls.push(Call::Remap {
            addr: (FROM + 1 + 2 * at) * PAGE,
            old_len: PAGE,
            new_len: 2 * PAGE,
            may_move: true,
            hint: (16 + 3 * at) * PAGE,
        })?;
    }
    calls.push(Call::Unmap {
        addr: 60 * PAGE,
        len: (FROM + 120 - 60) * PAGE,
    })?;
    Ok(calls)
}

/// What is left then: places below the pages that were unmapped, and single pages above them.
fn moved(alloc: Global) -> Result<Vec<Area>, AllocError> {
    let mut left = Vec::new(alloc);
    for i in 0..15 {
        left.push(area(16 + 3 * i, 18 + 3 * i, Prot::READ))?;
    }
    for i in 60..95 {
        left.push(area(FROM + 2 * i, FROM + 2 * i + 1, Prot::READ))?;
    }
    Ok(left)
}

#[test]
fn blocks_are_split_and_merged_where_all_are_in_use(rt: HostRuntime) -> Result<(), Fail> {
    let alloc = rt.alloc();
    let whole = [area(FROM, FROM + 2 * MOVES + 1, Prot::READ)];
    let left = moved(alloc)?;
    // from the bottom up, from the top down, and scattered
    for apart in [1, 93, 41] {
        let calls = moves(alloc, apart)?;
        plays(&rt, alloc, &whole, calls.as_slice(), left.as_slice())?;
    }
    Ok(())
}

/// As many areas as there may be, and no gap between them: 131,061 rows. So many triples have another middle page, and
/// so many times three single pages have become one area with those before.
fn full(alloc: Global, changed: u64) -> Result<Vec<Area>, AllocError>
    requires { changed ≤ 28 }
{
    let mut list = Vec::new(alloc);
    list.push(area(16, 17 + 2 * changed, Prot::READ))?;
    for i in 2 * changed + 1..SINGLES {
        list.push(area(16 + i, 17 + i, prot_of(i)))?;
    }
    for i in 0..TRIPLES {
        let lo = 16 + SINGLES + 3 * i;
        let prot = prot_of(SINGLES + i);
        if i < changed {
            list.push(area(lo, lo + 1, prot))?;
            list.push(area(lo + 1, lo + 2, Prot::READ | Prot::EXEC))?;
            list.push(area(lo + 2, lo + 3, prot))?;
        } else {
            list.push(area(lo, lo + 3, prot))?;
        }
    }
    Ok(list)
}

/// A change of the protection of one page.
fn protect(page: u64, prot: Prot) -> Call
    requires { page < 2 ^ 40 }
{
    Call::Protect {
        addr: page * PAGE,
        len: PAGE,
        prot,
    }
}

#[test]
fn at_the_limit_on_rows_they_go_from_some_blocks_to_others(rt: HostRuntime) -> Result<(), Fail> {
    let alloc = rt.alloc();
    let mut calls = Vec::new(alloc);
    for turn in 0..TURNS {
        // three areas of one page become one, and one of three pages becomes three
        calls.push(protect(17 + 2 * turn, Prot::READ))?;
        let middle = 16 + SINGLES + 3 * turn + 1;
        calls.push(protect(middle, Prot::READ | Prot::EXEC))?;
    }
    let before = full(alloc, 0)?;
    let after = full(alloc, TURNS)?;
    plays(
        &rt,
        alloc,
        before.as_slice(),
        calls.as_slice(),
        after.as_slice(),
    )
}
