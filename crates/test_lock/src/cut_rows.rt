//! Which list a cut gives to a number, and which lists to a range, row by row: seven regions in blocks of 65,536
//! numbers, as a table of sixteen seats has them, and one region.
use list_cuts::{BadCut, Cut};
use lock_core::Range;
use std::process::Abort;
use std::test::Fail;

const BLOCK: u64 = 65_536;

/// How many lists the range takes, and the sum of their numbers.
fn lists_of(cut: &Cut, range: Range) -> (u32, u32) {
    let mut count: u32 = 0;
    let mut sum: u32 = 0;
    for list in 0..cut.lists() {
        if cut.takes(range, list) {
            count = count.wrapping_add(1);
            sum = sum.wrapping_add(list);
        }
    }
    (count, sum)
}

/// Numbers, and the list of each.
const NUMBERS: [(u64, u32); 5] = [
    (0, 1),
    (BLOCK - 1, 1),
    (BLOCK, 2),
    (6 * BLOCK, 7),
    (7 * BLOCK, 1),
];

#[test]
fn blocks_are_dealt_out_in_turn(rt: HostRuntime) -> Result<(), Fail> {
    let cut = Cut::of(7, 16)?;
    assert_eq!(rt; cut.lists(), 8);
    for (number, list) in NUMBERS.iter() {
        assert_eq!(rt; cut.list_of(*number), *list, "list of {number}");
    }
    Ok(())
}

/// Ranges, how many lists each takes and the sum of their numbers, and the list that it takes alone.
const RANGES: [((u64, u64), (u32, u32), Option<u32>); 6] = [
    // one block; two; round the end; all but one; all, whose list 0 has no number
    ((0, BLOCK), (1, 1), Some(1)),
    ((BLOCK - 1, BLOCK + 1), (2, 3), None),
    ((6 * BLOCK, 7 * BLOCK + 1), (2, 8), None),
    ((BLOCK, 7 * BLOCK), (6, 27), None),
    ((1, 7 * BLOCK + 1), (7, 28), None),
    ((0, 4_611_686_018_427_387_904), (7, 28), None),
];

#[test]
fn a_range_takes_the_lists_of_its_numbers(rt: HostRuntime) -> Result<(), Fail> {
    let cut = Cut::of(7, 16)?;
    for ((lo, hi), lists, only) in RANGES.iter() {
        let range = Range::of(*lo, *hi)?;
        assert_eq!(rt; lists_of(&cut, range), *lists, "lists of {lo} to {hi}");
        assert_eq!(rt; cut.only(range), *only, "the one list of {lo} to {hi}");
    }
    Ok(())
}

#[test]
fn one_region_has_one_list(rt: HostRuntime) -> Result<(), Fail> {
    let cut = Cut::one();
    assert_eq!(rt; cut.lists(), 1);
    let all = Range::of(0, 4_611_686_018_427_387_904)?;
    assert_eq!(rt; lists_of(&cut, all), (1, 0));
    assert_eq!(rt; cut.only(all), Some(0));
    Ok(())
}

/// Cuts that are none: how many regions, and how many bits a block has.
const BAD: [(u32, u32); 4] = [(0, 16), (17, 16), (1, 63), (16, 64)];

#[test]
fn cuts_have_bounds(rt: HostRuntime) -> Result<(), Fail> {
    for (regions, bits) in BAD.iter() {
        let refused = BadCut {
            regions: *regions,
            bits: *bits,
        };
        assert_eq!(rt; Cut::of(*regions, *bits), Err(refused));
    }
    assert!(rt; Cut::of(16, 62).is_ok());
    Ok(())
}
