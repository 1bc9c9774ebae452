//! Rows that are laid out in many sizes and read back. A reader may rely on what `fill` asks being met with as many
//! blocks as `blocks_for` tells.
ghost use Rattle.std.specs.Prelude.{All, ◌<◌, ◌≤◌, ◌≡◌, length};
ghost use Rattle.page_types.specs.declared.TheConstants.{LIMIT, ROWS};
ghost use Rattle.row_plans.specs.RowWords.{row_start};

use row_blocks::{blocks_for, fill, gather};
use std::alloc::{AllocError, Global};
use std::process::Abort;
use std::test::Fail;

/// Rows that all differ.
fn set_all(rows: &mut [u64])
    requires few { length rows.old ≤ ROWS }
    requires low { All (λ w. row_start w ≤ LIMIT) rows.old }
    ensures length { length rows.new ≡ length rows.old }
    ensures low { All (λ w. row_start w ≤ LIMIT) rows.new }
{
    for k in 0..rows.len() {
        rows[k] = 3 * k as u64 + 1;
    }
}

/// Lays out so many rows in the fewest blocks, and reads them back.
fn fill_and_gather<A: Abort>(rt: &A, alloc: Global, count: usize) -> Result<(), AllocError>
    requires some { 0 < count }
    requires few { count ≤ ROWS }
{
    let blocks = blocks_for(count);
    let mut rows = Vec::new(alloc);
    rows.resize(count, 0)?;
    set_all(rows.as_mut_slice());
    let mut words = Vec::new(alloc);
    words.resize(129 * blocks + 1, 0)?;
    let mut out = Vec::with_capacity(alloc, count)?;
    fill(words.as_mut_slice(), blocks, rows.as_slice());
    gather(words.as_slice(), blocks, &mut out);
    assert_eq!(rt; out.as_slice(), rows.as_slice());
    Ok(())
}

#[test]
fn rows_in_many_sizes_are_read_back(rt: HostRuntime) -> Result<(), Fail> {
    let alloc = rt.alloc();
    for count in 1..60 {
        fill_and_gather(&rt, alloc, count)?;
    }
    for k in 0..9 {
        fill_and_gather(&rt, alloc, 386 + 14_561 * k)?;
    }
    fill_and_gather(&rt, alloc, 131_061)?;
    Ok(())
}

#[test]
fn blocks_are_the_fewest_that_have_room(rt: HostRuntime) -> Result<(), Fail> {
    assert_eq!(rt; blocks_for(0), 8);
    assert_eq!(rt; blocks_for(386), 8);
    assert_eq!(rt; blocks_for(387), 16);
    assert_eq!(rt; blocks_for(131_061), 2040);
    Ok(())
}
