//! The words of a space at its opening: the counts, the rows of the start in blocks, words that aren't used, how many
//! blocks there is room for, and how many numbers each caller may draw. A reader may rely on the number of all words of
//! a table telling how many blocks there are, with any number of lists.
ghost use Rattle.std.specs.Prelude.{ℕ, All, ◌≡◌, ◌≤◌, ◌<◌, ◌+◌, ◌*◌, ◌-◌, ◌/◌, ◌%◌, ◌^◌, ◌++◌, IfOk, OnOk, drop, length, slice_index};
ghost use Rattle.page_types.specs.declared.TheConstants.{LIMIT};
ghost use Rattle.space_model.specs.Areas.{IsAreaList, HasNamedKinds, row_count};
ghost use Rattle.row_plans.specs.RowLists.{gap_rows, rows_from};
ghost use Rattle.row_plans.specs.RowWords.{row_start};
ghost use Rattle.row_blocks.specs.Blocks.{IsLaidOut, blocks_of, rows_of, rows_in};
ghost use Rattle.row_blocks.specs.Gaps.{GapsTold};
ghost use Rattle.area_guard.specs.Rows.{keeps_in, number_place};
ghost use Rattle.area_rows.specs.Opening.{IsOpening, told_of};

use crate::words::{FIRST_ROW, ROW_COUNT};
use page_types::LIMIT;
use row_blocks::fill;
use row_plans::write_row;
use space_model::Area;
use std::alloc::{AllocError, Global};

/// Appends the row of a gap between two pages, if there is one.
fn push_gap(words: &mut Vec<u64>, lo: u64, hi: u64) -> Result<(), AllocError>
    requires { hi ≤ LIMIT }
    ensures { OnOk result (words.new.items ≡ words.old.items ++ gap_rows lo hi) }
{
    if lo < hi {
        words.push(write_row(lo, None))?;
    }
    Ok(())
}

/// Appends the rows of an area list.
fn push_rows(words: &mut Vec<u64>, areas: &[Area]) -> Result<(), AllocError>
    requires in_order { IsAreaList areas.now }
    requires named { HasNamedKinds areas.now }
    ensures { OnOk result (words.new.items ≡ words.old.items ++ rows_from 0 areas.now) }
{
    let mut at = 0;
    'areas: for area in areas {
        push_gap(words, at, area.lo)?;
        words.push(write_row(area.lo, Some(area.kind)))?;
        at = area.hi;
    }
    push_gap(words, at, LIMIT)
}

/// Sets how many numbers each caller may draw, from a place on.
fn set_quotas(words: &mut [u64], from: usize, calls: &[u64])
    requires { from + length calls.now ≤ length words.old }
    ensures length { length words.new ≡ length words.old }
    ensures quotas { (n : ℕ) → n < length calls.now → slice_index words.new (from + n) ≡ slice_index calls.now n }
    ensures below { (s : ℕ) → s < from → slice_index words.new s ≡ slice_index words.old s }
{
    let mut k = 0;
    'callers: while k < calls.len() {
        words[from + k] = calls[k];
        k += 1;
    }
}

/// How many words are left unused, so that the number of all words of a table, divided by 514, leaves an eighth of the
/// number of blocks, and 257 more where the space keeps no history. `lock` is how many words the lock has.
pub(crate) fn spare_words(lock: u64, blocks: u32, keeps: bool) -> u32
    requires lock { lock ≤ 2 ^ 32 }
    requires few { blocks ≤ 2048 }
    ensures tells { (lock + (36 + 129 * blocks + result)) % 514 ≡ told_of blocks keeps }
    ensures most { result < 514 }
{
    let wide = lock + (36 + 129 * u64::from(blocks));
    let told = u64::from(blocks / 8) + if keeps { 0 } else { 257 };
    ((told + 513 * wide) % 514) as u32
}

/// All words but those of the rows: no entry, none under everything, the row count, whether the space
/// keeps its history, how many blocks there are, and how many numbers each caller may draw.
fn words_around(
    alloc: Global,
    calls: &[u64],
    keeps: bool,
    rows: u32,
    blocks: u32,
    spare: u32,
) -> Result<Vec<u64>, AllocError>
    requires callers { length calls.now ≤ 16 }
    requires few { blocks ≤ 2048 }
    requires spare { spare < 514 }
    ensures wide { IfOk result (λ words. length words.items ≡ 36 + 129 * blocks + spare) }
    ensures number { IfOk result (λ words. slice_index words.items (number_place blocks) ≡ 0) }
    ensures sequence { IfOk result (λ words. slice_index words.items 1 ≡ 0) }
    ensures count { IfOk result (λ words. slice_index words.items 2 ≡ rows) }
    ensures blocks { IfOk result (λ words. slice_index words.items (length words.items - 17) ≡ blocks) }
    ensures kept { IfOk result (λ words. keeps_in words.items ≡ keeps) }
    ensures quotas { IfOk result (λ words. (n : ℕ) → n < length calls.now
        → slice_index words.items (length words.items - 16 + n) ≡ slice_index calls.now n) }
{
    let all = 36 + 129 * blocks as usize + spare as usize;
    let mut words = vec![in alloc; 0; all]?;
    words[ROW_COUNT as usize] = u64::from(rows);
    words[all - 18] = if keeps { 1 } else { 0 };
    words[all - 17] = u64::from(blocks);
    set_quotas(words.as_mut_slice(), all - 16, calls);
    Ok(words)
}

/// Lays the rows out behind the first three words.
fn lay_rows(words: &mut Vec<u64>, blocks: usize, rows: &[u64])
    requires few { blocks ≤ 2048 }
    requires wide { 4 + 129 * blocks ≤ length words.old.items }
    requires some { 0 < length rows.now }
    requires room { 2 * length rows.now < 129 * (blocks - 2) }
    requires low { All (λ w. row_start w ≤ LIMIT) rows.now }
    ensures laid { IsLaidOut blocks (drop 3 words.new.items) }
    ensures same { rows_in blocks (drop 3 words.new.items) ≡ rows.now }
    ensures free { blocks_of blocks (drop 3 words.new.items) < blocks }
    ensures short { rows_of blocks (drop 3 words.new.items) 0 < 64 }
    ensures told { GapsTold blocks (drop 3 words.new.items) }
    ensures length { length words.new.items ≡ length words.old.items }
    ensures first { (s : ℕ) → s < 3 → slice_index words.new.items s ≡ slice_index words.old.items s }
    ensures above { (s : ℕ) → 4 + 129 * blocks ≤ s → slice_index words.new.items s ≡ slice_index words.old.items s }
{
    fill(
        &mut words.as_mut_slice()[FIRST_ROW as usize..],
        blocks,
        rows,
    );
}

/// The client words of a space that starts with these areas, with so many blocks of rows, and so many words unused.
pub(crate) fn words_of(
    alloc: Global,
    start: &[Area],
    calls: &[u64],
    keeps: bool,
    rows: u32,
    blocks: u32,
    spare: u32,
) -> Result<Vec<u64>, AllocError>
    requires in_order { IsAreaList start.now }
    requires named { HasNamedKinds start.now }
    requires callers { length calls.now ≤ 16 }
    requires rows { rows ≡ row_count start.now }
    requires fits { 2 * rows < 129 * (blocks - 2) }
    requires few { blocks ≤ 2048 }
    requires spare { spare < 514 }
    ensures words { IfOk result (λ words. IsOpening start.now calls.now blocks keeps words.items) }
    ensures wide { IfOk result (λ words. length words.items ≡ 36 + 129 * blocks + spare) }
{
    let mut list = Vec::with_capacity(alloc, rows as usize)?;
    push_rows(&mut list, start)?;
    let mut words = words_around(alloc, calls, keeps, rows, blocks, spare)?;
    lay_rows(&mut words, blocks as usize, list.as_slice());
    Ok(words)
}
