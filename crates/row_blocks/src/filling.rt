//! A list of rows laid out in blocks over plain words, before anybody else has them, and read back in order from words
//! that nobody else has any more. Blocks are filled to three quarters of what they may have before they are split, so
//! that rows that come soon split none. A reader may rely on no memory being taken, and on a row standing nowhere but
//! where the layout says, and on each body word telling the largest gap of its block.
ghost use Rattle.std.specs.Prelude.{ℕ, All, ◌≡◌, ◌≢◌, ◌++◌, ◌+◌, ◌-◌, ◌*◌, ◌/◌, ◌%◌, ◌<◌, ◌≤◌, length, min, drop, slice_index, vec_capacity};
ghost use Rattle.page_types.specs.declared.TheConstants.{LIMIT, ROWS};
ghost use Rattle.row_plans.specs.RowWords.{row_start};
ghost use Rattle.row_plans.specs.RowLists.{rows_start};
ghost use Rattle.row_blocks.specs.Blocks.{IsLaidOut, block, blocks_of, body_at, rows_in, rows_of};
ghost use Rattle.row_blocks.specs.Gaps.{GapsTold, IsLargestGap};

use crate::gaps::GAP;
use page_types::LIMIT;
use row_plans::free_pages;

/// So many blocks as always have room for so many rows: the fewest of a multiple of 8. No list has more than `ROWS`.
pub fn blocks_for(rows: usize) -> usize
    requires { rows ≤ ROWS }
    ensures room { 2 * rows < 129 * (result - 2) }
    ensures eights { result % 8 ≡ 0 }
    ensures most { result ≤ 2048 }
    ensures least { (blocks : ℕ) → blocks % 8 ≡ 0 → 2 * rows < 129 * (blocks - 2) → result ≤ blocks }
{
    (2 * rows / 129 + 10) / 8 * 8
}

/// How many rows each block gets: three quarters of what it may have before it is split, and more where these would
/// take more than three quarters of the blocks.
fn rows_each(blocks: usize, rows: usize) -> usize
    requires few { blocks ≤ 2048 }
    requires room { 2 * rows < 129 * (blocks - 2) }
    ensures some { 0 < result }
    ensures most { result ≤ 96 }
    ensures fits { rows ≤ min result 48 + result * (blocks - 2) }
{
    let used = 3 * blocks / 4;
    if rows <= 24 * used.min(255) {
        return 24;
    }
    if rows <= 48 * used.min(1023) {
        return 48;
    }
    96
}

/// Block i gets body i, with no row.
fn number(words: &mut [u64], blocks: usize)
    requires few { blocks ≤ 2048 }
    requires wide { 129 * blocks + 1 ≤ length words.old }
    ensures length { length words.new ≡ length words.old }
    ensures told { (k : ℕ) → k < blocks → slice_index words.new (128 * blocks + 1 + k) ≡ 128 * k }
    ensures below { (s : ℕ) → s < 128 * blocks + 1 → slice_index words.new s ≡ slice_index words.old s }
    ensures above { (s : ℕ) → 129 * blocks + 1 ≤ s → slice_index words.new s ≡ slice_index words.old s }
{
    let told = 128 * blocks + 1;
    let mut k = 0;
    'bodies: while k < blocks {
        words[told + k] = 128 * k as u64;
        k += 1;
    }
}

/// Lays so many rows of a list, from one on, one behind the other.
fn lay_run(words: &mut [u64], to: usize, rows: &[u64], from: usize, count: usize)
    requires to { to + count ≤ length words.old }
    requires from { from + count ≤ length rows.now }
    ensures length { length words.new ≡ length words.old }
    ensures laid { (m : ℕ) → m < count → slice_index words.new (to + m) ≡ slice_index rows.now (from + m) }
    ensures below { (s : ℕ) → s < to → slice_index words.new s ≡ slice_index words.old s }
    ensures above { (s : ℕ) → to + count ≤ s → slice_index words.new s ≡ slice_index words.old s }
{
    let mut k = 0;
    'copies: while k < count {
        words[to + k] = rows[from + k];
        k += 1;
    }
}

/// Where the row of a number starts, or `LIMIT` behind the last one.
fn start_of(rows: &[u64], number: usize) -> u64
    ensures { result ≡ rows_start (drop number rows.now) }
{
    if number < rows.len() {
        return rows[number] / 64;
    }
    LIMIT
}

/// The largest gap of so many rows of a list, from one on.
fn gap_of_run(rows: &[u64], from: usize, count: usize) -> u64
    requires within { from + count ≤ length rows.now }
    requires low { All (λ w. row_start w ≤ LIMIT) rows.now }
    ensures largest { IsLargestGap rows.now from (from + count) result }
    ensures low { result ≤ LIMIT }
{
    let mut gap: u64 = 0;
    let mut k = 0;
    'read: while k < count {
        let end = start_of(rows, from + k + 1);
        gap = gap.max(free_pages(rows[from + k], end));
        k += 1;
    }
    gap
}

/// Stores the body word of block i, in body i, and counts it in use.
fn lay_told(words: &mut [u64], blocks: usize, i: usize, gap: u64, count: usize)
    requires few { blocks ≤ 2048 }
    requires wide { 129 * blocks + 1 ≤ length words.old }
    requires there { i < blocks }
    requires low { gap ≤ LIMIT }
    requires some { 0 < count }
    requires most { count ≤ 128 }
    ensures length { length words.new ≡ length words.old }
    ensures told { slice_index words.new (128 * blocks + 1 + i) ≡ gap * 262144 + 128 * i + (count - 1) }
    ensures used { slice_index words.new (128 * blocks) ≡ i + 1 }
    ensures others { (s : ℕ) → s ≢ 128 * blocks → s ≢ 128 * blocks + 1 + i → slice_index words.new s ≡ slice_index words.old s }
{
    words[128 * blocks + 1 + i] = gap * GAP + 128 * i as u64 + (count as u64 - 1);
    words[128 * blocks] = i as u64 + 1;
}

/// Lays so many rows of a list, from one on, as a block behind all others.
fn lay_block(words: &mut [u64], blocks: usize, i: usize, rows: &[u64], from: usize, count: usize)
    requires few { blocks ≤ 2048 }
    requires wide { 129 * blocks + 1 ≤ length words.old }
    requires there { i < blocks }
    requires some { 0 < count }
    requires most { count ≤ 128 }
    requires within { from + count ≤ length rows.now }
    requires low { All (λ w. row_start w ≤ LIMIT) rows.now }
    ensures length { length words.new ≡ length words.old }
    ensures first { slice_index words.new i ≡ slice_index rows.now from }
    ensures others { (m : ℕ) → m < count - 1 → slice_index words.new (blocks + 127 * i + m) ≡ slice_index rows.now (from + 1 + m) }
    ensures told { slice_index words.new (128 * blocks + 1 + i) % 262144 ≡ 128 * i + (count - 1) }
    ensures gap { IsLargestGap rows.now from (from + count) (slice_index words.new (128 * blocks + 1 + i) / 262144) }
    ensures used { slice_index words.new (128 * blocks) ≡ i + 1 }
    ensures heads { (s : ℕ) → s < blocks → s ≢ i → slice_index words.new s ≡ slice_index words.old s }
    ensures below { (s : ℕ) → blocks ≤ s → s < blocks + 127 * i → slice_index words.new s ≡ slice_index words.old s }
    ensures above { (s : ℕ) → blocks + 127 * i + (count - 1) ≤ s → s ≢ 128 * blocks → s ≢ 128 * blocks + 1 + i
        → slice_index words.new s ≡ slice_index words.old s }
{
    lay_run(words, blocks + 127 * i, rows, from + 1, count - 1);
    words[i] = rows[from];
    let gap = gap_of_run(rows, from, count);
    lay_told(words, blocks, i, gap, count);
}

/// Lays out rows in order, with block i in body i, whose body word tells its largest gap. Words that aren't used stay
/// as they were. No row may start above `LIMIT`.
pub fn fill(words: &mut [u64], blocks: usize, rows: &[u64])
    requires few { blocks ≤ 2048 }
    requires wide { 129 * blocks + 1 ≤ length words.old }
    requires some { 0 < length rows.now }
    requires room { 2 * length rows.now < 129 * (blocks - 2) }
    requires low { All (λ w. row_start w ≤ LIMIT) rows.now }
    ensures laid { IsLaidOut blocks words.new }
    ensures same { rows_in blocks words.new ≡ rows.now }
    ensures free { blocks_of blocks words.new < blocks }
    ensures short { rows_of blocks words.new 0 < 64 }
    ensures told { GapsTold blocks words.new }
    ensures length { length words.new ≡ length words.old }
    ensures heads { (s : ℕ) → blocks_of blocks words.new ≤ s → s < blocks → slice_index words.new s ≡ slice_index words.old s }
    ensures bodies { (i j : ℕ) → i < blocks → rows_of blocks words.new i ≤ j → j < 127
        → slice_index words.new (body_at blocks words.new i + j) ≡ slice_index words.old (body_at blocks words.new i + j) }
    ensures above { (s : ℕ) → 129 * blocks + 1 ≤ s → slice_index words.new s ≡ slice_index words.old s }
{
    number(words, blocks);
    let each = rows_each(blocks, rows.len());
    let first = each.min(48).min(rows.len());
    lay_block(words, blocks, 0, rows, 0, first);
    let mut i = 1;
    let mut taken = first;
    'next: while taken < rows.len() {
        let count = each.min(rows.len() - taken);
        lay_block(words, blocks, i, rows, taken, count);
        taken += count;
        i += 1;
    }
}

/// Appends the rows of a block.
fn gather_block(words: &[u64], blocks: usize, i: usize, out: &mut Vec<u64>)
    requires few { blocks ≤ 2048 }
    requires laid { IsLaidOut blocks words.now }
    requires there { i < blocks }
    requires room { length out.old.items + (1 + rows_of blocks words.now i) ≤ vec_capacity out.old }
    ensures rows { out.new.items ≡ out.old.items ++ block blocks words.now i }
    ensures room { vec_capacity out.new ≡ vec_capacity out.old }
{
    let packed = words[128 * blocks + 1 + i];
    let at = blocks + 127 * (packed / 128 % 2048) as usize;
    let count = (packed % 128) as usize;
    out.push_reserved(words[i]);
    let mut k = 0;
    'body: while k < count {
        out.push_reserved(words[at + k]);
        k += 1;
    }
}

/// Appends all rows, in order, where there is room for them.
pub fn gather(words: &[u64], blocks: usize, out: &mut Vec<u64>)
    requires few { blocks ≤ 2048 }
    requires laid { IsLaidOut blocks words.now }
    requires room { length out.old.items + length (rows_in blocks words.now) ≤ vec_capacity out.old }
    ensures same { out.new.items ≡ out.old.items ++ rows_in blocks words.now }
    ensures room { vec_capacity out.new ≡ vec_capacity out.old }
{
    let used = words[128 * blocks] as usize;
    let mut i = 0;
    'next: while i < used {
        gather_block(words, blocks, i, out);
        i += 1;
    }
}
