//! The search down the rows for one with so many free pages: within a block row by row, and over the blocks before it
//! by the largest gaps that their body words tell. So it reads the rows of two blocks at most. A reader may rely on no
//! word being stored.
ghost use Rattle.std.specs.Prelude.{ℕ, MatchOption, ◌≡◌, ◌<◌, ◌≤◌, ◌+◌, ◌*◌, length, drop, slice_index};
ghost use Rattle.row_plans.specs.RowWords.{row_start};
ghost use Rattle.row_plans.specs.RowLists.{rows_start};
ghost use Rattle.row_plans.specs.Gaps.{HasNoGap, IsGapBefore};
ghost use Rattle.row_blocks.specs.Blocks.{IsLaidOut, blocks_of, body_at, count_to, rank, rows_of, rows_in};
ghost use Rattle.row_blocks.specs.Gaps.{GapsTold, gap_of};

use crate::gaps::GAP;
use crate::laying::slot_of;
use crate::positions::{Position, body_of};
use crate::words::Loads;
use row_plans::free_pages;

/// The page at which the last row of a block ends, of those before a place, that has so many free pages. The row at the
/// place, or the next block, starts at `start`.
fn gap_in_block<W: Loads>(
    words: &W,
    hand: &mut W::Hand,
    blocks: usize,
    at: Position,
    body: usize,
    start: u64,
    pages: u64,
) -> Option<u64>
    requires few { blocks ≤ 2048 }
    requires may { W.may_store words.now hand.old }
    requires laid { IsLaidOut blocks (W.words words.now hand.old) }
    requires there { at.block < blocks_of blocks (W.words words.now hand.old) }
    requires place { at.place ≤ rows_of blocks (W.words words.now hand.old) at.block + 1 }
    requires body { body ≡ body_at blocks (W.words words.now hand.old) at.block }
    requires start { start ≡ rows_start (drop (rank blocks (W.words words.now hand.old) at.block at.place) (rows_in blocks (W.words words.now hand.old))) }
    ensures gap { MatchOption result
        (HasNoGap (rows_in blocks (W.words words.now hand.old)) (count_to blocks (W.words words.now hand.old) at.block)
        (rank blocks (W.words words.now hand.old) at.block at.place) pages)
        (IsGapBefore (rows_in blocks (W.words words.now hand.old)) (rank blocks (W.words words.now hand.old) at.block at.place) pages) }
    ensures words { W.words words.now hand.new ≡ W.words words.now hand.old }
    ensures may { W.may_store words.now hand.new }
    ensures rows { (w : ℕ) → W.is_row words.now hand.old w → W.is_row words.now hand.new w }
    ensures kept { W.kept words.now hand.old hand.new }
    ensures steps { W.steps words.now hand.new ≤ W.steps words.now hand.old + at.place }
{
    let mut end = start;
    let mut k = at.place;
    'rows: while k > 0 {
        k -= 1;
        let row = Position {
            block: at.block,
            place: k,
        };
        let word = words.load(hand, slot_of(row, body));
        if free_pages(word, end) >= pages {
            return Some(end);
        }
        end = word / 64;
    }
    None
}

/// The last block before another one whose body word tells a gap of so many pages.
fn block_with<W: Loads>(
    words: &W,
    hand: &mut W::Hand,
    blocks: usize,
    i: usize,
    pages: u64,
) -> Option<usize>
    requires few { blocks ≤ 2048 }
    requires may { W.may_store words.now hand.old }
    requires laid { IsLaidOut blocks (W.words words.now hand.old) }
    requires there { i < blocks_of blocks (W.words words.now hand.old) }
    ensures block { MatchOption result
        ((k : ℕ) → k < i → gap_of blocks (W.words words.now hand.old) k < pages)
        (λ j. (j < i) × (pages ≤ gap_of blocks (W.words words.now hand.old) j)
        × ((k : ℕ) → j < k → k < i → gap_of blocks (W.words words.now hand.old) k < pages)) }
    ensures words { W.words words.now hand.new ≡ W.words words.now hand.old }
    ensures may { W.may_store words.now hand.new }
    ensures rows { (w : ℕ) → W.is_row words.now hand.old w → W.is_row words.now hand.new w }
    ensures kept { W.kept words.now hand.old hand.new }
    ensures steps { W.steps words.now hand.new ≤ W.steps words.now hand.old + i }
{
    let mut j = i;
    'passed: while j > 0 {
        j -= 1;
        let packed = words.load(hand, 128 * blocks + 1 + j);
        let gap = packed / GAP;
        if gap >= pages {
            return Some(j);
        }
    }
    None
}

/// The page at which the last row of a block ends that has so many free pages.
fn gap_at_end<W: Loads>(
    words: &W,
    hand: &mut W::Hand,
    blocks: usize,
    i: usize,
    pages: u64,
) -> Option<u64>
    requires few { blocks ≤ 2048 }
    requires may { W.may_store words.now hand.old }
    requires laid { IsLaidOut blocks (W.words words.now hand.old) }
    requires there { i + 1 < blocks_of blocks (W.words words.now hand.old) }
    ensures gap { MatchOption result
        (HasNoGap (rows_in blocks (W.words words.now hand.old)) (count_to blocks (W.words words.now hand.old) i)
        (count_to blocks (W.words words.now hand.old) (i + 1)) pages)
        (IsGapBefore (rows_in blocks (W.words words.now hand.old)) (count_to blocks (W.words words.now hand.old) (i + 1)) pages) }
    ensures words { W.words words.now hand.new ≡ W.words words.now hand.old }
    ensures may { W.may_store words.now hand.new }
    ensures rows { (w : ℕ) → W.is_row words.now hand.old w → W.is_row words.now hand.new w }
    ensures kept { W.kept words.now hand.old hand.new }
    ensures steps { W.steps words.now hand.new ≤ W.steps words.now hand.old + (rows_of blocks (W.words words.now hand.old) i + 3) }
{
    let body = body_of(words, hand, blocks, i);
    let end = words.load(hand, i + 1) / 64;
    let at = Position {
        block: i,
        place: body.rows + 1,
    };
    gap_in_block(words, hand, blocks, at, body.at, end, pages)
}

/// The page at which the last row ends, before the one at a position that starts at `start`, that has so many free
/// pages at or above `LOWEST`; or None where none has. It loads as many words as there are blocks in use, and rows of
/// two blocks.
pub fn gap_before<W: Loads>(
    words: &W,
    hand: &mut W::Hand,
    blocks: usize,
    at: Position,
    start: u64,
    pages: u64,
) -> Option<u64>
    requires few { blocks ≤ 2048 }
    requires may { W.may_store words.now hand.old }
    requires laid { IsLaidOut blocks (W.words words.now hand.old) }
    requires there { at.block < blocks_of blocks (W.words words.now hand.old) }
    requires place { at.place ≤ rows_of blocks (W.words words.now hand.old) at.block }
    requires start { start ≡ row_start (slice_index (rows_in blocks (W.words words.now hand.old))
        (rank blocks (W.words words.now hand.old) at.block at.place)) }
    requires told { GapsTold blocks (W.words words.now hand.old) }
    requires some { 0 < pages }
    ensures gap { MatchOption result
        (HasNoGap (rows_in blocks (W.words words.now hand.old)) 0 (rank blocks (W.words words.now hand.old) at.block at.place) pages)
        (IsGapBefore (rows_in blocks (W.words words.now hand.old)) (rank blocks (W.words words.now hand.old) at.block at.place) pages) }
    ensures words { W.words words.now hand.new ≡ W.words words.now hand.old }
    ensures may { W.may_store words.now hand.new }
    ensures rows { (w : ℕ) → W.is_row words.now hand.old w → W.is_row words.now hand.new w }
    ensures kept { W.kept words.now hand.old hand.new }
    ensures steps { W.steps words.now hand.new ≤ W.steps words.now hand.old + (blocks_of blocks (W.words words.now hand.old) + 257) }
{
    let body = body_of(words, hand, blocks, at.block);
    if let Some(end) = gap_in_block(words, hand, blocks, at, body.at, start, pages) {
        return Some(end);
    }
    match block_with(words, hand, blocks, at.block, pages) {
        Some(i) => gap_at_end(words, hand, blocks, i, pages),
        None => None,
    }
}
