//! Room for a few rows more in a block, by a split where it would have too many. The limits are this project's own,
//! measured: blocks are small while there are few of them. Block 0 has at most 64 rows, so that a search which loads
//! its head takes no load more than another one. A reader may rely on the rows being the same.
ghost use Rattle.std.specs.Prelude.{ℕ, All, [], ◌≡◌, ◌≢◌, ◌+◌, ◌-◌, ◌*◌, ◌/◌, ◌<◌, ◌≤◌, length, slice_index};
ghost use Rattle.std.specs.List.{splice};
ghost use Rattle.row_blocks.specs.Blocks.{IsLaidOut, blocks_of, rows_of, rows_in, count_to, rank, told};
ghost use Rattle.row_blocks.specs.Gaps.{IsBeside};
ghost use Rattle.row_blocks.specs.Limits.{limit_of};

use crate::positions::{Position, body_of};
use crate::splitting::split;
use crate::words::Words;

/// How many rows a block may have before it is split, where so many of the blocks are in use: few, as long as more than
/// half of them are free, and more where they get scarce.
pub(crate) fn most_rows(blocks: usize, count: usize, block: usize) -> usize
    requires few { blocks ≤ 2048 }
    requires count { count ≤ blocks }
    ensures low { 32 ≤ result }
    ensures high { result ≤ 128 }
    ensures first { block ≡ 0 → result ≤ 64 }
    ensures limit { result ≡ limit_of blocks count block }
{
    if count < 256 && 2 * count < blocks {
        return 32;
    }
    if block == 0 || count < 1024 && 4 * count < 3 * blocks {
        return 64;
    }
    128
}

/// How many rows of a block stay in it where it is split: those before the place where rows come, where that is in the
/// first eighth of the block, and else half of them. Rows that come one before the other, as mmap(2) places areas from
/// the top down, come at the same place again and again; split there, the block behind stays full and its rows don't
/// move again.
fn rows_below(rows: usize, place: usize) -> usize
    requires some { 0 < rows }
    requires few { rows < 128 }
    requires place { place ≤ rows + 1 }
    ensures some { 0 < result }
    ensures most { result ≤ (rows + 1) / 2 }
    ensures half { result < place → result ≡ (rows + 1) / 2 }
{
    if 8 * place <= rows {
        place.max(1)
    } else {
        (rows + 1) / 2
    }
}

/// Splits a block near a position or in half, and gives where the position is then.
fn split_near<W: Words>(
    words: &W,
    hand: &mut W::Hand,
    blocks: usize,
    at: Position,
    rows: usize,
) -> Position
    requires blocks { blocks ≡ W.blocks words.now }
    requires few { blocks ≤ 2048 }
    requires may { W.may_store words.now hand.old }
    requires laid { IsLaidOut blocks (W.words words.now hand.old) }
    requires rows { All (W.is_row words.now hand.old) (rows_in blocks (W.words words.now hand.old)) }
    requires there { at.block < blocks_of blocks (W.words words.now hand.old) }
    requires place { at.place ≤ rows_of blocks (W.words words.now hand.old) at.block + 1 }
    requires rows_told { rows ≡ rows_of blocks (W.words words.now hand.old) at.block }
    requires big { 0 < rows }
    requires free { blocks_of blocks (W.words words.now hand.old) < blocks }
    requires short { rows_of blocks (W.words words.now hand.old) 0 < 64 }
    ensures laid { IsLaidOut blocks (W.words words.now hand.new) }
    ensures same { rows_in blocks (W.words words.now hand.new) ≡ rows_in blocks (W.words words.now hand.old) }
    ensures count { blocks_of blocks (W.words words.now hand.new) ≡ blocks_of blocks (W.words words.now hand.old) + 1 }
    ensures short { rows_of blocks (W.words words.now hand.new) 0 < 64 }
    ensures there { result.block < blocks_of blocks (W.words words.now hand.new) }
    ensures place { result.place ≤ rows_of blocks (W.words words.now hand.new) result.block + 1 }
    ensures rank { rank blocks (W.words words.now hand.new) result.block result.place ≡ rank blocks (W.words words.now hand.old) at.block at.place }
    ensures room { rows_of blocks (W.words words.now hand.new) result.block < 64 }
    ensures first { result.block ≡ 0 → rows_of blocks (W.words words.now hand.new) 0 < 32 }
    ensures from { at.block ≤ result.block }
    ensures near { result.block ≤ at.block + (blocks_of blocks (W.words words.now hand.new) - blocks_of blocks (W.words words.now hand.old)) }
    ensures beside { IsBeside blocks (W.words words.now hand.old) (W.words words.now hand.new) at.block
        (at.block + 1 + (blocks_of blocks (W.words words.now hand.new) - blocks_of blocks (W.words words.now hand.old))) 0 }
    ensures may { W.may_store words.now hand.new }
    ensures rows { (w : ℕ) → W.is_row words.now hand.old w → W.is_row words.now hand.new w }
    ensures kept { W.kept words.now hand.old hand.new }
    ensures steps { W.steps words.now hand.new ≤ W.steps words.now hand.old + (4 * blocks + 391) }
{
    let low = rows_below(rows, at.place);
    split(words, hand, blocks, at.block, low);
    if at.place <= low {
        return at;
    }
    Position {
        block: at.block + 1,
        place: at.place - low,
    }
}

/// Splits a block where so many rows more would be too many, and gives where they are to come.
pub(crate) fn make_room<W: Words>(
    words: &W,
    hand: &mut W::Hand,
    blocks: usize,
    at: Position,
    more: usize,
) -> Position
    requires blocks { blocks ≡ W.blocks words.now }
    requires few { blocks ≤ 2048 }
    requires may { W.may_store words.now hand.old }
    requires laid { IsLaidOut blocks (W.words words.now hand.old) }
    requires rows { All (W.is_row words.now hand.old) (rows_in blocks (W.words words.now hand.old)) }
    requires there { at.block < blocks_of blocks (W.words words.now hand.old) }
    requires place { at.place ≤ rows_of blocks (W.words words.now hand.old) at.block + 1 }
    requires free { blocks_of blocks (W.words words.now hand.old) < blocks }
    requires short { rows_of blocks (W.words words.now hand.old) 0 < 64 }
    requires more { more ≤ 4 }
    ensures laid { IsLaidOut blocks (W.words words.now hand.new) }
    ensures same { rows_in blocks (W.words words.now hand.new) ≡ rows_in blocks (W.words words.now hand.old) }
    ensures short { rows_of blocks (W.words words.now hand.new) 0 < 64 }
    ensures there { result.block < blocks_of blocks (W.words words.now hand.new) }
    ensures place { result.place ≤ rows_of blocks (W.words words.now hand.new) result.block + 1 }
    ensures rank { rank blocks (W.words words.now hand.new) result.block result.place ≡ rank blocks (W.words words.now hand.old) at.block at.place }
    ensures room { rows_of blocks (W.words words.now hand.new) result.block + more < 128 }
    ensures first { result.block ≡ 0 → rows_of blocks (W.words words.now hand.new) 0 + more < 64 }
    ensures split { limit_of blocks (blocks_of blocks (W.words words.now hand.old)) at.block < rows_of blocks (W.words words.now hand.old) at.block + 1 + more
        → blocks_of blocks (W.words words.now hand.new) ≡ blocks_of blocks (W.words words.now hand.old) + 1 }
    ensures stays { rows_of blocks (W.words words.now hand.old) at.block + 1 + more ≤ limit_of blocks (blocks_of blocks (W.words words.now hand.old)) at.block
        → blocks_of blocks (W.words words.now hand.new) ≡ blocks_of blocks (W.words words.now hand.old) }
    ensures from { at.block ≤ result.block }
    ensures near { result.block ≤ at.block + (blocks_of blocks (W.words words.now hand.new) - blocks_of blocks (W.words words.now hand.old)) }
    ensures beside { IsBeside blocks (W.words words.now hand.old) (W.words words.now hand.new) at.block
        (at.block + 1 + (blocks_of blocks (W.words words.now hand.new) - blocks_of blocks (W.words words.now hand.old))) 0 }
    ensures may { W.may_store words.now hand.new }
    ensures rows { (w : ℕ) → W.is_row words.now hand.old w → W.is_row words.now hand.new w }
    ensures kept { W.kept words.now hand.old hand.new }
    ensures steps { W.steps words.now hand.new ≤ W.steps words.now hand.old + (4 * blocks + 393) }
{
    let count = words.load(hand, 128 * blocks) as usize;
    let body = body_of(words, hand, blocks, at.block);
    if body.rows + 1 + more <= most_rows(blocks, count, at.block) {
        return at;
    }
    split_near(words, hand, blocks, at, body.rows)
}
