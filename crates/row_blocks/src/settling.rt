//! Merges: where all blocks are in use, so that one is free again, and of neighbours that have few rows. That there
//! are two to merge where all are in use follows from the room: were there 129 rows or more in each two of the blocks
//! behind block 0, there were more rows than room. A reader may rely on the rows being the same.
ghost use Rattle.std.specs.Prelude.{ℕ, All, ◌≡◌, ◌≢◌, ◌+◌, ◌-◌, ◌*◌, ◌<◌, ◌≤◌, length};
ghost use Rattle.row_blocks.specs.Blocks.{IsLaidOut, blocks_of, rows_of, rows_in};
ghost use Rattle.row_blocks.specs.Gaps.{GapsTold};
ghost use Rattle.row_blocks.specs.Limits.{AreFew, IsMerged};

use crate::merging::merge;
use crate::positions::body_of;
use crate::rooms::most_rows;
use crate::words::Words;

/// The first of the blocks behind block 0 that has room in one with the one behind it, where all blocks are in use.
fn find_pair<W: Words>(words: &W, hand: &mut W::Hand, blocks: usize) -> usize
    requires blocks { blocks ≡ W.blocks words.now }
    requires few { blocks ≤ 2048 }
    requires may { W.may_store words.now hand.old }
    requires laid { IsLaidOut blocks (W.words words.now hand.old) }
    requires full { blocks_of blocks (W.words words.now hand.old) ≡ blocks }
    requires room { 2 * length (rows_in blocks (W.words words.now hand.old)) < 129 * (blocks - 2) }
    ensures first { 0 < result }
    ensures there { result + 1 < blocks_of blocks (W.words words.now hand.old) }
    ensures room { rows_of blocks (W.words words.now hand.old) result + 1 + rows_of blocks (W.words words.now hand.old) (result + 1) ≤ 127 }
    ensures words { (W.words words.now hand.new) ≡ (W.words words.now hand.old) }
    ensures may { W.may_store words.now hand.new }
    ensures rows { (w : ℕ) → W.is_row words.now hand.old w → W.is_row words.now hand.new w }
    ensures kept { W.kept words.now hand.old hand.new }
    ensures steps { W.steps words.now hand.new ≤ W.steps words.now hand.old + blocks }
{
    let mut k = 1;
    let mut rows = body_of(words, hand, blocks, 1).rows;
    'pairs: while k + 1 < blocks {
        let behind = body_of(words, hand, blocks, k + 1).rows;
        if rows + 1 + behind <= 127 {
            return k;
        }
        rows = behind;
        k += 1;
    }
    unreachable!()
}

/// Merges two blocks where all blocks are in use, so that one is free.
fn free_one<W: Words>(words: &W, hand: &mut W::Hand, blocks: usize)
    requires blocks { blocks ≡ W.blocks words.now }
    requires few { blocks ≤ 2048 }
    requires may { W.may_store words.now hand.old }
    requires laid { IsLaidOut blocks (W.words words.now hand.old) }
    requires rows { All (W.is_row words.now hand.old) (rows_in blocks (W.words words.now hand.old)) }
    requires full { blocks_of blocks (W.words words.now hand.old) ≡ blocks }
    requires room { 2 * length (rows_in blocks (W.words words.now hand.old)) < 129 * (blocks - 2) }
    ensures laid { IsLaidOut blocks (W.words words.now hand.new) }
    ensures same { rows_in blocks (W.words words.now hand.new) ≡ rows_in blocks (W.words words.now hand.old) }
    ensures free { blocks_of blocks (W.words words.now hand.new) < blocks }
    ensures first { rows_of blocks (W.words words.now hand.new) 0 ≡ rows_of blocks (W.words words.now hand.old) 0 }
    ensures count { blocks_of blocks (W.words words.now hand.new) + 1 ≡ blocks }
    ensures told { GapsTold blocks (W.words words.now hand.old) → GapsTold blocks (W.words words.now hand.new) }
    ensures may { W.may_store words.now hand.new }
    ensures rows { (w : ℕ) → W.is_row words.now hand.old w → W.is_row words.now hand.new w }
    ensures kept { W.kept words.now hand.old hand.new }
    ensures steps { W.steps words.now hand.new ≤ W.steps words.now hand.old + (8 * blocks + 389) }
{
    let pair = find_pair(words, hand, blocks);
    merge(words, hand, blocks, pair);
}

/// Merges a block with the one behind it, where both have few rows together.
fn merge_few<W: Words>(words: &W, hand: &mut W::Hand, blocks: usize, count: usize, near: usize)
    requires blocks { blocks ≡ W.blocks words.now }
    requires few { blocks ≤ 2048 }
    requires may { W.may_store words.now hand.old }
    requires laid { IsLaidOut blocks (W.words words.now hand.old) }
    requires rows { All (W.is_row words.now hand.old) (rows_in blocks (W.words words.now hand.old)) }
    requires count { count ≡ blocks_of blocks (W.words words.now hand.old) }
    requires near { near < blocks }
    requires short { rows_of blocks (W.words words.now hand.old) 0 < 64 }
    ensures laid { IsLaidOut blocks (W.words words.now hand.new) }
    ensures same { rows_in blocks (W.words words.now hand.new) ≡ rows_in blocks (W.words words.now hand.old) }
    ensures count { blocks_of blocks (W.words words.now hand.new) ≤ count }
    ensures few { AreFew blocks (W.words words.now hand.old) near → IsMerged blocks (W.words words.now hand.old) (W.words words.now hand.new) near }
    ensures many { ¬ AreFew blocks (W.words words.now hand.old) near → W.words words.now hand.new ≡ W.words words.now hand.old }
    ensures short { rows_of blocks (W.words words.now hand.new) 0 < 64 }
    ensures told { GapsTold blocks (W.words words.now hand.old) → GapsTold blocks (W.words words.now hand.new) }
    ensures may { W.may_store words.now hand.new }
    ensures rows { (w : ℕ) → W.is_row words.now hand.old w → W.is_row words.now hand.new w }
    ensures kept { W.kept words.now hand.old hand.new }
    ensures steps { W.steps words.now hand.new ≤ W.steps words.now hand.old + (7 * blocks + 391) }
{
    if near + 1 >= count {
        return;
    }
    let one = body_of(words, hand, blocks, near);
    let other = body_of(words, hand, blocks, near + 1);
    if 2 * (one.rows + other.rows + 2) > most_rows(blocks, count - 1, near) {
        return;
    }
    merge(words, hand, blocks, near);
}

/// Merges two blocks where all blocks are in use, or where as many are as before and a block and the one behind it have
/// few rows together.
pub(crate) fn settle<W: Words>(
    words: &W,
    hand: &mut W::Hand,
    blocks: usize,
    near: usize,
    before: usize,
)
    requires blocks { blocks ≡ W.blocks words.now }
    requires few { blocks ≤ 2048 }
    requires may { W.may_store words.now hand.old }
    requires laid { IsLaidOut blocks (W.words words.now hand.old) }
    requires rows { All (W.is_row words.now hand.old) (rows_in blocks (W.words words.now hand.old)) }
    requires near { near < blocks }
    requires room { 2 * length (rows_in blocks (W.words words.now hand.old)) < 129 * (blocks - 2) }
    requires short { rows_of blocks (W.words words.now hand.old) 0 < 64 }
    ensures laid { IsLaidOut blocks (W.words words.now hand.new) }
    ensures same { rows_in blocks (W.words words.now hand.new) ≡ rows_in blocks (W.words words.now hand.old) }
    ensures free { blocks_of blocks (W.words words.now hand.new) < blocks }
    ensures short { rows_of blocks (W.words words.now hand.new) 0 < 64 }
    ensures freed { blocks_of blocks (W.words words.now hand.old) ≡ blocks → blocks_of blocks (W.words words.now hand.new) + 1 ≡ blocks }
    ensures left { blocks_of blocks (W.words words.now hand.old) ≢ blocks → blocks_of blocks (W.words words.now hand.old) ≢ before
        → W.words words.now hand.new ≡ W.words words.now hand.old }
    ensures few { blocks_of blocks (W.words words.now hand.old) ≢ blocks → blocks_of blocks (W.words words.now hand.old) ≡ before
        → AreFew blocks (W.words words.now hand.old) near → IsMerged blocks (W.words words.now hand.old) (W.words words.now hand.new) near }
    ensures many { blocks_of blocks (W.words words.now hand.old) ≢ blocks → ¬ AreFew blocks (W.words words.now hand.old) near
        → W.words words.now hand.new ≡ W.words words.now hand.old }
    ensures told { GapsTold blocks (W.words words.now hand.old) → GapsTold blocks (W.words words.now hand.new) }
    ensures may { W.may_store words.now hand.new }
    ensures rows { (w : ℕ) → W.is_row words.now hand.old w → W.is_row words.now hand.new w }
    ensures kept { W.kept words.now hand.old hand.new }
    ensures steps { W.steps words.now hand.new ≤ W.steps words.now hand.old + (8 * blocks + 392) }
    ensures quick { blocks_of blocks (W.words words.now hand.old) ≢ blocks → blocks_of blocks (W.words words.now hand.old) ≢ before
        → W.steps words.now hand.new ≤ W.steps words.now hand.old + 1 }
{
    let count = words.load(hand, 128 * blocks) as usize;
    if count == blocks {
        free_one(words, hand, blocks);
        return;
    }
    if count != before {
        return;
    }
    merge_few(words, hand, blocks, count, near);
}
