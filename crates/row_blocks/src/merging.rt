//! Two blocks that become one: the rows of the upper one are appended to the lower one, where they stand twice for a
//! while, and then the upper one goes. A reader may rely on the rows being the same, in one block fewer.
ghost use Rattle.std.specs.Prelude.{ℕ, All, ◌∷◌, ◌++◌, ◌≡◌, ◌≢◌, ◌+◌, ◌-◌, ◌*◌, ◌<◌, ◌≤◌, length, max, slice_index};
ghost use Rattle.row_blocks.specs.Blocks.{IsLaidOut, blocks_of, rows_of, rows_in, block, told};
ghost use Rattle.row_blocks.specs.Gaps.{GapsTold, gap_of};

use crate::gaps::GAP;
use crate::moves::{copy, exchange};
use crate::removing::take_out;
use crate::words::Words;

/// The rows of the block behind are appended to a block, and stand twice.
fn append<W: Words>(words: &W, hand: &mut W::Hand, blocks: usize, i: usize)
    requires blocks { blocks ≡ W.blocks words.now }
    requires few { blocks ≤ 2048 }
    requires may { W.may_store words.now hand.old }
    requires laid { IsLaidOut blocks (W.words words.now hand.old) }
    requires rows { All (W.is_row words.now hand.old) (rows_in blocks (W.words words.now hand.old)) }
    requires there { i + 1 < blocks_of blocks (W.words words.now hand.old) }
    requires room { rows_of blocks (W.words words.now hand.old) i + 1 + rows_of blocks (W.words words.now hand.old) (i + 1) ≤ 127 }
    ensures laid { IsLaidOut blocks (W.words words.now hand.new) }
    ensures count { blocks_of blocks (W.words words.now hand.new) ≡ blocks_of blocks (W.words words.now hand.old) }
    ensures both { block blocks (W.words words.now hand.new) i ≡ block blocks (W.words words.now hand.old) i ++ block blocks (W.words words.now hand.old)
        (i + 1) }
    ensures blocks { (k : ℕ) → k < blocks → k ≢ i → block blocks (W.words words.now hand.new) k ≡ block blocks (W.words words.now hand.old) k }
    ensures more { rows_of blocks (W.words words.now hand.new) i ≡ rows_of blocks (W.words words.now hand.old) i + 1 + rows_of blocks
        (W.words words.now hand.old) (i + 1) }
    ensures gap { gap_of blocks (W.words words.now hand.new) i ≡ max (gap_of blocks (W.words words.now hand.old) i)
        (gap_of blocks (W.words words.now hand.old) (i + 1)) }
    ensures others { (k : ℕ) → k < blocks → k ≢ i → told blocks (W.words words.now hand.new) k ≡ told blocks (W.words words.now hand.old) k }
    ensures may { W.may_store words.now hand.new }
    ensures rows { (w : ℕ) → W.is_row words.now hand.old w → W.is_row words.now hand.new w }
    ensures kept { W.kept words.now hand.old hand.new }
    ensures steps { W.steps words.now hand.new ≤ W.steps words.now hand.old + (3 * rows_of blocks (W.words words.now hand.old) (i + 1) + 6) }
{
    let told = 128 * blocks + 1 + i;
    let packed = words.load(hand, told);
    let other = words.load(hand, 128 * blocks + 1 + (i + 1));
    let head = words.load(hand, i + 1);
    let at = blocks + 127 * (packed / 128 % 2048) as usize;
    let from = blocks + 127 * (other / 128 % 2048) as usize;
    let count = (packed % 128) as usize;
    let more = (other % 128) as usize;
    exchange(words, hand, at + count, head);
    copy(words, hand, from, at + count + 1, more);
    let gap = (packed / GAP).max(other / GAP);
    words.store_layout(hand, told, gap * GAP + packed % GAP + (more as u64 + 1));
}

/// Merges a block with the one behind it, where both have room in one. The rows stay, and the largest gap of both is
/// that of the merged one.
pub fn merge<W: Words>(words: &W, hand: &mut W::Hand, blocks: usize, i: usize)
    requires blocks { blocks ≡ W.blocks words.now }
    requires few { blocks ≤ 2048 }
    requires may { W.may_store words.now hand.old }
    requires laid { IsLaidOut blocks (W.words words.now hand.old) }
    requires rows { All (W.is_row words.now hand.old) (rows_in blocks (W.words words.now hand.old)) }
    requires there { i + 1 < blocks_of blocks (W.words words.now hand.old) }
    requires room { rows_of blocks (W.words words.now hand.old) i + 1 + rows_of blocks (W.words words.now hand.old) (i + 1) ≤ 127 }
    ensures laid { IsLaidOut blocks (W.words words.now hand.new) }
    ensures same { rows_in blocks (W.words words.now hand.new) ≡ rows_in blocks (W.words words.now hand.old) }
    ensures count { blocks_of blocks (W.words words.now hand.new) + 1 ≡ blocks_of blocks (W.words words.now hand.old) }
    ensures before { (k : ℕ) → k < i → told blocks (W.words words.now hand.new) k ≡ told blocks (W.words words.now hand.old) k }
    ensures more { rows_of blocks (W.words words.now hand.new) i ≡ rows_of blocks (W.words words.now hand.old) i + 1 + rows_of blocks
        (W.words words.now hand.old) (i + 1) }
    ensures told { GapsTold blocks (W.words words.now hand.old) → GapsTold blocks (W.words words.now hand.new) }
    ensures may { W.may_store words.now hand.new }
    ensures rows { (w : ℕ) → W.is_row words.now hand.old w → W.is_row words.now hand.new w }
    ensures kept { W.kept words.now hand.old hand.new }
    ensures steps { W.steps words.now hand.new ≤ W.steps words.now hand.old + (7 * blocks + 389) }
{
    append(words, hand, blocks, i);
    take_out(words, hand, blocks, i + 1, i + 2);
}
