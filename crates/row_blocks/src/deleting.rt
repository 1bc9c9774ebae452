//! Rows that go from one block, of which some stay: those behind them move down, and the body word counts fewer. Where
//! the head goes, the first row that stays becomes the head. A reader may rely on no other block being touched.
ghost use Rattle.std.specs.Prelude.{ℕ, All, [], ◌≡◌, ◌≢◌, ◌+◌, ◌-◌, ◌*◌, ◌^◌, ◌<◌, ◌≤◌, length, slice_index};
ghost use Rattle.std.specs.List.{splice};
ghost use Rattle.row_blocks.specs.Blocks.{IsLaidOut, blocks_of, rows_of, rows_in, rank, told};
ghost use Rattle.row_blocks.specs.Moves.{IsCutOut};

use crate::moves::{copy, exchange};
use crate::words::Words;

/// Rows of a block go, whose head and body stand at these places, and those behind them move down.
fn cut_block<W: Words>(
    words: &W,
    hand: &mut W::Hand,
    head: usize,
    at: usize,
    count: usize,
    from: usize,
    until: usize,
)
    requires may { W.may_store words.now hand.old }
    requires ordered { from < until }
    requires there { until ≤ count + 1 }
    requires left { until ≤ count + from }
    requires head { head < at }
    requires few { at + count < 2 ^ 63 }
    requires slots { at + count ≤ 128 * W.blocks words.now }
    requires wide { at + count ≤ length (W.words words.now hand.old) }
    requires others { (s : ℕ) → at ≤ s → s < at + count → W.is_row words.now hand.old (slice_index (W.words words.now hand.old) s) }
    ensures cut { IsCutOut (W.words words.now hand.old) (W.words words.now hand.new) head at count from until }
    ensures may { W.may_store words.now hand.new }
    ensures rows { (w : ℕ) → W.is_row words.now hand.old w → W.is_row words.now hand.new w }
    ensures kept { W.kept words.now hand.old hand.new }
    ensures steps { W.steps words.now hand.new ≤ W.steps words.now hand.old + (3 * count + 3) }
{
    if from == 0 {
        let first = words.load(hand, at + (until - 1));
        copy(words, hand, at + until, at, count - until);
        exchange(words, hand, head, first);
    } else {
        copy(
            words,
            hand,
            at + (until - 1),
            at + (from - 1),
            count - (until - 1),
        );
    }
}

/// Deletes rows of a block from one place up to another. One stays at least.
pub fn delete<W: Words>(
    words: &W,
    hand: &mut W::Hand,
    blocks: usize,
    i: usize,
    from: usize,
    until: usize,
)
    requires blocks { blocks ≡ W.blocks words.now }
    requires few { blocks ≤ 2048 }
    requires may { W.may_store words.now hand.old }
    requires laid { IsLaidOut blocks (W.words words.now hand.old) }
    requires rows { All (W.is_row words.now hand.old) (rows_in blocks (W.words words.now hand.old)) }
    requires there { i < blocks_of blocks (W.words words.now hand.old) }
    requires ordered { from < until }
    requires place { until ≤ rows_of blocks (W.words words.now hand.old) i + 1 }
    requires left { until ≤ rows_of blocks (W.words words.now hand.old) i + from }
    ensures laid { IsLaidOut blocks (W.words words.now hand.new) }
    ensures spliced { rows_in blocks (W.words words.now hand.new) ≡ splice (rows_in blocks (W.words words.now hand.old))
        (rank blocks (W.words words.now hand.old) i from) (rank blocks (W.words words.now hand.old) i until) [] }
    ensures count { blocks_of blocks (W.words words.now hand.new) ≡ blocks_of blocks (W.words words.now hand.old) }
    ensures less { rows_of blocks (W.words words.now hand.new) i + (until - from) ≡ rows_of blocks (W.words words.now hand.old) i }
    ensures others { (k : ℕ) → k < blocks → k ≢ i → told blocks (W.words words.now hand.new) k ≡ told blocks (W.words words.now hand.old) k }
    ensures may { W.may_store words.now hand.new }
    ensures rows { (w : ℕ) → W.is_row words.now hand.old w → W.is_row words.now hand.new w }
    ensures kept { W.kept words.now hand.old hand.new }
    ensures steps { W.steps words.now hand.new ≤ W.steps words.now hand.old + (3 * rows_of blocks (W.words words.now hand.old) i + 5) }
{
    let told = 128 * blocks + 1 + i;
    let packed = words.load(hand, told);
    let at = blocks + 127 * (packed / 128 % 2048) as usize;
    let count = (packed % 128) as usize;
    cut_block(words, hand, i, at, count, from, until);
    words.store_layout(hand, told, packed - (until - from) as u64);
}
