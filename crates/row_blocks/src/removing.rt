//! Blocks that go: their heads make room, and their bodies become free. By exchanges of two body words a removal takes
//! no memory, and after each of them every body still is of one block or free.
ghost use Rattle.std.specs.Prelude.{ℕ, All, [], ◌≡◌, ◌≢◌, ◌+◌, ◌-◌, ◌*◌, ◌<◌, ◌≤◌, length};
ghost use Rattle.std.specs.List.{splice};
ghost use Rattle.row_blocks.specs.Blocks.{AreBodies, IsLaidOut, blocks_of, count_to, rows_in, told};
ghost use Rattle.row_blocks.specs.Moves.{IsSwapped, IsRotated};

use crate::moves::{copy, exchange_layout};
use crate::words::Words;

/// Two body words change places.
fn swap<W: Words>(words: &W, hand: &mut W::Hand, blocks: usize, one: usize, other: usize)
    requires blocks { blocks ≡ W.blocks words.now }
    requires few { blocks ≤ 2048 }
    requires may { W.may_store words.now hand.old }
    requires bodies { AreBodies blocks (W.words words.now hand.old) }
    requires one { one < blocks }
    requires other { other < blocks }
    requires apart { one ≢ other }
    requires wide { 129 * blocks + 1 ≤ length (W.words words.now hand.old) }
    ensures bodies { AreBodies blocks (W.words words.now hand.new) }
    ensures swapped { IsSwapped (W.words words.now hand.old) (W.words words.now hand.new) (128 * blocks + 1 + one) (128 * blocks + 1 + other) }
    ensures may { W.may_store words.now hand.new }
    ensures rows { (w : ℕ) → W.is_row words.now hand.old w → W.is_row words.now hand.new w }
    ensures kept { W.kept words.now hand.old hand.new }
    ensures steps { W.steps words.now hand.new ≤ W.steps words.now hand.old + 4 }
{
    let told = 128 * blocks + 1;
    let first = words.load(hand, told + one);
    let second = exchange_layout(words, hand, told + other, first);
    words.store_layout(hand, told + one, second);
}

/// The body words of the blocks behind move down, and those of the blocks that go come behind them.
fn rotate<W: Words>(
    words: &W,
    hand: &mut W::Hand,
    blocks: usize,
    to: usize,
    gap: usize,
    count: usize,
)
    requires blocks { blocks ≡ W.blocks words.now }
    requires few { blocks ≤ 2048 }
    requires may { W.may_store words.now hand.old }
    requires bodies { AreBodies blocks (W.words words.now hand.old) }
    requires some { 0 < gap }
    requires there { to + gap + count ≤ blocks }
    requires wide { 129 * blocks + 1 ≤ length (W.words words.now hand.old) }
    ensures bodies { AreBodies blocks (W.words words.now hand.new) }
    ensures rotated { IsRotated blocks (W.words words.now hand.old) (W.words words.now hand.new) to gap count }
    ensures may { W.may_store words.now hand.new }
    ensures rows { (w : ℕ) → W.is_row words.now hand.old w → W.is_row words.now hand.new w }
    ensures kept { W.kept words.now hand.old hand.new }
    ensures steps { W.steps words.now hand.new ≤ W.steps words.now hand.old + 4 * count }
{
    let mut k = 0;
    'bodies: while k < count {
        swap(words, hand, blocks, to + k, to + k + gap);
        k += 1;
    }
}

/// Blocks go, from one up to another one, and not all.
pub fn take_out<W: Words>(words: &W, hand: &mut W::Hand, blocks: usize, first: usize, end: usize)
    requires blocks { blocks ≡ W.blocks words.now }
    requires few { blocks ≤ 2048 }
    requires may { W.may_store words.now hand.old }
    requires laid { IsLaidOut blocks (W.words words.now hand.old) }
    requires rows { All (W.is_row words.now hand.old) (rows_in blocks (W.words words.now hand.old)) }
    requires some { first < end }
    requires there { end ≤ blocks_of blocks (W.words words.now hand.old) }
    requires left { 0 < first }
    ensures laid { IsLaidOut blocks (W.words words.now hand.new) }
    ensures spliced { rows_in blocks (W.words words.now hand.new) ≡ splice (rows_in blocks (W.words words.now hand.old))
        (count_to blocks (W.words words.now hand.old) first) (count_to blocks (W.words words.now hand.old) end) [] }
    ensures count { blocks_of blocks (W.words words.now hand.new) + (end - first) ≡ blocks_of blocks (W.words words.now hand.old) }
    ensures before { (k : ℕ) → k < first → told blocks (W.words words.now hand.new) k ≡ told blocks (W.words words.now hand.old) k }
    ensures behind { (k : ℕ) → first ≤ k → k < blocks_of blocks (W.words words.now hand.new)
        → told blocks (W.words words.now hand.new) k ≡ told blocks (W.words words.now hand.old) (k + (end - first)) }
    ensures may { W.may_store words.now hand.new }
    ensures rows { (w : ℕ) → W.is_row words.now hand.old w → W.is_row words.now hand.new w }
    ensures kept { W.kept words.now hand.old hand.new }
    ensures steps { W.steps words.now hand.new ≤ W.steps words.now hand.old + (7 * blocks + 2) }
{
    let count = words.load(hand, 128 * blocks) as usize;
    let gap = end - first;
    copy(words, hand, end, first, count - end);
    rotate(words, hand, blocks, first, gap, count - end);
    words.store_layout(hand, 128 * blocks, (count - gap) as u64);
}
