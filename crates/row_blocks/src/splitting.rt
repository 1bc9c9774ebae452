//! A block that becomes two: its upper rows are copied into a body that is free, which the body word behind the last
//! block in use names, and then heads and body words behind the block move up. A reader may rely on the rows being the
//! same, and on how many rows both parts have.
ghost use Rattle.std.specs.Prelude.{ℕ, All, ◌≡◌, ◌≢◌, ◌+◌, ◌-◌, ◌*◌, ◌<◌, ◌≤◌, length, slice_index};
ghost use Rattle.row_blocks.specs.Blocks.{IsLaidOut, blocks_of, rows_of, rows_in, told};

use crate::moves::{copy, raise, raise_layout};
use crate::words::Words;

/// Splits a block at a place: the rows from there on become a block of their own, in a body that is free.
pub fn split<W: Words>(words: &W, hand: &mut W::Hand, blocks: usize, i: usize, place: usize)
    requires blocks { blocks ≡ W.blocks words.now }
    requires few { blocks ≤ 2048 }
    requires may { W.may_store words.now hand.old }
    requires laid { IsLaidOut blocks (W.words words.now hand.old) }
    requires rows { All (W.is_row words.now hand.old) (rows_in blocks (W.words words.now hand.old)) }
    requires there { i < blocks_of blocks (W.words words.now hand.old) }
    requires free { blocks_of blocks (W.words words.now hand.old) < blocks }
    requires some { 0 < place }
    requires place { place ≤ rows_of blocks (W.words words.now hand.old) i }
    ensures laid { IsLaidOut blocks (W.words words.now hand.new) }
    ensures same { rows_in blocks (W.words words.now hand.new) ≡ rows_in blocks (W.words words.now hand.old) }
    ensures count { blocks_of blocks (W.words words.now hand.new) ≡ blocks_of blocks (W.words words.now hand.old) + 1 }
    ensures before { (k : ℕ) → k < i → told blocks (W.words words.now hand.new) k ≡ told blocks (W.words words.now hand.old) k }
    ensures behind { (k : ℕ) → i < k → k < blocks_of blocks (W.words words.now hand.old)
        → told blocks (W.words words.now hand.new) (k + 1) ≡ told blocks (W.words words.now hand.old) k }
    ensures lower { rows_of blocks (W.words words.now hand.new) i + 1 ≡ place }
    ensures upper { rows_of blocks (W.words words.now hand.new) (i + 1) + place ≡ rows_of blocks (W.words words.now hand.old) i }
    ensures may { W.may_store words.now hand.new }
    ensures rows { (w : ℕ) → W.is_row words.now hand.old w → W.is_row words.now hand.new w }
    ensures kept { W.kept words.now hand.old hand.new }
    ensures steps { W.steps words.now hand.new ≤ W.steps words.now hand.old + (3 * (rows_of blocks (W.words words.now hand.old) i - place) + 4 * blocks + 10) }
{
    let told = 128 * blocks + 1;
    let count = words.load(hand, 128 * blocks) as usize;
    let packed = words.load(hand, told + i);
    let free = words.load(hand, told + count);
    let rows = (packed % 128) as usize;
    let from = blocks + 127 * (packed / 128 % 2048) as usize;
    let to = blocks + 127 * (free / 128 % 2048) as usize;
    let more = rows - place;
    copy(words, hand, from + place, to, more);
    let head = words.load(hand, from + (place - 1));
    raise(words, hand, i + 1, count, head);
    raise_layout(
        words,
        hand,
        told + (i + 1),
        told + count,
        128 * (free / 128 % 2048) + more as u64,
    );
    words.store_layout(hand, told + i, packed - (more as u64 + 1));
    words.store_layout(hand, 128 * blocks, count as u64 + 1);
}
