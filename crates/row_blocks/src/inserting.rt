//! A row that comes into a block with room: the rows behind it move up, and the body word counts one more. At place 0
//! the old head goes to the front of the body, since a head stands in the directory alone. A reader may rely on no
//! other block being touched.
ghost use Rattle.std.specs.Prelude.{ℕ, All, [], ◌∷◌, ◌≡◌, ◌≢◌, ◌+◌, ◌*◌, ◌^◌, ◌<◌, ◌≤◌, length, slice_index};
ghost use Rattle.std.specs.List.{splice};
ghost use Rattle.row_blocks.specs.Blocks.{IsLaidOut, blocks_of, rows_of, rows_in, rank, told};
ghost use Rattle.row_blocks.specs.Moves.{IsPutIn};

use crate::moves::{exchange, raise};
use crate::words::Words;

/// Inserts a row at a place of a block, whose head and body stand at these places.
fn put_at<W: Words>(
    words: &W,
    hand: &mut W::Hand,
    head: usize,
    at: usize,
    count: usize,
    place: usize,
    word: u64,
)
    requires may { W.may_store words.now hand.old }
    requires there { place ≤ count + 1 }
    requires head { head < at }
    requires few { at + count < 2 ^ 63 }
    requires slots { at + count < 128 * W.blocks words.now }
    requires wide { at + count < length (W.words words.now hand.old) }
    requires row { W.is_row words.now hand.old word }
    requires first { W.is_row words.now hand.old (slice_index (W.words words.now hand.old) head) }
    requires others { (s : ℕ) → at ≤ s → s < at + count → W.is_row words.now hand.old (slice_index (W.words words.now hand.old) s) }
    ensures put { IsPutIn (W.words words.now hand.old) (W.words words.now hand.new) head at count place word }
    ensures may { W.may_store words.now hand.new }
    ensures rows { (w : ℕ) → W.is_row words.now hand.old w → W.is_row words.now hand.new w }
    ensures kept { W.kept words.now hand.old hand.new }
    ensures steps { W.steps words.now hand.new ≤ W.steps words.now hand.old + (2 * count + 4) }
{
    if place == 0 {
        let first = exchange(words, hand, head, word);
        raise(words, hand, at, at + count, first);
    } else {
        raise(words, hand, at + (place - 1), at + count, word);
    }
}

/// Inserts a row at a place of a block that has room.
pub fn insert<W: Words>(
    words: &W,
    hand: &mut W::Hand,
    blocks: usize,
    i: usize,
    place: usize,
    word: u64,
)
    requires blocks { blocks ≡ W.blocks words.now }
    requires few { blocks ≤ 2048 }
    requires may { W.may_store words.now hand.old }
    requires laid { IsLaidOut blocks (W.words words.now hand.old) }
    requires rows { All (W.is_row words.now hand.old) (rows_in blocks (W.words words.now hand.old)) }
    requires there { i < blocks_of blocks (W.words words.now hand.old) }
    requires place { place ≤ rows_of blocks (W.words words.now hand.old) i + 1 }
    requires room { rows_of blocks (W.words words.now hand.old) i < 127 }
    requires row { W.is_row words.now hand.old word }
    ensures laid { IsLaidOut blocks (W.words words.now hand.new) }
    ensures spliced { rows_in blocks (W.words words.now hand.new) ≡ splice (rows_in blocks (W.words words.now hand.old))
        (rank blocks (W.words words.now hand.old) i place) (rank blocks (W.words words.now hand.old) i place) (word ∷ []) }
    ensures count { blocks_of blocks (W.words words.now hand.new) ≡ blocks_of blocks (W.words words.now hand.old) }
    ensures more { rows_of blocks (W.words words.now hand.new) i ≡ rows_of blocks (W.words words.now hand.old) i + 1 }
    ensures others { (k : ℕ) → k < blocks → k ≢ i → told blocks (W.words words.now hand.new) k ≡ told blocks (W.words words.now hand.old) k }
    ensures may { W.may_store words.now hand.new }
    ensures rows { (w : ℕ) → W.is_row words.now hand.old w → W.is_row words.now hand.new w }
    ensures kept { W.kept words.now hand.old hand.new }
    ensures steps { W.steps words.now hand.new ≤ W.steps words.now hand.old + (2 * rows_of blocks (W.words words.now hand.old) i + 6) }
{
    let told = 128 * blocks + 1 + i;
    let packed = words.load(hand, told);
    let at = blocks + 127 * (packed / 128 % 2048) as usize;
    let count = (packed % 128) as usize;
    put_at(words, hand, i, at, count, place, word);
    words.store_layout(hand, told, packed + 1);
}
