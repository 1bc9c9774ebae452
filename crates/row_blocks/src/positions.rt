//! Positions of rows: a block, and a place in it, of which 0 is the head. A reader may rely on the next row's position
//! being told by the body word of the block alone.
ghost use Rattle.std.specs.Prelude.{ℕ, ◌≡◌, ◌+◌, ◌*◌, ◌<◌, ◌≤◌, length, slice_index};
ghost use Rattle.row_blocks.specs.Blocks.{IsLaidOut, blocks_of, body_at, rows_of, rows_in, rank};
ghost use Rattle.row_blocks.specs.Positions.{IsNextPlace};

use crate::words::Loads;

/// Where a row stands. Both numbers are counted from 0.
#[derive(Clone, Copy, Debug, PartialEq, Eq)]
pub struct Position {
    /// The number of its block, in order of pages.
    pub block: usize,
    /// Its place there: 0 is the head.
    pub place: usize,
}

/// What a body word tells: the place of the body, and how many rows stand there.
#[derive(Clone, Copy)]
pub(crate) struct Body {
    pub(crate) at: usize,
    pub(crate) rows: usize,
}

/// Loads the body word of a block.
pub(crate) fn body_of<W: Loads>(words: &W, hand: &mut W::Hand, blocks: usize, i: usize) -> Body
    requires few { blocks ≤ 2048 }
    requires may { W.may_store words.now hand.old }
    requires laid { IsLaidOut blocks (W.words words.now hand.old) }
    requires there { i < blocks }
    ensures at { result.at ≡ body_at blocks (W.words words.now hand.old) i }
    ensures rows { result.rows ≡ rows_of blocks (W.words words.now hand.old) i }
    ensures words { (W.words words.now hand.new) ≡ (W.words words.now hand.old) }
    ensures may { W.may_store words.now hand.new }
    ensures stay { (w : ℕ) → W.is_row words.now hand.old w → W.is_row words.now hand.new w }
    ensures kept { W.kept words.now hand.old hand.new }
    ensures step { W.steps words.now hand.new ≡ W.steps words.now hand.old + 1 }
{
    let packed = words.load(hand, 128 * blocks + 1 + i);
    Body {
        at: blocks + 127 * (packed / 128 % 2048) as usize,
        rows: (packed % 128) as usize,
    }
}

/// The position of the row behind, or None behind the last row.
pub fn next<W: Loads>(
    words: &W,
    hand: &mut W::Hand,
    blocks: usize,
    at: Position,
) -> Option<Position>
    requires few { blocks ≤ 2048 }
    requires may { W.may_store words.now hand.old }
    requires laid { IsLaidOut blocks (W.words words.now hand.old) }
    requires there { at.block < blocks_of blocks (W.words words.now hand.old) }
    requires place { at.place ≤ rows_of blocks (W.words words.now hand.old) at.block }
    ensures next { IsNextPlace blocks (W.words words.now hand.old) (rank blocks (W.words words.now hand.old) at.block at.place) result }
    ensures words { (W.words words.now hand.new) ≡ (W.words words.now hand.old) }
    ensures may { W.may_store words.now hand.new }
    ensures rows { (w : ℕ) → W.is_row words.now hand.old w → W.is_row words.now hand.new w }
    ensures kept { W.kept words.now hand.old hand.new }
    ensures steps { W.steps words.now hand.new ≤ W.steps words.now hand.old + 2 }
{
    let body = body_of(words, hand, blocks, at.block);
    if at.place < body.rows {
        return Some(Position {
            block: at.block,
            place: at.place + 1,
        });
    }
    let used = words.load(hand, 128 * blocks) as usize;
    if at.block + 1 < used {
        return Some(Position {
            block: at.block + 1,
            place: 0,
        });
    }
    None
}

/// The position of the row before, where there is one.
pub fn previous<W: Loads>(words: &W, hand: &mut W::Hand, blocks: usize, at: Position) -> Position
    requires few { blocks ≤ 2048 }
    requires may { W.may_store words.now hand.old }
    requires laid { IsLaidOut blocks (W.words words.now hand.old) }
    requires there { at.block < blocks_of blocks (W.words words.now hand.old) }
    requires place { at.place ≤ rows_of blocks (W.words words.now hand.old) at.block }
    requires less { 0 < rank blocks (W.words words.now hand.old) at.block at.place }
    ensures there { result.block < blocks_of blocks (W.words words.now hand.old) }
    ensures place { result.place ≤ rows_of blocks (W.words words.now hand.old) result.block }
    ensures rank { rank blocks (W.words words.now hand.old) result.block result.place + 1 ≡ rank blocks (W.words words.now hand.old) at.block at.place }
    ensures words { (W.words words.now hand.new) ≡ (W.words words.now hand.old) }
    ensures may { W.may_store words.now hand.new }
    ensures rows { (w : ℕ) → W.is_row words.now hand.old w → W.is_row words.now hand.new w }
    ensures kept { W.kept words.now hand.old hand.new }
    ensures steps { W.steps words.now hand.new ≤ W.steps words.now hand.old + 1 }
{
    if at.place > 0 {
        return Position {
            block: at.block,
            place: at.place - 1,
        };
    }
    let before = at.block - 1;
    let body = body_of(words, hand, blocks, before);
    Position {
        block: before,
        place: body.rows,
    }
}

/// The word of the row at a position.
pub fn row_at<W: Loads>(words: &W, hand: &mut W::Hand, blocks: usize, at: Position) -> u64
    requires few { blocks ≤ 2048 }
    requires may { W.may_store words.now hand.old }
    requires laid { IsLaidOut blocks (W.words words.now hand.old) }
    requires there { at.block < blocks_of blocks (W.words words.now hand.old) }
    requires place { at.place ≤ rows_of blocks (W.words words.now hand.old) at.block }
    ensures word { result ≡ slice_index (rows_in blocks (W.words words.now hand.old))
        (rank blocks (W.words words.now hand.old) at.block at.place) }
    ensures words { (W.words words.now hand.new) ≡ (W.words words.now hand.old) }
    ensures may { W.may_store words.now hand.new }
    ensures rows { (w : ℕ) → W.is_row words.now hand.old w → W.is_row words.now hand.new w }
    ensures kept { W.kept words.now hand.old hand.new }
    ensures steps { W.steps words.now hand.new ≤ W.steps words.now hand.old + 2 }
{
    if at.place == 0 {
        return words.load(hand, at.block);
    }
    let body = body_of(words, hand, blocks, at.block);
    words.load(hand, body.at - 1 + at.place)
}
