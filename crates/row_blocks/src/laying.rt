//! Rows that are laid over others, one by one and in order: no row moves, and the layout stays. Where the same row
//! stands already nothing is stored. A reader may rely on at most two steps for each row, and one for each block that
//! is passed.
ghost use Rattle.std.specs.Prelude.{ℕ, All, ◌≡◌, ◌+◌, ◌*◌, ◌^◌, ◌<◌, ◌≤◌, length, slice_index, slice_set};
ghost use Rattle.std.specs.List.{splice};
ghost use Rattle.row_blocks.specs.Blocks.{IsLaidOut, blocks_of, body_at, rows_of, rows_in, rank};

use crate::moves::exchange;
use crate::positions::{Body, Position, body_of};
use crate::words::Words;

/// A position, and what the body word of its block tells. The position may be behind the last row of the block.
#[derive(Clone, Copy)]
struct Spot {
    at: Position,
    body: Body,
}

/// Where the row at a position stands.
pub(crate) fn slot_of(at: Position, body: usize) -> usize
    requires few { body + at.place < 2 ^ 63 }
    ensures first { at.place ≡ 0 → result ≡ at.block }
    ensures rest { 0 < at.place → result + 1 ≡ body + at.place }
{
    if at.place == 0 {
        return at.block;
    }
    body + (at.place - 1)
}

/// Lays a row over the one at a position.
fn lay_row<W: Words>(words: &W, hand: &mut W::Hand, blocks: usize, spot: Spot, word: u64)
    requires blocks { blocks ≡ W.blocks words.now }
    requires few { blocks ≤ 2048 }
    requires may { W.may_store words.now hand.old }
    requires laid { IsLaidOut blocks (W.words words.now hand.old) }
    requires there { spot.at.block < blocks_of blocks (W.words words.now hand.old) }
    requires place { spot.at.place ≤ rows_of blocks (W.words words.now hand.old) spot.at.block }
    requires body { spot.body.at ≡ body_at blocks (W.words words.now hand.old) spot.at.block }
    requires row { W.is_row words.now hand.old word }
    ensures laid { IsLaidOut blocks (W.words words.now hand.new) }
    ensures laid_row { rows_in blocks (W.words words.now hand.new) ≡ slice_set (rows_in blocks (W.words words.now hand.old))
        (rank blocks (W.words words.now hand.old) spot.at.block spot.at.place) word }
    ensures layout { (t : ℕ) → 128 * blocks ≤ t → slice_index (W.words words.now hand.new) t ≡ slice_index (W.words words.now hand.old) t }
    ensures may { W.may_store words.now hand.new }
    ensures rows { (w : ℕ) → W.is_row words.now hand.old w → W.is_row words.now hand.new w }
    ensures kept { W.kept words.now hand.old hand.new }
    ensures steps { W.steps words.now hand.new ≤ W.steps words.now hand.old + 2 }
{
    let slot = slot_of(spot.at, spot.body.at);
    exchange(words, hand, slot, word);
}

/// The same place among the rows, in the next block where it is behind the last row of its own.
fn go_on<W: Words>(words: &W, hand: &mut W::Hand, blocks: usize, spot: Spot) -> Spot
    requires few { blocks ≤ 2048 }
    requires may { W.may_store words.now hand.old }
    requires laid { IsLaidOut blocks (W.words words.now hand.old) }
    requires there { spot.at.block < blocks_of blocks (W.words words.now hand.old) }
    requires place { spot.at.place ≤ rows_of blocks (W.words words.now hand.old) spot.at.block + 1 }
    requires body { spot.body.at ≡ body_at blocks (W.words words.now hand.old) spot.at.block }
    requires count { spot.body.rows ≡ rows_of blocks (W.words words.now hand.old) spot.at.block }
    requires more { rank blocks (W.words words.now hand.old) spot.at.block spot.at.place < length (rows_in blocks (W.words words.now hand.old)) }
    ensures there { result.at.block < blocks_of blocks (W.words words.now hand.old) }
    ensures from { spot.at.block ≤ result.at.block }
    ensures place { result.at.place ≤ rows_of blocks (W.words words.now hand.old) result.at.block }
    ensures body { result.body.at ≡ body_at blocks (W.words words.now hand.old) result.at.block }
    ensures count { result.body.rows ≡ rows_of blocks (W.words words.now hand.old) result.at.block }
    ensures rank { rank blocks (W.words words.now hand.old) result.at.block result.at.place ≡ rank blocks (W.words words.now hand.old) spot.at.block
        spot.at.place }
    ensures words { (W.words words.now hand.new) ≡ (W.words words.now hand.old) }
    ensures may { W.may_store words.now hand.new }
    ensures rows { (w : ℕ) → W.is_row words.now hand.old w → W.is_row words.now hand.new w }
    ensures kept { W.kept words.now hand.old hand.new }
    ensures steps { W.steps words.now hand.new + spot.at.block ≤ W.steps words.now hand.old + result.at.block }
{
    if spot.at.place <= spot.body.rows {
        return spot;
    }
    let body = body_of(words, hand, blocks, spot.at.block + 1);
    Spot {
        at: Position {
            block: spot.at.block + 1,
            place: 0,
        },
        body,
    }
}

/// Lays rows over those from a position on.
fn lay_rows<W: Words>(
    words: &W,
    hand: &mut W::Hand,
    blocks: usize,
    from: Spot,
    more: &[u64],
) -> Position
    requires blocks { blocks ≡ W.blocks words.now }
    requires few { blocks ≤ 2048 }
    requires may { W.may_store words.now hand.old }
    requires laid { IsLaidOut blocks (W.words words.now hand.old) }
    requires there { from.at.block < blocks_of blocks (W.words words.now hand.old) }
    requires place { from.at.place ≤ rows_of blocks (W.words words.now hand.old) from.at.block + 1 }
    requires body { from.body.at ≡ body_at blocks (W.words words.now hand.old) from.at.block }
    requires count { from.body.rows ≡ rows_of blocks (W.words words.now hand.old) from.at.block }
    requires fits { rank blocks (W.words words.now hand.old) from.at.block from.at.place + length more.now ≤ length
        (rows_in blocks (W.words words.now hand.old)) }
    requires more { All (W.is_row words.now hand.old) more.now }
    ensures laid { IsLaidOut blocks (W.words words.now hand.new) }
    ensures spliced { rows_in blocks (W.words words.now hand.new) ≡ splice (rows_in blocks (W.words words.now hand.old))
        (rank blocks (W.words words.now hand.old) from.at.block from.at.place)
        (rank blocks (W.words words.now hand.old) from.at.block from.at.place + length more.now) more.now }
    ensures layout { (t : ℕ) → 128 * blocks ≤ t → slice_index (W.words words.now hand.new) t ≡ slice_index (W.words words.now hand.old) t }
    ensures there { result.block < blocks_of blocks (W.words words.now hand.old) }
    ensures from { from.at.block ≤ result.block }
    ensures place { result.place ≤ rows_of blocks (W.words words.now hand.old) result.block + 1 }
    ensures rank { rank blocks (W.words words.now hand.old) result.block result.place ≡ rank blocks (W.words words.now hand.old) from.at.block from.at.place
        + length more.now }
    ensures may { W.may_store words.now hand.new }
    ensures rows { (w : ℕ) → W.is_row words.now hand.old w → W.is_row words.now hand.new w }
    ensures kept { W.kept words.now hand.old hand.new }
    ensures steps { W.steps words.now hand.new + from.at.block ≤ W.steps words.now hand.old + (2 * length more.now + result.block) }
{
    let mut spot = from;
    let mut k = 0;
    'rows: while k < more.len() {
        let here = go_on(words, hand, blocks, spot);
        lay_row(words, hand, blocks, here, more[k]);
        spot = Spot {
            at: Position {
                block: here.at.block,
                place: here.at.place + 1,
            },
            body: here.body,
        };
        k += 1;
    }
    spot.at
}

/// Lays rows over those from a position on, each where another one stands, and gives the position behind them. That
/// may be behind the last row of a block.
pub fn lay<W: Words>(
    words: &W,
    hand: &mut W::Hand,
    blocks: usize,
    at: Position,
    more: &[u64],
) -> Position
    requires blocks { blocks ≡ W.blocks words.now }
    requires few { blocks ≤ 2048 }
    requires may { W.may_store words.now hand.old }
    requires laid { IsLaidOut blocks (W.words words.now hand.old) }
    requires there { at.block < blocks_of blocks (W.words words.now hand.old) }
    requires place { at.place ≤ rows_of blocks (W.words words.now hand.old) at.block + 1 }
    requires fits { rank blocks (W.words words.now hand.old) at.block at.place + length more.now ≤ length (rows_in blocks (W.words words.now hand.old)) }
    requires more { All (W.is_row words.now hand.old) more.now }
    ensures laid { IsLaidOut blocks (W.words words.now hand.new) }
    ensures spliced { rows_in blocks (W.words words.now hand.new) ≡ splice (rows_in blocks (W.words words.now hand.old))
        (rank blocks (W.words words.now hand.old) at.block at.place)
        (rank blocks (W.words words.now hand.old) at.block at.place + length more.now) more.now }
    ensures layout { (t : ℕ) → 128 * blocks ≤ t → slice_index (W.words words.now hand.new) t ≡ slice_index (W.words words.now hand.old) t }
    ensures there { result.block < blocks_of blocks (W.words words.now hand.old) }
    ensures from { at.block ≤ result.block }
    ensures place { result.place ≤ rows_of blocks (W.words words.now hand.old) result.block + 1 }
    ensures rank { rank blocks (W.words words.now hand.old) result.block result.place ≡ rank blocks (W.words words.now hand.old) at.block at.place + length
        more.now }
    ensures may { W.may_store words.now hand.new }
    ensures rows { (w : ℕ) → W.is_row words.now hand.old w → W.is_row words.now hand.new w }
    ensures kept { W.kept words.now hand.old hand.new }
    ensures steps { W.steps words.now hand.new + at.block ≤ W.steps words.now hand.old + (2 * length more.now + 1 + result.block) }
{
    let body = body_of(words, hand, blocks, at.block);
    lay_rows(words, hand, blocks, Spot { at, body }, more)
}
