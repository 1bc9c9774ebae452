//! Rows that go from a position on: the end of one block, whole blocks, and the beginning of another one. A reader may
//! rely on blocks going where the last of their rows goes, and on those before the position being left alone.
ghost use Rattle.std.specs.Prelude.{ℕ, All, [], ◌≡◌, ◌≢◌, ◌+◌, ◌-◌, ◌*◌, ◌<◌, ◌≤◌, length, min};
ghost use Rattle.std.specs.List.{splice};
ghost use Rattle.row_blocks.specs.Blocks.{IsLaidOut, blocks_of, rows_of, rows_in, count_to, rank, told};
ghost use Rattle.row_blocks.specs.Gaps.{IsBeside};
ghost use Rattle.row_blocks.specs.Limits.{HaveGone};

use crate::deleting::delete;
use crate::positions::{Position, body_of};
use crate::removing::take_out;
use crate::words::Words;

/// Deletes rows from a position on, as far as its block goes, and gives how many are left to go.
fn cut_first<W: Words>(
    words: &W,
    hand: &mut W::Hand,
    blocks: usize,
    at: Position,
    gone: usize,
) -> usize
    requires blocks { blocks ≡ W.blocks words.now }
    requires few { blocks ≤ 2048 }
    requires may { W.may_store words.now hand.old }
    requires laid { IsLaidOut blocks (W.words words.now hand.old) }
    requires rows { All (W.is_row words.now hand.old) (rows_in blocks (W.words words.now hand.old)) }
    requires there { at.block < blocks_of blocks (W.words words.now hand.old) }
    requires place { at.place ≤ rows_of blocks (W.words words.now hand.old) at.block + 1 }
    requires behind { 0 < at.place }
    ensures laid { IsLaidOut blocks (W.words words.now hand.new) }
    ensures spliced { rows_in blocks (W.words words.now hand.new) ≡ splice (rows_in blocks (W.words words.now hand.old))
        (rank blocks (W.words words.now hand.old) at.block at.place)
        (rank blocks (W.words words.now hand.old) at.block at.place + (gone - result)) [] }
    ensures left { result ≤ gone }
    ensures rest { 0 < result → count_to blocks (W.words words.now hand.new) (at.block + 1) ≡ rank blocks (W.words words.now hand.old) at.block at.place }
    ensures count { blocks_of blocks (W.words words.now hand.new) ≡ blocks_of blocks (W.words words.now hand.old) }
    ensures before { (k : ℕ) → k < at.block → told blocks (W.words words.now hand.new) k ≡ told blocks (W.words words.now hand.old) k }
    ensures less { rows_of blocks (W.words words.now hand.new) at.block + (gone - result) ≡ rows_of blocks (W.words words.now hand.old) at.block }
    ensures place { at.place ≤ rows_of blocks (W.words words.now hand.new) at.block + 1 }
    ensures others { (k : ℕ) → k < blocks → k ≢ at.block → told blocks (W.words words.now hand.new) k ≡ told blocks (W.words words.now hand.old) k }
    ensures may { W.may_store words.now hand.new }
    ensures rows { (w : ℕ) → W.is_row words.now hand.old w → W.is_row words.now hand.new w }
    ensures kept { W.kept words.now hand.old hand.new }
    ensures steps { W.steps words.now hand.new ≤ W.steps words.now hand.old + 387 }
{
    let body = body_of(words, hand, blocks, at.block);
    let cut = gone.min(body.rows + 1 - at.place);
    if cut == 0 {
        return gone;
    }
    delete(words, hand, blocks, at.block, at.place, at.place + cut);
    gone - cut
}

/// Deletes rows from the beginning of a block on, as far as they are the first ones of some block, and gives the first
/// block of which rows are left: those of the blocks before it are to go too.
fn cut_blocks<W: Words>(
    words: &W,
    hand: &mut W::Hand,
    blocks: usize,
    first: usize,
    gone: usize,
) -> usize
    requires blocks { blocks ≡ W.blocks words.now }
    requires few { blocks ≤ 2048 }
    requires may { W.may_store words.now hand.old }
    requires laid { IsLaidOut blocks (W.words words.now hand.old) }
    requires rows { All (W.is_row words.now hand.old) (rows_in blocks (W.words words.now hand.old)) }
    requires there { first ≤ blocks_of blocks (W.words words.now hand.old) }
    requires fits { count_to blocks (W.words words.now hand.old) first + gone ≤ length (rows_in blocks (W.words words.now hand.old)) }
    ensures laid { IsLaidOut blocks (W.words words.now hand.new) }
    ensures spliced { rows_in blocks (W.words words.now hand.new) ≡ splice (rows_in blocks (W.words words.now hand.old))
        (count_to blocks (W.words words.now hand.new) result) (count_to blocks (W.words words.now hand.old) first + gone) [] }
    ensures whole { count_to blocks (W.words words.now hand.old) result ≤ count_to blocks (W.words words.now hand.old) first + gone }
    ensures from { first ≤ result }
    ensures there { result ≤ blocks_of blocks (W.words words.now hand.new) }
    ensures count { blocks_of blocks (W.words words.now hand.new) ≡ blocks_of blocks (W.words words.now hand.old) }
    ensures before { (k : ℕ) → k < result → told blocks (W.words words.now hand.new) k ≡ told blocks (W.words words.now hand.old) k }
    ensures behind { (k : ℕ) → result < k → k < blocks → told blocks (W.words words.now hand.new) k ≡ told blocks (W.words words.now hand.old) k }
    ensures none { gone ≡ 0 → W.words words.now hand.new ≡ W.words words.now hand.old }
    ensures may { W.may_store words.now hand.new }
    ensures rows { (w : ℕ) → W.is_row words.now hand.old w → W.is_row words.now hand.new w }
    ensures kept { W.kept words.now hand.old hand.new }
    ensures steps { W.steps words.now hand.new ≤ W.steps words.now hand.old + (blocks + 387) }
{
    let mut end = first;
    let mut left = gone;
    'whole: while left > 0 {
        let body = body_of(words, hand, blocks, end);
        if left <= body.rows {
            delete(words, hand, blocks, end, 0, left);
            return end;
        }
        left -= body.rows + 1;
        end += 1;
    }
    end
}

/// Deletes rows from the beginning of a block on. A block before it stays.
fn cut_on<W: Words>(words: &W, hand: &mut W::Hand, blocks: usize, first: usize, gone: usize)
    requires blocks { blocks ≡ W.blocks words.now }
    requires few { blocks ≤ 2048 }
    requires may { W.may_store words.now hand.old }
    requires laid { IsLaidOut blocks (W.words words.now hand.old) }
    requires rows { All (W.is_row words.now hand.old) (rows_in blocks (W.words words.now hand.old)) }
    requires left { 0 < first }
    requires there { first ≤ blocks_of blocks (W.words words.now hand.old) }
    requires fits { count_to blocks (W.words words.now hand.old) first + gone ≤ length (rows_in blocks (W.words words.now hand.old)) }
    ensures laid { IsLaidOut blocks (W.words words.now hand.new) }
    ensures spliced { rows_in blocks (W.words words.now hand.new) ≡ splice (rows_in blocks (W.words words.now hand.old))
        (count_to blocks (W.words words.now hand.old) first) (count_to blocks (W.words words.now hand.old) first + gone) [] }
    ensures went { HaveGone blocks (W.words words.now hand.old) (W.words words.now hand.new) (count_to blocks (W.words words.now hand.old) first)
        (count_to blocks (W.words words.now hand.old) first + gone) }
    ensures count { blocks_of blocks (W.words words.now hand.new) ≤ blocks_of blocks (W.words words.now hand.old) }
    ensures before { (k : ℕ) → k < first → told blocks (W.words words.now hand.new) k ≡ told blocks (W.words words.now hand.old) k }
    ensures beside { IsBeside blocks (W.words words.now hand.old) (W.words words.now hand.new) first (first + min 1 gone)
        (count_to blocks (W.words words.now hand.old) first) }
    ensures may { W.may_store words.now hand.new }
    ensures rows { (w : ℕ) → W.is_row words.now hand.old w → W.is_row words.now hand.new w }
    ensures kept { W.kept words.now hand.old hand.new }
    ensures steps { W.steps words.now hand.new ≤ W.steps words.now hand.old + (8 * blocks + 389) }
    ensures none_went { blocks_of blocks (W.words words.now hand.new) ≡ blocks_of blocks (W.words words.now hand.old)
        → W.steps words.now hand.new ≤ W.steps words.now hand.old + (blocks + 387) }
{
    let end = cut_blocks(words, hand, blocks, first, gone);
    if end == first {
        return;
    }
    take_out(words, hand, blocks, first, end);
}

/// Deletes rows from a position on. A row before them stays.
pub(crate) fn cut<W: Words>(words: &W, hand: &mut W::Hand, blocks: usize, at: Position, gone: usize)
    requires blocks { blocks ≡ W.blocks words.now }
    requires few { blocks ≤ 2048 }
    requires may { W.may_store words.now hand.old }
    requires laid { IsLaidOut blocks (W.words words.now hand.old) }
    requires rows { All (W.is_row words.now hand.old) (rows_in blocks (W.words words.now hand.old)) }
    requires there { at.block < blocks_of blocks (W.words words.now hand.old) }
    requires place { at.place ≤ rows_of blocks (W.words words.now hand.old) at.block + 1 }
    requires behind { 0 < rank blocks (W.words words.now hand.old) at.block at.place }
    requires fits { rank blocks (W.words words.now hand.old) at.block at.place + gone ≤ length (rows_in blocks (W.words words.now hand.old)) }
    requires short { rows_of blocks (W.words words.now hand.old) 0 < 64 }
    ensures laid { IsLaidOut blocks (W.words words.now hand.new) }
    ensures spliced { rows_in blocks (W.words words.now hand.new) ≡ splice (rows_in blocks (W.words words.now hand.old))
        (rank blocks (W.words words.now hand.old) at.block at.place)
        (rank blocks (W.words words.now hand.old) at.block at.place + gone) [] }
    ensures count { blocks_of blocks (W.words words.now hand.new) ≤ blocks_of blocks (W.words words.now hand.old) }
    ensures went { blocks_of blocks (W.words words.now hand.new) < blocks_of blocks (W.words words.now hand.old)
        → HaveGone blocks (W.words words.now hand.old) (W.words words.now hand.new)
        (rank blocks (W.words words.now hand.old) at.block at.place) (rank blocks (W.words words.now hand.old) at.block at.place + gone) }
    ensures short { rows_of blocks (W.words words.now hand.new) 0 < 64 }
    ensures beside { IsBeside blocks (W.words words.now hand.old) (W.words words.now hand.new) at.block (at.block + 1 + min 1 gone)
        (rank blocks (W.words words.now hand.old) at.block at.place) }
    ensures may { W.may_store words.now hand.new }
    ensures rows { (w : ℕ) → W.is_row words.now hand.old w → W.is_row words.now hand.new w }
    ensures kept { W.kept words.now hand.old hand.new }
    ensures steps { W.steps words.now hand.new ≤ W.steps words.now hand.old + (8 * blocks + 776) }
    ensures none_went { blocks_of blocks (W.words words.now hand.new) ≡ blocks_of blocks (W.words words.now hand.old)
        → W.steps words.now hand.new ≤ W.steps words.now hand.old + (blocks + 774) }
{
    if at.place == 0 {
        cut_on(words, hand, blocks, at.block, gone);
        return;
    }
    let left = cut_first(words, hand, blocks, at, gone);
    cut_on(words, hand, blocks, at.block + 1, left);
}
