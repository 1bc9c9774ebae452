//! A splice of the rows, written: rows are laid over those that go, and then either more come or the rest goes. At most
//! one block is split, and where all blocks are in use then, two are merged. The gaps of the blocks that the splice
//! touches are told anew. A reader may rely on a splice taking no memory, and on a block being free again behind it.
ghost use Rattle.std.specs.Prelude.{ℕ, All, ◌≡◌, ◌+◌, ◌-◌, ◌*◌, ◌<◌, ◌≤◌, length, min};
ghost use Rattle.std.specs.List.{splice};
ghost use Rattle.page_types.specs.declared.TheConstants.{LIMIT};
ghost use Rattle.row_plans.specs.RowWords.{row_start};
ghost use Rattle.row_blocks.specs.Blocks.{IsLaidOut, blocks_of, rows_of, rows_in, rank};
ghost use Rattle.row_blocks.specs.Gaps.{GapsTold, IsBeside};
ghost use Rattle.row_blocks.specs.Limits.{HasSettled, IsPlaceIn, Replaces};

use crate::coming::come;
use crate::cutting::cut;
use crate::gaps::tell_gaps;
use crate::laying::lay;
use crate::positions::Position;
use crate::settling::settle;
use crate::words::Words;

/// Lays rows over those that go, and then either more come or the rest goes. Gives the block where it came to an end.
fn replace<W: Words>(
    words: &W,
    hand: &mut W::Hand,
    blocks: usize,
    at: Position,
    gone: usize,
    more: &[u64],
) -> usize
    requires blocks { blocks ≡ W.blocks words.now }
    requires few { blocks ≤ 2048 }
    requires may { W.may_store words.now hand.old }
    requires laid { IsLaidOut blocks (W.words words.now hand.old) }
    requires rows { All (W.is_row words.now hand.old) (rows_in blocks (W.words words.now hand.old)) }
    requires there { at.block < blocks_of blocks (W.words words.now hand.old) }
    requires place { at.place ≤ rows_of blocks (W.words words.now hand.old) at.block + 1 }
    requires fits { rank blocks (W.words words.now hand.old) at.block at.place + gone ≤ length (rows_in blocks (W.words words.now hand.old)) }
    requires stays { 0 < rank blocks (W.words words.now hand.old) at.block at.place + length more.now }
    requires grows { length more.now ≤ gone + 4 }
    requires new { All (W.is_row words.now hand.old) more.now }
    requires free { blocks_of blocks (W.words words.now hand.old) < blocks }
    requires short { rows_of blocks (W.words words.now hand.old) 0 < 64 }
    ensures laid { IsLaidOut blocks (W.words words.now hand.new) }
    ensures spliced { rows_in blocks (W.words words.now hand.new) ≡ splice (rows_in blocks (W.words words.now hand.old))
        (rank blocks (W.words words.now hand.old) at.block at.place)
        (rank blocks (W.words words.now hand.old) at.block at.place + gone) more.now }
    ensures from { at.block ≤ result }
    ensures near { IsPlaceIn blocks (W.words words.now hand.old) result
        (rank blocks (W.words words.now hand.old) at.block at.place + min gone (length more.now)) }
    ensures grew { Replaces blocks (W.words words.now hand.old) (W.words words.now hand.new) result (length more.now - gone)
        (rank blocks (W.words words.now hand.old) at.block at.place + min gone (length more.now))
        (rank blocks (W.words words.now hand.old) at.block at.place + gone) }
    ensures short { rows_of blocks (W.words words.now hand.new) 0 < 64 }
    ensures beside { IsBeside blocks (W.words words.now hand.old) (W.words words.now hand.new) result
        (result + 1 + (blocks_of blocks (W.words words.now hand.new) - blocks_of blocks (W.words words.now hand.old)) + min 1 (gone - length more.now))
        (rank blocks (W.words words.now hand.old) at.block at.place + length more.now) }
    ensures may { W.may_store words.now hand.new }
    ensures rows { (w : ℕ) → W.is_row words.now hand.old w → W.is_row words.now hand.new w }
    ensures kept { W.kept words.now hand.old hand.new }
    ensures steps { W.steps words.now hand.new ≤ W.steps words.now hand.old + (2 * length more.now + 9 * blocks + 1434) }
    ensures none_went { blocks_of blocks (W.words words.now hand.old) ≤ blocks_of blocks (W.words words.now hand.new)
        → W.steps words.now hand.new ≤ W.steps words.now hand.old + (2 * length more.now + 5 * blocks + 1434) }
{
    if gone < more.len() {
        let to = lay(words, hand, blocks, at, &more[..gone]);
        come(words, hand, blocks, to, &more[gone..]);
        return to.block;
    }
    let to = lay(words, hand, blocks, at, more);
    cut(words, hand, blocks, to, gone - more.len());
    to.block
}

/// The first block whose largest gap a splice from a position on may change: the one before where it begins a block,
/// since the last gap of that one ends there.
fn first_touched(at: Position) -> usize
    ensures most { result ≤ at.block }
    ensures least { at.block ≤ result + 1 }
    ensures before { result < at.block → at.place ≡ 0 }
    ensures begins { at.place ≡ 0 → 0 < at.block → result < at.block }
{
    if at.place == 0 && at.block > 0 {
        at.block - 1
    } else {
        at.block
    }
}

/// The block behind those whose largest gap a splice may change that ends in a block: that one, the upper half of it
/// where it was split, or what is left of one from which rows went.
fn end_touched(near: usize, before: usize, after: usize, gone: usize, come: usize) -> usize
    requires near { near ≤ 2048 }
    requires after { after ≤ 2048 }
    ensures { result ≡ near + 1 + (after - before) + min 1 (gone - come) }
{
    near + 1 + after.saturating_sub(before) + gone.saturating_sub(come).min(1)
}

/// Replaces rows, and tells the largest gaps of the blocks that this touches. Gives the block where it came to an end.
fn put<W: Words>(
    words: &W,
    hand: &mut W::Hand,
    blocks: usize,
    before: usize,
    at: Position,
    gone: usize,
    more: &[u64],
) -> usize
    requires blocks { blocks ≡ W.blocks words.now }
    requires few { blocks ≤ 2048 }
    requires may { W.may_store words.now hand.old }
    requires laid { IsLaidOut blocks (W.words words.now hand.old) }
    requires rows { All (W.is_row words.now hand.old) (rows_in blocks (W.words words.now hand.old)) }
    requires there { at.block < blocks_of blocks (W.words words.now hand.old) }
    requires place { at.place ≤ rows_of blocks (W.words words.now hand.old) at.block + 1 }
    requires fits { rank blocks (W.words words.now hand.old) at.block at.place + gone ≤ length (rows_in blocks (W.words words.now hand.old)) }
    requires stays { 0 < rank blocks (W.words words.now hand.old) at.block at.place + length more.now }
    requires grows { length more.now ≤ gone + 4 }
    requires new { All (W.is_row words.now hand.old) more.now }
    requires free { blocks_of blocks (W.words words.now hand.old) < blocks }
    requires short { rows_of blocks (W.words words.now hand.old) 0 < 64 }
    requires low { All (λ w. row_start w ≤ LIMIT) (rows_in blocks (W.words words.now hand.old)) }
    requires low_new { All (λ w. row_start w ≤ LIMIT) more.now }
    requires told { GapsTold blocks (W.words words.now hand.old) }
    requires before { before ≡ blocks_of blocks (W.words words.now hand.old) }
    ensures laid { IsLaidOut blocks (W.words words.now hand.new) }
    ensures spliced { rows_in blocks (W.words words.now hand.new) ≡ splice (rows_in blocks (W.words words.now hand.old))
        (rank blocks (W.words words.now hand.old) at.block at.place)
        (rank blocks (W.words words.now hand.old) at.block at.place + gone) more.now }
    ensures near { IsPlaceIn blocks (W.words words.now hand.old) result
        (rank blocks (W.words words.now hand.old) at.block at.place + min gone (length more.now)) }
    ensures grew { Replaces blocks (W.words words.now hand.old) (W.words words.now hand.new) result (length more.now - gone)
        (rank blocks (W.words words.now hand.old) at.block at.place + min gone (length more.now))
        (rank blocks (W.words words.now hand.old) at.block at.place + gone) }
    ensures short { rows_of blocks (W.words words.now hand.new) 0 < 64 }
    ensures told { GapsTold blocks (W.words words.now hand.new) }
    ensures may { W.may_store words.now hand.new }
    ensures rows { (w : ℕ) → W.is_row words.now hand.old w → W.is_row words.now hand.new w }
    ensures kept { W.kept words.now hand.old hand.new }
    ensures steps { W.steps words.now hand.new ≤ W.steps words.now hand.old + (3 * length more.now + 12 * blocks + 1957) }
    ensures none_went { blocks_of blocks (W.words words.now hand.old) ≤ blocks_of blocks (W.words words.now hand.new)
        → W.steps words.now hand.new ≤ W.steps words.now hand.old + (3 * length more.now + 8 * blocks + 1957) }
{
    let near = replace(words, hand, blocks, at, gone, more);
    let after = words.load(hand, 128 * blocks) as usize;
    let first = first_touched(at);
    let end = end_touched(near, before, after, gone, more.len());
    tell_gaps(words, hand, blocks, first, end);
    near
}

/// Writes a splice: so many rows from a position on go, and others come in their place, at most four more. It takes no
/// memory. A row before them stays, or one comes. Block 0 has at most 64 rows before and after, and a block is free
/// before and after, as long as there are fewer than `129 * (blocks - 2) / 2` rows. Each body word tells the largest
/// gap of its block before and after, so no row may start above `LIMIT`.
pub fn write<W: Words>(
    words: &W,
    hand: &mut W::Hand,
    blocks: usize,
    at: Position,
    gone: usize,
    more: &[u64],
)
    requires blocks { blocks ≡ W.blocks words.now }
    requires few { blocks ≤ 2048 }
    requires may { W.may_store words.now hand.old }
    requires laid { IsLaidOut blocks (W.words words.now hand.old) }
    requires rows { All (W.is_row words.now hand.old) (rows_in blocks (W.words words.now hand.old)) }
    requires there { at.block < blocks_of blocks (W.words words.now hand.old) }
    requires place { at.place ≤ rows_of blocks (W.words words.now hand.old) at.block + 1 }
    requires fits { rank blocks (W.words words.now hand.old) at.block at.place + gone ≤ length (rows_in blocks (W.words words.now hand.old)) }
    requires stays { 0 < rank blocks (W.words words.now hand.old) at.block at.place + length more.now }
    requires grows { length more.now ≤ gone + 4 }
    requires new { All (W.is_row words.now hand.old) more.now }
    requires low { All (λ w. row_start w ≤ LIMIT) (rows_in blocks (W.words words.now hand.old)) }
    requires low_new { All (λ w. row_start w ≤ LIMIT) more.now }
    requires told { GapsTold blocks (W.words words.now hand.old) }
    requires room { 2 * (length (rows_in blocks (W.words words.now hand.old)) + length more.now) < 129 * (blocks - 2) + 2 * gone }
    requires free { blocks_of blocks (W.words words.now hand.old) < blocks }
    requires short { rows_of blocks (W.words words.now hand.old) 0 < 64 }
    ensures laid { IsLaidOut blocks (W.words words.now hand.new) }
    ensures spliced { rows_in blocks (W.words words.now hand.new) ≡ splice (rows_in blocks (W.words words.now hand.old))
        (rank blocks (W.words words.now hand.old) at.block at.place)
        (rank blocks (W.words words.now hand.old) at.block at.place + gone) more.now }
    ensures settled { HasSettled blocks (W.words words.now hand.old) (W.words words.now hand.new) (length more.now - gone)
        (rank blocks (W.words words.now hand.old) at.block at.place + min gone (length more.now))
        (rank blocks (W.words words.now hand.old) at.block at.place + gone) }
    ensures free { blocks_of blocks (W.words words.now hand.new) < blocks }
    ensures short { rows_of blocks (W.words words.now hand.new) 0 < 64 }
    ensures told { GapsTold blocks (W.words words.now hand.new) }
    ensures may { W.may_store words.now hand.new }
    ensures rows { (w : ℕ) → W.is_row words.now hand.old w → W.is_row words.now hand.new w }
    ensures kept { W.kept words.now hand.old hand.new }
    ensures steps { W.steps words.now hand.new ≤ W.steps words.now hand.old + (3 * length more.now + 16 * blocks + 2360) }
{
    let before = words.load(hand, 128 * blocks) as usize;
    let near = put(words, hand, blocks, before, at, gone, more);
    settle(words, hand, blocks, near, before);
}
