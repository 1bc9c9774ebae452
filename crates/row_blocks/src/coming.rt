//! A few rows that come at a position, one after another into one block that has room for all of them. A call brings at
//! most four rows more than go, so one split makes room enough. A reader may rely on no call splitting twice.
ghost use Rattle.std.specs.Prelude.{ℕ, All, [], ◌≡◌, ◌≢◌, ◌+◌, ◌-◌, ◌*◌, ◌/◌, ◌<◌, ◌≤◌, length, slice_index};
ghost use Rattle.std.specs.List.{splice};
ghost use Rattle.row_blocks.specs.Blocks.{IsLaidOut, blocks_of, rows_of, rows_in, count_to, rank, told};
ghost use Rattle.row_blocks.specs.Gaps.{IsBeside};
ghost use Rattle.row_blocks.specs.Limits.{limit_of};

use crate::inserting::insert;
use crate::positions::Position;
use crate::rooms::make_room;
use crate::words::Words;

/// Inserts rows at a place of a block that has room for them.
fn insert_all<W: Words>(words: &W, hand: &mut W::Hand, blocks: usize, at: Position, more: &[u64])
    requires blocks { blocks ≡ W.blocks words.now }
    requires few { blocks ≤ 2048 }
    requires may { W.may_store words.now hand.old }
    requires laid { IsLaidOut blocks (W.words words.now hand.old) }
    requires rows { All (W.is_row words.now hand.old) (rows_in blocks (W.words words.now hand.old)) }
    requires there { at.block < blocks_of blocks (W.words words.now hand.old) }
    requires place { at.place ≤ rows_of blocks (W.words words.now hand.old) at.block + 1 }
    requires room { rows_of blocks (W.words words.now hand.old) at.block + length more.now < 128 }
    requires new { All (W.is_row words.now hand.old) more.now }
    ensures laid { IsLaidOut blocks (W.words words.now hand.new) }
    ensures spliced { rows_in blocks (W.words words.now hand.new) ≡ splice (rows_in blocks (W.words words.now hand.old))
        (rank blocks (W.words words.now hand.old) at.block at.place) (rank blocks (W.words words.now hand.old) at.block at.place) more.now }
    ensures count { blocks_of blocks (W.words words.now hand.new) ≡ blocks_of blocks (W.words words.now hand.old) }
    ensures grown { rows_of blocks (W.words words.now hand.new) at.block ≡ rows_of blocks (W.words words.now hand.old) at.block + length more.now }
    ensures others { (k : ℕ) → k < blocks → k ≢ at.block → told blocks (W.words words.now hand.new) k ≡ told blocks (W.words words.now hand.old) k }
    ensures all { All (W.is_row words.now hand.new) (rows_in blocks (W.words words.now hand.new)) }
    ensures may { W.may_store words.now hand.new }
    ensures rows { (w : ℕ) → W.is_row words.now hand.old w → W.is_row words.now hand.new w }
    ensures kept { W.kept words.now hand.old hand.new }
    ensures steps { W.steps words.now hand.new ≤ W.steps words.now hand.old + 260 * length more.now }
{
    let mut k = 0;
    'rows: while k < more.len() {
        insert(words, hand, blocks, at.block, at.place + k, more[k]);
        k += 1;
    }
}

/// Inserts a few rows at a position.
pub(crate) fn come<W: Words>(
    words: &W,
    hand: &mut W::Hand,
    blocks: usize,
    at: Position,
    more: &[u64],
)
    requires blocks { blocks ≡ W.blocks words.now }
    requires few { blocks ≤ 2048 }
    requires may { W.may_store words.now hand.old }
    requires laid { IsLaidOut blocks (W.words words.now hand.old) }
    requires rows { All (W.is_row words.now hand.old) (rows_in blocks (W.words words.now hand.old)) }
    requires there { at.block < blocks_of blocks (W.words words.now hand.old) }
    requires place { at.place ≤ rows_of blocks (W.words words.now hand.old) at.block + 1 }
    requires free { blocks_of blocks (W.words words.now hand.old) < blocks }
    requires short { rows_of blocks (W.words words.now hand.old) 0 < 64 }
    requires more { length more.now ≤ 4 }
    requires new { All (W.is_row words.now hand.old) more.now }
    ensures laid { IsLaidOut blocks (W.words words.now hand.new) }
    ensures spliced { rows_in blocks (W.words words.now hand.new) ≡ splice (rows_in blocks (W.words words.now hand.old))
        (rank blocks (W.words words.now hand.old) at.block at.place) (rank blocks (W.words words.now hand.old) at.block at.place) more.now }
    ensures split { limit_of blocks (blocks_of blocks (W.words words.now hand.old)) at.block
        < rows_of blocks (W.words words.now hand.old) at.block + 1 + length more.now
        → blocks_of blocks (W.words words.now hand.new) ≡ blocks_of blocks (W.words words.now hand.old) + 1 }
    ensures stays { rows_of blocks (W.words words.now hand.old) at.block + 1 + length more.now
        ≤ limit_of blocks (blocks_of blocks (W.words words.now hand.old)) at.block
        → blocks_of blocks (W.words words.now hand.new) ≡ blocks_of blocks (W.words words.now hand.old) }
    ensures short { rows_of blocks (W.words words.now hand.new) 0 < 64 }
    ensures beside { IsBeside blocks (W.words words.now hand.old) (W.words words.now hand.new) at.block
        (at.block + 1 + (blocks_of blocks (W.words words.now hand.new) - blocks_of blocks (W.words words.now hand.old)))
        (rank blocks (W.words words.now hand.old) at.block at.place + length more.now) }
    ensures all { All (W.is_row words.now hand.new) (rows_in blocks (W.words words.now hand.new)) }
    ensures may { W.may_store words.now hand.new }
    ensures rows { (w : ℕ) → W.is_row words.now hand.old w → W.is_row words.now hand.new w }
    ensures kept { W.kept words.now hand.old hand.new }
    ensures steps { W.steps words.now hand.new ≤ W.steps words.now hand.old + (4 * blocks + 1433) }
{
    let to = make_room(words, hand, blocks, at, more.len());
    insert_all(words, hand, blocks, to, more);
}
