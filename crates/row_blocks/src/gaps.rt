//! The largest gap of each block, in its body word: how many free pages stand together there at most, at or above
//! `LOWEST`. A gap that ends a block reaches to the first row of the next one. Where a change has left gaps untold,
//! the rows of these blocks are read once more. A reader may rely on no row being stored.
ghost use Rattle.std.specs.Prelude.{ℕ, ◌≡◌, ◌<◌, ◌≤◌, ◌+◌, ◌-◌, ◌*◌, length, drop, slice_index};
ghost use Rattle.page_types.specs.declared.TheConstants.{LIMIT};
ghost use Rattle.row_plans.specs.RowWords.{row_start};
ghost use Rattle.row_plans.specs.RowLists.{rows_start};
ghost use Rattle.row_blocks.specs.Blocks.{IsLaidOut, blocks_of, rows_of, rows_in, count_to, told};
ghost use Rattle.row_blocks.specs.Gaps.{GapsBut, GapsTold, IsLargestGap, IsSameButGaps, TellsGap};

use crate::words::{Loads, Words};
use page_types::LIMIT;
use row_plans::free_pages;

/// A body word has the largest gap of its block above its body and its rows.
pub(crate) const GAP: u64 = 262_144;

/// Where the rows of a block end: where the next block's first row starts, or at `LIMIT`.
fn end_of_block<W: Loads>(
    words: &W,
    hand: &mut W::Hand,
    blocks: usize,
    used: usize,
    i: usize,
) -> u64
    requires few { blocks ≤ 2048 }
    requires may { W.may_store words.now hand.old }
    requires laid { IsLaidOut blocks (W.words words.now hand.old) }
    requires there { i < blocks_of blocks (W.words words.now hand.old) }
    requires used { used ≡ blocks_of blocks (W.words words.now hand.old) }
    ensures end { result ≡ rows_start (drop (count_to blocks (W.words words.now hand.old) (i + 1)) (rows_in blocks (W.words words.now hand.old))) }
    ensures words { W.words words.now hand.new ≡ W.words words.now hand.old }
    ensures may { W.may_store words.now hand.new }
    ensures rows { (w : ℕ) → W.is_row words.now hand.old w → W.is_row words.now hand.new w }
    ensures kept { W.kept words.now hand.old hand.new }
    ensures steps { W.steps words.now hand.new ≤ W.steps words.now hand.old + 1 }
{
    if i + 1 < used {
        return words.load(hand, i + 1) / 64;
    }
    LIMIT
}

/// The largest gap of a block, whose body word this is.
fn largest_gap<W: Loads>(
    words: &W,
    hand: &mut W::Hand,
    blocks: usize,
    used: usize,
    i: usize,
    packed: u64,
) -> u64
    requires few { blocks ≤ 2048 }
    requires may { W.may_store words.now hand.old }
    requires laid { IsLaidOut blocks (W.words words.now hand.old) }
    requires there { i < blocks_of blocks (W.words words.now hand.old) }
    requires used { used ≡ blocks_of blocks (W.words words.now hand.old) }
    requires packed { packed ≡ told blocks (W.words words.now hand.old) i }
    requires low { (k : ℕ) → k < length (rows_in blocks (W.words words.now hand.old)) → row_start (slice_index (rows_in blocks (W.words words.now hand.old)) k)
        ≤ LIMIT }
    ensures largest { IsLargestGap (rows_in blocks (W.words words.now hand.old)) (count_to blocks (W.words words.now hand.old) i)
        (count_to blocks (W.words words.now hand.old) (i + 1)) result }
    ensures low { result ≤ LIMIT }
    ensures words { W.words words.now hand.new ≡ W.words words.now hand.old }
    ensures may { W.may_store words.now hand.new }
    ensures rows { (w : ℕ) → W.is_row words.now hand.old w → W.is_row words.now hand.new w }
    ensures kept { W.kept words.now hand.old hand.new }
    ensures steps { W.steps words.now hand.new ≤ W.steps words.now hand.old + (rows_of blocks (W.words words.now hand.old) i + 2) }
{
    let at = blocks + 127 * (packed / 128 % 2048) as usize;
    let count = (packed % 128) as usize;
    let mut word = words.load(hand, i);
    let mut gap: u64 = 0;
    let mut k = 0;
    'rows: while k < count {
        let next = words.load(hand, at + k);
        gap = gap.max(free_pages(word, next / 64));
        word = next;
        k += 1;
    }
    let end = end_of_block(words, hand, blocks, used, i);
    gap.max(free_pages(word, end))
}

/// Tells the largest gap of a block.
fn tell_gap<W: Words>(words: &W, hand: &mut W::Hand, blocks: usize, used: usize, i: usize)
    requires blocks { blocks ≡ W.blocks words.now }
    requires few { blocks ≤ 2048 }
    requires may { W.may_store words.now hand.old }
    requires laid { IsLaidOut blocks (W.words words.now hand.old) }
    requires there { i < blocks_of blocks (W.words words.now hand.old) }
    requires used { used ≡ blocks_of blocks (W.words words.now hand.old) }
    requires low { (k : ℕ) → k < length (rows_in blocks (W.words words.now hand.old)) → row_start (slice_index (rows_in blocks (W.words words.now hand.old)) k)
        ≤ LIMIT }
    ensures same { IsSameButGaps blocks (W.words words.now hand.old) (W.words words.now hand.new) }
    ensures others { (k : ℕ) → k < blocks → (k ≡ i → ⊥) → told blocks (W.words words.now hand.new) k ≡ told blocks (W.words words.now hand.old) k }
    ensures tells { TellsGap blocks (W.words words.now hand.new) i }
    ensures may { W.may_store words.now hand.new }
    ensures rows { (w : ℕ) → W.is_row words.now hand.old w → W.is_row words.now hand.new w }
    ensures kept { W.kept words.now hand.old hand.new }
    ensures steps { W.steps words.now hand.new ≤ W.steps words.now hand.old + (rows_of blocks (W.words words.now hand.old) i + 4) }
{
    let told = 128 * blocks + 1 + i;
    let packed = words.load(hand, told);
    let gap = largest_gap(words, hand, blocks, used, i, packed);
    let was = packed / GAP;
    if gap == was {
        return;
    }
    words.store_layout(hand, told, gap * GAP + packed % GAP);
}

/// Tells the largest gaps of the blocks from one up to another, where the others tell theirs.
pub(crate) fn tell_gaps<W: Words>(
    words: &W,
    hand: &mut W::Hand,
    blocks: usize,
    first: usize,
    end: usize,
)
    requires blocks { blocks ≡ W.blocks words.now }
    requires few { blocks ≤ 2048 }
    requires may { W.may_store words.now hand.old }
    requires laid { IsLaidOut blocks (W.words words.now hand.old) }
    requires low { (k : ℕ) → k < length (rows_in blocks (W.words words.now hand.old)) → row_start (slice_index (rows_in blocks (W.words words.now hand.old)) k)
        ≤ LIMIT }
    requires ordered { first ≤ end }
    requires within { end ≤ blocks + 2 }
    requires but { GapsBut blocks (W.words words.now hand.old) first end }
    ensures same { IsSameButGaps blocks (W.words words.now hand.old) (W.words words.now hand.new) }
    ensures told { GapsTold blocks (W.words words.now hand.new) }
    ensures may { W.may_store words.now hand.new }
    ensures rows { (w : ℕ) → W.is_row words.now hand.old w → W.is_row words.now hand.new w }
    ensures kept { W.kept words.now hand.old hand.new }
    ensures steps { W.steps words.now hand.new + count_to blocks (W.words words.now hand.old) first ≤ W.steps words.now hand.old
        + (count_to blocks (W.words words.now hand.old) end + 3 * (end - first) + 1) }
{
    let used = words.load(hand, 128 * blocks) as usize;
    let last = end.min(used);
    let mut i = first;
    'touched: while i < last {
        tell_gap(words, hand, blocks, used, i);
        i += 1;
    }
}
