//! The search for the row that has a page: by halving over the heads in use, and then over the body of the block found.
//! The row's word and its end are those that were loaded last on each side of the page. Only the first row of all is
//! known to start at or before the page without a load, and is loaded where it is the one. A reader may rely on no word
//! being stored, and on the number of loads.
ghost use Rattle.std.specs.Prelude.{ℕ, ◌≡◌, ◌+◌, ◌-◌, ◌*◌, ◌^◌, ◌<◌, ◌≤◌, length, drop, slice_index};
ghost use Rattle.page_types.specs.declared.TheConstants.{LIMIT};
ghost use Rattle.row_plans.specs.RowWords.{row_start};
ghost use Rattle.row_plans.specs.RowLists.{rows_start};
ghost use Rattle.row_blocks.specs.Blocks.{IsLaidOut, blocks_of, rows_of, rows_in, rank};
ghost use Rattle.row_blocks.specs.Searches.{IsLast};

use crate::positions::{Position, body_of};
use crate::words::Loads;
use page_types::LIMIT;

/// A row that was found.
#[derive(Clone, Copy)]
pub struct Found {
    /// Where it stands.
    pub at: Position,
    /// Its word.
    pub word: u64,
    /// The page at which the next row starts, or LIMIT.
    pub end: u64,
}

/// What halving comes to: a place, its word where that was loaded, and where the next word starts.
#[derive(Clone, Copy)]
struct Halved {
    place: usize,
    word: u64,
    end: u64,
}

/// The last of so many words that starts at or before a page. The first one does, and isn't loaded; `end` is where the
/// words behind start.
fn halve<W: Loads>(
    words: &W,
    hand: &mut W::Hand,
    from: usize,
    size: usize,
    page: u64,
    end: u64,
) -> Halved
    requires may { W.may_store words.now hand.old }
    requires wide { from + size ≤ length (W.words words.now hand.old) }
    requires few { from + size < 2 ^ 63 }
    requires some { 0 < size }
    requires end { page < end }
    ensures found { IsLast (W.words words.now hand.old) from size page result.place result.word result.end }
    ensures last { result.place + 1 ≡ size → result.end ≡ end }
    ensures words { W.words words.now hand.new ≡ W.words words.now hand.old }
    ensures may { W.may_store words.now hand.new }
    ensures rows { (w : ℕ) → W.is_row words.now hand.old w → W.is_row words.now hand.new w }
    ensures kept { W.kept words.now hand.old hand.new }
    ensures steps { (m : ℕ) → size ≤ 2 ^ m → W.steps words.now hand.new ≤ W.steps words.now hand.old + m }
{
    let mut low = 0;
    let mut high = size;
    let mut word = 0;
    let mut behind = end;
    'halve: while high - low > 1 {
        let middle = low + (high - low) / 2;
        let read = words.load(hand, from + middle);
        if read / 64 <= page {
            low = middle;
            word = read;
        } else {
            high = middle;
            behind = read / 64;
        }
    }
    Halved {
        place: low,
        word,
        end: behind,
    }
}

/// The row that has a page. Both levels are halved, and a word that was loaded isn't loaded again; the first block has
/// at most 64 rows, so that its head has its place in the bound.
pub fn find<W: Loads>(words: &W, hand: &mut W::Hand, blocks: usize, page: u64) -> Found
    requires few { blocks ≤ 2048 }
    requires may { W.may_store words.now hand.old }
    requires laid { IsLaidOut blocks (W.words words.now hand.old) }
    requires page { page < LIMIT }
    requires first { row_start (slice_index (W.words words.now hand.old) 0) ≡ 0 }
    requires short { rows_of blocks (W.words words.now hand.old) 0 < 64 }
    requires low { (k : ℕ) → k < length (rows_in blocks (W.words words.now hand.old)) → row_start (slice_index (rows_in blocks (W.words words.now hand.old)) k)
        ≤ LIMIT }
    ensures block { result.at.block < blocks_of blocks (W.words words.now hand.old) }
    ensures place { result.at.place ≤ rows_of blocks (W.words words.now hand.old) result.at.block }
    ensures word { result.word ≡ slice_index (rows_in blocks (W.words words.now hand.old))
        (rank blocks (W.words words.now hand.old) result.at.block result.at.place) }
    ensures end { result.end ≡ rows_start (drop (rank blocks (W.words words.now hand.old) result.at.block result.at.place + 1)
        (rows_in blocks (W.words words.now hand.old))) }
    ensures from { row_start result.word ≤ page }
    ensures until { page < result.end }
    ensures words { W.words words.now hand.new ≡ W.words words.now hand.old }
    ensures may { W.may_store words.now hand.new }
    ensures rows { (w : ℕ) → W.is_row words.now hand.old w → W.is_row words.now hand.new w }
    ensures kept { W.kept words.now hand.old hand.new }
    ensures steps { W.steps words.now hand.new ≤ W.steps words.now hand.old + 20 }
    ensures fewer { (m : ℕ) → blocks_of blocks (W.words words.now hand.old) ≤ 2 ^ m → W.steps words.now hand.new ≤ W.steps words.now hand.old
        + (m + 9) }
{
    let used = words.load(hand, 128 * blocks) as usize;
    let heads = halve(words, hand, 0, used, page, LIMIT);
    let body = body_of(words, hand, blocks, heads.place);
    let found = halve(words, hand, body.at - 1, body.rows + 1, page, heads.end);
    let at = Position {
        block: heads.place,
        place: found.place,
    };
    let end = found.end.min(LIMIT);
    if found.place > 0 {
        return Found {
            at,
            word: found.word,
            end,
        };
    }
    if heads.place > 0 {
        return Found {
            at,
            word: heads.word,
            end,
        };
    }
    let word = words.load(hand, 0);
    Found { at, word, end }
}
