//! Words of one's own, and a script of splices over them. A reader may rely on what the trait asks of those who keep
//! words being met there, and on what a splice asks.
ghost use Rattle.std.specs.Prelude.{ℕ, All, ◌≡◌, ◌+◌, ◌-◌, ◌*◌, ◌<◌, ◌≤◌, length, slice_index, vec_capacity};
ghost use Rattle.page_types.specs.declared.TheConstants.{LIMIT};
ghost use Rattle.row_plans.specs.RowWords.{row_start};
ghost use Rattle.row_blocks.specs.Blocks.{IsLaidOut, blocks_of, rows_of, rows_in, rank};
ghost use Rattle.row_blocks.specs.Gaps.{GapsTold};

use row_blocks::{Loads, Position, Words, gather, next, previous, write};
use std::process::Abort;
use std::test::Fail;

/// Words of one's own. A run that makes too many steps ends.
#[derive(Drop)]
struct Plain<'a, A: Abort> {
    rt: &'a A,
    blocks: u64,
}

/// The hand that has them, and counts.
#[derive(Drop)]
struct Bench {
    words: Vec<u64>,
    steps: u64,
}

/// One step more.
fn count<A: Abort>(rt: &A, bench: &mut Bench)
    ensures step { bench.new.steps ≡ bench.old.steps + 1 }
    ensures words { bench.new.words ≡ bench.old.words }
{
    let Some(steps) = bench.steps.checked_add(1) else {
        panic!(rt; "too many steps");
    };
    bench.steps = steps;
}

impl<'a, A: Abort> Loads for Plain<'a, A> {
    ghost use Rattle.std.specs.Prelude.{ℕ, length};

    type Hand = Bench;

    ghost blocks = { λ plain. plain.blocks };

    ghost may_store = { λ _ hand. Unit {0} };

    ghost words = { λ _ hand. hand.words.items };

    ghost is_row = { λ _ _ _. Unit {0} };

    ghost steps = { λ _ hand. hand.steps };

    ghost kept = { λ _ _ _. Unit {0} };

    ghost no_step = { λ _ _. tt };

    ghost steps_on = { λ _ _ _ _ _ _. tt };

    fn load(&self, hand: &mut Bench, place: usize) -> u64 {
        count(self.rt, hand);
        hand.words[place]
    }
}

impl<'a, A: Abort> Words for Plain<'a, A> {
    fn store(&self, hand: &mut Bench, place: usize, word: u64) {
        count(self.rt, hand);
        hand.words[place] = word;
    }

    fn store_layout(&self, hand: &mut Bench, place: usize, word: u64) {
        count(self.rt, hand);
        hand.words[place] = word;
    }
}

/// The position of the row of that number, or behind the last row of its block.
fn position(words: &[u64], blocks: usize, number: usize) -> Position
    requires laid { IsLaidOut blocks words.now }
    requires few { blocks ≤ 2048 }
    requires there { number ≤ length (rows_in blocks words.now) }
    ensures there { result.block < blocks_of blocks words.now }
    ensures place { result.place ≤ rows_of blocks words.now result.block + 1 }
    ensures rank { rank blocks words.now result.block result.place ≡ number }
{
    let told = 128 * blocks + 1;
    let mut i = 0;
    let mut left = number;
    let mut rows = (words[told] % 128) as usize;
    'passed: while left > rows + 1 {
        left -= rows + 1;
        i += 1;
        rows = (words[told + i] % 128) as usize;
    }
    Position {
        block: i,
        place: left,
    }
}

/// Rows from a number on go, and others come in their place.
fn splice_at<A: Abort>(
    words: &Plain<'_, A>,
    bench: &mut Bench,
    blocks: usize,
    number: usize,
    gone: usize,
    more: &[u64],
)
    requires blocks { blocks ≡ words.now.blocks }
    requires few { blocks ≤ 2048 }
    requires laid { IsLaidOut blocks bench.old.words.items }
    requires fits { number + gone ≤ length (rows_in blocks bench.old.words.items) }
    requires stays { 0 < number + length more.now }
    requires grows { length more.now ≤ gone + 4 }
    requires room { 2 * (length (rows_in blocks bench.old.words.items) + length more.now) < 129 * (blocks - 2) + 2 * gone }
    requires free { blocks_of blocks bench.old.words.items < blocks }
    requires short { rows_of blocks bench.old.words.items 0 < 64 }
    requires low { All (λ w. row_start w ≤ LIMIT) (rows_in blocks bench.old.words.items) }
    requires low_new { All (λ w. row_start w ≤ LIMIT) more.now }
    requires told { GapsTold blocks bench.old.words.items }
    ensures laid { IsLaidOut blocks bench.new.words.items }
    ensures long { length (rows_in blocks bench.new.words.items) + gone ≡ length (rows_in blocks bench.old.words.items) + length more.now }
    ensures free { blocks_of blocks bench.new.words.items < blocks }
    ensures short { rows_of blocks bench.new.words.items 0 < 64 }
    ensures low { All (λ w. row_start w ≤ LIMIT) (rows_in blocks bench.new.words.items) }
    ensures told { GapsTold blocks bench.new.words.items }
{
    let at = position(bench.words.as_slice(), blocks, number);
    write(words, bench, blocks, at, gone, more);
}

/// Four rows of these numbers come at the end, so many times.
fn fill<A: Abort>(words: &Plain<'_, A>, bench: &mut Bench, blocks: usize, from: usize, times: usize)
    requires blocks { blocks ≡ words.now.blocks }
    requires few { blocks ≤ 2048 }
    requires laid { IsLaidOut blocks bench.old.words.items }
    requires there { length (rows_in blocks bench.old.words.items) ≡ from }
    requires some { 0 < from }
    requires room { 2 * (from + 4 * times) < 129 * (blocks - 2) }
    requires free { blocks_of blocks bench.old.words.items < blocks }
    requires short { rows_of blocks bench.old.words.items 0 < 64 }
    requires low { All (λ w. row_start w ≤ LIMIT) (rows_in blocks bench.old.words.items) }
    requires told { GapsTold blocks bench.old.words.items }
    ensures laid { IsLaidOut blocks bench.new.words.items }
    ensures long { length (rows_in blocks bench.new.words.items) ≡ from + 4 * times }
    ensures free { blocks_of blocks bench.new.words.items < blocks }
    ensures short { rows_of blocks bench.new.words.items 0 < 64 }
    ensures low { All (λ w. row_start w ≤ LIMIT) (rows_in blocks bench.new.words.items) }
    ensures told { GapsTold blocks bench.new.words.items }
{
    let mut k = 0;
    'fours: while k < times {
        let at = from + 4 * k;
        let row = at as u64;
        splice_at(
            words,
            bench,
            blocks,
            at,
            0,
            &[row, row + 1, row + 2, row + 3],
        );
        k += 1;
    }
}

/// Four rows come and go again at places all over the list, so many times.
fn come_and_go<A: Abort>(
    words: &Plain<'_, A>,
    bench: &mut Bench,
    blocks: usize,
    count: usize,
    times: usize,
)
    requires blocks { blocks ≡ words.now.blocks }
    requires few { blocks ≤ 2048 }
    requires seldom { times ≤ 1000 }
    requires laid { IsLaidOut blocks bench.old.words.items }
    requires there { length (rows_in blocks bench.old.words.items) ≡ count }
    requires some { 0 < count }
    requires room { 2 * (count + 4) < 129 * (blocks - 2) }
    requires free { blocks_of blocks bench.old.words.items < blocks }
    requires short { rows_of blocks bench.old.words.items 0 < 64 }
    requires low { All (λ w. row_start w ≤ LIMIT) (rows_in blocks bench.old.words.items) }
    requires told { GapsTold blocks bench.old.words.items }
    ensures laid { IsLaidOut blocks bench.new.words.items }
    ensures long { length (rows_in blocks bench.new.words.items) ≡ count }
    ensures free { blocks_of blocks bench.new.words.items < blocks }
    ensures short { rows_of blocks bench.new.words.items 0 < 64 }
    ensures low { All (λ w. row_start w ≤ LIMIT) (rows_in blocks bench.new.words.items) }
    ensures told { GapsTold blocks bench.new.words.items }
{
    let mut k = 0;
    'places: while k < times {
        let at = 1 + 37 * k % count;
        splice_at(words, bench, blocks, at, 0, &[7, 8, 9, 10]);
        splice_at(words, bench, blocks, at, 4, &[]);
        k += 1;
    }
}

/// The row at a position.
fn row(words: &[u64], blocks: usize, at: Position) -> u64
    requires laid { IsLaidOut blocks words.now }
    requires few { blocks ≤ 2048 }
    requires there { at.block < blocks_of blocks words.now }
    requires place { at.place ≤ rows_of blocks words.now at.block }
{
    if at.place == 0 {
        return words[at.block];
    }
    let packed = words[128 * blocks + 1 + at.block];
    words[blocks + 127 * (packed / 128 % 2048) as usize + (at.place - 1)]
}

/// Row k is the number k, but for the rows 10 to 30, which are higher by the 250 that have gone before them. All are
/// gathered, and each but the last is read, from one position to the next and back.
fn expect<A: Abort>(
    words: &Plain<'_, A>,
    bench: &mut Bench,
    blocks: usize,
    count: usize,
    out: &mut Vec<u64>,
)
    requires blocks { blocks ≡ words.now.blocks }
    requires few { blocks ≤ 2048 }
    requires laid { IsLaidOut blocks bench.old.words.items }
    requires there { length (rows_in blocks bench.old.words.items) ≡ count }
    requires some { 0 < count }
    requires room { count ≤ vec_capacity out.old }
    ensures words { bench.new.words.items ≡ bench.old.words.items }
    ensures room { vec_capacity out.new ≡ vec_capacity out.old }
{
    let rt = words.rt;
    out.clear();
    gather(bench.words.as_slice(), blocks, out);
    let rows = out.as_slice();
    let mut at = Position { block: 0, place: 0 };
    let mut k = 0;
    'rows: while k + 1 < count {
        let wanted = if k < 10 || k >= 31 { k } else { k + 250 };
        assert_eq!(rt; row(bench.words.as_slice(), blocks, at), wanted as u64);
        assert_eq!(rt; rows[k], wanted as u64);
        let Some(behind) = next(words, bench, blocks, at) else {
            panic!(rt; "no row behind row {k}");
        };
        assert_eq!(rt; previous(words, bench, blocks, behind), at);
        at = behind;
        k += 1;
    }
}

/// Rows come until blocks are split, most of them go again by one splice, and then rows come until there is hardly room
/// for more, so that two blocks are merged where one was split.
fn play<A: Abort>(words: &Plain<'_, A>, bench: &mut Bench, out: &mut Vec<u64>)
    requires blocks { words.now.blocks ≡ 8 }
    requires wide { length bench.old.words.items ≡ 1033 }
    requires room { 379 ≤ vec_capacity out.old }
{
    row_blocks::fill(bench.words.as_mut_slice(), 8, &[0]);
    fill(words, bench, 8, 1, 70);
    splice_at(words, bench, 8, 10, 250, &[]);
    expect(words, bench, 8, 31, out);
    fill(words, bench, 8, 31, 87);
    come_and_go(words, bench, 8, 379, 300);
    expect(words, bench, 8, 379, out);
}

#[test]
fn rows_come_and_go_over_several_blocks(rt: HostRuntime) -> Result<(), Fail> {
    let words = Plain { rt: &rt, blocks: 8 };
    let mut bench = Bench {
        words: vec![in rt.alloc(); 7777; 1033]?,
        steps: 0,
    };
    let mut out = Vec::with_capacity(rt.alloc(), 379)?;
    play(&words, &mut bench, &mut out);
    Ok(())
}
