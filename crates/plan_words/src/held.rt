//! The rows of a space, as `row_plans` asks for them: found and loaded where a plan needs them, by the seat of a caller
//! that holds everything and has nothing to write. A reader may rely on all loads finding the rows that the caller
//! knows.
use crate::steps::load_word;
use area_guard::RowGuard;
use range_rw::{RangeTable, Seat};
use row_blocks::{Loads, Position, find, gap_before, next, previous, row_at};
use row_plans::{Found, Rows};

/// The words of the blocks of a table, of which there are so many.
#[derive(Drop)]
pub struct HeldWords<'a> {
    pub table: &'a RangeTable<RowGuard>,
    pub blocks: usize,
}

impl<'a> Loads for HeldWords<'a> {
    ghost use Rattle.std.specs.Prelude.{◌≡◌};
    ghost use Rattle.area_guard.specs.Reads.{known_words};
    ghost use Rattle.plan_words.specs.Writing.{HoldsWords};
    ghost use Rattle.plan_words.specs.Reading.{HasLoaded, no_load_all, loads_on_all};

    type Hand = Seat<RowGuard>;

    ghost blocks = { λ words. words.blocks };

    ghost may_store = { λ words seat. HoldsWords words.table.now seat × (seat.pass.blocks ≡ words.blocks) };

    ghost words = { λ words seat. known_words seat.pass };

    ghost is_row = { λ words seat word. Unit {0} };

    ghost steps = { λ words seat. seat.trace.taken };

    ghost kept = { λ words one two. HasLoaded one two };

    ghost no_step = { λ words seat. no_load_all seat };

    ghost steps_on = { λ words one two three. loads_on_all one two three };

    fn load(&self, hand: &mut Seat<RowGuard>, place: usize) -> u64 {
        load_word(self.table, hand, place as u32)
    }
}

/// The rows that stand in these words, by the seat of a caller that holds everything and has loaded how many there are.
#[derive(Drop)]
pub struct HeldRows<'a> {
    pub words: HeldWords<'a>,
    pub count: u32,
}

impl<'a> Rows for HeldRows<'a> {
    ghost use Rattle.std.specs.Prelude.{◌+◌};
    ghost use Rattle.row_blocks.specs.Blocks.{blocks_of};
    ghost use Rattle.area_guard.specs.Reads.{known_rows, known_words};
    ghost use Rattle.plan_words.specs.Places.{number_at};
    ghost use Rattle.plan_words.specs.Reading.{HasLoaded, MayLoadAll, no_load_all, loads_on_all, same_known, same_places};

    type Hand = Seat<RowGuard>;

    type Place = Position;

    ghost may_load = { λ rows seat. MayLoadAll rows.words.table.now rows.words.blocks rows.count seat };

    ghost words = { λ rows seat. known_rows seat.pass };

    ghost number = { λ rows seat at. number_at seat.pass at };

    ghost loaded = { λ rows one two. HasLoaded one two };

    ghost no_load = { λ rows seat. no_load_all seat };

    ghost loads_on = { λ rows one two three. loads_on_all one two three };

    ghost same_words = { λ rows one two. same_known rows.words.table.now rows.words.blocks rows.count one two };

    ghost same_places = { λ rows one two may loaded. same_places one two loaded };

    ghost are_rows = { λ rows seat may. may.list };

    ghost steps = { λ rows seat. seat.trace.taken };

    ghost gap_loads = { λ rows seat. blocks_of rows.words.blocks (known_words seat.pass) + 257 };

    ghost same_gap = { λ rows one two may loaded. λ i. blocks_of rows.words.blocks (loaded.same i) + 257 };

    fn count(&self) -> u32 {
        self.count
    }

    fn first(&self) -> Position {
        Position { block: 0, place: 0 }
    }

    fn find(&self, hand: &mut Seat<RowGuard>, page: u64) -> Found<Position> {
        let found = find(&self.words, hand, self.words.blocks, page);
        Found {
            at: found.at,
            word: found.word,
            end: found.end,
        }
    }

    fn load(&self, hand: &mut Seat<RowGuard>, at: Position) -> u64 {
        row_at(&self.words, hand, self.words.blocks, at)
    }

    fn next(&self, hand: &mut Seat<RowGuard>, at: Position) -> Option<Position> {
        next(&self.words, hand, self.words.blocks, at)
    }

    fn previous(&self, hand: &mut Seat<RowGuard>, at: Position) -> Position {
        previous(&self.words, hand, self.words.blocks, at)
    }

    fn gap_before(
        &self,
        hand: &mut Seat<RowGuard>,
        at: Position,
        start: u64,
        pages: u64,
    ) -> Option<u64> {
        gap_before(&self.words, hand, self.words.blocks, at, start, pages)
    }
}
