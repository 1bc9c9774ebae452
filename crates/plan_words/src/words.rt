//! The words of the blocks of a space, as `row_blocks` asks for them: loaded and stored one by one, by the seat of a
//! caller that holds everything and has a splice to write.
use crate::steps::{load_word, store_layout, store_row};
use area_guard::RowGuard;
use range_rw::{RangeTable, Seat};
use row_blocks::{Loads, Words};

/// The words of the blocks of a table, of which there are so many.
#[derive(Drop)]
pub(crate) struct PlanWords<'a> {
    pub(crate) table: &'a RangeTable<RowGuard>,
    pub(crate) blocks: usize,
}

impl<'a> Loads for PlanWords<'a> {
    ghost use Rattle.std.specs.Prelude.{◌≡◌};
    ghost use Rattle.area_guard.specs.History.{IsPlanRow};
    ghost use Rattle.area_guard.specs.Reads.{known_words, known_count};
    ghost use Rattle.plan_words.specs.Writing.{WritesPlan, IsWriting, plan_at};
    ghost use Rattle.plan_words.specs.Laws.{HasWritten, no_writing_at, writing_on_at};

    type Hand = Seat<RowGuard>;

    ghost blocks = { λ words. words.blocks };

    ghost may_store = { λ words seat. WritesPlan words.table.now seat × (seat.pass.blocks ≡ words.blocks) };

    ghost words = { λ words seat. known_words seat.pass };

    ghost is_row = { λ words seat word. IsPlanRow (plan_at seat) word };

    ghost steps = { λ words seat. seat.trace.taken };

    ghost kept = { λ words one two. HasWritten one two };

    ghost no_step = { λ words seat. no_writing_at seat };

    ghost steps_on = { λ words one two three. writing_on_at one two three };

    fn load(&self, hand: &mut Seat<RowGuard>, place: usize) -> u64 {
        load_word(self.table, hand, place as u32)
    }
}

impl<'a> Words for PlanWords<'a> {
    fn store(&self, hand: &mut Seat<RowGuard>, place: usize, word: u64) {
        store_row(self.table, hand, place as u32, word);
    }

    fn store_layout(&self, hand: &mut Seat<RowGuard>, place: usize, word: u64) {
        store_layout(self.table, hand, place as u32, word);
    }
}
