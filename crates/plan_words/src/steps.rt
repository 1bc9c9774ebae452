//! The steps by which a splice is written: a word of the blocks is loaded or stored, the row count is stored, and the
//! sequence word is raised. Each is one atomic step. Only the caller that has the splice makes them,
//! and nobody else reads these words meanwhile; so it knows all of them.
ghost use Rattle.std.specs.Prelude.{ℕ, Some, ◌≡◌, ◌≢◌, ◌<◌, ◌≤◌, ◌+◌, ◌*◌, length, slice_index, slice_set};
ghost use Rattle.area_guard.specs.History.{IsPlanRow, rows_after};
ghost use Rattle.area_guard.specs.Reads.{known_count, known_rows, known_words, KnowsBlocks};
ghost use Rattle.plan_words.specs.Writing.{HoldsWords, KeepsRead, WritesPlan, IsWriting, IsWritten, plan_at};

use area_guard::RowGuard;
use lock_core::Means;
use range_rw::{RangeTable, Seat};

/// The place of the client word that counts the entries numbered under everything.
const SEQUENCE: u32 = 1;

/// The place of the client word that counts the rows.
const ROW_COUNT: u32 = 2;

/// The place of the client word of the first slot. The others follow in order, and behind them the words of the layout.
const FIRST_ROW: u32 = 3;

/// A step that means nothing beside what it does.
struct Plain;

impl Means<RowGuard> for Plain {
    ghost use Rattle.area_guard.specs.Keeping.{no_note};

    ghost note = { no_note };
}

/// Loads a word of the blocks, by a seat that holds everything, whether it has something to write or not.
pub(crate) fn load_word(table: &RangeTable<RowGuard>, seat: &mut Seat<RowGuard>, place: u32) -> u64
    requires holds { HoldsWords table.now seat.old }
    requires place { place < 129 * seat.old.pass.blocks + 1 }
    ensures word { result ≡ slice_index (known_words seat.old.pass) place }
    ensures words { known_words seat.new.pass ≡ known_words seat.old.pass }
    ensures count { known_count seat.new.pass ≡ known_count seat.old.pass }
    ensures read { KeepsRead seat.old.pass seat.new.pass }
    ensures holds { HoldsWords table.now seat.new }
    ensures writing { IsWriting seat.old seat.new }
    ensures taken { seat.new.trace.taken ≡ seat.old.trace.taken + 1 }
{
    table.load_as_uncounted::<Plain>(seat, FIRST_ROW + place)
}

/// Stores a row of the splice, before it or after it, in a slot where another word stands.
pub(crate) fn store_row(
    table: &RangeTable<RowGuard>,
    seat: &mut Seat<RowGuard>,
    slot: u32,
    word: u64,
)
    requires writes { WritesPlan table.now seat.old }
    requires slot { slot < 128 * seat.old.pass.blocks }
    requires row { IsPlanRow (plan_at seat.old) word }
    requires differs { slice_index (known_words seat.old.pass) slot ≢ word }
    ensures words { known_words seat.new.pass ≡ slice_set (known_words seat.old.pass) slot word }
    ensures count { known_count seat.new.pass ≡ known_count seat.old.pass }
    ensures writes { WritesPlan table.now seat.new }
    ensures writing { IsWriting seat.old seat.new }
    ensures taken { seat.new.trace.taken ≡ seat.old.trace.taken + 1 }
{
    table.store_as_uncounted::<Plain>(seat, FIRST_ROW + slot, word);
}

/// Stores a word of the layout, but for the row count, where another word stands.
pub(crate) fn store_layout(
    table: &RangeTable<RowGuard>,
    seat: &mut Seat<RowGuard>,
    place: u32,
    word: u64,
)
    requires writes { WritesPlan table.now seat.old }
    requires layout { 128 * seat.old.pass.blocks ≤ place }
    requires place { place < 129 * seat.old.pass.blocks + 1 }
    requires differs { slice_index (known_words seat.old.pass) place ≢ word }
    ensures words { known_words seat.new.pass ≡ slice_set (known_words seat.old.pass) place word }
    ensures count { known_count seat.new.pass ≡ known_count seat.old.pass }
    ensures writes { WritesPlan table.now seat.new }
    ensures writing { IsWriting seat.old seat.new }
    ensures taken { seat.new.trace.taken ≡ seat.old.trace.taken + 1 }
{
    table.store_as_uncounted::<Plain>(seat, FIRST_ROW + place, word);
}

/// Stores the row count of the splice, where there are more rows or fewer.
pub(crate) fn store_count(table: &RangeTable<RowGuard>, seat: &mut Seat<RowGuard>, count: u32)
    requires writes { WritesPlan table.now seat.old }
    requires count { count ≡ length (rows_after (plan_at seat.old)) }
    requires differs { known_count seat.old.pass ≢ count }
    ensures words { known_words seat.new.pass ≡ known_words seat.old.pass }
    ensures count { known_count seat.new.pass ≡ count }
    ensures writes { WritesPlan table.now seat.new }
    ensures writing { IsWriting seat.old seat.new }
    ensures taken { seat.new.trace.taken ≡ seat.old.trace.taken + 1 }
{
    table.store_as_uncounted::<Plain>(seat, ROW_COUNT, count as u64);
}

/// Raises the sequence word, where the rows of the splice and their count are written.
pub(crate) fn raise_sequence(table: &RangeTable<RowGuard>, seat: &mut Seat<RowGuard>)
    requires writes { WritesPlan table.now seat.old }
    requires stands { KnowsBlocks seat.old.pass }
    requires rows { known_rows seat.old.pass ≡ rows_after (plan_at seat.old) }
    requires count { known_count seat.old.pass ≡ length (rows_after (plan_at seat.old)) }
    ensures written { IsWritten seat.old seat.new }
    ensures taken { seat.new.trace.taken ≡ seat.old.trace.taken + 1 }
{
    table.add_as_uncounted::<Plain>(seat, SEQUENCE, 1);
}
