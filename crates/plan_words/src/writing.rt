//! The splice that a call under everything makes of the rows is written: first the rows, by `row_blocks`, then the row
//! count, where it differs, and then the sequence word is raised.
ghost use Rattle.std.specs.Prelude.{ℕ, All, [], ◌≡◌, ◌<◌, ◌≤◌, ◌+◌, ◌*◌, length};
ghost use Rattle.area_guard.specs.Rows.{room_of};
ghost use Rattle.area_guard.specs.History.{rows_after};
ghost use Rattle.page_types.specs.declared.TheConstants.{LIMIT};
ghost use Rattle.row_plans.specs.RowWords.{row_start};
ghost use Rattle.area_guard.specs.Reads.{known_count, known_rows, known_words, KnowsBlocks};
ghost use Rattle.plan_words.specs.Laws.{HasWritten};
ghost use Rattle.plan_words.specs.Places.{number_at, splice_at};
ghost use Rattle.plan_words.specs.Writing.{WritesPlan, IsWriting, IsWritten, plan_at};

use crate::steps::{raise_sequence, store_count};
use crate::words::PlanWords;
use area_guard::RowGuard;
use range_rw::{RangeTable, Seat};
use row_blocks::{Position, write};

/// Writes the rows of a splice, where one goes or one comes.
fn write_rows(
    table: &RangeTable<RowGuard>,
    seat: &mut Seat<RowGuard>,
    blocks: u32,
    at: Position,
    gone: u32,
    more: &[u64],
)
    requires writes { WritesPlan table.now seat.old }
    requires blocks { seat.old.pass.blocks ≡ blocks }
    requires stands { KnowsBlocks seat.old.pass }
    requires rows { known_rows seat.old.pass ≡ (plan_at seat.old).old }
    requires there { number_at seat.old.pass at < length (plan_at seat.old).old }
    requires first { (plan_at seat.old).first ≡ number_at seat.old.pass at }
    requires end { (plan_at seat.old).end ≡ (plan_at seat.old).first + gone }
    requires inside { (plan_at seat.old).end ≤ length (plan_at seat.old).old }
    requires more { more.now ≡ (plan_at seat.old).more }
    requires grows { length more.now ≤ gone + 4 }
    requires stays { 0 < (plan_at seat.old).first + gone + length more.now → 0 < (plan_at seat.old).first + length more.now }
    requires fits { length (rows_after (plan_at seat.old)) ≤ room_of blocks }
    requires some { 0 < length (rows_after (plan_at seat.old)) }
    requires low { All (λ w. row_start w ≤ LIMIT) (plan_at seat.old).old }
    requires low_after { All (λ w. row_start w ≤ LIMIT) (rows_after (plan_at seat.old)) }
    ensures stands { KnowsBlocks seat.new.pass }
    ensures rows { known_rows seat.new.pass ≡ rows_after (plan_at seat.old) }
    ensures writes { WritesPlan table.now seat.new }
    ensures writing { HasWritten seat.old seat.new }
    ensures steps { seat.new.trace.taken ≤ seat.old.trace.taken + (3 * length more.now + 16 * blocks + 2360) }
    ensures none { gone ≡ 0 → length more.now ≡ 0 → seat.new.trace.taken ≡ seat.old.trace.taken }
{
    if gone == 0 && more.is_empty() {
        return;
    }
    let words = PlanWords {
        table,
        blocks: blocks as usize,
    };
    write(&words, seat, blocks as usize, at, gone as usize, more);
}

/// Stores the row count where there are more rows or fewer, once all rows are written.
fn write_count(table: &RangeTable<RowGuard>, seat: &mut Seat<RowGuard>, count: u32, left: u32)
    requires writes { WritesPlan table.now seat.old }
    requires stands { KnowsBlocks seat.old.pass }
    requires rows { known_rows seat.old.pass ≡ rows_after (plan_at seat.old) }
    requires count { known_count seat.old.pass ≡ count }
    requires left { left ≡ length (rows_after (plan_at seat.old)) }
    ensures stands { KnowsBlocks seat.new.pass }
    ensures rows { known_rows seat.new.pass ≡ rows_after (plan_at seat.old) }
    ensures count { known_count seat.new.pass ≡ left }
    ensures writes { WritesPlan table.now seat.new }
    ensures writing { IsWriting seat.old seat.new }
    ensures taken { seat.new.trace.taken ≤ seat.old.trace.taken + 1 }
    ensures same { left ≡ count → seat.new.trace.taken ≡ seat.old.trace.taken }
{
    if left == count {
        return;
    }
    store_count(table, seat, left);
}

/// Writes a splice of the rows: the rows, their count, and the sequence word. So many go from a position on, which is
/// that of the first one that goes, or of any row where none goes; and others come in their place, at most four more.
/// The seat holds everything, has this splice to write, and knows the words of the blocks. It makes one step where no
/// row goes and none comes, and takes no memory.
pub fn write_splice(
    table: &RangeTable<RowGuard>,
    seat: &mut Seat<RowGuard>,
    blocks: u32,
    count: u32,
    at: Position,
    gone: u32,
    more: &[u64],
)
    requires writes { WritesPlan table.now seat.old }
    requires blocks { seat.old.pass.blocks ≡ blocks }
    requires stands { KnowsBlocks seat.old.pass }
    requires plan { plan_at seat.old ≡ splice_at seat.old.pass at gone more.now }
    requires count { count ≡ length (known_rows seat.old.pass) }
    requires counted { known_count seat.old.pass ≡ count }
    requires there { number_at seat.old.pass at < count }
    requires inside { number_at seat.old.pass at + gone ≤ count }
    requires grows { length more.now ≤ gone + 4 }
    requires stays { 0 < number_at seat.old.pass at + gone + length more.now → 0 < number_at seat.old.pass at + length more.now }
    requires fits { length (rows_after (plan_at seat.old)) ≤ room_of blocks }
    requires some { 0 < length (rows_after (plan_at seat.old)) }
    requires low { All (λ w. row_start w ≤ LIMIT) (known_rows seat.old.pass) }
    requires low_after { All (λ w. row_start w ≤ LIMIT) (rows_after (plan_at seat.old)) }
    ensures written { IsWritten seat.old seat.new }
    ensures steps { seat.new.trace.taken ≤ seat.old.trace.taken + (3 * length more.now + 16 * blocks + 2362) }
    ensures none { gone ≡ 0 → length more.now ≡ 0 → seat.new.trace.taken ≡ seat.old.trace.taken + 1 }
{
    write_rows(table, seat, blocks, at, gone, more);
    write_count(table, seat, count, count - gone + more.len() as u32);
    raise_sequence(table, seat);
}
