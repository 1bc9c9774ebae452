//! Additions under the tally: each is a load and a store of client word 0 under a range as a writer, and never one
//! step. A reader may rely on each addition being in the seat's own amount; that no other seat's addition is lost
//! between the two steps is proved from the guard's rule over every interleaving.
ghost use Rattle.std.specs.Prelude.{◌≡◌, ◌+◌, ◌*◌, ◌%◌, ◌^◌, ◌<◌, None, true};
ghost use Rattle.range_rw.specs.Contract.{IsClientCall, IsGivenBack};
ghost use Rattle.test_lock.specs.Tally.{has_read, has_written};
ghost use Rattle.test_lock.specs.Turns.{HasAdded, HasMade};
ghost use Rattle.test_lock.specs.Turnstile.{HasDoorIn, IsWriterIn};

use crate::tally::Tally;
use lock_core::{Mode, Range};
use range_rw::{RangeTable, Seat};
use std::sync::Wait;

/// Reads the word, under a range with the door in it that the seat holds as a writer.
fn read(table: &RangeTable<Tally>, seat: &mut Seat<Tally>) -> u64
    requires table { seat.old.table ≡ table.now.table }
    requires word { 0 < table.now.client }
    requires held { IsWriterIn seat.old.held }
    ensures call { IsClientCall seat.old 0 seat.new }
    ensures known { seat.new.pass ≡ has_read seat.old.pass result }
{
    table.load_as_uncounted::<Tally>(seat, 0)
}

/// Stores one more than was read, under the range under which it was read.
fn write_next(table: &RangeTable<Tally>, seat: &mut Seat<Tally>, count: u64)
    requires table { seat.old.table ≡ table.now.table }
    requires word { 0 < table.now.client }
    requires held { IsWriterIn seat.old.held }
    requires known { (seat.old.pass.sure ≡ true) × (seat.old.pass.seen ≡ count) }
    ensures call { IsClientCall seat.old 0 seat.new }
    ensures known { seat.new.pass ≡ has_written seat.old.pass ((count + 1) % 2 ^ 64) }
{
    let next = count.wrapping_add(1);
    table.store_as_uncounted::<Tally>(seat, 0, next);
}

/// One turn of a writer: it adds 1 to client word 0 by a load and a store, under the range as a writer.
fn add_one<R: Wait>(wait: &R, table: &RangeTable<Tally>, seat: &mut Seat<Tally>, range: Range)
    requires table { seat.old.table ≡ table.now.table }
    requires word { 0 < table.now.client }
    requires free { seat.old.held ≡ None }
    requires door { HasDoorIn range }
    ensures back { IsGivenBack seat.old seat.new }
    ensures made { HasMade 3 seat.old seat.new }
    ensures added { HasAdded 1 seat.old seat.new }
{
    table.acquire(wait, seat, range, Mode::Writer);
    let count = read(table, seat);
    write_next(table, seat, count);
    table.release_uncounted(seat);
}

/// Adds 1 to client word 0 so many times, each time by a load and a store under a range with the door in it as a
/// writer: three steps at least, with the release.
pub fn add_turns<R: Wait>(
    wait: &R,
    table: &RangeTable<Tally>,
    seat: &mut Seat<Tally>,
    range: Range,
    turns: u32,
)
    requires table { seat.old.table ≡ table.now.table }
    requires word { 0 < table.now.client }
    requires free { seat.old.held ≡ None }
    requires door { HasDoorIn range }
    ensures back { IsGivenBack seat.old seat.new }
    ensures made { HasMade (3 * turns) seat.old seat.new }
    ensures added { HasAdded turns seat.old seat.new }
{
    for _ in 0..turns {
        add_one(wait, table, seat, range);
    }
}
