//! Many threads at one table, one for each seat: all add to one word, or all visit the turnstile. The calls run
//! beside each other as std's `for_each_mut` runs them; a reader may rely on each seat being back after, in its
//! place, and on no addition being lost.
ghost use Rattle.std.specs.Prelude.{◌≡◌, ◌+◌, ◌*◌, ◌%◌, ◌^◌, ◌<◌, false, None, IfSome};
ghost use Rattle.range_rw.specs.Contract.{AreIdleSeats, IsGivenBack, IsSeatCount};
ghost use Rattle.test_lock.specs.Turns.{HasAdded, HasMade, HasVisited, HaveAdded, HaveMade, HaveVisited, IsOutside, mode_at};
ghost use Rattle.test_lock.specs.Turnstile.{HasDoorIn};

use crate::adds::add_turns;
use crate::opened::open_tally;
use crate::tally::Tally;
use crate::turns::visit_turns;
use crate::turnstile::Turnstile;
use lock_core::{Mode, Range};
use range_rw::{RangeTable, Seat};
use std::alloc::Global;
use std::sync::Wait;
use std::sync::atomic::{AtomicU64, Ordering};
use std::thread;
use std::thread::Threads;

/// The number that every range of an addition or a visit has in it.
const DOOR: u64 = 7;

/// Each seat adds 1 to client word 0 so many times, each on a thread of its own.
pub fn add_all<R: Threads + Wait + Sync>(
    rt: &R,
    table: &RangeTable<Tally>,
    seats: &mut [Seat<Tally>],
    turns: u32,
)
    requires word { 0 < table.now.client }
    requires idle { AreIdleSeats table.now.table seats.old }
    ensures idle { AreIdleSeats table.now.table seats.new }
    ensures made { HaveMade (3 * turns) seats.old seats.new }
    ensures added { HaveAdded turns seats.old seats.new }
{
    let turn = |_: usize, seat: &mut Seat<Tally>|
        requires { (seat.now.table ≡ table.now.table) × (seat.now.held ≡ None) × (0 < table.now.client) }
        ensures { IsGivenBack seat.entry.now seat.exit.now × HasMade (3 * turns) seat.entry.now seat.exit.now × HasAdded turns seat.entry.now seat.exit.now }
    { add_at_door(rt, table, seat, turns) };
    thread::for_each_mut(rt, seats, 16, &turn);
}

fn add_at_door<R: Wait>(wait: &R, table: &RangeTable<Tally>, seat: &mut Seat<Tally>, turns: u32)
    requires table { seat.old.table ≡ table.now.table }
    requires word { 0 < table.now.client }
    requires free { seat.old.held ≡ None }
    ensures back { IsGivenBack seat.old seat.new }
    ensures made { HasMade (3 * turns) seat.old seat.new }
    ensures added { HasAdded turns seat.old seat.new }
{
    let Ok(range) = Range::of(DOOR, DOOR + 1) else {
        unreachable!()
    };
    add_turns(wait, table, seat, range, turns);
}

/// Opens a table over a word, lets each seat add 1 to it so many times on a thread of its own, and closes the table:
/// what is left is the word with all that was added, modulo 2^64. None: out of memory.
pub fn tally_of<R: Threads + Wait + Sync>(
    rt: &R,
    alloc: Global,
    seats: u32,
    word: u64,
    turns: u32,
) -> Option<u64>
    requires seats { IsSeatCount seats }
    ensures exact { IfSome result (λ left. left ≡ (word + seats * turns) % 2 ^ 64) }
{
    let Ok((table, mut all)) = open_tally(alloc, seats, word) else {
        return None;
    };
    add_all(rt, &table, all.as_mut_slice(), turns);
    let Ok(words) = table.close(alloc, all) else {
        return None;
    };
    Some(words[0])
}

/// Each seat visits so many times, each on a thread of its own: those with an even number as writers, the others as
/// readers, under ranges that all have the door in them and else differ.
/// The most writers that were inside at any visit are kept in `most`.
pub fn visit_all<R: Threads + Wait + Sync>(
    rt: &R,
    table: &RangeTable<Turnstile>,
    seats: &mut [Seat<Turnstile>],
    turns: u32,
    most: &AtomicU64,
)
    requires word { 0 < table.now.client }
    requires idle { AreIdleSeats table.now.table seats.old × IsOutside seats.old }
    ensures idle { AreIdleSeats table.now.table seats.new × IsOutside seats.new }
    ensures made { HaveMade (2 * turns) seats.old seats.new }
    ensures visited { HaveVisited turns seats.old seats.new }
{
    let turn = |i: usize, seat: &mut Seat<Turnstile>|
        requires { (seat.now.table ≡ table.now.table) × (seat.now.held ≡ None) × (seat.now.pass.inside ≡ false) × (0 < table.now.client) }
        ensures { IsGivenBack seat.entry.now seat.exit.now × HasMade (2 * turns) seat.entry.now seat.exit.now
            × HasVisited (mode_at i) turns seat.entry.now seat.exit.now × (seat.exit.now.pass.inside ≡ false) }
    { visit_from(rt, table, seat, i, turns, most) };
    thread::for_each_mut(rt, seats, 16, &turn);
}

/// How the seat at a place visits.
fn mode_at(place: usize) -> Mode
    ensures { result ≡ mode_at place }
{
    if place % 2 == 0 {
        Mode::Writer
    } else {
        Mode::Reader
    }
}

/// The range under which the seat at a place visits. In blocks of eight numbers that of every third place lies in the
/// door's block, and the others reach over four or seven blocks.
fn range_at(place: usize) -> Range
    ensures door { HasDoorIn result }
{
    let lo = place as u64 % 8;
    let more = 24 * (place as u64 % 3);
    let Ok(range) = Range::of(lo, DOOR + 1 + more) else {
        unreachable!()
    };
    range
}

fn visit_from<R: Wait>(
    wait: &R,
    table: &RangeTable<Turnstile>,
    seat: &mut Seat<Turnstile>,
    place: usize,
    turns: u32,
    most: &AtomicU64,
)
    requires table { seat.old.table ≡ table.now.table }
    requires word { 0 < table.now.client }
    requires free { (seat.old.held ≡ None) × (seat.old.pass.inside ≡ false) }
    ensures back { IsGivenBack seat.old seat.new }
    ensures made { HasMade (2 * turns) seat.old seat.new }
    ensures visited { HasVisited (mode_at place) turns seat.old seat.new }
    ensures outside { seat.new.pass.inside ≡ false }
{
    let range = range_at(place);
    let mode = mode_at(place);
    let seen = visit_turns(wait, table, seat, range, mode, turns);
    most.fetch_max(seen, Ordering::SeqCst);
}
