//! Threads at one table, one for each seat. A seat goes to its thread by reference and comes back; the table is
//! shared.
ghost use Rattle.std.specs.Prelude.{◌≡◌, ◌<◌, None};
ghost use Rattle.range_rw.specs.Contract.{AreIdleSeats, IsGivenBack};

use crate::high_water::HighWater;
use crate::marks::mark;
use range_rw::{RangeTable, Seat};
use std::sync::Wait;
use std::thread;
use std::thread::Threads;

/// The seat at place k marks the hundred values from 100 * k on, each on a thread of its own.
pub fn mark_all<R: Threads + Wait + Sync>(
    rt: &R,
    table: &RangeTable<HighWater>,
    seats: &mut [Seat<HighWater>],
)
    requires word { 0 < table.now.client }
    requires idle { AreIdleSeats table.now.table seats.old }
    ensures idle { AreIdleSeats table.now.table seats.new }
{
    let turn = |place: usize, seat: &mut Seat<HighWater>|
        requires { (seat.now.table ≡ table.now.table) × (seat.now.held ≡ None) × (0 < table.now.client) }
        ensures { IsGivenBack seat.entry.now seat.exit.now }
    { mark_hundred(rt, table, seat, 100 * (place as u64 % 16)) };
    thread::for_each_mut(rt, seats, 16, &turn);
}

fn mark_hundred<R: Wait>(
    wait: &R,
    table: &RangeTable<HighWater>,
    seat: &mut Seat<HighWater>,
    from: u64,
)
    requires table { seat.old.table ≡ table.now.table }
    requires word { 0 < table.now.client }
    requires free { seat.old.held ≡ None }
    requires small { from < 10000 }
    ensures back { IsGivenBack seat.old seat.new }
{
    for n in 0..100u64 {
        mark(wait, table, seat, from + n);
    }
}
