//! Rounds at the range lock: a table with a drawn number of seats, each of which takes its turns on a thread of its
//! own. One round has all ranges in one list, the next one has a list for each of seven regions, and one more for the
//! ranges in several of them. When the table is closed, every slot's count has to be 0 again.
ghost use Rattle.std.specs.Prelude.{◌≡◌, ◌≤◌, None, IfOk, length};
ghost use Rattle.range_rw.specs.Contract.{AreIdleSeats, IsGivenBack};

use crate::cuts::cut_of;
use crate::draws::below;
use crate::limit::Limit;
use crate::visits::{SLOTS, Visits, take_turns};
use anyhow::{bail, ensure};
use list_cuts::Cut;
use lock_core::FreeGuard;
use rand_pcg::Pcg32;
use range_rw::{OpenFault, RangeTable, Seat};
use std::alloc::Global;
use std::sync::{Mutex, Wait};
use std::thread;
use std::thread::Threads;
use std::time::Clock;

/// How many turns a seat takes in a round.
const TURNS: u32 = 200;

/// A seat's turns, which add what they came to. The first seat wants all slots at each turn, so that in every round
/// somebody waits for everything.
fn play_seat<R: Wait>(
    wait: &R,
    table: &RangeTable<FreeGuard>,
    seat: &mut Seat<FreeGuard>,
    seed: u64,
    place: usize,
    total: &Mutex<Visits>,
)
    requires table { seat.old.table ≡ table.now.table }
    requires slots { SLOTS ≤ table.now.client }
    requires free { seat.old.held ≡ None }
    ensures back { IsGivenBack seat.old seat.new }
{
    let mut draws = Pcg32::new(seed, place as u64);
    let visits = take_turns(wait, table, seat, &mut draws, place == 0, TURNS);
    let mut total = total.lock(wait);
    *total = total.plus(visits);
}

/// Each seat takes its turns, on a thread of its own.
fn play_seats<R: Threads + Wait + Sync>(
    rt: &R,
    table: &RangeTable<FreeGuard>,
    seats: &mut [Seat<FreeGuard>],
    seed: u64,
    total: &Mutex<Visits>,
)
    requires slots { SLOTS ≤ table.now.client }
    requires idle { AreIdleSeats table.now.table seats.old }
    ensures idle { AreIdleSeats table.now.table seats.new }
{
    let turn = |place: usize, seat: &mut Seat<FreeGuard>|
        requires { (seat.now.table ≡ table.now.table) × (seat.now.held ≡ None) × (SLOTS ≤ table.now.client) }
        ensures { IsGivenBack seat.entry.now seat.exit.now }
    { play_seat(rt, table, seat, seed, place, total) };
    thread::for_each_mut(rt, seats, 16, &turn);
}

/// A table of so many seats, with no owner in any slot.
fn open_slots(
    alloc: Global,
    seats: u32,
    cut: Cut,
) -> Result<(RangeTable<FreeGuard>, Vec<Seat<FreeGuard>>), OpenFault>
    ensures shape { IfOk result (λ r. (r.0.seats ≡ seats) × (SLOTS ≤ r.0.client) × (length r.1.items ≡ seats)) }
    ensures idle { IfOk result (λ r. AreIdleSeats r.0.table r.1.items) }
{
    RangeTable::open_cut(alloc, seats, cut, &[0; SLOTS as usize])
}

/// A round of so many seats. It returns how many slots have owners at the end: none.
fn play_round<R: Threads + Wait + Sync>(
    rt: &R,
    alloc: Global,
    count: u32,
    cut: Cut,
    seed: u64,
    total: &Mutex<Visits>,
) -> anyhow::Result<usize> {
    let Ok((table, mut seats)) = open_slots(alloc, count, cut) else {
        bail!("no table of {count} seats");
    };
    play_seats(rt, &table, seats.as_mut_slice(), seed, total);
    let Ok(words) = table.close(alloc, seats) else {
        bail!("no memory to close a table");
    };
    Ok(words.iter().filter(|word| **word != 0).count())
}

/// What rounds at the range lock came to.
#[derive(Clone, Copy, Debug)]
pub struct LockStress {
    pub rounds: u64,
    pub visits: Visits,
}

/// Rounds with 2 to 16 seats until the limit is past, and at least one with each cut. A wrong count ends them with an
/// error.
pub fn stress_lock<R: Threads + Wait + Sync + Clock>(
    rt: &R,
    alloc: Global,
    seed: u64,
    limit: Limit,
) -> anyhow::Result<LockStress> {
    let total = Mutex::new(Visits::none());
    let mut draws = Pcg32::new(seed, 16);
    let mut rounds = 0;
    for round in 0..u64::MAX {
        let seats = 2 + below(&mut draws, 15);
        let cut = cut_of(round);
        let left = play_round(rt, alloc, seats, cut, seed.wrapping_add(round), &total)?;
        ensure!(left == 0, "{left} slots have owners after round {round}");
        rounds = round + 1;
        if limit.is_past(rt)? && rounds >= 2 {
            break;
        }
    }
    let visits = *total.lock(rt);
    Ok(LockStress { rounds, visits })
}
