//! One seat's turns at the range lock. Each slot is a client word that counts its owners: a reader as 1 and a writer as
//! 2^32. A turn draws a range of slots and a mode, holds the range, adds its share to each slot and takes it away
//! again; what it finds there says whether another owner was in whom its range excludes.
ghost use Rattle.std.specs.Prelude.{◌≡◌, ◌<◌, ◌≤◌, ◌↔◌, ℕ, None, IsSome, IsTrue};
ghost use Rattle.range_rw.specs.Contract.{IsGivenBack};
ghost use Rattle.test_stress.specs.Slots.{IsCountOf, MayShare};
ghost use Rattle.test_stress.specs.Counts.{CountsOneTry};

use crate::counts::{Tries, count_one};
use crate::draws::below;
use lock_core::{FreeGuard, Mode, Range};
use rand_pcg::Pcg32;
use range_rw::{RangeTable, Seat};
use std::sync::Wait;
use std::thread;

/// How many slots there are.
pub const SLOTS: u32 = 8;

/// A writer's share of a slot's count.
const WRITER: u64 = 1 << 32;

/// What turns came to.
#[derive(Clone, Copy, Debug)]
pub struct Visits {
    /// The tries to hold a range.
    pub tries: Tries,
    /// How often other owners of a slot were found whom exclusion doesn't allow.
    pub wrong: u64,
}

impl Visits {
    ghost use Rattle.std.specs.Prelude.{◌≡◌, ℕ};
    ghost use Rattle.test_stress.specs.Slots.{IsCountOf, MayShare};
    ghost use Rattle.test_stress.specs.Counts.{one_more};

    /// Nothing counted yet.
    pub fn none() -> Visits {
        Visits {
            tries: Tries::none(),
            wrong: 0,
        }
    }

    /// The counts of both.
    pub fn plus(self, more: Visits) -> Visits {
        Visits {
            tries: self.tries.plus(more.tries),
            wrong: self.wrong.saturating_add(more.wrong),
        }
    }

    /// Counts the other owners of a slot as wrong, unless they may be there.
    fn look(&mut self, mode: Mode, others: u64)
        ensures right { (readers writers : ℕ) → IsCountOf readers writers others → MayShare mode readers writers → self.new.wrong ≡ self.old.wrong }
        ensures wrong { (readers writers : ℕ) → IsCountOf readers writers others → ¬ (MayShare mode readers writers)
            → self.new.wrong ≡ one_more self.old.wrong }
    {
        if !may_share(mode, others) {
            count_one(&mut self.wrong);
        }
    }
}

/// What an owner counts in a slot.
fn share_of(mode: Mode) -> u64 {
    match mode {
        Mode::Reader => 1,
        Mode::Writer => WRITER,
    }
}

/// Whether an owner may find this count of others in a slot.
fn may_share(mode: Mode, others: u64) -> bool
    ensures { (readers writers : ℕ) → IsCountOf readers writers others → IsTrue result ↔ MayShare mode readers writers }
{
    match mode {
        Mode::Reader => others < WRITER,
        Mode::Writer => others == 0,
    }
}

/// Comes into the slots of a range and goes out of them again; between the two it may let other threads go on. The seat
/// holds the range.
fn visit(
    table: &RangeTable<FreeGuard>,
    seat: &mut Seat<FreeGuard>,
    lo: u32,
    hi: u32,
    mode: Mode,
    pause: bool,
    visits: &mut Visits,
)
    requires table { seat.old.table ≡ table.now.table }
    requires slots { hi ≤ table.now.client }
    ensures table { seat.new.table ≡ seat.old.table }
    ensures number { seat.new.number ≡ seat.old.number }
    ensures held { seat.new.held ≡ seat.old.held }
{
    let share = share_of(mode);
    'come: for slot in lo..hi {
        let found = table.add_as_uncounted::<FreeGuard>(seat, slot, share);
        visits.look(mode, found);
    }
    if pause {
        thread::yield_now();
    }
    'go: for slot in lo..hi {
        let found = table.add_as_uncounted::<FreeGuard>(seat, slot, share.wrapping_neg());
        visits.look(mode, found.wrapping_sub(share));
    }
}

/// Holds the range: by one try, and where that is refused by a call that waits.
fn hold<R: Wait>(
    wait: &R,
    table: &RangeTable<FreeGuard>,
    seat: &mut Seat<FreeGuard>,
    range: Range,
    mode: Mode,
    tries: &mut Tries,
)
    requires table { seat.old.table ≡ table.now.table }
    requires free { seat.old.held ≡ None }
    ensures table { seat.new.table ≡ seat.old.table }
    ensures number { seat.new.number ≡ seat.old.number }
    ensures held { IsSome seat.new.held }
    ensures counted { CountsOneTry tries.old tries.new }
{
    match table.try_acquire_uncounted(seat, range, mode) {
        Ok(()) => tries.count_held(),
        Err(refusal) => {
            tries.count_refused(&refusal);
            table.acquire(wait, seat, range, mode);
        }
    }
}

/// The slots of a turn, from the first one on and below the second: all of them, or drawn ones.
fn slots_of(draws: &mut Pcg32, all: bool) -> (u32, u32)
    ensures some { result.0 < result.1 }
    ensures most { result.1 ≤ SLOTS }
{
    if all {
        return (0, SLOTS);
    }
    let lo = below(draws, SLOTS);
    (lo, lo + 1 + below(draws, SLOTS - lo))
}

/// One turn of a seat, at drawn slots or at all of them.
fn take_turn<R: Wait>(
    wait: &R,
    table: &RangeTable<FreeGuard>,
    seat: &mut Seat<FreeGuard>,
    draws: &mut Pcg32,
    all: bool,
    visits: &mut Visits,
)
    requires table { seat.old.table ≡ table.now.table }
    requires slots { SLOTS ≤ table.now.client }
    requires free { seat.old.held ≡ None }
    ensures back { IsGivenBack seat.old seat.new }
{
    let (lo, hi) = slots_of(draws, all);
    let mode = if below(draws, 2) == 0 {
        Mode::Reader
    } else {
        Mode::Writer
    };
    let Ok(range) = Range::of(u64::from(lo), u64::from(hi)) else {
        unreachable!()
    };
    let pause = below(draws, 8) == 0;
    hold(wait, table, seat, range, mode, &mut visits.tries);
    visit(table, seat, lo, hi, mode, pause, visits);
    table.release_uncounted(seat);
}

/// So many turns of a seat, each at drawn slots or each at all of them, and what they came to.
pub fn take_turns<R: Wait>(
    wait: &R,
    table: &RangeTable<FreeGuard>,
    seat: &mut Seat<FreeGuard>,
    draws: &mut Pcg32,
    all: bool,
    turns: u32,
) -> Visits
    requires table { seat.old.table ≡ table.now.table }
    requires slots { SLOTS ≤ table.now.client }
    requires free { seat.old.held ≡ None }
    ensures back { IsGivenBack seat.old seat.new }
{
    let mut visits = Visits::none();
    'turns: for _ in 0..turns {
        take_turn(wait, table, seat, draws, all, &mut visits);
    }
    visits
}
