//! Sleeping until the event word has changed. The kernel puts a thread to sleep only while the low 32 bits of the word
//! are those that the thread has seen (futex(2)), and may wake it for no reason, so each turn loads the word anew. A
//! reader may rely on a sleep that ends having found the word changed, or its deadline come at a reading of the clock.
ghost use Rattle.std.specs.Prelude.{◌≡◌, ◌≤◌, ◌+◌, ◌↔◌, true, false, IsNone, IfSome};
ghost use Rattle.std.specs.Time.{instant_nanos};
ghost use Rattle.std.specs.Duration.{as_nanos};
ghost use Rattle.event_count.specs.Sleeping.{Dozes, DozesUntil, Sleeps, SleepsUntil, Turns};

use crate::table::{EVENT, EventCount, EventSeat};
use std::sync::Wait;
use std::time::{Clock, Duration, Instant};

/// How a sleep with a deadline ended.
#[derive(Clone, Copy, Debug)]
pub enum Slept {
    /// The event word is this number now, another one than had been seen.
    Advanced(u64),
    /// The deadline had come at this reading of the clock.
    Late(Instant),
    /// The clock could not be read.
    NoClock,
}

/// How long it is from now to the deadline, or None where that has come.
fn time_left(now: Instant, deadline: Instant) -> Option<Duration>
    ensures none { IsNone result ↔ (instant_nanos deadline ≤ instant_nanos now) }
    ensures some { IfSome result (λ d. as_nanos d + instant_nanos now ≡ instant_nanos deadline) }
{
    let left = deadline.duration_since(now);
    if left.is_zero() { None } else { Some(left) }
}

impl EventCount {
    /// One turn of a sleep with a deadline: a load of the event word, and where it is the number seen, a reading of the
    /// clock, and a sleep for the time that is left. Some says how the sleep ended.
    fn turn_until<R: Wait + Clock>(
        &self,
        rt: &R,
        seat: &mut EventSeat,
        seen: u64,
        deadline: Instant,
    ) -> Option<Slept>
        requires table { seat.old.table ≡ self.now.table }
        ensures table { seat.new.table ≡ seat.old.table }
        ensures counted { seat.new.counted ≡ seat.old.counted }
        ensures turn { Turns seen deadline seat.old.steps result seat.new.steps }
    {
        let found = self.read(seat);
        if found != seen {
            return Some(Slept::Advanced(found));
        }
        let Ok(now) = Instant::now(rt) else {
            return Some(Slept::NoClock);
        };
        let Some(left) = time_left(now, deadline) else {
            return Some(Slept::Late(now));
        };
        let low = (seen & 0xFFFF_FFFF) as u32;
        self.table.shared.park_timeout(rt, EVENT, low, left);
        None
    }

    /// Turns, one after another, until the event word is another number.
    fn doze<R: Wait>(&self, rt: &R, seat: &mut EventSeat, seen: u64) -> u64
        requires table { seat.old.table ≡ self.now.table }
        ensures table { seat.new.table ≡ seat.old.table }
        ensures counted { seat.new.counted ≡ seat.old.counted }
        ensures dozes { Dozes seen seat.old.steps result seat.new.steps }
    {
        let low = (seen & 0xFFFF_FFFF) as u32;
        let mut found = seen;
        for _ in rt.forever() {
            found = self.read(seat);
            if found != seen {
                break;
            }
            self.table.shared.park(rt, EVENT, low);
        }
        found
    }

    /// The same, or until the deadline has come or the clock can't be read.
    fn doze_until<R: Wait + Clock>(
        &self,
        rt: &R,
        seat: &mut EventSeat,
        seen: u64,
        deadline: Instant,
    ) -> Slept
        requires table { seat.old.table ≡ self.now.table }
        ensures table { seat.new.table ≡ seat.old.table }
        ensures counted { seat.new.counted ≡ seat.old.counted }
        ensures dozes { DozesUntil seen deadline seat.old.steps result seat.new.steps }
    {
        let mut slept = Slept::NoClock;
        for _ in rt.forever() {
            match self.turn_until(rt, seat, seen, deadline) {
                Some(how) => {
                    slept = how;
                    break;
                }
                None => {}
            }
        }
        slept
    }

    /// Sleeps until the event word is another number than `seen`, which `prepare` gave, and counts the caller out.
    /// Gives the number that it is then. It takes no memory.
    pub fn sleep<R: Wait>(&self, rt: &R, seat: &mut EventSeat, seen: u64) -> u64
        requires table { seat.old.table ≡ self.now.table }
        requires counted { seat.old.counted ≡ true }
        ensures table { seat.new.table ≡ seat.old.table }
        ensures out { seat.new.counted ≡ false }
        ensures steps { Sleeps seen seat.old.steps result seat.new.steps }
    {
        let found = self.doze(rt, seat, seen);
        self.count_out(seat);
        found
    }

    /// Sleeps until the event word is another number than `seen`, or the deadline has come, and counts the caller out.
    /// A deadline that has passed makes one look at the word. It takes no memory.
    pub fn sleep_until<R: Wait + Clock>(
        &self,
        rt: &R,
        seat: &mut EventSeat,
        seen: u64,
        deadline: Instant,
    ) -> Slept
        requires table { seat.old.table ≡ self.now.table }
        requires counted { seat.old.counted ≡ true }
        ensures table { seat.new.table ≡ seat.old.table }
        ensures out { seat.new.counted ≡ false }
        ensures steps { SleepsUntil seen deadline seat.old.steps result seat.new.steps }
    {
        let slept = self.doze_until(rt, seat, seen, deadline);
        self.count_out(seat);
        slept
    }
}
