//! Counting oneself before one looks a last time, and waking those who are counted. A caller that waits counts itself
//! *before* it reads the event word and looks once more at what it waits for; who changes what others wait for does so
//! before it loads the count. So either the look sees the change, or the load finds the caller counted. A reader may
//! rely on each call making just the steps that its contract names.
ghost use Rattle.std.specs.Prelude.{◌≡◌, ◌<◌, ◌≤◌, ◌++◌, ◌∷◌, [], true, false};
ghost use Rattle.event_count.specs.declared.records.EventStep.TheVariants.{Counted, Read, Left, Asked, Advanced};
ghost use Rattle.event_count.specs.Calls.{Prepares, Cancels, Notifies};

use crate::plays::{Advances, Asks, Counts, Leaves, Reads};
use crate::table::{EVENT, EventCount, EventSeat, SLEEPERS};

/// How a wake ended.
#[derive(Clone, Copy, Debug, PartialEq, Eq)]
pub enum Notified {
    /// Nobody was counted, so nothing was written.
    Nobody,
    /// So many were counted. The event word was advanced, and all who sleep on it were woken.
    Woke(u64),
}

impl EventCount {
    /// Adds 1 to the count of sleepers, and gives what it was.
    fn count_in(&self, seat: &mut EventSeat) -> u64
        requires table { seat.old.table ≡ self.now.table }
        requires out { seat.old.counted ≡ false }
        ensures table { seat.new.table ≡ seat.old.table }
        ensures counted { seat.new.counted ≡ true }
        ensures steps { seat.new.steps ≡ seat.old.steps ++ Counted result ∷ [] }
        ensures few { result < 16 }
    {
        self.table
            .shared
            .fetch_add::<Counts>(&mut seat.seat, SLEEPERS, 1)
    }

    /// Takes 1 from the count of sleepers, and gives what it was.
    pub(crate) fn count_out(&self, seat: &mut EventSeat) -> u64
        requires table { seat.old.table ≡ self.now.table }
        requires counted { seat.old.counted ≡ true }
        ensures table { seat.new.table ≡ seat.old.table }
        ensures out { seat.new.counted ≡ false }
        ensures steps { seat.new.steps ≡ seat.old.steps ++ Left result ∷ [] }
        ensures some { 0 < result }
    {
        self.table
            .shared
            .fetch_sub::<Leaves>(&mut seat.seat, SLEEPERS, 1)
    }

    /// Loads the event word.
    pub(crate) fn read(&self, seat: &mut EventSeat) -> u64
        requires table { seat.old.table ≡ self.now.table }
        ensures table { seat.new.table ≡ seat.old.table }
        ensures counted { seat.new.counted ≡ seat.old.counted }
        ensures steps { seat.new.steps ≡ seat.old.steps ++ Read result ∷ [] }
    {
        self.table.shared.load::<Reads>(&mut seat.seat, EVENT)
    }

    /// Loads the count of sleepers.
    fn ask(&self, seat: &mut EventSeat) -> u64
        requires table { seat.old.table ≡ self.now.table }
        ensures table { seat.new.table ≡ seat.old.table }
        ensures counted { seat.new.counted ≡ seat.old.counted }
        ensures steps { seat.new.steps ≡ seat.old.steps ++ Asked result ∷ [] }
        ensures few { result ≤ 16 }
    {
        self.table.shared.load::<Asks>(&mut seat.seat, SLEEPERS)
    }

    /// Adds 1 to the event word, and gives what it was.
    fn advance(&self, seat: &mut EventSeat) -> u64
        requires table { seat.old.table ≡ self.now.table }
        ensures table { seat.new.table ≡ seat.old.table }
        ensures counted { seat.new.counted ≡ seat.old.counted }
        ensures steps { seat.new.steps ≡ seat.old.steps ++ Advanced result ∷ [] }
    {
        self.table
            .shared
            .fetch_add::<Advances>(&mut seat.seat, EVENT, 1)
    }

    /// Counts the caller as a sleeper, and then reads the event word. The caller then looks at what it waits for, and
    /// either calls `sleep` with this number or, where it need not wait, `cancel`.
    pub fn prepare(&self, seat: &mut EventSeat) -> u64
        requires table { seat.old.table ≡ self.now.table }
        requires out { seat.old.counted ≡ false }
        ensures table { seat.new.table ≡ seat.old.table }
        ensures counted { seat.new.counted ≡ true }
        ensures steps { Prepares seat.old.steps result seat.new.steps }
    {
        self.count_in(seat);
        self.read(seat)
    }

    /// Takes the caller out of the count of sleepers.
    pub fn cancel(&self, seat: &mut EventSeat)
        requires table { seat.old.table ≡ self.now.table }
        requires counted { seat.old.counted ≡ true }
        ensures table { seat.new.table ≡ seat.old.table }
        ensures out { seat.new.counted ≡ false }
        ensures steps { Cancels seat.old.steps seat.new.steps }
    {
        self.count_out(seat);
    }

    /// Wakes all who sleep, if any caller is counted: it advances the event word first, so that who is about to sleep
    /// doesn't. Where nobody is counted it makes one load and nothing else. Call it after the change that others wait
    /// for.
    pub fn notify(&self, seat: &mut EventSeat) -> Notified
        requires table { seat.old.table ≡ self.now.table }
        ensures table { seat.new.table ≡ seat.old.table }
        ensures counted { seat.new.counted ≡ seat.old.counted }
        ensures steps { Notifies seat.old.steps result seat.new.steps }
    {
        let sleepers = self.ask(seat);
        if sleepers == 0 {
            return Notified::Nobody;
        }
        self.advance(seat);
        self.table.shared.wake_all(EVENT);
        Notified::Woke(sleepers)
    }
}
