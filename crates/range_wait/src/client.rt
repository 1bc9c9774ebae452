//! The steps on the client words of the guard, as `QueueTable` has them. A reader may rely on the event count staying
//! as it is.
ghost use Rattle.std.specs.Prelude.{◌≡◌, ◌≢◌, ◌<◌, ◌+◌, ℕ, MatchResult};
ghost use Rattle.lock_core.specs.Client.{loads, stores, adds, exchanges, IsAllowed, IsMade};
ghost use Rattle.range_rw.specs.Contract.{IsClientCall};
ghost use Rattle.queue_guard.specs.Places.{queue_words};
ghost use Rattle.queue_guard.specs.Acts.{with_inner};

use crate::table::{WaitSeat, WaitTable};
use lock_core::{Guard, Means};

impl<G: Guard> WaitTable<G> {
    /// Loads client word `i` of the guard, counted from 0, and returns its value.
    pub fn load_as<M: Means<G>>(&self, seat: &mut WaitSeat<G>, i: u32) -> u64
        requires table { seat.old.lock.table ≡ self.now.lock.table }
        requires place { i < self.now.lock.client }
        requires allowed { IsAllowed G.holds G.allows M.note seat.old.lock.number seat.old.lock.held seat.old.lock.pass.inner (loads i) }
        ensures call { IsClientCall seat.old.lock (queue_words + i) seat.new.lock }
        ensures events { seat.new.event ≡ seat.old.event }
        ensures pass { seat.new.lock.pass ≡ with_inner seat.old.lock.pass seat.new.lock.pass.inner }
        ensures made { IsMade G.holds G.allows M.note seat.old.lock.number seat.old.lock.held seat.old.lock.pass.inner (loads i) result
            seat.new.lock.pass.inner }
    {
        self.table.load_as::<M>(&mut seat.seat, i)
    }

    /// Stores a value in client word `i` of the guard, counted from 0.
    pub fn store_as<M: Means<G>>(&self, seat: &mut WaitSeat<G>, i: u32, value: u64)
        requires table { seat.old.lock.table ≡ self.now.lock.table }
        requires place { i < self.now.lock.client }
        requires allowed { IsAllowed G.holds G.allows M.note seat.old.lock.number seat.old.lock.held seat.old.lock.pass.inner (stores i value) }
        ensures call { IsClientCall seat.old.lock (queue_words + i) seat.new.lock }
        ensures events { seat.new.event ≡ seat.old.event }
        ensures pass { seat.new.lock.pass ≡ with_inner seat.old.lock.pass seat.new.lock.pass.inner }
        ensures made { (found : ℕ) × IsMade G.holds G.allows M.note seat.old.lock.number seat.old.lock.held seat.old.lock.pass.inner (stores i value) found
            seat.new.lock.pass.inner }
    {
        self.table.store_as::<M>(&mut seat.seat, i, value);
    }

    /// Adds `by` to client word `i` of the guard, counted from 0, modulo 2^64, and returns the value before.
    pub fn add_as<M: Means<G>>(&self, seat: &mut WaitSeat<G>, i: u32, by: u64) -> u64
        requires table { seat.old.lock.table ≡ self.now.lock.table }
        requires place { i < self.now.lock.client }
        requires allowed { IsAllowed G.holds G.allows M.note seat.old.lock.number seat.old.lock.held seat.old.lock.pass.inner (adds i by) }
        ensures call { IsClientCall seat.old.lock (queue_words + i) seat.new.lock }
        ensures events { seat.new.event ≡ seat.old.event }
        ensures pass { seat.new.lock.pass ≡ with_inner seat.old.lock.pass seat.new.lock.pass.inner }
        ensures made { IsMade G.holds G.allows M.note seat.old.lock.number seat.old.lock.held seat.old.lock.pass.inner (adds i by) result
            seat.new.lock.pass.inner }
    {
        self.table.add_as::<M>(&mut seat.seat, i, by)
    }

    /// Puts `new` in place of `expected` in client word `i` of the guard, counted from 0. Where the word has another
    /// value, it returns that value, and the word stays.
    pub fn exchange_as<M: Means<G>>(
        &self,
        seat: &mut WaitSeat<G>,
        i: u32,
        expected: u64,
        new: u64,
    ) -> Result<(), u64>
        requires table { seat.old.lock.table ≡ self.now.lock.table }
        requires place { i < self.now.lock.client }
        requires allowed { IsAllowed G.holds G.allows M.note seat.old.lock.number seat.old.lock.held seat.old.lock.pass.inner (exchanges i expected new) }
        ensures call { IsClientCall seat.old.lock (queue_words + i) seat.new.lock }
        ensures events { seat.new.event ≡ seat.old.event }
        ensures pass { seat.new.lock.pass ≡ with_inner seat.old.lock.pass seat.new.lock.pass.inner }
        ensures made { MatchResult result (λ _. IsMade G.holds G.allows M.note seat.old.lock.number seat.old.lock.held seat.old.lock.pass.inner
            (exchanges i expected new) expected seat.new.lock.pass.inner)
            (λ found. (found ≢ expected) × IsMade G.holds G.allows M.note seat.old.lock.number seat.old.lock.held seat.old.lock.pass.inner
            (exchanges i expected new) found seat.new.lock.pass.inner) }
    {
        self.table
            .exchange_as::<M>(&mut seat.seat, i, expected, new)
    }
}
