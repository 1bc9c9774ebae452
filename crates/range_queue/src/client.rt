//! The steps on the client words of the guard behind the queue, as `RangeTable` has them: a load, a store, an addition
//! and an exchange. A reader may rely on the guard seeing its own words alone, and on what the seat knows of the queue
//! staying.
ghost use Rattle.std.specs.Prelude.{◌≡◌, ◌≢◌, ◌<◌, ◌+◌, ℕ, MatchResult};
ghost use Rattle.lock_core.specs.Client.{loads, stores, adds, exchanges, IsAllowed, IsMade};
ghost use Rattle.range_rw.specs.Contract.{IsClientCall};
ghost use Rattle.queue_guard.specs.Places.{queue_words};
ghost use Rattle.queue_guard.specs.Acts.{with_inner};

use crate::meaning::Behind;
use crate::table::{QueueSeat, QueueTable};
use crate::words::QUEUE_WORDS;
use lock_core::{Guard, Means};

impl<G: Guard> QueueTable<G> {
    /// Loads client word `i` of the guard, counted from 0, and returns its value.
    pub fn load_as<M: Means<G>>(&self, seat: &mut QueueSeat<G>, i: u32) -> u64
        requires table { seat.old.table ≡ self.now.table }
        requires place { i < self.now.client }
        requires allowed { IsAllowed G.holds G.allows M.note seat.old.number seat.old.held seat.old.pass.inner (loads i) }
        ensures call { IsClientCall seat.old (queue_words + i) seat.new }
        ensures pass { seat.new.pass ≡ with_inner seat.old.pass seat.new.pass.inner }
        ensures made { IsMade G.holds G.allows M.note seat.old.number seat.old.held seat.old.pass.inner (loads i) result seat.new.pass.inner }
    {
        let _ = self.client;
        let _ = seat.seats;
        self.table
            .load_as_uncounted::<Behind<M>>(&mut seat.seat, QUEUE_WORDS + i)
    }

    /// Stores a value in client word `i` of the guard, counted from 0.
    pub fn store_as<M: Means<G>>(&self, seat: &mut QueueSeat<G>, i: u32, value: u64)
        requires table { seat.old.table ≡ self.now.table }
        requires place { i < self.now.client }
        requires allowed { IsAllowed G.holds G.allows M.note seat.old.number seat.old.held seat.old.pass.inner (stores i value) }
        ensures call { IsClientCall seat.old (queue_words + i) seat.new }
        ensures pass { seat.new.pass ≡ with_inner seat.old.pass seat.new.pass.inner }
        ensures made { (found : ℕ) × IsMade G.holds G.allows M.note seat.old.number seat.old.held seat.old.pass.inner (stores i value) found
            seat.new.pass.inner }
    {
        let _ = self.client;
        let _ = seat.seats;
        self.table
            .store_as_uncounted::<Behind<M>>(&mut seat.seat, QUEUE_WORDS + i, value);
    }

    /// Adds `by` to client word `i` of the guard, counted from 0, modulo 2^64, and returns the value before.
    pub fn add_as<M: Means<G>>(&self, seat: &mut QueueSeat<G>, i: u32, by: u64) -> u64
        requires table { seat.old.table ≡ self.now.table }
        requires place { i < self.now.client }
        requires allowed { IsAllowed G.holds G.allows M.note seat.old.number seat.old.held seat.old.pass.inner (adds i by) }
        ensures call { IsClientCall seat.old (queue_words + i) seat.new }
        ensures pass { seat.new.pass ≡ with_inner seat.old.pass seat.new.pass.inner }
        ensures made { IsMade G.holds G.allows M.note seat.old.number seat.old.held seat.old.pass.inner (adds i by) result seat.new.pass.inner }
    {
        let _ = self.client;
        let _ = seat.seats;
        self.table
            .add_as_uncounted::<Behind<M>>(&mut seat.seat, QUEUE_WORDS + i, by)
    }

    /// Puts `new` in place of `expected` in client word `i` of the guard, counted from 0. Where the word has another
    /// value, it returns that value, and the word stays.
    pub fn exchange_as<M: Means<G>>(
        &self,
        seat: &mut QueueSeat<G>,
        i: u32,
        expected: u64,
        new: u64,
    ) -> Result<(), u64>
        requires table { seat.old.table ≡ self.now.table }
        requires place { i < self.now.client }
        requires allowed { IsAllowed G.holds G.allows M.note seat.old.number seat.old.held seat.old.pass.inner (exchanges i expected new) }
        ensures call { IsClientCall seat.old (queue_words + i) seat.new }
        ensures pass { seat.new.pass ≡ with_inner seat.old.pass seat.new.pass.inner }
        ensures made { MatchResult result (λ _. IsMade G.holds G.allows M.note seat.old.number seat.old.held seat.old.pass.inner
            (exchanges i expected new) expected seat.new.pass.inner)
            (λ found. (found ≢ expected) × IsMade G.holds G.allows M.note seat.old.number seat.old.held seat.old.pass.inner
            (exchanges i expected new) found seat.new.pass.inner) }
    {
        let _ = self.client;
        let _ = seat.seats;
        self.table
            .exchange_as_uncounted::<Behind<M>>(&mut seat.seat, QUEUE_WORDS + i, expected, new)
    }
}
