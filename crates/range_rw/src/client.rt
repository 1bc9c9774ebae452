//! The steps on client words that the layer above makes through a seat: a load, a store, an addition and an exchange.
//! Each is one atomic step, made at a moment of the running table at which the guard allows it; a reader may rely on
//! the value that it returns being that of the word there, and on the pass being one that the guard gives there.
ghost use Rattle.std.specs.Prelude.{◌≡◌, ◌≢◌, ◌<◌, ◌+◌, ℕ, MatchResult};
ghost use Rattle.lock_core.specs.Client.{loads, stores, adds, exchanges, IsAllowed, IsMade};
ghost use Rattle.range_rw.specs.Contract.{IsClientCall};

use crate::table::{RangeTable, Seat};
use epoch_pools::{client_add, client_exchange, client_load, client_store};
use lock_core::{Guard, Means};
use std::sync::ledger::Ledger;
use word_rows::Steps;

impl<G: Guard> RangeTable<G> {
    /// The same as `load_as`, not counted.
    pub fn load_as_uncounted<M: Means<G>>(&self, seat: &mut Seat<G>, i: u32) -> u64
        requires table { seat.old.table ≡ self.now.table }
        requires place { i < self.now.client }
        requires allowed { IsAllowed G.holds G.allows M.note seat.old.number seat.old.held seat.old.pass (loads i) }
        ensures call { IsClientCall seat.old i seat.new }
        ensures made { IsMade G.holds G.allows M.note seat.old.number seat.old.held seat.old.pass (loads i) result seat.new.pass }
    {
        client_load::<G, M>(&self.list, &mut seat.hand, i)
    }

    /// Loads client word `i`, counted from 0, and returns its value.
    /// One step, counted by `steps`.
    pub fn load_as<M: Means<G>, L: Ledger>(
        &self,
        seat: &mut Seat<G>,
        i: u32,
        steps: &mut Steps<L>,
    ) -> u64
        requires table { seat.old.table ≡ self.now.table }
        requires place { i < self.now.client }
        requires allowed { IsAllowed G.holds G.allows M.note seat.old.number seat.old.held seat.old.pass (loads i) }
        ensures call { IsClientCall seat.old i seat.new }
        ensures made { IsMade G.holds G.allows M.note seat.old.number seat.old.held seat.old.pass (loads i) result seat.new.pass }
        ensures counted { steps.new ≡ steps.old + 1 }
    {
        steps.tick();
        self.load_as_uncounted::<M>(seat, i)
    }

    /// The same as `store_as`, not counted.
    pub fn store_as_uncounted<M: Means<G>>(&self, seat: &mut Seat<G>, i: u32, value: u64)
        requires table { seat.old.table ≡ self.now.table }
        requires place { i < self.now.client }
        requires allowed { IsAllowed G.holds G.allows M.note seat.old.number seat.old.held seat.old.pass (stores i value) }
        ensures call { IsClientCall seat.old i seat.new }
        ensures made { (found : ℕ) × IsMade G.holds G.allows M.note seat.old.number seat.old.held seat.old.pass (stores i value) found seat.new.pass }
    {
        client_store::<G, M>(&self.list, &mut seat.hand, i, value);
    }

    /// Stores a value in client word `i`, counted from 0.
    /// One step, counted by `steps`.
    pub fn store_as<M: Means<G>, L: Ledger>(
        &self,
        seat: &mut Seat<G>,
        i: u32,
        value: u64,
        steps: &mut Steps<L>,
    )
        requires table { seat.old.table ≡ self.now.table }
        requires place { i < self.now.client }
        requires allowed { IsAllowed G.holds G.allows M.note seat.old.number seat.old.held seat.old.pass (stores i value) }
        ensures call { IsClientCall seat.old i seat.new }
        ensures made { (found : ℕ) × IsMade G.holds G.allows M.note seat.old.number seat.old.held seat.old.pass (stores i value) found seat.new.pass }
        ensures counted { steps.new ≡ steps.old + 1 }
    {
        steps.tick();
        self.store_as_uncounted::<M>(seat, i, value);
    }

    /// The same as `add_as`, not counted.
    pub fn add_as_uncounted<M: Means<G>>(&self, seat: &mut Seat<G>, i: u32, by: u64) -> u64
        requires table { seat.old.table ≡ self.now.table }
        requires place { i < self.now.client }
        requires allowed { IsAllowed G.holds G.allows M.note seat.old.number seat.old.held seat.old.pass (adds i by) }
        ensures call { IsClientCall seat.old i seat.new }
        ensures made { IsMade G.holds G.allows M.note seat.old.number seat.old.held seat.old.pass (adds i by) result seat.new.pass }
    {
        client_add::<G, M>(&self.list, &mut seat.hand, i, by)
    }

    /// Adds `by` to client word `i`, counted from 0, modulo 2^64, and returns the value before.
    /// One step, counted by `steps`.
    pub fn add_as<M: Means<G>, L: Ledger>(
        &self,
        seat: &mut Seat<G>,
        i: u32,
        by: u64,
        steps: &mut Steps<L>,
    ) -> u64
        requires table { seat.old.table ≡ self.now.table }
        requires place { i < self.now.client }
        requires allowed { IsAllowed G.holds G.allows M.note seat.old.number seat.old.held seat.old.pass (adds i by) }
        ensures call { IsClientCall seat.old i seat.new }
        ensures made { IsMade G.holds G.allows M.note seat.old.number seat.old.held seat.old.pass (adds i by) result seat.new.pass }
        ensures counted { steps.new ≡ steps.old + 1 }
    {
        steps.tick();
        self.add_as_uncounted::<M>(seat, i, by)
    }

    /// The same as `exchange_as`, not counted.
    pub fn exchange_as_uncounted<M: Means<G>>(
        &self,
        seat: &mut Seat<G>,
        i: u32,
        expected: u64,
        new: u64,
    ) -> Result<(), u64>
        requires table { seat.old.table ≡ self.now.table }
        requires place { i < self.now.client }
        requires allowed { IsAllowed G.holds G.allows M.note seat.old.number seat.old.held seat.old.pass (exchanges i expected new) }
        ensures call { IsClientCall seat.old i seat.new }
        ensures made { MatchResult result (λ _. IsMade G.holds G.allows M.note seat.old.number seat.old.held seat.old.pass
            (exchanges i expected new) expected seat.new.pass)
            (λ found. (found ≢ expected) × IsMade G.holds G.allows M.note seat.old.number seat.old.held seat.old.pass
            (exchanges i expected new) found seat.new.pass) }
    {
        client_exchange::<G, M>(&self.list, &mut seat.hand, i, expected, new)
    }

    /// Puts `new` in place of `expected` in client word `i`, counted from 0. Where the word has another value, it
    /// returns that value, and the word stays.
    /// One step, counted by `steps`.
    pub fn exchange_as<M: Means<G>, L: Ledger>(
        &self,
        seat: &mut Seat<G>,
        i: u32,
        expected: u64,
        new: u64,
        steps: &mut Steps<L>,
    ) -> Result<(), u64>
        requires table { seat.old.table ≡ self.now.table }
        requires place { i < self.now.client }
        requires allowed { IsAllowed G.holds G.allows M.note seat.old.number seat.old.held seat.old.pass (exchanges i expected new) }
        ensures call { IsClientCall seat.old i seat.new }
        ensures made { MatchResult result (λ _. IsMade G.holds G.allows M.note seat.old.number seat.old.held seat.old.pass
            (exchanges i expected new) expected seat.new.pass)
            (λ found. (found ≢ expected) × IsMade G.holds G.allows M.note seat.old.number seat.old.held seat.old.pass
            (exchanges i expected new) found seat.new.pass) }
        ensures counted { steps.new ≡ steps.old + 1 }
    {
        steps.tick();
        self.exchange_as_uncounted::<M>(seat, i, expected, new)
    }
}
