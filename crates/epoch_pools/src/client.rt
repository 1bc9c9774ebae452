//! The steps on client words that the layer above makes through a hand: a load, a store, an addition and an exchange.
//! Each is one atomic step, made at a moment of the running list at which the guard allows it; a reader may rely on
//! the value that it returns being that of the word there, and on the pass being one that the guard gives there.
ghost use Rattle.std.specs.Prelude.{◌≡◌, ◌≢◌, ◌<◌, ◌+◌, ◌*◌, ℕ, MatchResult};
ghost use Rattle.lock_core.specs.Client.{loads, stores, adds, exchanges, IsAllowed, IsMade};
ghost use Rattle.list_cuts.specs.Cut.{list_count};
ghost use Rattle.lock_core.specs.Words.{word_count};
ghost use Rattle.epoch_pools.specs.Beside.{shown_grant, inner_pass};
ghost use Rattle.epoch_pools.specs.Running.{client_part};
ghost use Rattle.epoch_pools.specs.ClientActs.{client_step, IsAnswering};

use crate::hand::Hand;
use crate::list::List;
use crate::plays::{Acting, Acts, Overwrites};
use crate::token::Token;
use lock_core::{Guard, Means};
use std::marker::Brand;

/// What is done to a client word.
#[derive(Clone, Copy)]
pub enum ClientAct {
    Load,
    Store { value: u64 },
    /// Adds a number; the sum wraps.
    Add { by: u64 },
    /// Stores `new` where the word is `expected`.
    Exchange { expected: u64, new: u64 },
}

impl<G: Guard> List<G> {
    /// The place of a client word in the table.
    fn client_word(&self, i: u32) -> usize
        requires { i < self.now.client }
        ensures { result ≡ list_count self.now.cut * word_count self.now.seats + i }
    {
        let _client = self.client;
        (self.client_start + i) as usize
    }

    /// One operation on a client word, which is the step that is picked. It returns what the word was, or 0 after a
    /// store.
    #[inline(always)]
    fn act_at_client<M: Means<G>, C: Acting>(
        &self,
        token: &mut Token<G>,
        i: u32,
        act: ClientAct,
    ) -> u64
        requires acting { C.acting ≡ client_step act i }
        requires lists { (C.lists ≡ token.old.part.pass.lists) × (C.list ≡ token.old.part.pass.list) }
        requires table { token.old.table ≡ self.now.table }
        requires place { i < self.now.client }
        requires allowed { IsAllowed G.holds G.allows M.note token.old.part.number (shown_grant token.old.part) (inner_pass token.old.part) C.acting }
        ensures table { token.new.table ≡ token.old.table }
        ensures part { token.new.part ≡ client_part token.old.part i (inner_pass token.new.part) }
        ensures made { IsAnswering act → IsMade G.holds G.allows M.note token.old.part.number (shown_grant token.old.part)
            (inner_pass token.old.part) C.acting result (inner_pass token.new.part) }
        ensures stored { (found : ℕ) × IsMade G.holds G.allows M.note token.old.part.number (shown_grant token.old.part)
            (inner_pass token.old.part) C.acting found (inner_pass token.new.part) }
    {
        let _number = token.number;
        let shared = &self.table.shared;
        let word = self.client_word(i);
        match act {
            ClientAct::Load => shared.load::<Acts<G, M, C>>(&mut token.seat, word),
            ClientAct::Store { value } => {
                shared.store::<Overwrites<G, M, C>>(&mut token.seat, word, value);
                0
            }
            ClientAct::Add { by } => shared.fetch_add::<Acts<G, M, C>>(&mut token.seat, word, by),
            ClientAct::Exchange { expected, new } => {
                shared.compare_exchange::<Acts<G, M, C>>(&mut token.seat, word, expected, new)
            }
        }
    }

    /// The same, where the step is the operation's on that word of the list to which the token is turned.
    #[inline(always)]
    fn act_on_client<M: Means<G>>(&self, token: &mut Token<G>, i: u32, act: ClientAct) -> u64
        requires table { token.old.table ≡ self.now.table }
        requires place { i < self.now.client }
        requires allowed { IsAllowed G.holds G.allows M.note token.old.part.number (shown_grant token.old.part) (inner_pass token.old.part)
            (client_step act i) }
        ensures table { token.new.table ≡ token.old.table }
        ensures part { token.new.part ≡ client_part token.old.part i (inner_pass token.new.part) }
        ensures made { IsAnswering act → IsMade G.holds G.allows M.note token.old.part.number (shown_grant token.old.part)
            (inner_pass token.old.part) (client_step act i) result (inner_pass token.new.part) }
        ensures stored { (found : ℕ) × IsMade G.holds G.allows M.note token.old.part.number (shown_grant token.old.part)
            (inner_pass token.old.part) (client_step act i) found (inner_pass token.new.part) }
    {
        self.act_at_client::<M, Brand>(token, i, act)
    }
}

/// Loads client word `i`, counted from 0, and returns its value.
pub fn client_load<G: Guard, M: Means<G>>(list: &List<G>, hand: &mut Hand<G>, i: u32) -> u64
    requires table { hand.old.table ≡ list.now.table }
    requires place { i < list.now.client }
    requires allowed { IsAllowed G.holds G.allows M.note hand.old.part.number (shown_grant hand.old.part) (inner_pass hand.old.part) (loads i) }
    ensures table { hand.new.table ≡ hand.old.table }
    ensures part { hand.new.part ≡ client_part hand.old.part i (inner_pass hand.new.part) }
    ensures made { IsMade G.holds G.allows M.note hand.old.part.number (shown_grant hand.old.part) (inner_pass hand.old.part) (loads i) result
        (inner_pass hand.new.part) }
{
    list.act_on_client::<M>(&mut hand.token, i, ClientAct::Load)
}

/// Stores a value in client word `i`, counted from 0.
pub fn client_store<G: Guard, M: Means<G>>(list: &List<G>, hand: &mut Hand<G>, i: u32, value: u64)
    requires table { hand.old.table ≡ list.now.table }
    requires place { i < list.now.client }
    requires allowed { IsAllowed G.holds G.allows M.note hand.old.part.number (shown_grant hand.old.part) (inner_pass hand.old.part) (stores i value) }
    ensures table { hand.new.table ≡ hand.old.table }
    ensures part { hand.new.part ≡ client_part hand.old.part i (inner_pass hand.new.part) }
    ensures made { (found : ℕ) × IsMade G.holds G.allows M.note hand.old.part.number (shown_grant hand.old.part)
        (inner_pass hand.old.part) (stores i value) found (inner_pass hand.new.part) }
{
    list.act_on_client::<M>(&mut hand.token, i, ClientAct::Store { value });
}

/// Adds `by` to client word `i`, counted from 0, modulo 2^64, and returns the value before.
pub fn client_add<G: Guard, M: Means<G>>(list: &List<G>, hand: &mut Hand<G>, i: u32, by: u64) -> u64
    requires table { hand.old.table ≡ list.now.table }
    requires place { i < list.now.client }
    requires allowed { IsAllowed G.holds G.allows M.note hand.old.part.number (shown_grant hand.old.part) (inner_pass hand.old.part) (adds i by) }
    ensures table { hand.new.table ≡ hand.old.table }
    ensures part { hand.new.part ≡ client_part hand.old.part i (inner_pass hand.new.part) }
    ensures made { IsMade G.holds G.allows M.note hand.old.part.number (shown_grant hand.old.part) (inner_pass hand.old.part)
        (adds i by) result (inner_pass hand.new.part) }
{
    list.act_on_client::<M>(&mut hand.token, i, ClientAct::Add { by })
}

/// Puts `new` in place of `expected` in client word `i`, counted from 0. Where the word has another value, it returns
/// that value, and the word stays.
pub fn client_exchange<G: Guard, M: Means<G>>(
    list: &List<G>,
    hand: &mut Hand<G>,
    i: u32,
    expected: u64,
    new: u64,
) -> Result<(), u64>
    requires table { hand.old.table ≡ list.now.table }
    requires place { i < list.now.client }
    requires allowed { IsAllowed G.holds G.allows M.note hand.old.part.number (shown_grant hand.old.part) (inner_pass hand.old.part)
        (exchanges i expected new) }
    ensures table { hand.new.table ≡ hand.old.table }
    ensures part { hand.new.part ≡ client_part hand.old.part i (inner_pass hand.new.part) }
    ensures made { MatchResult result (λ _. IsMade G.holds G.allows M.note hand.old.part.number (shown_grant hand.old.part)
        (inner_pass hand.old.part) (exchanges i expected new) expected (inner_pass hand.new.part))
        (λ found. (found ≢ expected) × IsMade G.holds G.allows M.note hand.old.part.number (shown_grant hand.old.part)
        (inner_pass hand.old.part) (exchanges i expected new) found (inner_pass hand.new.part)) }
{
    let found = list.act_on_client::<M>(&mut hand.token, i, ClientAct::Exchange { expected, new });
    if found == expected {
        Ok(())
    } else {
        Err(found)
    }
}
