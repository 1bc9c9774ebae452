//! A hand of a table: a seat of it with the view that it has of each list, kept as plain data in a box while the
//! program runs. A hand is turned to one list, in which it makes its steps; to turn it to another exchanges boxes and
//! moves no view. Between calls its view of that list is the one that belongs to the seat's number in the table's rule,
//! and so are the others, which rest meanwhile; so a hand knows which steps it may make. A reader may rely on each view
//! being sound whatever other seats do.
use crate::others::Others;
use crate::token::Token;
use lock_core::{Guard, View};
use std::marker::Model;

/// One seat of a table, with its pools in each list. Contracts see its table and all that belongs to its number, as the
/// list shows it to which the hand is turned.
#[derive(Drop)]
pub struct Hand<G: Guard> {
    pub(crate) token: Token<G>,
    /// The view of the list to which the hand is turned.
    pub(crate) view: Box<View>,
    pub(crate) others: Others,
}

impl<G: Guard> Model for Hand<G> {
    ghost use Rattle.std.specs.Prelude.{◌≡◌};
    ghost use Rattle.epoch_pools.specs.declared.views.Beside.{Beside};
    ghost use Rattle.epoch_pools.specs.Hands.{HandState, IsHandView, AreOthers};

    ghost Value = { HandState (Beside G.Pass) };

    ghost view = { λ h. h.token };

    ghost invariant = { λ h. (h.token.part.core ≡ h.view.value) × IsHandView h.token.part × AreOthers h.token.part.seats h.token.part.number
        h.token.part.pass.lists h.token.part.pass.list h.token.part.pass.others h.others };
}

impl<G: Guard> Hand<G> {
    ghost use Rattle.std.specs.Prelude.{◌≡◌, ◌<◌, ◌≤◌, ℕ};
    ghost use Rattle.epoch_pools.specs.Beside.{shown_core};
    ghost use Rattle.epoch_pools.specs.Hands.{IsHandView, IsResting, turned};

    /// What the hand knows of the list to which it is turned, and may rely on whatever other seats do.
    #[inline(always)]
    pub fn view(&self) -> &View
        ensures view { result.now ≡ self.now.part.core }
        ensures sound { IsHandView self.now.part }
    {
        &self.view
    }

    /// The number of the hand, counted from 0.
    #[inline(always)]
    pub fn number(&self) -> u32
        ensures number { result ≡ self.now.part.number }
        ensures there { result < self.now.part.seats }
    {
        self.token.number
    }

    /// How many seats the hand's table has, from 1 to 16.
    #[inline(always)]
    pub fn seats(&self) -> u32
        ensures seats { result ≡ self.now.part.seats }
        ensures some { 0 < result }
        ensures few { result ≤ 16 }
    {
        self.token.seats
    }

    /// How many lists the hand's table has, from 1 to 17.
    #[inline(always)]
    pub fn lists(&self) -> u32
        ensures lists { result ≡ self.now.part.pass.lists }
        ensures some { 0 < result }
        ensures few { result ≤ 17 }
    {
        self.token.lists
    }

    /// The list to which the hand is turned, counted from 0.
    #[inline(always)]
    pub fn list(&self) -> u32
        ensures list { result ≡ self.now.part.pass.list }
        ensures there { result < self.now.part.pass.lists }
        ensures noted { self.now.part.trace.list ≡ self.now.part.pass.list }
    {
        self.token.at()
    }

    /// Turns the hand to a list, counted from 0. It makes no step, and what the hand knows of each list stays. The hand
    /// is outside its epoch in the list to which it was turned, has no cursor there, and no unlinked node still to be
    /// given home; so it is in the list to which it is turned now.
    #[inline(always)]
    pub fn turn(&mut self, list: u32)
        requires there { list < self.old.part.pass.lists }
        requires resting { IsResting self.old.part.core }
        ensures table { self.new.table ≡ self.old.table }
        ensures part { self.new.part ≡ turned self.old.part list }
        ensures stays { (j : ℕ) → shown_core self.new.part j ≡ shown_core self.old.part j }
        ensures rests { IsResting self.new.part.core }
    {
        let Hand {
            token,
            view,
            others,
        } = self;
        if list == token.list {
            return;
        }
        others.exchange(token.list, view);
        others.exchange(list, view);
        token.turn(list);
    }
}
