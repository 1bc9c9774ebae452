//! A seat of the table while a step is made with it: the step changes what belongs to the seat's number, and the plain
//! view that the hand keeps follows a statement later. So `Hand` wraps it between calls. A token is turned to one list,
//! and shows the seat as that list has it; a reader may rely on its number, its number of seats and its number of lists
//! being those of its part, and on the words of all lists being there.
use crate::list::lock_word_count;
use crate::views::ListView;
use lock_core::Guard;
use std::marker::Model;

/// A seat of the table with its number, the number of seats, and the list to which it is turned.
#[derive(Drop)]
pub struct Token<G: Guard> {
    pub(crate) seat: atomic_table::Seat<(), ListView<G::Pass>>,
    pub(crate) number: u32,
    pub(crate) seats: u32,
    /// How many lists the table has.
    pub(crate) lists: u32,
    /// The list to which it is turned, counted from 0.
    pub(crate) list: u32,
    /// The place of that list's first word.
    pub(crate) first: u32,
}

impl<G: Guard> Model for Token<G> {
    ghost use Rattle.std.specs.Prelude.{◌≡◌, [], ◌∷◌};
    ghost use Rattle.epoch_pools.specs.declared.views.Beside.{Beside};
    ghost use Rattle.epoch_pools.specs.Hands.{HandState, part_in, shown_of, IsSeatOf};

    ghost Value = { HandState (Beside G.Pass) };

    ghost view = { λ t. record { table = t.seat.table_id; part = shown_of (G.first [] 0) t.lists t.list t.seat.me.0.parts } };

    ghost invariant = { λ t. (t.seat.me.1 ≡ []) × (t.seat.me.0.parts ≡ part_in (G.first [] 0) t.seat.me.0.parts ∷ [])
        × IsSeatOf (part_in (G.first [] 0) t.seat.me.0.parts) t.number t.seats t.lists t.list t.first t.seat.table_id.words };
}

impl<G: Guard> Token<G> {
    ghost use Rattle.std.specs.Prelude.{◌≡◌, ◌+◌, ◌*◌, ◌<◌, ◌≤◌};
    ghost use Rattle.lock_core.specs.Words.{word_count};
    ghost use Rattle.epoch_pools.specs.Hands.{turned};

    /// The place in the table of a word of the list to which the token is turned.
    #[inline(always)]
    pub(crate) fn place_of(&self, word: u32) -> usize
        requires { word < word_count self.now.part.seats }
        ensures { result ≡ self.now.part.pass.list * word_count self.now.part.seats + word }
    {
        (self.first + word) as usize
    }

    /// How many seats the table has, 16 at most; the token's number is below it.
    #[inline(always)]
    pub(crate) fn seat_count(&self) -> u32
        ensures seats { result ≡ self.now.part.seats }
        ensures there { self.now.part.number < self.now.part.seats }
        ensures few { self.now.part.seats ≤ 16 }
    {
        self.seats
    }

    /// The list to which the token is turned, counted from 0. In it are the steps that its record notes next.
    #[inline(always)]
    pub(crate) fn at(&self) -> u32
        ensures list { result ≡ self.now.part.pass.list }
        ensures there { result < self.now.part.pass.lists }
        ensures noted { self.now.part.trace.list ≡ self.now.part.pass.list }
    {
        self.list
    }

    /// Turns the token to another list. No step is made.
    pub(crate) fn turn(&mut self, list: u32)
        requires { list < self.old.part.pass.lists }
        ensures table { self.new.table ≡ self.old.table }
        ensures part { self.new.part ≡ turned self.old.part list }
    {
        self.list = list;
        self.first = list * lock_word_count(self.seats);
    }
}
