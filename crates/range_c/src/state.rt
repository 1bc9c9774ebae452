//! What is behind an open handle: an owner of the table, one seat of it, and the seats that no handle has had yet. Each
//! call of C's is a method here. A reader may rely on all the seats being of that table, and on those that are left to
//! share being as they were at the opening.
ghost use Rattle.std.specs.Prelude.{◌≡◌, None, IfOk, IfErr};
ghost use Rattle.range_c.specs.Behind.{IsTried, IsTriedIn, IsReleased, IsStepped, IsTrial, IsGranted, IsRefused, IsTrialAnswer, IsLooked};
ghost use Rattle.range_c.specs.Shown.{IsScanned};

use crate::answers::{Answer, GzBusy, NOTHING};
use crate::recording::{Recording, WordStep};
use crate::shelf::Shelf;
use crate::showing::show_all;
use c_handles::mode_of;
use lock_core::{Mode, Range};
use range_rw::{NotHeld, RangeTable, Seat};
use std::alloc::Global;
use std::marker::Model;
use std::sync::Arc;
use word_rows::Backoff;

/// A table, and the seats that closed handles gave back.
#[derive(Drop)]
pub(crate) struct Lock {
    pub(crate) table: RangeTable<Recording>,
    pub(crate) shelf: Shelf,
}

/// An owner of the table, a seat, and the seats that are left to share.
#[derive(Drop)]
pub(crate) struct State {
    pub(crate) lock: Arc<Lock, Global>,
    pub(crate) seat: Seat<Recording>,
    /// The seat's number, counted from 0.
    pub(crate) number: u32,
    pub(crate) spare: Vec<Seat<Recording>>,
    pub(crate) words: u32,
}

impl Model for State {
    ghost use Rattle.std.specs.Prelude.{◌≡◌, ◌≤◌, ◌<◌, None, length};
    ghost use Rattle.std.specs.Arc.{arc_value};
    ghost use Rattle.std.specs.List.{All};
    ghost use Rattle.list_cuts.specs.Cut.{list_count};
    ghost use Rattle.range_rw.specs.Contract.{AreNewSeatsIn};
    ghost use Rattle.range_c.specs.Recording.{begun};
    ghost use Rattle.range_c.specs.Behind.{Behind, IsPlaceOf};

    ghost Value = { Behind };

    ghost view = { λ s. record {
      seat = s.seat;
      spare = length s.spare.items;
      words = s.words;
      seats = (arc_value s.lock).table.seats;
      cut = (arc_value s.lock).table.cut;
    } };

    ghost invariant = { λ s. (s.seat.table ≡ (arc_value s.lock).table.table)
        × AreNewSeatsIn (list_count (arc_value s.lock).table.cut) (arc_value s.lock).table.table (begun s.seat.pass.opened) s.spare.items
        × ((arc_value s.lock).table.client ≡ s.words) × (s.seat.number ≡ s.number) × (length s.spare.items ≤ s.number)
        × (s.number < (arc_value s.lock).table.seats)
        × All (IsPlaceOf (arc_value s.lock).table.table (arc_value s.lock).table.seats s.seat.pass.opened) (arc_value s.lock).shelf.places.items
        × (s.seat.scan ≡ None) };
}

/// The range that a call of C's asks for, and how often it is to try.
#[derive(Clone, Copy, Drop)]
pub(crate) struct Asked {
    pub(crate) lo: u64,
    pub(crate) hi: u64,
    pub(crate) writer: bool,
    pub(crate) tries: u32,
}

/// Waits before the next try, where one is to come and another seat has to move first. After a lost exchange none has
/// to.
fn pause_after(why: &NotHeld, left: u32, backoff: &mut Backoff) {
    if left == 0 {
        return;
    }
    match why {
        NotHeld::Again { .. } => {}
        _ => {
            backoff.pause();
        }
    }
}

impl State {
    /// Tries once for the range, and waits for nobody. The seat holds nothing.
    fn try_once(&mut self, range: Range, mode: Mode) -> Result<(), NotHeld>
        requires free { self.old.seat.held ≡ None }
        ensures kept { IsTrial self.old self.new }
        ensures held { IfOk result (λ _. IsGranted self.old.seats self.old.cut (record { range = range; mode = mode }) self.old.seat self.new.seat) }
        ensures refused { IfErr result (IsRefused self.old.seats self.old.cut (record { range = range; mode = mode }) self.old.seat self.new.seat) }
    {
        self.lock
            .table
            .try_acquire_uncounted(&mut self.seat, range, mode)
    }

    /// Tries at most so many times for the range, and tells how many tries it made. Between one try and the next it
    /// waits as `acquire` of `range_rw` does, but without yielding the processor, which a static library can't. The
    /// seat holds nothing.
    fn try_up_to(&mut self, range: Range, mode: Mode, tries: u32) -> (Answer, u32)
        requires free { self.old.seat.held ≡ None }
        ensures kept { IsTrial self.old self.new }
        ensures answer { IsTrialAnswer (record { range = range; mode = mode }) tries result.1 self.old self.new result.0 }
    {
        let mut answer = Answer::NotTried;
        let mut made = 0;
        let mut backoff = Backoff::new();
        'tries: while made < tries {
            made += 1;
            match self.try_once(range, mode) {
                Ok(()) => return (Answer::Done, made),
                Err(why) => {
                    pause_after(&why, tries - made, &mut backoff);
                    answer = Answer::Refused(why);
                }
            }
        }
        (answer, made)
    }

    /// Tries for the range that C asks for, and tells how many tries it made.
    pub(crate) fn try_asked(&mut self, asked: Asked) -> (Answer, u32)
        ensures tried { IsTried asked.lo asked.hi asked.writer asked.tries result.0 self.old self.new }
        ensures made { IsTriedIn asked.lo asked.hi asked.writer asked.tries result.1 result.0 self.old self.new }
    {
        if self.lock.table.held(&self.seat).is_some() {
            return (Answer::HasOne, 0);
        }
        let Ok(range) = Range::of(asked.lo, asked.hi) else {
            return (Answer::BadRange, 0);
        };
        self.try_up_to(range, mode_of(asked.writer), asked.tries)
    }

    /// Gives the held range back.
    pub(crate) fn release(&mut self) -> Answer
        ensures released { IsReleased result self.old self.new }
        ensures free { self.new.seat.held ≡ None }
    {
        if self.lock.table.held(&self.seat).is_none() {
            return Answer::HasNone;
        }
        self.lock.table.release_uncounted(&mut self.seat);
        Answer::Done
    }

    /// What the seat holds, with its number, as C is shown it.
    pub(crate) fn look(&self) -> (Answer, GzBusy)
        ensures looked { IsLooked result.1 result.0 self.now self.now }
    {
        let owner = self.number;
        match self.lock.table.held(&self.seat) {
            Some((range, mode)) => {
                let shown = GzBusy {
                    lo: range.lo(),
                    hi: range.hi(),
                    owner,
                    writer: mode == Mode::Writer,
                };
                (Answer::Done, shown)
            }
            None => (Answer::HasNone, GzBusy { owner, ..NOTHING }),
        }
    }

    /// Shows the ranges that a scan of the table's lists went past, and says how many. The seat holds nothing, or it is
    /// told.
    pub(crate) fn scan(&mut self, ranges: &mut [GzBusy]) -> (Answer, usize)
        ensures scanned { IsScanned ranges.old ranges.new result.1 result.0 self.old self.new }
    {
        if self.lock.table.held(&self.seat).is_some() {
            return (Answer::HasOne, 0);
        }
        let (last, found) = show_all(&self.lock.table, &mut self.seat, ranges);
        (Answer::Ended(last), found)
    }

    /// Makes a step on client word `i`, counted from 0, and returns what a load, an addition or an exchange found.
    /// Where none found a value, that is `told`.
    pub(crate) fn step(&mut self, i: u32, step: WordStep, told: u64) -> (Answer, u64)
        ensures stepped { IsStepped i step told result.1 result.0 self.old self.new }
    {
        if i >= self.words {
            return (Answer::NoWord, told);
        }
        match step {
            WordStep::Load => (
                Answer::Done,
                self.lock
                    .table
                    .load_as_uncounted::<Recording>(&mut self.seat, i),
            ),
            WordStep::Store(value) => {
                self.lock
                    .table
                    .store_as_uncounted::<Recording>(&mut self.seat, i, value);
                (Answer::Done, told)
            }
            WordStep::Add(by) => (
                Answer::Done,
                self.lock
                    .table
                    .add_as_uncounted::<Recording>(&mut self.seat, i, by),
            ),
            WordStep::Exchange { expected, new } => {
                match self
                    .lock
                    .table
                    .exchange_as_uncounted::<Recording>(&mut self.seat, i, expected, new)
                {
                    Ok(()) => (Answer::Done, expected),
                    Err(found) => (Answer::Other, found),
                }
            }
        }
    }
}
