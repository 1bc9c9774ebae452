//! Opening a table behind its first handle, taking seats out of it for more handles, and giving them back. Opening and
//! sharing are the only calls that take memory. A reader may rely on each refusal naming its cause, and on nothing
//! having changed after it.
ghost use Rattle.std.specs.Prelude.{◌≡◌, ◌+◌, ◌<◌, ◌≤◌, ◌^◌, IfOk, IfErr, length};
ghost use Rattle.std.specs.List.{All};
ghost use Rattle.list_cuts.specs.Cut.{IsCut, list_count};
ghost use Rattle.range_rw.specs.Contract.{AreNewSeatsIn};
ghost use Rattle.c_handles.specs.Asked.{cut_into};
ghost use Rattle.range_c.specs.Behind.{IsNewBehind, IsNewBehindIn, IsNotOpened, IsNotCut, IsPlaceOf};
ghost use Rattle.range_c.specs.Behind.{IsShared, IsNotShared, IsSeatFor, IsSpareShared, IsFreeShared};
ghost use Rattle.range_c.specs.Recording.{begun};

use crate::answers::Answer;
use crate::recording::Recording;
use crate::shelf::{Rest, Shelf};
use crate::state::{Lock, State};
use list_cuts::Cut;
use range_rw::{OpenFault, RangeTable, Seat};
use std::alloc::{AllocFailed, Global};
use std::sync::Arc;

/// The most client words that a table has, 2^20.
const MOST_WORDS: usize = 1048576;

/// A new table of so many seats over these client words, with the lists of a cut, the seat of the highest number, and
/// the others to share.
fn open_lists(
    alloc: Global,
    seats: u32,
    cut: Cut,
    client: &[u64],
) -> Result<Box<State, Global>, Answer>
    ensures opened { IfOk result (λ b. IsNewBehindIn cut seats client.now b.value) }
    ensures refused { IfErr result (IsNotOpened seats (length client.now)) }
{
    if client.len() > MOST_WORDS {
        return Err(Answer::Words);
    }
    let (table, mut spare) = match RangeTable::open_cut(alloc, seats, cut, client) {
        Ok(opened) => opened,
        Err(OpenFault::Seats(_)) => return Err(Answer::Seats),
        Err(OpenFault::Memory) => return Err(Answer::Memory),
    };
    let Some(seat) = spare.pop() else {
        unreachable!()
    };
    let Ok(shelf) = Shelf::of(alloc, seats, &seat) else {
        return Err(Answer::Memory);
    };
    let Ok(lock) = Arc::new(alloc, Lock { table, shelf }) else {
        return Err(Answer::Memory);
    };
    let words = client.len() as u32;
    let state = State {
        lock,
        seat,
        number: seats - 1,
        spare,
        words,
    };
    match Box::new(alloc, state) {
        Ok(b) => Ok(b),
        Err(_) => Err(Answer::Memory),
    }
}

/// The same with one list.
pub(crate) fn open_table(
    alloc: Global,
    seats: u32,
    client: &[u64],
) -> Result<Box<State, Global>, Answer>
    ensures opened { IfOk result (λ b. IsNewBehind seats client.now b.value) }
    ensures refused { IfErr result (IsNotOpened seats (length client.now)) }
{
    open_lists(alloc, seats, Cut::one(), client)
}

/// The same with the lists of a cut into so many regions, in blocks of 2^bits numbers.
pub(crate) fn open_regions(
    alloc: Global,
    seats: u32,
    regions: u32,
    bits: u32,
    client: &[u64],
) -> Result<Box<State, Global>, Answer>
    ensures opened { IfOk result (λ b. IsCut regions bits × IsNewBehindIn (cut_into regions bits) seats client.now b.value) }
    ensures refused { IfErr result (IsNotCut regions bits seats (length client.now)) }
{
    match Cut::of(regions, bits) {
        Ok(cut) => open_lists(alloc, seats, cut, client),
        Err(_) => Err(Answer::BadCut),
    }
}

impl State {
    /// What is behind a handle with this seat of the same table, which has none to share. Where there is no memory the
    /// seat comes back.
    fn beside(&self, alloc: Global, rest: Rest) -> Result<Box<State, Global>, Rest>
        requires seat { IsSeatFor self.now rest.seat rest.number }
        ensures made { IfOk result (λ b. b.value ≡ record self.now { seat = rest.seat; spare = 0 }) }
        ensures back { IfErr result (λ r. (r.seat ≡ rest.seat) × (r.number ≡ rest.number)) }
    {
        let Ok(lock) = Arc::try_clone(&self.lock) else {
            return Err(rest);
        };
        let Rest { seat, number } = rest;
        let state = State {
            lock,
            seat,
            number,
            spare: Vec::new(alloc),
            words: self.words,
        };
        match Box::new(alloc, state) {
            Ok(b) => Ok(b),
            Err(failed) => {
                let AllocFailed { value } = failed;
                let State { seat, number, .. } = value;
                Err(Rest { seat, number })
            }
        }
    }

    /// The last of the seats that are left.
    fn share_spare(&mut self, alloc: Global) -> Result<Box<State, Global>, Answer>
        requires left { 0 < self.old.spare }
        ensures shared { IfOk result (λ b. IsSpareShared self.old self.new b.value) }
        ensures refused { IfErr result (λ why. IsNotShared why self.old self.new) }
    {
        let Some(seat) = self.spare.pop() else {
            unreachable!()
        };
        let number = self.spare.len() as u32;
        match self.beside(alloc, Rest { seat, number }) {
            Ok(b) => Ok(b),
            Err(rest) => {
                let Rest { seat, .. } = rest;
                self.spare.push_reserved(seat);
                Err(Answer::Memory)
            }
        }
    }

    /// A seat that a closed handle gave back.
    fn share_free(&self, alloc: Global) -> Result<Box<State, Global>, Answer>
        requires spent { self.now.spare ≡ 0 }
        ensures shared { IfOk result (λ b. IsFreeShared self.now b.value) }
        ensures refused { IfErr result (λ why. IsNotShared why self.now self.now) }
    {
        let Some(rest) = self.lock.shelf.take() else {
            return Err(Answer::NoneLeft);
        };
        match self.beside(alloc, rest) {
            Ok(b) => Ok(b),
            Err(rest) => {
                self.lock.shelf.put(rest);
                Err(Answer::Memory)
            }
        }
    }

    /// The last of the seats that are left, or where none is, one that a closed handle gave back; with an owner of the
    /// table of its own.
    pub(crate) fn share(&mut self, alloc: Global) -> Result<Box<State, Global>, Answer>
        ensures shared { IfOk result (λ b. IsShared self.old self.new b.value) }
        ensures refused { IfErr result (λ why. IsNotShared why self.old self.new) }
    {
        if self.spare.is_empty() {
            self.share_free(alloc)
        } else {
            self.share_spare(alloc)
        }
    }
}

/// Gives back the seats that were left to share, which are new ones of the table of a seat. They are no more than that
/// one's number.
fn put_spare(lock: &Lock, seat: &Seat<Recording>, number: u32, mut spare: Vec<Seat<Recording>>)
    requires table { seat.now.table ≡ lock.now.table.table }
    requires new { AreNewSeatsIn (list_count lock.now.table.cut) lock.now.table.table (begun seat.now.pass.opened) spare.items }
    requires count { (length spare.items ≤ number) × (number < lock.now.table.seats) }
    requires places { All (IsPlaceOf lock.now.table.table lock.now.table.seats seat.now.pass.opened) lock.now.shelf.places.items }
{
    let _ = seat;
    'spare: while let Some(seat) = spare.pop() {
        let number = spare.len() as u32;
        lock.shelf.put(Rest { seat, number });
    }
}

/// Gives back what the seat holds, then the seats that were left to share, and the seat. The last owner's end frees the
/// table.
pub(crate) fn end(b: Box<State, Global>) {
    let mut state = Box::into_inner(b);
    state.release();
    let State {
        lock,
        seat,
        number,
        spare,
        ..
    } = state;
    let shared: &Lock = &lock;
    put_spare(shared, &seat, number, spare);
    shared.shelf.put(Rest { seat, number });
}
