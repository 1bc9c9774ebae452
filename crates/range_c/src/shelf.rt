//! The seats that closed handles gave back, each at the place of its number, from which a share takes them. A place is
//! a `Counted` of the kit: a compare-exchange takes it, so no call here waits for another thread. A reader may rely on
//! each seat that is taken being of the table that the shelf was made for, holding nothing, and having its number.
ghost use Rattle.std.specs.Prelude.{◌≡◌, IfOk, IfSome};
ghost use Rattle.std.specs.List.{All};
ghost use Rattle.range_c.specs.Behind.{FitsPlace, IsFromPlace};

use crate::recording::Recording;
use counted_slot::{Counted, FREE, Fits, PRESENT, TAKEN};
use range_rw::Seat;
use std::alloc::{AllocError, Global};

/// A seat that no handle has, with its number.
#[derive(Drop)]
pub(crate) struct Rest {
    pub(crate) seat: Seat<Recording>,
    pub(crate) number: u32,
}

/// What fits a place is said by the seat that the place was made by: the one of the highest number.
impl Fits for Rest {
    ghost use Rattle.range_c.specs.Behind.{FitsPlace};

    type Tag = Seat<Recording>;

    ghost fits = { λ place rest. FitsPlace place rest.seat rest.number };
}

/// A place for each seat of a table.
#[derive(Drop)]
pub(crate) struct Shelf {
    pub(crate) places: Vec<Counted<Option<Rest>>>,
}

/// Takes the seat that is at a place, if there is one.
fn take_from(place: &Counted<Option<Rest>>) -> Option<Rest>
    ensures fits { IfSome result (λ rest. FitsPlace place.now rest.seat rest.number) }
{
    let (found, claim) = place.turn(PRESENT, TAKEN);
    if found != PRESENT {
        claim.done();
        return None;
    }
    claim.put(None, FREE)
}

/// Puts a seat at a place. The place is free, since whoever took the seat from there left it so.
fn put_at(place: &Counted<Option<Rest>>, rest: Rest)
    requires fits { FitsPlace place.now rest.seat rest.number }
{
    let (found, claim) = place.turn(FREE, TAKEN);
    if found != FREE {
        claim.done();
        return;
    }
    claim.put(Some(rest), PRESENT);
}

impl Shelf {
    /// A shelf with a place for each of so many seats of a table, by the seat of the highest number. No seat is there.
    pub(crate) fn of(
        alloc: Global,
        seats: u32,
        highest: &Seat<Recording>,
    ) -> Result<Shelf, AllocError>
        ensures { IfOk result (λ s. All (λ p. p ≡ highest.now) s.places.items) }
    {
        let mut places = Vec::with_capacity(alloc, seats as usize)?;
        for _ in 0..seats {
            places.push(Counted::new(None, highest))?;
        }
        Ok(Shelf { places })
    }

    /// Takes a seat that was given back: of those that it finds, the one of the highest number.
    pub(crate) fn take(&self) -> Option<Rest>
        ensures from { IfSome result (λ rest. IsFromPlace self.now.places.items rest.seat rest.number) }
    {
        let mut left = self.places.len();
        'places: while left > 0 {
            left -= 1;
            if let Some(place) = self.places.get(left) {
                if let Some(rest) = take_from(place) {
                    return Some(rest);
                }
            }
        }
        None
    }

    /// Puts a seat at its place.
    pub(crate) fn put(&self, rest: Rest)
        requires fits { All (λ p. FitsPlace p rest.seat rest.number) self.now.places.items }
    {
        if let Some(place) = self.places.get(rest.number as usize) {
            put_at(place, rest);
        }
    }
}
