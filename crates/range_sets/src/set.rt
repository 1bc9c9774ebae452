//! Four seats of one table, as one value that holds up to four ranges. What each seat holds is kept beside it, since a
//! seat by itself doesn't tell it. A reader may rely on the seats being of one table, and on `held_of` telling exactly
//! what the seat of a place holds.
use crate::wants::Want;
use lock_core::Guard;
use range_rw::Seat;
use std::marker::Model;

/// A seat of a set, and the want that it holds.
#[derive(Drop)]
pub(crate) struct Place<G: Guard> {
    pub(crate) seat: Seat<G>,
    pub(crate) want: Option<Want>,
}

impl<G: Guard> Model for Place<G> {
    ghost use Rattle.std.specs.Prelude.{◌≡◌};
    ghost use Rattle.std.specs.Option.{option_map};
    ghost use Rattle.range_rw.specs.Contract.{SeatState};
    ghost use Rattle.range_sets.specs.Wants.{want_held};

    ghost Value = { SeatState G.Pass };

    ghost view = { λ p. p.seat };

    ghost invariant = { λ p. p.seat.held ≡ option_map want_held p.want };
}

/// Four seats of one table, at the places 0 to 3. Contracts see the table and the seats, in order. One that is dropped
/// keeps what its seats hold for good, as a dropped seat does.
#[derive(Drop)]
pub struct SetSeat<G: Guard> {
    pub(crate) a: Place<G>,
    pub(crate) b: Place<G>,
    pub(crate) c: Place<G>,
    pub(crate) d: Place<G>,
}

impl<G: Guard> Model for SetSeat<G> {
    ghost use Rattle.std.specs.Prelude.{◌≡◌, ◌∷◌, []};
    ghost use Rattle.range_sets.specs.Sets.{SetView};

    ghost Value = { SetView G.Pass };

    ghost view = { λ s. record { table = s.a.table; seats = s.a ∷ s.b ∷ s.c ∷ s.d ∷ [] } };

    ghost invariant = { λ s. (s.b.table ≡ s.a.table) × (s.c.table ≡ s.a.table) × (s.d.table ≡ s.a.table) };
}

impl<G: Guard> SetSeat<G> {
    ghost use Rattle.std.specs.Prelude.{◌≡◌, ◌<◌, ◌∷◌, [], None};
    ghost use Rattle.std.specs.Option.{option_map};
    ghost use Rattle.range_sets.specs.Wants.{want_held};
    ghost use Rattle.range_sets.specs.Sets.{AllFree, held_in};

    /// A set of these seats, in this order. They are of one table, whatever their numbers are in it, and hold nothing.
    pub fn new(a: Seat<G>, b: Seat<G>, c: Seat<G>, d: Seat<G>) -> SetSeat<G>
        requires table { (b.table ≡ a.table) × (c.table ≡ a.table) × (d.table ≡ a.table) }
        requires free { AllFree (a ∷ b ∷ c ∷ d ∷ []) }
        ensures made { result ≡ record { table = a.table; seats = a ∷ b ∷ c ∷ d ∷ [] } }
        ensures free { AllFree result.seats }
    {
        SetSeat {
            a: Place {
                seat: a,
                want: None,
            },
            b: Place {
                seat: b,
                want: None,
            },
            c: Place {
                seat: c,
                want: None,
            },
            d: Place {
                seat: d,
                want: None,
            },
        }
    }

    /// The four seats, in order. The set holds nothing.
    pub fn into_seats(self) -> (Seat<G>, Seat<G>, Seat<G>, Seat<G>)
        requires { AllFree self.seats }
        ensures { result.0 ∷ result.1 ∷ result.2 ∷ result.3 ∷ [] ≡ self.seats }
    {
        let SetSeat { a, b, c, d } = self;
        let (Place { seat: a, .. }, Place { seat: b, .. }) = (a, b);
        let (Place { seat: c, .. }, Place { seat: d, .. }) = (c, d);
        (a, b, c, d)
    }

    /// What the seat of that place, counted from 0 and below 4, holds for the set; None where it holds nothing.
    pub fn held_of(&self, i: u32) -> Option<Want>
        requires { i < 4 }
        ensures { option_map want_held result ≡ held_in self.now.seats i }
    {
        match i {
            0 => self.a.want,
            1 => self.b.want,
            2 => self.c.want,
            _ => self.d.want,
        }
    }
}
