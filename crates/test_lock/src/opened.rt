//! Tables for the trials: one whose word counts what is brought in, and one with nobody inside its turnstile, of one
//! list or of several. A reader may rely on the seats being in order, each holding nothing, as the closing takes them.
ghost use Rattle.std.specs.Prelude.{◌≡◌, [], ◌∷◌, length, IfOk, IfErr};
ghost use Rattle.range_rw.specs.Contract.{AreIdleSeats, AreNewSeats, IsOpenFault};
ghost use Rattle.test_lock.specs.Tally.{first_share};
ghost use Rattle.test_lock.specs.Turns.{IsOutside};

use crate::tally::Tally;
use crate::turnstile::Turnstile;
use list_cuts::Cut;
use range_rw::{OpenFault, RangeTable, Seat};
use std::alloc::Global;

/// A table of so many seats that counts on from this word: the first seat has brought it in.
pub fn open_tally(
    alloc: Global,
    seats: u32,
    word: u64,
) -> Result<(RangeTable<Tally>, Vec<Seat<Tally>>), OpenFault>
    ensures refused { IfErr result (IsOpenFault seats) }
    ensures shape { IfOk result (λ r. (r.0.seats ≡ seats) × (r.0.client ≡ 1) × (length r.1.items ≡ seats)) }
    ensures new { IfOk result (λ r. AreNewSeats r.0.table (first_share (word ∷ [])) r.1.items) }
    ensures idle { IfOk result (λ r. AreIdleSeats r.0.table r.1.items) }
{
    RangeTable::open(alloc, seats, &[word])
}

/// A table of so many seats with nobody inside, and with a list for each region of the cut.
pub fn open_turnstile(
    alloc: Global,
    seats: u32,
    cut: Cut,
) -> Result<(RangeTable<Turnstile>, Vec<Seat<Turnstile>>), OpenFault>
    ensures refused { IfErr result (IsOpenFault seats) }
    ensures shape { IfOk result (λ r. (r.0.seats ≡ seats) × (r.0.client ≡ 1) × (length r.1.items ≡ seats)) }
    ensures idle { IfOk result (λ r. AreIdleSeats r.0.table r.1.items × IsOutside r.1.items) }
{
    RangeTable::open_cut(alloc, seats, cut, &[0])
}
