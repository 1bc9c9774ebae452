//! Visits under the turnstile: a writer takes a range with the door in it, goes in, goes out and gives the range
//! back, and a reader looks at the count meanwhile. Each call is one guarded step; that the count is 0 before a
//! writer goes in, and for a reader that looks, is proved from the guard's rule over every interleaving.
ghost use Rattle.std.specs.Prelude.{◌≡◌, ◌+◌, ◌<◌, false, true};
ghost use Rattle.test_lock.specs.Turnstile.{IsIn, IsWriterIn, pass_inside, pass_outside};
ghost use Rattle.range_rw.specs.Contract.{IsClientCall};

use crate::turnstile::Turnstile;
use lock_core::Means;
use range_rw::{RangeTable, Seat};
use std::marker::{Brand, PhantomData};

/// What a writer comes for. Each call picks it.
pub trait Noted {
    ghost use Rattle.std.specs.Prelude.{ℕ};

    ghost noted: { ℕ };
}

impl Noted for Brand {
    ghost noted = { 0 };
}

/// Means by a step what its call picked.
pub(crate) struct By<N> {
    of: PhantomData<N>,
}

impl<N: Noted> Means<Turnstile> for By<N> {
    ghost note = { N.noted };
}

fn enter_for<N: Noted>(
    table: &RangeTable<Turnstile>,
    seat: &mut Seat<Turnstile>,
    errand: u64,
) -> u64
    requires noted { N.noted ≡ errand }
    requires table { seat.old.table ≡ table.now.table }
    requires word { 0 < table.now.client }
    requires held { IsWriterIn seat.old.held }
    requires outside { seat.old.pass.inside ≡ false }
    ensures call { IsClientCall seat.old 0 seat.new }
    ensures empty { result ≡ 0 }
    ensures pass { seat.new.pass ≡ pass_inside seat.old.pass errand }
{
    table.add_as_uncounted::<By<N>>(seat, 0, 1)
}

/// Goes in for an errand, under a range with the door in it that the seat holds as a writer, and returns how many
/// writers were inside: none.
pub fn enter(table: &RangeTable<Turnstile>, seat: &mut Seat<Turnstile>, errand: u64) -> u64
    requires table { seat.old.table ≡ table.now.table }
    requires word { 0 < table.now.client }
    requires held { IsWriterIn seat.old.held }
    requires outside { seat.old.pass.inside ≡ false }
    ensures call { IsClientCall seat.old 0 seat.new }
    ensures empty { result ≡ 0 }
    ensures pass { seat.new.pass ≡ pass_inside seat.old.pass errand }
{
    enter_for::<Brand>(table, seat, errand)
}

/// Goes out, and returns how many writers were inside: this one alone.
pub fn leave(table: &RangeTable<Turnstile>, seat: &mut Seat<Turnstile>) -> u64
    requires table { seat.old.table ≡ table.now.table }
    requires word { 0 < table.now.client }
    requires held { IsWriterIn seat.old.held }
    requires inside { seat.old.pass.inside ≡ true }
    ensures call { IsClientCall seat.old 0 seat.new }
    ensures one { result ≡ 1 }
    ensures pass { seat.new.pass ≡ pass_outside seat.old.pass }
{
    table.add_as_uncounted::<By<Brand>>(seat, 0, u64::MAX)
}

/// Looks how many writers are inside, under a range with the door in it: none.
pub fn look(table: &RangeTable<Turnstile>, seat: &mut Seat<Turnstile>) -> u64
    requires table { seat.old.table ≡ table.now.table }
    requires word { 0 < table.now.client }
    requires held { IsIn seat.old.held }
    requires outside { seat.old.pass.inside ≡ false }
    ensures call { IsClientCall seat.old 0 seat.new }
    ensures empty { result ≡ 0 }
    ensures pass { seat.new.pass ≡ seat.old.pass }
{
    table.load_as_uncounted::<By<Brand>>(seat, 0)
}
