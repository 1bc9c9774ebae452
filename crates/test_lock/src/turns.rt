//! Turns that threads take at the turnstile: each turn waits for its range, visits or looks, and gives the range back.
//! A number of turns ends by itself, and leaves its seat as it was but for its record and the log of its pass.
ghost use Rattle.std.specs.Prelude.{◌≡◌, ◌*◌, ◌<◌, false, None};
ghost use Rattle.range_rw.specs.Contract.{IsGivenBack};
ghost use Rattle.test_lock.specs.Turns.{HasMade, HasVisited};
ghost use Rattle.test_lock.specs.Turnstile.{HasDoorIn};

use crate::turnstile::Turnstile;
use crate::visits::{enter, leave, look};
use lock_core::{Mode, Range};
use range_rw::{RangeTable, Seat};
use std::sync::Wait;

/// What a writer comes for at each of its turns.
const ERRAND: u64 = 1;

/// One visit of a writer or one look of a reader, under a range with the door in it. It returns how many writers were
/// inside: none.
fn visit_once<R: Wait>(
    wait: &R,
    table: &RangeTable<Turnstile>,
    seat: &mut Seat<Turnstile>,
    range: Range,
    mode: Mode,
) -> u64
    requires table { seat.old.table ≡ table.now.table }
    requires word { 0 < table.now.client }
    requires free { (seat.old.held ≡ None) × (seat.old.pass.inside ≡ false) }
    requires door { HasDoorIn range }
    ensures back { IsGivenBack seat.old seat.new }
    ensures made { HasMade 2 seat.old seat.new }
    ensures outside { seat.new.pass.inside ≡ false }
    ensures visited { HasVisited mode 1 seat.old seat.new }
    ensures none { result ≡ 0 }
{
    table.acquire(wait, seat, range, mode);
    let inside = match mode {
        Mode::Writer => {
            let inside = enter(table, seat, ERRAND);
            leave(table, seat);
            inside
        }
        Mode::Reader => look(table, seat),
    };
    table.release_uncounted(seat);
    inside
}

/// So many visits of a writer, each logged, or so many looks of a reader, each of two steps at least. It returns the
/// most writers that were inside at one: none.
pub fn visit_turns<R: Wait>(
    wait: &R,
    table: &RangeTable<Turnstile>,
    seat: &mut Seat<Turnstile>,
    range: Range,
    mode: Mode,
    turns: u32,
) -> u64
    requires table { seat.old.table ≡ table.now.table }
    requires word { 0 < table.now.client }
    requires free { (seat.old.held ≡ None) × (seat.old.pass.inside ≡ false) }
    requires door { HasDoorIn range }
    ensures back { IsGivenBack seat.old seat.new }
    ensures made { HasMade (2 * turns) seat.old seat.new }
    ensures outside { seat.new.pass.inside ≡ false }
    ensures visited { HasVisited mode turns seat.old seat.new }
    ensures none { result ≡ 0 }
{
    let mut most = 0;
    for _ in 0..turns {
        most = visit_once(wait, table, seat, range, mode).max(most);
    }
    most
}
