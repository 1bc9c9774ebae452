//! Opening a table of words: it is made with one seat, from which the seats of the other numbers are cut off in
//! order. A reader may rely on the seats coming in order of their numbers, each of the one table and with its own
//! starting view.
ghost use Rattle.std.specs.Prelude.{◌≡◌, ℕ, ◌+◌, ◌<◌, ◌≤◌, List, [], ◌∷◌, length, IfOk};
ghost use Rattle.atomic_table.specs.Table.{opening};
ghost use Rattle.word_rows.specs.Rows.{IsSeated};

use crate::rule::{Start, StartRule};
use atomic_table::{Seat, Shared, Split, Table};
use std::alloc::{AllocError, Global};
use std::marker::{Brand, PhantomData};

/// Which seat is cut off, and from what table. Each call picks it.
pub trait Turn {
    ghost seats: { ℕ };

    ghost words: { List ℕ };

    ghost shares: { List ℕ };

    ghost number: { ℕ };
}

impl Turn for Brand {
    ghost seats = { 0 };

    ghost words = { [] };

    ghost shares = { [] };

    ghost number = { 0 };
}

/// The seat of one number keeps its own view, and a new seat gets what is left.
struct Cut<R, N> {
    of: PhantomData<(R, N)>,
}

impl<R: StartRule, N: Turn> Split<R::View> for Cut<R, N> {
    ghost left = { λ _. R.one N.seats N.words N.shares N.number };

    ghost right = { λ _. R.rest N.seats N.words N.shares (N.number + 1) };
}

/// Leaves the seat the view of `number` and gives a new seat with what is left for the numbers above.
fn cut_off<R: StartRule, N: Turn>(
    shared: &Shared<(), R::View, Start, R>,
    seat: &mut Seat<(), R::View>,
    start: &Start,
    number: u32,
) -> Seat<(), R::View>
    requires key { shared.now.key ≡ start.now }
    requires turn { (N.seats ≡ start.now.seats) × (N.words ≡ start.now.words.items) × (N.shares ≡ start.now.shares.items) × (N.number ≡ number) }
    requires table { (seat.old.table_id ≡ shared.now.table_id) × (0 < shared.now.table_id.words) }
    requires number { number + 1 < start.now.seats }
    requires view { seat.old.me ≡ (R.rest start.now.seats start.now.words.items start.now.shares.items number, []) }
    ensures old { (seat.new.table_id ≡ seat.old.table_id) × (seat.new.me ≡ (R.one start.now.seats start.now.words.items start.now.shares.items number, [])) }
    ensures new { (result.table_id ≡ seat.old.table_id) × (result.me ≡ (R.rest start.now.seats start.now.words.items start.now.shares.items (number + 1), [])) }
{
    shared.split_seat::<Cut<R, N>>(seat)
}

/// One table over these words, and one seat for each number from 0 to `seats - 1`, in order.
/// From 1 to 16 seats and at least one word; the rule must hold of the words with `rest` of 0 as the only view.
/// The one refusal is that there is no memory.
pub fn open_words<R: StartRule>(
    alloc: Global,
    seats: u32,
    words: &[u64],
    shares: &[u32],
) -> Result<(Table<(), R::View, Start, R, Global>, Vec<Seat<(), R::View>>), AllocError>
    requires seats { (0 < seats) × (seats ≤ 16) }
    requires words { 0 < length words.now }
    requires rule { (k : Start) → k.seats ≡ seats → k.words.items ≡ words.now → k.shares.items ≡ shares.now
        → R.holds k (opening words.now [] (R.rest seats words.now shares.now 0)) }
    ensures counts { IfOk result (λ r. (length r.1.items ≡ seats) × (r.0.shared.table_id.words ≡ length words.now) × (r.0.shared.table_id.slots ≡ 0)) }
    ensures key { IfOk result (λ r. (r.0.shared.key.seats ≡ seats) × (r.0.shared.key.words.items ≡ words.now) × (r.0.shared.key.shares.items ≡ shares.now)) }
    ensures seated { IfOk result (λ r. IsSeated r.0.shared.table_id (R.one seats words.now shares.now) r.1.items) }
{
    let mut own_words = Vec::new(alloc);
    own_words.extend_from_slice(words)?;
    let mut own_shares = Vec::new(alloc);
    own_shares.extend_from_slice(shares)?;
    let start = Start {
        seats,
        words: own_words,
        shares: own_shares,
    };
    let mut made = Vec::with_capacity(alloc, seats as usize)?;
    let (table, mut seat) = Table::of_words(alloc, start.words.as_slice(), &start)?;
    let mut number = 0;
    'numbers: while number + 1 < seats {
        let next = cut_off::<R, Brand>(&table.shared, &mut seat, &start, number);
        made.push_reserved(seat);
        seat = next;
        number += 1;
    }
    made.push_reserved(seat);
    Ok((table, made))
}
