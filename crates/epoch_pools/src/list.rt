//! A table of list locks, and how it is opened with a hand for each number. Its lists have slices of one length of the
//! table's words, in order, and the client words follow them. Between opening and closing, hands may go to other
//! threads, and the table is shared by reference. A reader may rely on a new hand having its own sixteen nodes ready in
//! each list, and on no call but `open`, `open_cut` and `close` taking memory: a hand's lists have their room from here
//! on.
ghost use Rattle.std.specs.Prelude.{◌≡◌, ◌+◌, ◌*◌, ◌<◌, ◌≤◌, ◌^◌, ℕ, List, ◌++◌, IfOk, None, length, map, replicate};
ghost use Rattle.list_cuts.specs.Cut.{Regions, list_count};
ghost use Rattle.lock_core.specs.Machine.{numbers_from, start_view};
ghost use Rattle.lock_core.specs.Words.{word_count};
ghost use Rattle.epoch_pools.specs.Hands.{first_passes, views_in, IsSeatCount, AreNewHands};

use crate::hand::Hand;
use crate::others::first_others;
use crate::rule::ListRule;
use crate::token::Token;
use crate::views::ListView;
use atomic_table::Table;
use list_cuts::Cut;
use lock_core::{Guard, Layout, View, first_view};
use std::alloc::{AllocError, Global};
use std::marker::Model;
use word_rows::{Start, open_words};

/// The words of one list lock or several for up to 16 seats, and client words under the rule of a guard.
#[derive(Drop)]
pub struct List<G: Guard> {
    pub(crate) table: Table<(), ListView<G::Pass>, Start, ListRule<G>, Global>,
    pub(crate) seats: u32,
    pub(crate) client: u32,
    pub(crate) cut: Cut,
    /// The place of the first client word, behind the words of all lists.
    pub(crate) client_start: u32,
}

impl<G: Guard> Model for List<G> {
    ghost use Rattle.std.specs.Prelude.{length};
    ghost use Rattle.epoch_pools.specs.Hands.{ListShape, IsTable};

    ghost Value = { ListShape };

    ghost view = { λ t. record { table = t.table.shared.table_id; seats = t.seats; client = t.client; cut = t.cut } };

    ghost invariant = { λ t. IsTable t.table.shared.key.shares.items t.table.shared.key.seats (length t.table.shared.key.words.items)
        t.table.shared.table_id.words t.table.shared.table_id.slots t.cut t.seats t.client t.client_start };
}

impl<G: Guard> List<G> {
    ghost use Rattle.std.specs.Prelude.{◌≡◌};

    /// How the numbers are cut for the table's lists.
    #[inline(always)]
    pub fn cut(&self) -> Cut
        ensures { result ≡ self.now.cut }
    {
        self.cut
    }
}

/// How many words one list has.
pub(crate) fn lock_word_count(seats: u32) -> u32
    requires some { 0 < seats }
    requires few { seats ≤ 16 }
    ensures { result ≡ word_count seats }
{
    Layout::of(seats, 0).words()
}

/// How many words so many lists have.
fn list_words(lists: u32, seats: u32) -> u32
    requires seats { IsSeatCount seats }
    requires lists { lists ≤ 17 }
    ensures words { result ≡ lists * word_count seats }
    ensures few { result ≤ 17697 }
{
    lists * lock_word_count(seats)
}

/// The words of a new table: so many of the lists, all 0, and then the client words.
fn opening_words(alloc: Global, zeros: u32, client: &[u64]) -> Result<Vec<u64>, AllocError>
    ensures { IfOk result (λ words. words.items ≡ replicate zeros 0 ++ client.now) }
{
    let mut words = Vec::new(alloc);
    words.resize(zeros as usize, 0)?;
    words.extend_from_slice(client)?;
    Ok(words)
}

/// The first view of every seat, each in a box, in order.
fn first_views(alloc: Global, seats: u32) -> Result<Vec<Box<View>>, AllocError>
    requires { seats ≤ 16 }
    ensures { IfOk result (λ views. views_in views.items ≡ map (start_view seats) (numbers_from 0 seats)) }
{
    let mut views = Vec::with_capacity(alloc, seats as usize)?;
    for seat in 0..seats {
        views.push(Box::new(alloc, first_view(alloc, seats, seat)?)?)?;
    }
    Ok(views)
}

/// A table of one list and of that many seats, from 1 to 16, over these client words, and its hands in order of their
/// numbers, from 0 on. At most 2^20 client words, which meet the guard with no grant and the passes of all seats at the
/// opening. The table has the lock's words and these.
/// The one refusal is that there is no memory.
pub fn open<G: Guard>(
    alloc: Global,
    seats: u32,
    client: &[u64],
) -> Result<(List<G>, Vec<Hand<G>>), AllocError>
    requires seats { IsSeatCount seats }
    requires clients { length client.now ≤ 2 ^ 20 }
    requires rule { G.holds (replicate seats None) client.now (first_passes (G.first client.now) 0 seats) }
    ensures shape { IfOk result (λ r. (r.0.seats ≡ seats) × (r.0.client ≡ length client.now)) }
    ensures one { IfOk result (λ r. r.0.cut ≡ record { count = 1; bits = 62 }) }
    ensures words { IfOk result (λ r. r.0.table.words ≡ word_count seats + length client.now) }
    ensures hands { IfOk result (λ r. (length r.1.items ≡ seats) × AreNewHands r.0.table (G.first client.now) 1 seats r.1.items) }
{
    open_cut(alloc, seats, Cut::one(), client)
}

/// A table of the lists of that cut, and otherwise as `open`. The hands are turned to list 0. The table has the words
/// of all its lists and the client's.
pub fn open_cut<G: Guard>(
    alloc: Global,
    seats: u32,
    cut: Cut,
    client: &[u64],
) -> Result<(List<G>, Vec<Hand<G>>), AllocError>
    requires seats { IsSeatCount seats }
    requires clients { length client.now ≤ 2 ^ 20 }
    requires rule { G.holds (replicate seats None) client.now (first_passes (G.first client.now) 0 seats) }
    ensures shape { IfOk result (λ r. (r.0.seats ≡ seats) × (r.0.client ≡ length client.now) × (r.0.cut ≡ cut)) }
    ensures words { IfOk result (λ r. r.0.table.words ≡ list_count cut * word_count seats + length client.now) }
    ensures hands { IfOk result (λ r. (length r.1.items ≡ seats) × AreNewHands r.0.table (G.first client.now) (list_count cut) seats r.1.items) }
{
    let lists = cut.lists();
    let client_start = list_words(lists, seats);
    let words = opening_words(alloc, client_start, client)?;
    let mut made = Vec::with_capacity(alloc, seats as usize)?;
    let mut views = first_views(alloc, seats)?;
    let mut behind = first_others(alloc, seats, lists - 1)?;
    let shares = [cut.regions(), cut.bits()];
    let (table, mut opened) = open_words::<ListRule<G>>(alloc, seats, words.as_slice(), &shares)?;
    let mut number = 0;
    'all: while !opened.is_empty() {
        let seat = opened.remove(0);
        let view = views.remove(0);
        let others = behind.remove(0);
        made.push_reserved(Hand {
            token: Token {
                seat,
                number,
                seats,
                lists,
                list: 0,
                first: 0,
            },
            view,
            others,
        });
        number += 1;
    }
    let client = client.len() as u32;
    let list = List {
        table,
        seats,
        client,
        cut,
        client_start,
    };
    Ok((list, made))
}
