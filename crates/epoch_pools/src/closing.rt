//! Closing a list: all hands are joined into one seat, with which the table is closed, and the client words come back.
//! The one refusal is that there is no memory; it comes before any hand is joined and hands all back. A reader may rely
//! on the guard's rule holding of the words that come back, with no grant.
ghost use Rattle.std.specs.Prelude.{◌≡◌, ◌<◌, ◌≤◌, ◌+◌, ◌^◌, [], IfOk, IfErr, None, length, map, drop, replicate, vec_capacity};
ghost use Rattle.std.specs.Mem.Slots.{IsFull, slots_len, slots_items};
ghost use Rattle.list_cuts.specs.Cut.{list_count};
ghost use Rattle.epoch_pools.specs.Hands.{AreHandsOf, AreIdleHands, AreOthersIdle, AreShownAt, pass_in};

use crate::hand::Hand;
use crate::list::List;
use crate::plays::Gathers;
use crate::rule::ListRule;
use crate::token::Token;
use crate::views::ListView;
use atomic_table::{Closed, Shared};
use lock_core::Guard;
use std::alloc::{AllocError, Global};
use word_rows::Start;

/// There was no memory to close the list. Nothing has changed, and all comes back.
#[derive(Drop)]
pub struct ListCloseRefused<G: Guard> {
    pub list: List<G>,
    /// The hands, in the order in which they were given.
    pub hands: Vec<Hand<G>>,
}

/// One seat that has what belongs to all of these hands, in their order. The hands are of the table, and there is one
/// at least.
fn join_all<G: Guard>(
    shared: &Shared<(), ListView<G::Pass>, Start, ListRule<G>>,
    mut hands: Vec<Hand<G>>,
) -> atomic_table::Seat<(), ListView<G::Pass>>
    requires words { 0 < shared.now.table_id.words }
    requires some { 0 < length hands.items }
    requires tables { AreHandsOf shared.now.table_id hands.items }
    ensures table { (result.table_id ≡ shared.now.table_id) × (result.me.1 ≡ []) }
    ensures parts { AreShownAt shared.now.table_id result.me.0.parts hands.items }
{
    let Hand { token, .. } = hands.remove(0);
    let Token { seat: mut all, .. } = token;
    'all: while !hands.is_empty() {
        let Hand { token, .. } = hands.remove(0);
        let Token { seat, .. } = token;
        shared.join_seat::<Gathers>(&mut all, seat);
    }
    all
}

/// Fills an empty `Vec` that has room for them with the words from a place on.
fn copy_words(closed: &Closed<(), Global>, from: u32, count: u32, out: &mut Vec<u64>)
    requires full { IsFull closed.now.words }
    requires words { slots_len closed.now.words ≡ from + count }
    requires small { from + count < 2 ^ 32 }
    requires empty { out.old.items ≡ [] }
    requires room { count ≤ vec_capacity out.old }
    ensures { out.new.items ≡ drop from (slots_items closed.now.words) }
{
    let mut i = 0;
    'words: while i < count {
        out.push_reserved(closed.word((from + i) as usize));
        i += 1;
    }
}

/// An empty `Vec` with room for the list's client words, so that `close_into` can't be refused.
pub fn room_for_words<G: Guard>(list: &List<G>, alloc: Global) -> Result<Vec<u64>, AllocError>
    ensures { IfOk result (λ words. (words.items ≡ []) × (list.now.client ≤ vec_capacity words)) }
{
    Vec::with_capacity(alloc, list.client as usize)
}

/// Ends the list and gives its client words, which meet the guard with no grant, in a `Vec` that has room for them.
/// The hands are all those of the opening, in order of their numbers; in each list each is outside its epoch, and has
/// no node in use or still to be given home.
pub fn close_into<G: Guard>(list: List<G>, hands: Vec<Hand<G>>, mut words: Vec<u64>) -> Vec<u64>
    requires count { length hands.items ≡ list.seats }
    requires idle { AreIdleHands list.table hands.items }
    requires others { 1 < list_count list.cut → AreOthersIdle (list_count list.cut) hands.items }
    requires empty { words.items ≡ [] }
    requires room { list.client ≤ vec_capacity words }
    ensures words { length result.items ≡ list.client }
    ensures guard { G.holds (replicate list.seats None) result.items (map pass_in hands.items) }
{
    let List {
        table,
        client,
        client_start,
        ..
    } = list;
    let all = join_all(&table.shared, hands);
    let closed = table.close_with(all);
    copy_words(&closed, client_start, client, &mut words);
    closed.free();
    words
}

/// Ends the list and gives its client words, which meet the guard with no grant.
/// The hands are as for `close_into`. The one refusal is that there is no memory: it comes before anything is changed,
/// and hands all back.
pub fn close<G: Guard>(
    list: List<G>,
    alloc: Global,
    hands: Vec<Hand<G>>,
) -> Result<Vec<u64>, ListCloseRefused<G>>
    requires count { length hands.items ≡ list.seats }
    requires idle { AreIdleHands list.table hands.items }
    requires others { 1 < list_count list.cut → AreOthersIdle (list_count list.cut) hands.items }
    ensures words { IfOk result (λ words. length words.items ≡ list.client) }
    ensures guard { IfOk result (λ words. G.holds (replicate list.seats None) words.items (map pass_in hands.items)) }
    ensures refused { IfErr result (λ r. (r.list ≡ list) × (r.hands.items ≡ hands.items)) }
{
    let Ok(words) = room_for_words(&list, alloc) else {
        return Err(ListCloseRefused { list, hands });
    };
    Ok(close_into(list, hands, words))
}
