//! Lists for the trials, under no rule, and their closing. A reader may rely on the hands being in order of their
//! numbers, as the closing takes them.
ghost use Rattle.std.specs.Prelude.{◌≡◌, length, IfOk, IfSome};
ghost use Rattle.std.specs.Bool.{OnTrue};
ghost use Rattle.list_cuts.specs.Cut.{list_count};
ghost use Rattle.epoch_pools.specs.Hands.{IsIdle, IsSeatCount, AreNewHands, AreIdleHands};
ghost use Rattle.test_list.specs.Trials.{AreInOrder, AreAllIdle};

use epoch_pools::{Hand, List, close, inside, open};
use lock_core::{FreeGuard, Own};
use std::alloc::{AllocError, Global};

/// A list of so many seats with one client word, and its hands in order.
pub fn open_list(
    alloc: Global,
    seats: u32,
    word: u64,
) -> Result<(List<FreeGuard>, Vec<Hand<FreeGuard>>), AllocError>
    requires seats { IsSeatCount seats }
    ensures shape { IfOk result (λ r. (r.0.seats ≡ seats) × (r.0.client ≡ 1) × (length r.1.items ≡ seats)) }
    ensures one { IfOk result (λ r. list_count r.0.cut ≡ 1) }
    ensures order { IfOk result (λ r. AreInOrder r.0.table r.1.items) }
{
    open(alloc, seats, &[word])
}

/// Whether the hand is outside, with no own node and none in its hand.
pub fn is_idle(hand: &Hand<FreeGuard>) -> bool
    ensures { OnTrue result (IsIdle hand.now.part.core) }
{
    if inside(hand) || hand.view().hand.is_some() {
        return false;
    }
    match hand.view().own {
        Own::Nothing => true,
        _ => false,
    }
}

fn are_idle(hands: &[Hand<FreeGuard>]) -> bool
    ensures { OnTrue result (AreAllIdle hands.now) }
{
    let mut i = 0;
    'hands: while i < hands.len() {
        if !is_idle(&hands[i]) {
            return false;
        }
        i += 1;
    }
    true
}

/// Closes the list and gives its client words, if all its hands are idle and there is memory.
pub fn close_all(
    list: List<FreeGuard>,
    alloc: Global,
    hands: Vec<Hand<FreeGuard>>,
) -> Option<Vec<u64>>
    requires count { length hands.items ≡ list.seats }
    requires one { list_count list.cut ≡ 1 }
    requires order { AreInOrder list.table hands.items }
    ensures { IfSome result (λ words. length words.items ≡ list.client) }
{
    if !are_idle(hands.as_slice()) {
        return None;
    }
    match close(list, alloc, hands) {
        Ok(words) => Some(words),
        Err(_) => None,
    }
}
