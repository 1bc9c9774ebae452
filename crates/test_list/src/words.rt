//! Steps on client words through a hand, under no rule: each of the four kinds once.
ghost use Rattle.std.specs.Prelude.{◌≡◌, ◌<◌, length};
ghost use Rattle.test_list.specs.Trials.{IsSameHand, AreInOrder};

use epoch_pools::{Hand, List, client_add, client_exchange, client_load, client_store};
use lock_core::FreeGuard;

fn raise(list: &List<FreeGuard>, hand: &mut Hand<FreeGuard>) -> bool
    requires table { hand.old.table ≡ list.now.table }
    requires word { 0 < list.now.client }
    ensures same { IsSameHand hand.old hand.new }
{
    let word = client_load::<FreeGuard, FreeGuard>(list, hand, 0);
    client_store::<FreeGuard, FreeGuard>(list, hand, 0, word.wrapping_add(1));
    let now = client_add::<FreeGuard, FreeGuard>(list, hand, 0, 1);
    let next = now.wrapping_add(1);
    client_exchange::<FreeGuard, FreeGuard>(list, hand, 0, next, next.wrapping_add(1)).is_ok()
}

/// Raises client word 0 by 3 with the hand of that number, by a load, a store, an addition and an exchange. It says
/// whether the exchange found what was stored.
pub fn raise_word(list: &List<FreeGuard>, hands: &mut [Hand<FreeGuard>], number: usize) -> bool
    requires there { number < length hands.old }
    requires word { 0 < list.now.client }
    requires order { AreInOrder list.now.table hands.old }
    ensures order { AreInOrder list.now.table hands.new }
{
    raise(list, &mut hands[number])
}
