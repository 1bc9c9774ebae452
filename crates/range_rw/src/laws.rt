//! What the table's rule comes to between any two steps of any threads, each a law stated once for every guard. The
//! words and views of a table are those of its list, so the laws are those of the running list; a reader may rely on
//! them as on any contract. The functions have nothing to run.
ghost use Rattle.epoch_pools.specs.Apart.{KeepsLock, KeepsApart, KeepsNoReuse};

use lock_core::Guard;

/// Between any two steps the words of each list and what the seats know of them, by number, are a state of the list
/// lock that meets its invariant; and each step on one of these words is one line of the lock's step table.
pub fn keeps_lock<G: Guard>()
    ensures { KeepsLock G.holds }
{
    epoch_pools::keeps_lock::<G>();
}

/// Between any two steps no two ranges of different seats conflict that count, and the guard's rule holds of these
/// ranges, the client words and the passes. With one list each held range counts. Ranges and passes are those that the
/// seats' own views have, each at its seat's number. It does nothing.
pub fn keeps_apart<G: Guard>()
    ensures { KeepsApart G.holds }
{
    epoch_pools::keeps_apart::<G>();
}

/// Between any two steps no seat that walks a list may reach a node of it that is ready, or that its seat has taken and
/// not linked: no node is used again under a traversal.
pub fn keeps_no_reuse<G: Guard>()
    ensures { KeepsNoReuse G.holds }
{
    epoch_pools::keeps_no_reuse::<G>();
}
