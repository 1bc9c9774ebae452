//! What the table's rule comes to between any two steps of any threads, each a law stated once for every guard. The
//! rule holds there, since `atomic_table` lets no step be made that breaks it; so does what follows from it here. The
//! functions have nothing to run; a reader may rely on their contracts as on any.
ghost use Rattle.epoch_pools.specs.Apart.{KeepsLock, KeepsApart, KeepsNoReuse};
ghost use Rattle.epoch_pools.specs.Lines.{StepsAreLines};

use lock_core::Guard;

/// Between any two steps the words of each list and the seats' views of it, by number, are a state of the machine that
/// meets the lock's invariant.
pub fn keeps_lock<G: Guard>()
    ensures { KeepsLock G.holds }
{}

/// Between any two steps no two ranges of different seats conflict that count, and the guard's rule holds of these
/// ranges, the client words and the passes. With one list each held range counts. Ranges and passes are those that the
/// seats' own views have, each at its seat's number.
pub fn keeps_apart<G: Guard>()
    ensures { KeepsApart G.holds }
{}

/// Between any two steps nobody may reach a node of any list that is ready or that its hand has taken and not linked,
/// so that its words may be written anew.
pub fn keeps_no_reuse<G: Guard>()
    ensures { KeepsNoReuse G.holds }
{}

/// At any moment, a step of any kind that a seat's view of a list enables is a line of the step table of `lock_core`:
/// the list's words and views after it are those of the machine after that step.
pub fn steps_are_lines<G: Guard>()
    ensures { StepsAreLines G.holds G.rested }
{}
