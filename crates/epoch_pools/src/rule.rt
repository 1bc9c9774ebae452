//! The rule of the table, as `atomic_table` and `word_rows` ask for it: what holds between any two steps, and what each
//! seat begins with. The definitions are in `specs/Running.antt` and `specs/Starting.antt`; a reader may rely on the
//! rule having the invariant of each list's lock in it, the guard's rule, and nothing of the record. How the numbers
//! are cut for the lists is told by the shares with which the table is made.
use crate::views::ListView;
use atomic_table::TableRule;
use lock_core::Guard;
use std::marker::PhantomData;
use word_rows::{Start, StartRule};

/// The rule of a table of lists under a guard.
pub struct ListRule<G: Guard> {
    of: PhantomData<G>,
}

impl<G: Guard> TableRule<(), ListView<G::Pass>, Start> for ListRule<G> {
    ghost use Rattle.std.specs.Prelude.{◌-◌, ◌*◌, length};
    ghost use Rattle.list_cuts.specs.Cut.{list_count};
    ghost use Rattle.lock_core.specs.Words.{word_count};
    ghost use Rattle.epoch_pools.specs.Hands.{cut_of};
    ghost use Rattle.epoch_pools.specs.Running.{IsRunningList, view};
    ghost use Rattle.epoch_pools.specs.Starting.{begin, parts_from};

    ghost holds = { λ k. IsRunningList (cut_of k.shares.items) k.seats (length k.words.items - list_count
        (cut_of k.shares.items) * word_count k.seats) G.holds };

    ghost first = { λ k. view (parts_from (begin G.first (list_count (cut_of k.shares.items)) k.seats k.words.items) 0 (k.seats - 0)) };
}

impl<G: Guard> StartRule for ListRule<G> {
    ghost use Rattle.std.specs.Prelude.{◌+◌, ◌-◌, ◌*◌, [], ◌∷◌, length, refl};
    ghost use Rattle.list_cuts.specs.Cut.{list_count};
    ghost use Rattle.lock_core.specs.Words.{word_count};
    ghost use Rattle.epoch_pools.specs.Hands.{cut_of};
    ghost use Rattle.epoch_pools.specs.Running.{view};
    ghost use Rattle.epoch_pools.specs.Starting.{begin, parts_from, last_view, cuts};

    type View = ListView<G::Pass>;

    ghost one = { λ seats words shares s. view (begin G.first (list_count (cut_of shares)) seats words s ∷ []) };

    ghost rest = { λ seats words shares s. view (parts_from (begin G.first (list_count (cut_of shares)) seats words) s (seats - s)) };

    ghost starts = { λ k. refl };

    ghost ends = { λ words shares s. last_view G.first (list_count (cut_of shares)) words s };

    ghost cuts = { λ k s id more. cuts G.first G.holds (cut_of k.shares.items) (list_count (cut_of k.shares.items)) k.seats
        (length k.words.items - list_count (cut_of k.shares.items) * word_count k.seats) k.words.items s id more };
}
