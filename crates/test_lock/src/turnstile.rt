//! A guard with a rule: client word 0 is the number of writers inside, which is 0 or 1, and who is inside holds a
//! range with the door in it as a writer. What a caller means by going in is a number of its own, its note, which
//! goes into the log of its pass; so the note is known only when the program runs.
use lock_core::Guard;
use std::collections::LinkedList;

/// What a seat knows: whether its writer is inside, and what its writers came for, the last first.
pub struct Visits {
    pub inside: bool,
    pub log: LinkedList<u64>,
}

/// Counts the writers that are inside.
pub struct Turnstile;

impl Guard for Turnstile {
    ghost use Rattle.std.specs.Prelude.{◌≡◌, false, []};
    ghost use Rattle.test_lock.specs.Turnstile.{IsCounted, IsPassage, keeps_count, gains_count, loses_count};

    type Pass = Visits;

    type Note = u64;

    ghost first = { λ _ _. record { inside = false; log = [] } };

    ghost holds = { IsCounted };

    ghost allows = { IsPassage };

    ghost rested = { λ pass. pass };

    ghost is_at_rest = { λ pass. pass.inside ≡ false };

    ghost keeps = { keeps_count };

    ghost gains = { gains_count };

    ghost loses = { loses_count };

    ghost stays_at_rest = { λ _ rest. rest };
}
