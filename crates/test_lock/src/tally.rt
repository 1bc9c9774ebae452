//! A guard that counts: client word 0 is all that the seats have brought in, modulo 2^64, where the first seat begins
//! with the word of the opening. A seat adds 1 by a load and a store, so another's addition between the two would be
//! lost; that none is lost is proved from the ranges alone. A reader may rely on the count at the closing.
use lock_core::{Guard, Means};

/// What a seat knows: how much it has brought in, what it has read of the word, and whether the word is still that,
/// since the seat has held its range from then on.
pub struct Brought {
    pub amount: u64,
    pub seen: u64,
    pub sure: bool,
}

/// Counts what the seats have brought in.
pub struct Tally;

impl Guard for Tally {
    ghost use Rattle.test_lock.specs.Tally.{IsTallied, IsTallyStep, first_share, forgets, keeps_tally, gains_tally, loses_tally};

    type Pass = Brought;

    type Note = ();

    ghost first = { first_share };

    ghost holds = { IsTallied };

    ghost allows = { IsTallyStep };

    ghost rested = { forgets };

    ghost is_at_rest = { λ _. Unit {0} };

    ghost keeps = { keeps_tally };

    ghost gains = { gains_tally };

    ghost loses = { λ grants words passes seat pass tallied own rest. loses_tally grants words passes seat pass tallied own };

    ghost stays_at_rest = { λ _ _. tt };
}

/// A step means nothing beside what it does.
impl Means<Tally> for Tally {
    ghost note = { tt };
}
