//! A guard of one's own: client word 0 is a high-water mark, which only rises. No seat ever reads less than it has
//! read before, and a seat that holds a range with the number 0 in it and has read the mark knows it exactly. A guard
//! has no code: it says what holds of the held ranges, the client words and what each seat knows, which steps are
//! allowed, and proves that they keep it.
use lock_core::{Guard, Means};

/// What a seat knows of the mark: what it has read, and whether the mark is still that, since the seat has held its
/// range from then on.
pub struct Reading {
    pub seen: u64,
    pub sure: bool,
}

/// Client word 0 only rises.
pub struct HighWater;

impl Guard for HighWater {
    ghost use Rattle.std.specs.Prelude.{false};
    ghost use Rattle.example_ranges.specs.HighWater.{IsHighWater, IsMarkStep, unsure, keeps_mark, gains_range, loses_range};

    type Pass = Reading;

    type Note = ();

    ghost first = { λ _ _. record { seen = 0; sure = false } };

    ghost holds = { IsHighWater };

    ghost allows = { IsMarkStep };

    ghost rested = { unsure };

    ghost is_at_rest = { λ _. Unit {0} };

    ghost keeps = { keeps_mark };

    ghost gains = { gains_range };

    ghost loses = { λ grants words passes seat pass marked own rest. loses_range grants words passes seat pass marked own };

    ghost stays_at_rest = { λ _ _. tt };
}

/// A step means nothing beside what it does.
impl Means<HighWater> for HighWater {
    ghost note = { tt };
}
