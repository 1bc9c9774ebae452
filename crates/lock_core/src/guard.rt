//! What the layer above a range lock keeps in client words: a rule over the held ranges, those words and what each
//! seat knows, and the steps that it allows itself. A lock that keeps its own rule keeps a guard's rule too, by the
//! guard's three laws, as a lock of Iris' library keeps the invariant that its user picks. A reader may rely on it
//! that a guard speaks of grants, client words and passes alone, never of how a range is kept.
ghost use Rattle.std.specs.Prelude.{◌≡◌, ℕ, List, slice_set, Option, Some, None};
ghost use mathlib.Core.Option.{some};
ghost use lib.ListN.{get_elem?};
ghost use Rattle.lock_core.specs.declared.range.Held.{Held};
ghost use Rattle.lock_core.specs.Grants.{Grants, IsFree};
ghost use Rattle.lock_core.specs.Client.{ClientStep, words_after};

/// What the layer above keeps in client words, as meanings and laws. No value of such a type is made.
///
/// A guard whose client word 0 only rises. What a seat knows of it is what it has read, and whether that is still so:
///
/// ```rust
///     type Pass = Reading;
///
///     type Note = ();
///
///     ghost first = { λ _ _. record { seen = 0; sure = false } };
///
///     ghost holds = { IsHighWater };
///
///     ghost allows = { IsMarkStep };
///
///     ghost rested = { unsure };
///
///     ghost is_at_rest = { λ _. Unit {0} };
/// ```
pub trait Guard {
    /// The plain data that a seat knows.
    type Pass;

    /// The plain data by which a caller says what it means by a client step.
    type Note;

    /// The pass with which the seat of a number begins, over the client words of the opening.
    ghost first: { List ℕ → ℕ → Self.Pass };

    /// The rule over the grants, the client words and the passes, the first and the last by seat number.
    ghost holds: { Grants → List ℕ → List Self.Pass → Type 0 };

    /// Which client step the seat of a number may take, with which note, and a pass that it may have after.
    ghost allows: { Grants → List ℕ → List Self.Pass → ℕ → ClientStep → Self.Note → Self.Pass → Type 0 };

    /// What a pass at rest becomes when its range is given back.
    ghost rested: { Self.Pass → Self.Pass };

    /// With which pass a range may be given back.
    ghost is_at_rest: { Self.Pass → Type 0 };

    /// The law of steps: an allowed step keeps the rule.
    ghost keeps: { (grants : Grants) (words : List ℕ) (passes : List Self.Pass) (seat : ℕ) (step : ClientStep) (note : Self.Note) (after : Self.Pass)
        → holds grants words passes → allows grants words passes seat step note after → holds grants (words_after words step) (slice_set passes seat after) };

    /// The law of gain: the rule stays where a seat that holds nothing gets a grant that conflicts with no other.
    ghost gains: { (grants : Grants) (words : List ℕ) (passes : List Self.Pass) (seat : ℕ) (h : Held)
        → holds grants words passes → get_elem? grants seat ≡ some None → IsFree grants seat h → holds (slice_set grants seat (Some h)) words passes };

    /// The law of loss: the rule stays where a grant is given back whose seat's pass is at rest, and that pass
    /// becomes `rested` of it.
    ghost loses: { (grants : Grants) (words : List ℕ) (passes : List Self.Pass) (seat : ℕ) (pass : Self.Pass)
        → holds grants words passes → get_elem? passes seat ≡ some pass → is_at_rest pass
        → holds (slice_set grants seat None) words (slice_set passes seat (rested pass)) };

    /// A rested pass is at rest.
    ghost stays_at_rest: { (pass : Self.Pass) → is_at_rest pass → is_at_rest (rested pass) };
}

/// What a caller means by a client step: a note of the guard, picked at its call.
pub trait Means<G: Guard> {
    ghost note: { G.Note };
}

/// A guard that allows every step, and means nothing by it.
#[derive(Clone, Copy, Debug, PartialEq, Eq)]
pub struct FreeGuard;

impl Guard for FreeGuard {
    type Pass = ();

    type Note = ();

    ghost first = { λ _ _. tt };

    ghost holds = { λ _ _ _. Unit {0} };

    ghost allows = { λ _ _ _ _ _ _ _. Unit {0} };

    ghost rested = { λ p. p };

    ghost is_at_rest = { λ _. Unit {0} };

    ghost keeps = { λ _ _ _ _ _ _ _ _ _. tt };

    ghost gains = { λ _ _ _ _ _ _ _ _. tt };

    ghost loses = { λ _ _ _ _ _ _ _ _. tt };

    ghost stays_at_rest = { λ _ _. tt };
}

impl Means<FreeGuard> for FreeGuard {
    ghost note = { tt };
}
