//! What holds after every run of the list lock, in words that speak of its start, its steps and what it promises
//! alone. A run is a list of pairs of a seat and a step, of any length and in any order of the seats, so that every
//! interleaving is one; a step that isn't enabled leaves the state as it is. Every beginning of a run is a run too,
//! so what is said of a run's end holds in each state on the way. The lock of Kogan, Dice and Issa 2020, with this
//! project's own barrier before a node is used again.
ghost use Rattle.std.specs.Prelude.{◌≡◌};
ghost use Rattle.lock_core.specs.Machine.{run, after_or_same};
ghost use Rattle.lock_laws.specs.Laws.{RunsAreExclusive, RunsGrantApart, RunsHaveNoReuse};

use lock_core::{State, Step, apply};

/// After any run, however long and however its seats take turns, no two conflicting ranges are held: writers exclude
/// each other and readers, and readers share. So in the list that `grants` gives no two conflict, and no seat stands
/// twice.
pub fn runs_are_exclusive()
    ensures held { RunsAreExclusive }
    ensures listed { RunsGrantApart }
{}

/// After any run no seat may reach a node that is ready or being filled, so that its words may be written anew.
pub fn runs_have_no_reuse()
    ensures { RunsHaveNoReuse }
{}

/// Makes one step of a run, if it is enabled.
fn take(state: &mut State, seat: u32, step: Step)
    ensures { state.new ≡ after_or_same state.old seat step }
{
    match apply(state, seat, step) {
        Ok(()) => {}
        Err(_) => {}
    }
}

/// Makes the steps of a run, one pair of a seat and a step after another. A step that isn't enabled changes nothing.
pub fn play(state: &mut State, turns: &[(u32, Step)])
    ensures { state.new ≡ run state.old turns.now }
{
    for (seat, step) in turns {
        take(state, *seat, *step);
    }
}
