//! What the queue comes to, over definitions alone. The functions have nothing to run; their contracts name the
//! statements, and a reader may rely on them as on any contract.
ghost use Rattle.queue_laws.specs.Laws.{GivesWayToWhatStands, OvertakesFew, OvertakesOnce};
ghost use Rattle.queue_guard.specs.Lines.{ActsAreLines};

use lock_core::Guard;

/// While the announcement of a seat stands, each other seat is granted a conflicting range at most once, and only by a
/// try that had looked before, or with an older ticket: so all of them together at most as many as there are other
/// seats, over any run of the queue's machine. Each step of a seat on the queue's words is a line of that machine, or
/// changes no place in it, over every guard; and a grant is a line by the clause `tried` of `try_acquire`.
pub fn bounds_overtaking<G: Guard>()
    ensures once { OvertakesOnce }
    ensures few { OvertakesFew }
    ensures lines { ActsAreLines G.Pass }
    ensures way { GivesWayToWhatStands }
{
    queue_laws::bounds_overtaking();
    queue_laws::gives_way_to_what_stands();
    queue_guard::acts_are_lines::<G>();
}
