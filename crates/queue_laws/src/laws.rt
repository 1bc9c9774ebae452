//! The laws of the queue, each over definitions alone. The functions have nothing to run; their contracts name the
//! statements of `specs/Laws.antt`, and a reader may rely on them as on any contract.
ghost use Rattle.queue_laws.specs.Laws.{OvertakesOnce, OvertakesFew, ConflictsAreExact, GivesWayToWhatStands};

/// While an announcement stands, each other seat is granted a conflicting range at most once, and only if it had looked
/// past that announcement's place before, or has an older ticket. So of all other seats together at most as many
/// conflicting ranges are granted as there are other seats: over any run, of any number of steps.
pub fn bounds_overtaking()
    ensures once { OvertakesOnce }
    ensures few { OvertakesFew }
{}

/// The test of the machine for a conflict is the lock's.
pub fn conflicts_are_exact()
    ensures { ConflictsAreExact }
{}

/// A step by which a seat gives way names an announcement that stands at that moment and conflicts with what the seat
/// asked for.
pub fn gives_way_to_what_stands()
    ensures { GivesWayToWhatStands }
{}
