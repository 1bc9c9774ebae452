//! The laws of the lock's invariant: it holds at the start, every step keeps it, and it gives exclusion, no reuse, and
//! what a seat may rely on of its own view. Each function names a statement of `specs/`. Kogan, Dice and Issa 2020
//! argue for their list in prose; the barrier before reuse is this project's own profile.
ghost use Rattle.lock_laws.specs.Laws.{StartIsLock, StepsKeep, LockIsExclusive, ReaderStandsFirst, LockHasNoReuse};
ghost use Rattle.lock_laws.specs.Laws.{LeavesReadyByClearHome, IdleStepsShow, ViewsAreSound, ReadsRange, FindsOther};
ghost use Rattle.lock_laws.specs.HeldSteps.{StepsChangeOneGrant, StepsChangeGrants};
ghost use Rattle.lock_laws.specs.PathLengths.{PathsAreShort};

/// The state that `fresh` makes meets the invariant.
pub fn start_is_lock()
    ensures { StartIsLock }
{}

/// Each step of any seat, of every kind and wherever it is enabled, keeps the invariant, also where its exchange
/// fails.
pub fn steps_keep()
    ensures { StepsKeep }
{}

/// What a step does to the held ranges. A step of any kind changes no grant, or its seat alone gains or gives back; and
/// for each kind, in which case. What is gained is the range of the seat's own node, and conflicts with no other.
pub fn grants_change()
    ensures change { StepsChangeOneGrant }
    ensures outcome { StepsChangeGrants }
{}

/// Under the invariant no two conflicting ranges are held by different seats.
pub fn lock_is_exclusive()
    ensures { LockIsExclusive }
{}

/// Under the invariant a linked reader stands before each linked writer that it overlaps.
pub fn reader_stands_first()
    ensures { ReaderStandsFirst }
{}

/// Under the invariant no view may reach a node that is ready or being filled.
pub fn lock_has_no_reuse()
    ensures { LockHasNoReuse }
{}

/// Under the invariant each seat's view is sound by itself, whatever the other seats do.
pub fn views_are_sound()
    ensures { ViewsAreSound }
{}

/// What the loads of a cursor's node find: the ends of a range, and, where the node is unmarked, another seat's node or
/// the own linked one.
pub fn loads_find()
    ensures range { ReadsRange }
    ensures other { FindsOther }
{}

/// A node leaves the ready pool of a seat only by that seat's ClearHome, which names it.
pub fn leaves_ready_by_clear_home()
    ensures { LeavesReadyByClearHome }
{}

/// A step of a seat that is between two calls, outside its epoch, changes no word of the list, or is one that the
/// seat's view shows: it enters its epoch, or takes its first ready node.
pub fn idle_steps_show()
    ensures { IdleStepsShow }
{}

/// In every state that meets the invariant a path that ends, from the head or from any node that is there, has at
/// most sixteen nodes for each seat.
pub fn paths_are_short()
    ensures { PathsAreShort }
{}
