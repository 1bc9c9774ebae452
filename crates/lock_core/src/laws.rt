//! Laws of the definitions of this crate, on public functions with nothing to run. Each names a statement, which a
//! reader may rely on as on any contract; calling one costs nothing and says nothing that its contract doesn't say.
//! The laws of the lock as a whole stand in the crate `lock_laws`. This project's own profile.
ghost use Rattle.lock_core.specs.Places.{PlacesDiffer, CodesReadBack};
ghost use Rattle.lock_core.specs.Laws.{PlanIsLine, JudgesByConflict};

/// The plan that `apply` carries out is the line of the step table, for every kind of step.
pub fn plan_is_line()
    ensures { PlanIsLine }
{}

/// All places of words differ, and lie below the number of words.
pub fn places_differ()
    ensures { PlacesDiffer }
{}

/// A code that is read back gives the node and the mark of which it was made, and no two nodes and marks have one
/// code.
pub fn codes_read_back()
    ensures { CodesReadBack }
{}

/// A node that is met is judged to be in conflict exactly where what it holds conflicts with what the seat is to hold.
pub fn judges_by_conflict()
    ensures { JudgesByConflict }
{}
