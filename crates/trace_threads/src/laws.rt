//! Laws on a public function with nothing to run: what workers have played is what the closing of their space collects.
//! Each names a statement of `specs/Collected.antt`. A reader may rely on them whatever list of workers was played.
ghost use Rattle.trace_threads.specs.Collected.{OwnEntriesAreCollected, PlaysAreMade};

/// Workers whose callers had no entry before have, when they have played, just the entries of their lines; and where
/// each caller of a space has just the entries of its lines, these are what the closing collects. It does nothing.
pub fn plays_are_collected()
    ensures made { PlaysAreMade }
    ensures collected { OwnEntriesAreCollected }
{}
