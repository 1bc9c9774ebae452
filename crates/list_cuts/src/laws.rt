//! The law of a cut, on a public function with nothing to run: it names a statement, which a reader may rely on as on
//! any contract. This project's own profile.
ghost use Rattle.list_cuts.specs.Cut.{OverlapsMeet};

/// Two ranges that overlap take a list in common, however the numbers are cut into regions.
pub fn overlaps_meet()
    ensures { OverlapsMeet }
{}
