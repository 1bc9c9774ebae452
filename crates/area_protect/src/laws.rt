//! What the ways of changes of protection come to where nothing was numbered meanwhile, as on one caller alone: laws on
//! public functions with nothing to run. Each names a statement of `specs/Protects.antt`; a reader may rely on them for
//! every answer of `protect`.
ghost use Rattle.area_protect.specs.Protects.{LoneHoldsArea, LonePathIsOne};

/// A change of protection that its arguments don't decide, and beside which nothing was numbered, holds its area
/// exactly where its pages lie in one area, and that is sealed or the change leaves the number of rows as it is. It
/// does nothing.
pub fn lone_protects_hold_their_area()
    ensures { LoneHoldsArea }
{}

/// Two changes of protection with the same arguments, after the same entries from one start and with nothing numbered
/// meanwhile, went the same way. It does nothing.
pub fn paths_are_of_the_history()
    ensures { LonePathIsOne }
{}
