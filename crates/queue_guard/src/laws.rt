//! What the guard's rule comes to, over definitions alone. The function has nothing to run; its contract names the
//! statement, and a reader may rely on it as on any contract.
ghost use Rattle.queue_guard.specs.Lines.{ActsAreLines};

use lock_core::Guard;

/// Every act that a seat may make on the queue's words is a line of the queue's machine, or leaves the seat's place in
/// it, over what all seats have told at that moment.
pub fn acts_are_lines<G: Guard>()
    ensures { ActsAreLines G.Pass }
{}
