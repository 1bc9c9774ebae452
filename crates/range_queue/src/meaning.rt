//! What each step on a client word means to the guard with a queue: an act of the queue. No value of these types is
//! made.
use lock_core::{Guard, Means};
use queue_guard::Queued;
use std::marker::{Brand, PhantomData};

/// For which range a look begins. Each call picks it.
pub(crate) trait Asking {
    ghost use Rattle.lock_core.specs.declared.range.Held.{Held};

    ghost asked: { Held };
}

impl Asking for Brand {
    ghost use Rattle.lock_core.specs.declared.range.Mode.TheVariants.{Reader};

    ghost asked = { record { range = record { lo = 0; hi = 1 }; mode = Reader } };
}

/// Begins to look for the range that was picked.
pub(crate) struct Begins<N> {
    of: PhantomData<N>,
}

impl<G: Guard, N: Asking> Means<Queued<G>> for Begins<N> {
    ghost use Rattle.queue_guard.specs.declared.passes.Doing.TheVariants.{Queue};
    ghost use Rattle.queue_guard.specs.declared.passes.Act.TheVariants.{Begins as BeginsAct};

    ghost note = { Queue (BeginsAct N.asked) };
}

/// Loads the next ticket.
pub(crate) struct Glances;

impl<G: Guard> Means<Queued<G>> for Glances {
    ghost use Rattle.queue_guard.specs.declared.passes.Doing.TheVariants.{Queue};
    ghost use Rattle.queue_guard.specs.declared.passes.Act.TheVariants.{Glances as TheAct};

    ghost note = { Queue TheAct };
}

/// Loads a ticket.
pub(crate) struct Notes;

impl<G: Guard> Means<Queued<G>> for Notes {
    ghost use Rattle.queue_guard.specs.declared.passes.Doing.TheVariants.{Queue};
    ghost use Rattle.queue_guard.specs.declared.passes.Act.TheVariants.{Notes as TheAct};

    ghost note = { Queue TheAct };
}

/// Loads a lower end.
pub(crate) struct ReadsLo;

impl<G: Guard> Means<Queued<G>> for ReadsLo {
    ghost use Rattle.queue_guard.specs.declared.passes.Doing.TheVariants.{Queue};
    ghost use Rattle.queue_guard.specs.declared.passes.Act.TheVariants.{ReadsLo as TheAct};

    ghost note = { Queue TheAct };
}

/// Loads a higher end.
pub(crate) struct ReadsHi;

impl<G: Guard> Means<Queued<G>> for ReadsHi {
    ghost use Rattle.queue_guard.specs.declared.passes.Doing.TheVariants.{Queue};
    ghost use Rattle.queue_guard.specs.declared.passes.Act.TheVariants.{ReadsHi as TheAct};

    ghost note = { Queue TheAct };
}

/// Loads a ticket again.
pub(crate) struct Judges;

impl<G: Guard> Means<Queued<G>> for Judges {
    ghost use Rattle.queue_guard.specs.declared.passes.Doing.TheVariants.{Queue};
    ghost use Rattle.queue_guard.specs.declared.passes.Act.TheVariants.{Judges as TheAct};

    ghost note = { Queue TheAct };
}

/// Stores the own lower end.
pub(crate) struct WritesLo;

impl<G: Guard> Means<Queued<G>> for WritesLo {
    ghost use Rattle.queue_guard.specs.declared.passes.Doing.TheVariants.{Queue};
    ghost use Rattle.queue_guard.specs.declared.passes.Act.TheVariants.{WritesLo as TheAct};

    ghost note = { Queue TheAct };
}

/// Stores the own higher end.
pub(crate) struct WritesHi;

impl<G: Guard> Means<Queued<G>> for WritesHi {
    ghost use Rattle.queue_guard.specs.declared.passes.Doing.TheVariants.{Queue};
    ghost use Rattle.queue_guard.specs.declared.passes.Act.TheVariants.{WritesHi as TheAct};

    ghost note = { Queue TheAct };
}

/// Counts itself.
pub(crate) struct Counts;

impl<G: Guard> Means<Queued<G>> for Counts {
    ghost use Rattle.queue_guard.specs.declared.passes.Doing.TheVariants.{Queue};
    ghost use Rattle.queue_guard.specs.declared.passes.Act.TheVariants.{Counts as TheAct};

    ghost note = { Queue TheAct };
}

/// Draws a ticket.
pub(crate) struct Draws;

impl<G: Guard> Means<Queued<G>> for Draws {
    ghost use Rattle.queue_guard.specs.declared.passes.Doing.TheVariants.{Queue};
    ghost use Rattle.queue_guard.specs.declared.passes.Act.TheVariants.{Draws as TheAct};

    ghost note = { Queue TheAct };
}

/// Shows it.
pub(crate) struct Shows;

impl<G: Guard> Means<Queued<G>> for Shows {
    ghost use Rattle.queue_guard.specs.declared.passes.Doing.TheVariants.{Queue};
    ghost use Rattle.queue_guard.specs.declared.passes.Act.TheVariants.{Shows as TheAct};

    ghost note = { Queue TheAct };
}

/// Takes it back.
pub(crate) struct Hides;

impl<G: Guard> Means<Queued<G>> for Hides {
    ghost use Rattle.queue_guard.specs.declared.passes.Doing.TheVariants.{Queue};
    ghost use Rattle.queue_guard.specs.declared.passes.Act.TheVariants.{Hides as TheAct};

    ghost note = { Queue TheAct };
}

/// Counts itself out.
pub(crate) struct Uncounts;

impl<G: Guard> Means<Queued<G>> for Uncounts {
    ghost use Rattle.queue_guard.specs.declared.passes.Doing.TheVariants.{Queue};
    ghost use Rattle.queue_guard.specs.declared.passes.Act.TheVariants.{Uncounts as TheAct};

    ghost note = { Queue TheAct };
}
/// What the guard behind the queue has a step mean.
pub(crate) struct Behind<M> {
    of: PhantomData<M>,
}

impl<G: Guard, M: Means<G>> Means<Queued<G>> for Behind<M> {
    ghost use Rattle.queue_guard.specs.declared.passes.Doing.TheVariants.{Inner};

    ghost note = { Inner M.note };
}
