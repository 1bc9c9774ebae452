//! A guard made from another one, with the words of a queue in front of its words. Its rule is both rules, each over
//! its own words and what the seats know of them.
use crate::passes::{Doing, QueuePass};
use lock_core::Guard;
use std::marker::PhantomData;

/// The guard `G`, with a queue in front.
pub struct Queued<G> {
    of: PhantomData<G>,
}

impl<G: Guard> Guard for Queued<G> {
    ghost use Rattle.queue_guard.specs.Rule.{first_pass, HasQueue, IsAllowedBy, rested_pass, is_resting};
    ghost use Rattle.queue_guard.specs.Keeping.{keeps_queue, gains_queue, loses_queue, stays_resting};

    type Pass = QueuePass<G::Pass>;

    type Note = Doing<G::Note>;

    ghost first = { first_pass G.first };

    ghost holds = { HasQueue G.holds };

    ghost allows = { IsAllowedBy G.allows };

    ghost rested = { rested_pass G.rested };

    ghost is_at_rest = { is_resting G.is_at_rest };

    ghost keeps = { keeps_queue G.holds G.allows G.keeps };

    ghost gains = { gains_queue G.holds G.gains };

    ghost loses = { loses_queue G.holds G.rested G.is_at_rest G.loses };

    ghost stays_at_rest = { stays_resting G.rested G.is_at_rest G.stays_at_rest };
}
