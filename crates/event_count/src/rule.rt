//! The rule of the two words, as `atomic_table` and `word_rows` ask for it: what holds between any two steps of any
//! threads, and that a seat can be cut off. The rule itself is `IsEventTable` of `specs/Events.antt`.
use crate::records::Sleeper;
use atomic_table::TableRule;
use word_rows::{Start, StartRule};

/// The rule of an event count.
pub struct EventRule;

impl TableRule<(), Sleeper, Start> for EventRule {
    ghost use Rattle.std.specs.Prelude.{◌-◌};
    ghost use Rattle.event_count.specs.Events.{IsEventTable, begin};

    ghost holds = { λ k. IsEventTable k.seats };

    ghost first = { λ k. begin (k.seats - 1) };
}

impl StartRule for EventRule {
    ghost use Rattle.std.specs.Prelude.{◌+◌, ◌-◌};
    ghost use Rattle.event_count.specs.Events.{begin};
    ghost use Rattle.event_count.specs.Starting.{first_spare, last_spare, cuts};

    type View = Sleeper;

    ghost one = { λ seats words shares s. begin 0 };

    ghost rest = { λ seats words shares s. begin (seats - (s + 1)) };

    ghost starts = { λ k. first_spare k.seats };

    ghost ends = { λ words shares s. last_spare s };

    ghost cuts = { λ k s id more. cuts k.seats s id more };
}
