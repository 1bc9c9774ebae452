//! What each kind of step says to the seat that makes it, in the words of `atomic_table`: the value found, what belongs
//! to the seat afterwards, and what the rule lets it know of the value.
use crate::records::Sleeper;
use atomic_table::Play;

/// An addition of 1 to the count of sleepers.
pub(crate) struct Counts;

impl Play<(), Sleeper> for Counts {
    ghost use Rattle.event_count.specs.Events.{counts_play};

    ghost then = { λ st me found me'. counts_play me found me' };
}

/// A load of the event word.
pub(crate) struct Reads;

impl Play<(), Sleeper> for Reads {
    ghost use Rattle.event_count.specs.Events.{reads_play};

    ghost then = { λ st me found me'. reads_play me found me' };
}

/// A subtraction of 1 from the count of sleepers.
pub(crate) struct Leaves;

impl Play<(), Sleeper> for Leaves {
    ghost use Rattle.event_count.specs.Events.{leaves_play};

    ghost then = { λ st me found me'. leaves_play me found me' };
}

/// A load of the count of sleepers.
pub(crate) struct Asks;

impl Play<(), Sleeper> for Asks {
    ghost use Rattle.event_count.specs.Events.{asks_play};

    ghost then = { λ st me found me'. asks_play me found me' };
}

/// An addition of 1 to the event word.
pub(crate) struct Advances;

impl Play<(), Sleeper> for Advances {
    ghost use Rattle.event_count.specs.Events.{advances_play};

    ghost then = { λ st me found me'. advances_play me found me' };
}
