//! What is counted: tries by their answer, and entries of histories by what was held for them. A count stands still at
//! its type's end.
ghost use Rattle.std.specs.Prelude.{◌≡◌};
ghost use Rattle.test_stress.specs.Counts.{one_more};

use page_types::Reply;
use range_rw::NotHeld;
use space_model::{Entry, Under};

/// Counts one more.
pub fn count_one(count: &mut u64)
    ensures { count.new ≡ one_more count.old }
{
    *count = count.saturating_add(1);
}

/// Tries that wait for nobody, by their answer.
#[derive(Clone, Copy, Debug, PartialEq, Eq)]
pub struct Tries {
    /// Those that held their range.
    pub held: u64,
    /// Those that met a range in conflict.
    pub busy: u64,
    /// Those that lost an exchange.
    pub again: u64,
    /// Those whose walk was too long.
    pub long: u64,
    /// Those for which there was no node.
    pub no_node: u64,
}

impl Tries {
    ghost use Rattle.std.specs.Prelude.{◌≡◌};
    ghost use Rattle.test_stress.specs.Counts.{after_held, after_refusal, together};

    /// Nothing counted yet.
    pub fn none() -> Tries {
        Tries {
            held: 0,
            busy: 0,
            again: 0,
            long: 0,
            no_node: 0,
        }
    }

    /// The counts of both.
    pub fn plus(self, more: Tries) -> Tries
        ensures { result ≡ together self more }
    {
        Tries {
            held: self.held.saturating_add(more.held),
            busy: self.busy.saturating_add(more.busy),
            again: self.again.saturating_add(more.again),
            long: self.long.saturating_add(more.long),
            no_node: self.no_node.saturating_add(more.no_node),
        }
    }

    /// Counts a try that held its range.
    pub fn count_held(&mut self)
        ensures { self.new ≡ after_held self.old }
    {
        count_one(&mut self.held);
    }

    /// Counts a try that was refused.
    pub fn count_refused(&mut self, refusal: &NotHeld)
        ensures { self.new ≡ after_refusal refusal.now self.old }
    {
        match refusal {
            NotHeld::Busy { .. } => count_one(&mut self.busy),
            NotHeld::Again { .. } => count_one(&mut self.again),
            NotHeld::Long { .. } => count_one(&mut self.long),
            NotHeld::NoNode { .. } => count_one(&mut self.no_node),
        }
    }
}

/// Entries of histories.
#[derive(Clone, Copy, Debug, PartialEq, Eq)]
pub struct Entries {
    /// All of them.
    pub all: u64,
    /// Those that were refused.
    pub refused: u64,
    /// Those for which nothing was held.
    pub nothing: u64,
    /// Those for which a page was held as a reader.
    pub reader: u64,
    /// Those for which an area was held.
    pub area: u64,
    /// Those for which everything was held.
    pub whole: u64,
}

impl Entries {
    /// Nothing counted yet.
    pub fn none() -> Entries {
        Entries {
            all: 0,
            refused: 0,
            nothing: 0,
            reader: 0,
            area: 0,
            whole: 0,
        }
    }

    /// Counts an entry.
    pub fn count(&mut self, entry: &Entry) {
        count_one(&mut self.all);
        if matches!(entry.reply, Reply::Refused(_)) {
            count_one(&mut self.refused);
        }
        match entry.under {
            Under::Nothing => count_one(&mut self.nothing),
            Under::Reader(_) => count_one(&mut self.reader),
            Under::Area(_) => count_one(&mut self.area),
            Under::Whole => count_one(&mut self.whole),
        }
    }
}
