//! One line of the log after another: what is remembered of the entries before, and whether the next line goes on
//! rightly behind them. Of the entries only their number and the last line of each worker are kept, and the space that
//! they leave; so a check takes no memory but the space's own. Its causes are asked in the order of `WrongLog`.
ghost use Rattle.std.specs.Prelude.{◌≡◌, ◌+◌, ◌<◌, ◌^◌, [], ◌∷◌, ◌++◌, List, ℕ, IsTrue, ◌↔◌};
ghost use Rattle.page_types.specs.Named.{IsNamedCall};
ghost use Rattle.space_model.specs.declared.entries.Entry.{Entry};
ghost use Rattle.history_check.specs.Checking.{IsInPlace, IsSeen, IsTaken, TellsCall, TellsPlace};

use crate::holding::may_be;
use crate::line::read_log_line;
use crate::verdict::WrongLog;
use page_types::Reply;
use space_model::{Entry, ReservedSpace};

/// How many workers a log may name.
const WORKERS: usize = 16;

/// What is remembered of the entries that were taken.
#[derive(Clone, Copy)]
pub(crate) struct Seen {
    /// How many they are.
    pub next: u32,
    /// For each worker the line number of its last entry plus 1, and 0 where it has none.
    last: [u64; WORKERS],
}

impl Seen {
    /// Of no entry.
    pub(crate) fn new() -> Seen
        ensures { IsSeen [] result }
    {
        Seen {
            next: 0,
            last: [0; WORKERS],
        }
    }

    /// Takes the next line of the log, whose call changes the space; or says why it is wrong there.
    pub(crate) fn take(&mut self, space: &mut ReservedSpace, text: &[u8]) -> Option<WrongLog>
        requires { self.old.next + 1 < 2 ^ 32 }
        ensures { (before : List Entry) → IsSeen before self.old → IsTaken before space.old text.now result space.new self.new }
    {
        let Some(entry) = read_log_line(text) else {
            return Some(WrongLog::Form);
        };
        if let Some(why) = self.wrong_place(&entry) {
            return Some(why);
        }
        if let Some(why) = wrong_call(space, &entry) {
            return Some(why);
        }
        self.add(&entry);
        None
    }

    /// Whether the entry's number isn't that of its place, or its line isn't above the last one of its worker.
    fn wrong_place(&self, entry: &Entry) -> Option<WrongLog>
        requires { entry.now.worker < 16 }
        ensures { (before : List Entry) → IsSeen before self.now → TellsPlace before entry.now result }
    {
        if entry.number != u64::from(self.next) {
            return Some(WrongLog::Number);
        }
        if u64::from(entry.line) < self.last[entry.worker as usize] {
            return Some(WrongLog::Order);
        }
        None
    }

    /// Remembers one entry more.
    fn add(&mut self, entry: &Entry)
        requires worker { entry.now.worker < 16 }
        requires room { self.old.next + 1 < 2 ^ 32 }
        ensures { (before : List Entry) → IsSeen before self.old → IsInPlace before entry.now →
            IsSeen (before ++ entry.now ∷ []) self.new }
    {
        self.next += 1;
        self.last[entry.worker as usize] = u64::from(entry.line) + 1;
    }
}

/// Makes the entry's call, and says whether what it held doesn't fit there, or its reply isn't the space's.
fn wrong_call(space: &mut ReservedSpace, entry: &Entry) -> Option<WrongLog>
    requires { IsNamedCall entry.now.call }
    ensures { TellsCall space.old entry.now result space.new }
{
    let (reply, exact) = space.step_under(&entry.call);
    if !may_be(exact, entry.under) {
        return Some(WrongLog::Held);
    }
    if !same_reply(entry.reply, reply) {
        return Some(WrongLog::Reply);
    }
    None
}

fn same_reply(one: Reply, other: Reply) -> bool
    ensures { IsTrue result ↔ (one ≡ other) }
{
    one == other
}
