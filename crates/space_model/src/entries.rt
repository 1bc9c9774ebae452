//! Entries of a history: a call with its number, its reply, who made it, and which range was held when it drew its
//! number. `Under` names the four things that may be held; the area of a Protect is held as in the speculative
//! mprotect of Kogan, Dice and Issa, EuroSys 2020.

ghost use Rattle.std.specs.Prelude.{◌↔◌, IsTrue};
ghost use Rattle.space_model.specs.History.{HasNamedCalls};

use page_types::{Call, Reply, Span};

/// Which range was held when a call's number was drawn.
#[derive(Clone, Copy, PartialEq, Eq, Hash, Debug)]
pub enum Under {
    /// Nothing: the call's arguments decide it.
    Nothing,
    /// The span as a reader.
    Reader(Span),
    /// The span as a writer, by a Protect that keeps the number of rows.
    Area(Span),
    /// All pages from 0 to `LIMIT` as a writer, by a call that may change the number of rows.
    Whole,
}

/// One call of a history.
#[derive(Clone, Copy, PartialEq, Eq, Hash, Debug)]
pub struct Entry {
    /// The call's number in the history, counted from 0.
    pub number: u64,
    /// The worker that made the call, counted from 0.
    pub worker: u32,
    /// The line of the input that names the call, counted from 1.
    pub line: u32,
    /// The call.
    pub call: Call,
    /// The call's reply.
    pub reply: Reply,
    /// Which range was held when its number was drawn.
    pub under: Under,
}

/// Whether the calls of the entries take no bit but the named ones.
pub fn have_named_calls(list: &[Entry]) -> bool
    ensures { IsTrue result ↔ HasNamedCalls list.now }
{
    list.iter().all(|entry| entry.call.is_named())
}
