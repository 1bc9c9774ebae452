//! The guard of the address space: what its callers know, as plain data of proofs, and the steps on client words that
//! keep its rule. The rule and the steps are in `specs/History.antt`, and the proofs that they keep it in
//! `specs/Keeping.antt`. A call that changes the rows is drawn first and written then; what it has to write is in its
//! caller's pass meanwhile. A reader may rely on the one history that the number word counts being what the callers
//! store.
use lock_core::{Guard, Held};
use page_types::{Call, Kind, Reply, Span};
use space_model::{Area, Entry, Under};
use std::collections::LinkedList;

/// A row word as a caller has read it.
pub struct ReadRow {
    /// The slot in which the row stands (`slots_in` of `specs/Rows.antt`).
    pub index: u32,
    pub word: u64,
}

/// The one row that a call over its area stores: some pages of the area get another kind, and as many rows are left as
/// there were. Pages are counted from 0.
#[derive(Clone, Copy, Debug, PartialEq, Eq)]
pub struct Change {
    /// The slot in which the row stands.
    pub index: u32,
    /// The page where the row starts from now on.
    pub start: u64,
    /// The kind of the row's pages from now on.
    pub kind: Kind,
    /// The pages that are held as a writer: those of the area, and one more on each side.
    pub span: Span,
    /// The pages of the call.
    pub place: Span,
    /// The kind that these pages have before the call.
    pub old: Kind,
    /// The kind that the call gives them.
    pub new: Kind,
}

/// What a call under everything makes of the rows: a splice of those that stood when it got its number.
pub struct Splice {
    /// The words of the rows that stood.
    pub old: LinkedList<u64>,
    /// The number of the first row that goes, counted from 0.
    pub first: u32,
    /// The number behind that of the last row that goes.
    pub end: u32,
    /// The words of the rows that come in their place.
    pub more: LinkedList<u64>,
}

/// What a call that has its number still has to write.
pub enum Pending {
    /// Nothing.
    AtRest,
    /// The splice that it makes of the rows, their count, and the sequence word: a call under everything.
    Planned(Splice),
    /// One row: a call over its area.
    OneRow(Change),
}

/// An entry without its number and its worker, and what is to be written when it has its number.
pub struct Note {
    pub line: u32,
    pub call: Call,
    pub reply: Reply,
    pub under: Under,
    pub pending: Pending,
}

/// A look of a caller at the history, by a load of the number word.
pub struct Look {
    /// How many entries there were.
    pub found: u64,
    /// What the caller held.
    pub held: Option<Held>,
}

/// What a caller knows. No value of it is made.
pub struct Pass {
    /// The areas of the opening.
    pub start: LinkedList<Area>,
    /// How many blocks of rows the table has room for.
    pub blocks: u64,
    /// Whether the space keeps its history: then the number word counts it, and a draw is an addition to that word.
    /// Otherwise a draw is a load of it, and nobody stores it.
    pub keeps: bool,
    /// How many entries the caller may have.
    pub most: u64,
    /// The beginning of the history that the caller has seen.
    pub seen: LinkedList<Entry>,
    /// The caller's own entries, in order.
    pub mine: LinkedList<Entry>,
    /// The words that say which words are rows, and in which order, where the caller has read one of them under the
    /// range that it holds.
    pub laid: Option<LinkedList<u64>>,
    /// The rows that the caller has read, or stored, under the range that it holds. With the layout it has noted the
    /// words of all slots as they stood.
    pub rows: LinkedList<ReadRow>,
    /// The sequence word, where the caller has read it under the range that it holds.
    pub sequence: Option<u64>,
    /// What the caller's last call still has to write.
    pub pending: Pending,
    /// What the caller held at the step that drew its last number.
    pub drew: Option<Held>,
    /// The caller's looks at the history, the last one first.
    pub looks: LinkedList<Look>,
    /// How many steps the caller has made on client words since the one that drew its last number, or since the
    /// opening.
    pub since: u64,
    /// How many of them it had made when it drew its last number, since the draw before or since the opening.
    pub took: u64,
}

/// The guard of the address space.
pub struct RowGuard;

impl Guard for RowGuard {
    ghost use Rattle.area_guard.specs.History.{HasHistory, Allowed, newcomer, rest_of, IsAtRest};
    ghost use Rattle.area_guard.specs.Keeping.{steps_keep, gains_keep, losses_keep, stays_resting};

    type Pass = Pass;

    type Note = Note;

    ghost first = { newcomer };

    ghost holds = { HasHistory };

    ghost allows = { Allowed };

    ghost rested = { rest_of };

    ghost is_at_rest = { IsAtRest };

    ghost keeps = { steps_keep };

    ghost gains = { gains_keep };

    ghost loses = { losses_keep };

    ghost stays_at_rest = { stays_resting };
}
