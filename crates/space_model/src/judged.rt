//! What a judged call comes to, before it is known how many rows its change makes: a refusal, a reply alone, or a
//! change. `IsJudged` in `specs/` says when a call was judged rightly.

ghost use Rattle.std.specs.Prelude.{◌≡◌};
ghost use Rattle.space_model.specs.Answers.{full_reply};

use crate::paint::Patch;
use page_types::{Reply, Short, Why};

/// A change of pages by one patch or two, and its reply. The patches rise: the second begins at or behind the end of
/// the first, and the last ends at or below `LIMIT`. A patch may have no page.
#[derive(Clone, Copy, PartialEq, Eq, Hash, Debug)]
pub struct Change {
    /// The pages that change, or the lower ones where they are two stretches.
    pub first: Patch,
    /// The higher ones, if there are any.
    pub second: Option<Patch>,
    /// The reply.
    pub reply: Reply,
    /// The reply where there would be too many rows; None for a refusal that counts them.
    pub full: Option<Reply>,
}

impl Change {
    ghost use Rattle.std.specs.Prelude.{◌≡◌};
    ghost use Rattle.space_model.specs.Cutting.{last_end};
    ghost use Rattle.space_model.specs.Judges.{patches_of};

    /// The page after the last one that changes.
    pub(crate) fn end(self) -> u64
        ensures { result ≡ last_end 0 (patches_of self) }
    {
        match self.second {
            Some(second) => second.hi,
            None => self.first.hi,
        }
    }
}

/// What a judged call comes to.
#[derive(Clone, Copy, PartialEq, Eq, Hash, Debug)]
pub enum Judged {
    /// It is refused.
    Refused(Why),
    /// It has this reply, and changes nothing.
    Keeps(Reply),
    /// It changes pages, unless there would be too many rows.
    Changes(Change),
}

/// The reply where a change would make so many rows, more than `ROWS`.
pub fn full_reply(full: Option<Reply>, rows: u32) -> Reply
    ensures { result ≡ full_reply full rows }
{
    match full {
        Some(reply) => reply,
        None => Reply::Refused(Why::Enomem(Short::Rows(rows))),
    }
}
