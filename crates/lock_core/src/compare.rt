//! What a seat makes of an unmarked node that it meets on its way through the list. The rules are those of
//! `specs/Compare.antt`: the order of the list for a seat that fills a node, and a validation for one whose node is
//! linked (Kogan, Dice and Issa 2020).
ghost use Rattle.std.specs.Prelude.{◌≡◌};
ghost use Rattle.lock_core.specs.Words.{mode_of};
ghost use Rattle.lock_core.specs.Compare.{is_reader, compared, forward, from_head, verdict_of};

use crate::range::{Mode, Range};
use crate::views::{Own, Todo};

/// What a seat makes of an unmarked node.
#[derive(Clone, Copy, Debug, PartialEq, Eq)]
pub enum Verdict {
    /// It goes on past the node.
    Past,
    /// It stops before the node.
    Stop,
    /// The node is in conflict with its own.
    Conflict,
}

fn mode_in(word: u64) -> Mode
    ensures { result ≡ mode_of word }
{
    if word % 2 == 1 {
        Mode::Writer
    } else {
        Mode::Reader
    }
}

fn reads(mode: Mode) -> bool
    ensures { result ≡ is_reader mode }
{
    match mode {
        Mode::Reader => true,
        Mode::Writer => false,
    }
}

fn compare(mode: Mode, lo: u64, hi: u64, node_lo: u64, word: u64) -> Verdict
    ensures { result ≡ compared mode lo hi node_lo word }
{
    if word / 2 <= lo {
        Verdict::Past
    } else if reads(mode) && reads(mode_in(word)) && node_lo < lo {
        Verdict::Past
    } else if hi <= node_lo {
        Verdict::Stop
    } else if reads(mode) && reads(mode_in(word)) && lo <= node_lo {
        Verdict::Stop
    } else {
        Verdict::Conflict
    }
}

fn validate_forward(range: Range, node_lo: u64, word: u64) -> Verdict
    ensures { result ≡ forward range node_lo word }
{
    if range.hi() <= node_lo {
        Verdict::Stop
    } else if reads(mode_in(word)) {
        Verdict::Past
    } else if range.lo() < word / 2 {
        Verdict::Conflict
    } else {
        Verdict::Past
    }
}

fn validate_from_head(range: Range, node_lo: u64, word: u64) -> Verdict
    ensures { result ≡ from_head range node_lo word }
{
    if range.lo() < word / 2 && node_lo < range.hi() {
        Verdict::Conflict
    } else {
        Verdict::Past
    }
}

/// What the owner of this own node makes of an unmarked node with this lo word and this hi word. A node that is being
/// filled and whose ends aren't both known is in conflict with every other.
pub fn judge(own: &Own, node_lo: u64, word: u64) -> Verdict
    ensures { result ≡ verdict_of own.now node_lo word }
{
    match *own {
        Own::Nothing => Verdict::Past,
        Own::Filling {
            lo: Some(lo),
            hi: Some(hi),
            mode,
            ..
        } => compare(mode, lo, hi, node_lo, word),
        Own::Filling { .. } => Verdict::Conflict,
        Own::Linked { range, todo, .. } => match todo {
            Todo::Forward => validate_forward(range, node_lo, word),
            Todo::FromHead => validate_from_head(range, node_lo, word),
            Todo::Done => Verdict::Past,
        },
    }
}
