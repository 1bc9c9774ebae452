//! Mends of lines that the reader refuses though their meaning is clear: a file that was deleted, a descriptor that is
//! no number, a call that strace let go, an error without a name. Each is found from the place that was refused, or
//! from the line's end, and counts only where the mended line is read. `specs/Mends.antt` has them one by one.

ghost use Rattle.std.specs.Prelude.{◌≡◌, ◌≤◌, ◌+◌, ℕ, List, MatchOption, IfOk, IfSome, IsNone, length};
ghost use Rattle.raw_lines.specs.Splices.{whole};
ghost use Rattle.std.specs.Bool.{Decides};
ghost use Rattle.strace_reader.specs.Grammar.{Refuses};
ghost use Rattle.raw_lines.specs.Mends.{Mends, MendsDetached, MendsDeleted, MendsWord, MendsNegative, MendsLong, MendsError, IsMended, IsWhole, AreOfOne};

use line_parts::{skip_digits, word};
use memchr::memmem;
use std::alloc::{AllocError, Global};
use strace_reader::{BadCall, Item, What, cut, read_line, strip_back, strip_front};

/// How many mends one line may take: its descriptor, its path and its error.
const MOST_MENDS: u32 = 3;

/// How a line ends whose call strace let go.
const DETACHED: &[u8] = b"<detached ...>";

/// What stands behind the path of a file that was deleted.
const DELETED: &[u8] = b">(deleted),";

/// A text in three parts, of which the middle one takes the place of other bytes.
#[derive(Clone, Copy, Debug)]
pub struct Splice<'a> {
    /// The bytes before the place.
    pub front: &'a [u8],
    /// What stands there now.
    pub middle: &'static [u8],
    /// The bytes behind the place.
    pub back: &'a [u8],
}

impl Splice<'_> {
    ghost use Rattle.raw_lines.specs.Splices.{whole};

    /// The three parts as one text.
    pub fn text(&self, alloc: Global) -> Result<Vec<u8>, AllocError>
        ensures { IfOk result (λ text. text.items ≡ whole self.now) }
    {
        let mut text = Vec::from_slice(alloc, self.front)?;
        text.extend_from_slice(self.middle)?;
        text.extend_from_slice(self.back)?;
        Ok(text)
    }
}

/// A call that strace let go, as one that never returned.
fn mend_detached(text: &[u8]) -> Option<Splice<'_>>
    ensures { MatchOption result ((mended : List ℕ) → ¬ MendsDetached text.now mended) (λ x. MendsDetached text.now (whole x)) }
{
    let front = strip_back(text, DETACHED)?;
    Some(Splice {
        front,
        middle: b"<unfinished ...>) = ?",
        back: &[],
    })
}

/// The path of a file that was deleted, without the word behind it.
fn mend_deleted(text: &[u8], bad: BadCall) -> Option<Splice<'_>>
    ensures { MatchOption result ((mended : List ℕ) → ¬ MendsDeleted text.now bad mended) (λ x. MendsDeleted text.now bad (whole x)) }
{
    if bad.what != What::Comma || bad.column as usize != text.len() + 1 {
        return None;
    }
    let at = memmem::find(text, DELETED)?;
    Some(Splice {
        front: &text[..at],
        middle: b">,",
        back: &text[at + DELETED.len()..],
    })
}

/// A descriptor that is a word, where the number was due.
fn mend_word(text: &[u8], bad: BadCall) -> Option<Splice<'_>>
    requires { (bad.column ≤ length text.now + 1) × (1 ≤ bad.column) }
    ensures { MatchOption result ((mended : List ℕ) → ¬ MendsWord text.now bad mended) (λ x. MendsWord text.now bad (whole x)) }
{
    if bad.what != What::Number {
        return None;
    }
    let (front, rest) = text.split_at(bad.column as usize - 1);
    match word(rest) {
        Ok((_, back)) => Some(Splice {
            front,
            middle: b"-1",
            back,
        }),
        Err(_) => None,
    }
}

/// A descriptor below -1 that doesn't begin with -1, where its digits were due.
fn mend_negative(text: &[u8], bad: BadCall) -> Option<Splice<'_>>
    requires { (bad.column ≤ length text.now + 1) × (1 ≤ bad.column) }
    ensures { MatchOption result ((mended : List ℕ) → ¬ MendsNegative text.now bad mended) (λ x. MendsNegative text.now bad (whole x)) }
{
    if bad.what != What::Number {
        return None;
    }
    let (before, rest) = text.split_at(bad.column as usize - 1);
    let front = strip_back(before, b"-")?;
    match skip_digits(rest, What::Number) {
        Ok(back) => Some(Splice {
            front,
            middle: b"-1",
            back,
        }),
        Err(_) => None,
    }
}

/// A descriptor that begins with -1 and has more digits, where the comma was due.
fn mend_long(text: &[u8], bad: BadCall) -> Option<Splice<'_>>
    requires { (bad.column ≤ length text.now + 1) × (1 ≤ bad.column) }
    ensures { MatchOption result ((mended : List ℕ) → ¬ MendsLong text.now bad mended) (λ x. MendsLong text.now bad (whole x)) }
{
    if bad.what != What::Comma {
        return None;
    }
    let (before, rest) = text.split_at(bad.column as usize - 1);
    let front = strip_back(before, b"-1")?;
    match skip_digits(rest, What::Comma) {
        Ok(back) => Some(Splice {
            front,
            middle: b"-1",
            back,
        }),
        Err(_) => None,
    }
}

/// An error that has a number and no name, where the name was due.
fn mend_error(text: &[u8], bad: BadCall) -> Option<Splice<'_>>
    requires { (bad.column ≤ length text.now + 1) × (1 ≤ bad.column) }
    ensures { MatchOption result ((mended : List ℕ) → ¬ MendsError text.now bad mended) (λ x. MendsError text.now bad (whole x)) }
{
    if bad.what != What::Result {
        return None;
    }
    let (before, rest) = text.split_at(bad.column as usize - 1);
    let front = strip_back(before, b"-1 ")?;
    let back = strip_front(rest, b"(errno ")?;
    Some(Splice {
        front,
        middle: b"-1 UNKNOWN (errno ",
        back,
    })
}

/// The line with one place mended, where the refusal is of a form that is mended.
pub fn mend(text: &[u8], bad: BadCall) -> Option<Splice<'_>>
    requires { (bad.column ≤ length text.now + 1) × (1 ≤ bad.column) }
    ensures mends { MatchOption result ((mended : List ℕ) → ¬ Mends text.now bad mended) (λ x. Mends text.now bad (whole x)) }
    ensures short { IfSome result (λ x. length (whole x) ≤ length text.now + 8) }
{
    if let Some(splice) = mend_detached(text) {
        return Some(splice);
    }
    if let Some(splice) = mend_deleted(text, bad) {
        return Some(splice);
    }
    if let Some(splice) = mend_word(text, bad) {
        return Some(splice);
    }
    if let Some(splice) = mend_negative(text, bad) {
        return Some(splice);
    }
    if let Some(splice) = mend_long(text, bad) {
        return Some(splice);
    }
    mend_error(text, bad)
}

/// Whether the two lines are of one process.
fn of_one_process(text: &[u8], other: &[u8]) -> bool
    ensures { Decides result (AreOfOne text.now other.now) }
{
    let (pid, _) = cut(text);
    let (same, _) = cut(other);
    pid == same
}

/// Whether the item is a whole call, or a line that is passed over.
fn is_whole(item: Item) -> bool
    ensures { Decides result (IsWhole item) }
{
    match item {
        Item::Played { .. } | Item::Other | Item::Blank => true,
        Item::Unfinished { .. } | Item::Resumed { .. } => false,
    }
}

/// The line that a refused one becomes by mends, which is read as a whole. `None` where it can't be mended.
pub fn mended(alloc: Global, text: &[u8], bad: BadCall) -> Result<Option<Vec<u8>>, AllocError>
    requires short { length text.now ≤ 131040 }
    requires refused { Refuses text.now bad }
    ensures mended { IfOk result (λ found. IfSome found (λ line. IsMended text.now line.items)) }
    ensures only { IfOk result (λ found. IsNone found → (line : List ℕ) → ¬ IsMended text.now line) }
    ensures short { IfOk result (λ found. IfSome found (λ line. length line.items ≤ length text.now + 24)) }
{
    let mut line = Vec::from_slice(alloc, text)?;
    let mut bad = bad;
    'mends: for _ in 0..MOST_MENDS {
        let next = match mend(line.as_slice(), bad) {
            Some(splice) => splice.text(alloc)?,
            None => return Ok(None),
        };
        line = next;
        match read_line(line.as_slice()) {
            Ok(item) => {
                if !is_whole(item) {
                    return Ok(None);
                }
                if !of_one_process(text, line.as_slice()) {
                    return Ok(None);
                }
                return Ok(Some(line));
            }
            Err(other) => bad = other,
        }
    }
    Ok(None)
}
