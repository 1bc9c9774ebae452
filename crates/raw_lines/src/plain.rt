//! The plain text of a line: without fields, carriage returns at the end, and the time that the call took. It comes in
//! two slices of the line, the number of the process with its spaces, and what is left behind it, so it takes no
//! memory. `IsPlain` in `specs/Plain.antt` is what it is; a reader may rely on bytes being taken away alone.

ghost use Rattle.std.specs.Prelude.{◌≡◌, ◌≤◌, ◌+◌, ◌++◌, ℕ, List, MatchOption, length};
ghost use Rattle.std.specs.Bool.{Decides};
ghost use Rattle.raw_lines.specs.Plain.{IsFront, IsBeforeReturns, IsBeforeTime, IsUntimed, IsTaken, IsPlain, IsStill};

use crate::fields::{clock, skip_fields};
use crate::marks::{broken, is_message, is_stack_line, is_unread};
use memchr::memrchr;
use strace_reader::{cut, strip_back};

/// The number of the process with its spaces, and the body of the line.
fn split(text: &[u8]) -> (&[u8], &[u8])
    ensures { IsFront text.now result.0.now result.1.now }
{
    let (_, body) = cut(text);
    (&text[..text.len() - body.len()], body)
}

/// The text before all the carriage returns at its end.
fn before_returns(text: &[u8]) -> &[u8]
    ensures { IsBeforeReturns text.now result.now }
{
    let mut left = text;
    'returns: while let Some(front) = strip_back(left, b"\r") {
        left = front;
    }
    left
}

/// The text before the time that its call took, where it ends with one.
fn before_time(text: &[u8]) -> Option<&[u8]>
    ensures { MatchOption result ((front : List ℕ) → ¬ IsBeforeTime text.now front) (λ x. IsBeforeTime text.now x.now) }
{
    let at = memrchr(b'<', text)?;
    let front = strip_back(&text[..at], b" ")?;
    let rest = clock(&text[at + 1..])?;
    if rest == b">".as_slice() {
        Some(front)
    } else {
        None
    }
}

/// The text without the time that its call took.
fn untimed(text: &[u8]) -> &[u8]
    ensures { IsUntimed text.now result.now }
{
    before_time(text).unwrap_or(text)
}

/// What is left of a line that bears no mark, in two parts.
fn taken(text: &[u8]) -> (&[u8], &[u8])
    ensures taken { IsTaken text.now (result.0.now ++ result.1.now) }
    ensures short { length result.0.now + length result.1.now ≤ length text.now }
{
    let (front, body) = split(text);
    (front, untimed(before_returns(skip_fields(body))))
}

/// The plain text of a line, in two parts: one behind the other they are the text.
pub fn plain_parts(text: &[u8]) -> (&[u8], &[u8])
    ensures plain { IsPlain text.now (result.0.now ++ result.1.now) }
    ensures short { length result.0.now + length result.1.now ≤ length text.now }
{
    if is_unread(text) {
        return (text, &[]);
    }
    taken(text)
}

/// Whether the line stays as it is wherever it is read again.
pub fn is_still(text: &[u8]) -> bool
    ensures { Decides result (IsStill text.now) }
{
    if is_unread(text) {
        return true;
    }
    if is_message(text) {
        return false;
    }
    if is_stack_line(text) {
        return false;
    }
    if broken(text).is_some() {
        return false;
    }
    let (front, end) = taken(text);
    front.len() + end.len() == text.len()
}
