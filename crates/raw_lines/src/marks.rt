//! Lines of strace(1) itself, and the mark of an unread line. `specs/Marks.antt` has the forms: a message on a line of
//! its own, a message that breaks into a line, a line of a stack. A reader may rely on each answer being that form's.

ghost use Rattle.std.specs.Prelude.{◌≡◌, ◌⊎◌, ◌≤◌, ◌++◌, ℕ, List, [], ◌∷◌, MatchOption, codes};
ghost use Rattle.std.specs.Bool.{Decides};
ghost use Rattle.line_parts.specs.Leaves.{AllDigits, worth};
ghost use Rattle.strace_reader.specs.Grammar.{EndsWith};
ghost use Rattle.raw_lines.specs.Marks.{IsUnread, IsStackLine, IsMessage, IsBroken};

use memchr::memchr;
use strace_reader::{begins_with, ends_with, strip_back};

/// What a line begins with that is passed on unread. It begins as the line of a signal does.
pub const UNREAD_MARK: &[u8] = b"--- unread: ";

/// Whether the line bears the mark of an unread line.
pub fn is_unread(text: &[u8]) -> bool
    ensures { Decides result (IsUnread text.now) }
{
    begins_with(text, b"--- unread: ")
}

/// Whether the line is one of a stack, which the option `-k` adds.
pub fn is_stack_line(text: &[u8]) -> bool
    ensures { Decides result (IsStackLine text.now) }
{
    begins_with(text, b" > ")
}

/// Whether the bytes, none of which is a space, are the folder of a program: none at all, or a slash at the end.
fn is_folder(path: &[u8]) -> bool
    ensures { Decides result ((path.now ≡ []) ⊎ EndsWith (codes "/") path.now) }
{
    match path {
        [] => true,
        _ => ends_with(path, b"/"),
    }
}

/// Whether the line is a message of strace's own, as `strace: Process 4712 attached`.
pub fn is_message(text: &[u8]) -> bool
    ensures { Decides result (IsMessage text.now) }
{
    let Some(space) = memchr(b' ', text) else {
        return false;
    };
    match strip_back(&text[..space], b"strace:") {
        Some(path) => is_folder(path),
        None => false,
    }
}

/// The text before all the digits at its end.
pub(crate) fn before_digits(text: &[u8]) -> &[u8]
    ensures digits { (digits : List ℕ) × AllDigits 10 digits × (text.now ≡ result.now ++ digits) }
    ensures all { (front : List ℕ) (byte : ℕ) → result.now ≡ front ++ (byte ∷ []) → 10 ≤ worth byte }
{
    let mut left = text;
    'digits: while let Some((last, front)) = left.split_last() {
        if !last.is_ascii_digit() {
            break;
        }
        left = front;
    }
    left
}

/// The text before ` attached` or ` detached`, where it ends so.
fn before_verb(text: &[u8]) -> Option<&[u8]>
    ensures { MatchOption result ((¬ EndsWith (codes " attached") text.now) × (¬ EndsWith (codes " detached") text.now))
        (λ x. (text.now ≡ x.now ++ codes " attached") ⊎ (text.now ≡ x.now ++ codes " detached")) }
{
    match strip_back(text, b" attached") {
        Some(front) => Some(front),
        None => strip_back(text, b" detached"),
    }
}

/// What stands of a line before the message that broke into it, where one did: `munmap(0x10000, 4096` of
/// `munmap(0x10000, 4096strace: Process 4712 attached`.
pub fn broken(text: &[u8]) -> Option<&[u8]>
    ensures { MatchOption result ((front : List ℕ) → ¬ IsBroken text.now front) (λ x. IsBroken text.now x.now) }
{
    let numbered = before_verb(text)?;
    let front = before_digits(numbered);
    if front.len() == numbered.len() {
        return None;
    }
    strip_back(front, b"strace: Process ")
}
