//! The forms of a line: how it begins and how it ends, in this project's own profile of strace(1). Each function
//! decides one form of `specs/Grammar.antt`, and says so in its clause; the reader of lines tries them in their
//! order.

ghost use Rattle.std.specs.Prelude.{◌≡◌, ◌≢◌, ◌++◌, [], ◌∷◌, ℕ, List, MatchOption, length};
ghost use Rattle.std.specs.Bool.{Decides};
ghost use Rattle.line_parts.specs.Leaves.{is, EachIs, NoDigit};
ghost use Rattle.strace_reader.specs.declared.item.Name.{Name as NameOf};
ghost use Rattle.strace_reader.specs.declared.item.Name.TheVariants.{Mmap, Munmap, Mprotect, Mremap};
ghost use Rattle.strace_reader.specs.Words.{call_head, resumed_head};
ghost use Rattle.strace_reader.specs.Grammar.{BeginsWith, EndsWith, unfinished, NeverReturned, IsBracketed, IsPrefixed, IsCut, IsHalf, NoHead, PidThen};

use crate::item::Name;
use line_parts::{digits, skip_spaces};

/// The base of a process number, and the first number that is none.
const DECIMAL: u64 = 10;

const PIDS: u64 = 1 << 32;

/// Whether the text begins with the word.
pub fn begins_with(text: &[u8], word: &[u8]) -> bool
    ensures { Decides result (BeginsWith word.now text.now) }
{
    text.starts_with(word)
}

/// Whether the text ends with the word.
pub fn ends_with(text: &[u8], word: &[u8]) -> bool
    ensures { Decides result (EndsWith word.now text.now) }
{
    text.ends_with(word)
}

/// What is left behind a word that the text begins with.
pub fn strip_front<'a>(text: &'a [u8], word: &[u8]) -> Option<&'a [u8]>
    ensures { MatchOption result ((rest : List ℕ) → text.now ≢ word.now ++ rest) (λ x. text.now ≡ word.now ++ x.now) }
{
    text.strip_prefix(word)
}

/// What is left before a word that the text ends with.
pub fn strip_back<'a>(text: &'a [u8], word: &[u8]) -> Option<&'a [u8]>
    ensures { MatchOption result ((front : List ℕ) → text.now ≢ front ++ word.now) (λ x. text.now ≡ x.now ++ word.now) }
{
    text.strip_suffix(word)
}

/// The name of one of the four calls that map or protect, and what is left behind it and its parenthesis.
fn named_maps(text: &[u8]) -> Option<(Name, &[u8])>
    ensures { MatchOption result
        (NoHead call_head Mmap text.now × NoHead call_head Munmap text.now × NoHead call_head Mprotect text.now × NoHead call_head Mremap text.now)
        (λ x. text.now ≡ call_head x.0 ++ x.1.now) }
{
    if let Some(rest) = strip_front(text, b"mmap(") {
        return Some((Name::Mmap, rest));
    }
    if let Some(rest) = strip_front(text, b"munmap(") {
        return Some((Name::Munmap, rest));
    }
    if let Some(rest) = strip_front(text, b"mprotect(") {
        return Some((Name::Mprotect, rest));
    }
    if let Some(rest) = strip_front(text, b"mremap(") {
        return Some((Name::Mremap, rest));
    }
    None
}

/// The name of a call that the text begins with, and what is left behind it and its parenthesis.
pub(crate) fn named(text: &[u8]) -> Option<(Name, &[u8])>
    ensures { MatchOption result ((name : NameOf) → NoHead call_head name text.now) (λ x. text.now ≡ call_head x.0 ++ x.1.now) }
{
    if let Some(found) = named_maps(text) {
        return Some(found);
    }
    if let Some(rest) = strip_front(text, b"brk(") {
        return Some((Name::Brk, rest));
    }
    if let Some(rest) = strip_front(text, b"fault(") {
        return Some((Name::Fault, rest));
    }
    if let Some(rest) = strip_front(text, b"mseal(") {
        return Some((Name::Mseal, rest));
    }
    None
}

/// The name of one of the four calls that map or protect, whose second half the text begins as, and what is left behind
/// that beginning.
fn resumed_maps(text: &[u8]) -> Option<(Name, &[u8])>
    ensures { MatchOption result
        (NoHead resumed_head Mmap text.now × NoHead resumed_head Munmap text.now × NoHead resumed_head Mprotect text.now × NoHead resumed_head Mremap text.now)
        (λ x. text.now ≡ resumed_head x.0 ++ x.1.now) }
{
    if let Some(rest) = strip_front(text, b"<... mmap resumed>") {
        return Some((Name::Mmap, rest));
    }
    if let Some(rest) = strip_front(text, b"<... munmap resumed>") {
        return Some((Name::Munmap, rest));
    }
    if let Some(rest) = strip_front(text, b"<... mprotect resumed>") {
        return Some((Name::Mprotect, rest));
    }
    if let Some(rest) = strip_front(text, b"<... mremap resumed>") {
        return Some((Name::Mremap, rest));
    }
    None
}

/// The name of a call whose second half the text begins as, and what is left behind that beginning.
pub(crate) fn resumed(text: &[u8]) -> Option<(Name, &[u8])>
    ensures { MatchOption result ((name : NameOf) → NoHead resumed_head name text.now) (λ x. text.now ≡ resumed_head x.0 ++ x.1.now) }
{
    if let Some(found) = resumed_maps(text) {
        return Some(found);
    }
    if let Some(rest) = strip_front(text, b"<... brk resumed>") {
        return Some((Name::Brk, rest));
    }
    if let Some(rest) = strip_front(text, b"<... fault resumed>") {
        return Some((Name::Fault, rest));
    }
    if let Some(rest) = strip_front(text, b"<... mseal resumed>") {
        return Some((Name::Mseal, rest));
    }
    None
}

/// The process number that the text begins with, and what is left behind it and this word, which begins with no digit.
fn pid_then<'a>(text: &'a [u8], word: &[u8]) -> Option<(u32, &'a [u8])>
    requires { NoDigit 10 word.now × (word.now ≢ []) }
    ensures { MatchOption result ((pid : ℕ) → (rest : List ℕ) → ¬ PidThen word.now text.now pid rest) (λ x. PidThen word.now text.now x.0 x.1.now) }
{
    let (value, behind) = digits(text, DECIMAL);
    let Some(number) = value else {
        return None;
    };
    if number >= PIDS {
        return None;
    }
    if behind.len() == text.len() {
        return None;
    }
    match strip_front(behind, word) {
        Some(rest) => Some((number as u32, rest)),
        None => None,
    }
}

/// The process number that the text begins with in brackets, and what is left behind those and a space.
fn bracketed(text: &[u8]) -> Option<(u32, &[u8])>
    ensures { MatchOption result ((pid : ℕ) → (rest : List ℕ) → ¬ IsBracketed text.now pid rest) (λ x. IsBracketed text.now x.0 x.1.now) }
{
    match strip_front(text, b"[pid ") {
        Some(rest) => pid_then(skip_spaces(rest), b"] "),
        None => None,
    }
}

/// The process that the text's prefix names, and what is left behind that prefix but for more spaces.
fn prefix(text: &[u8]) -> Option<(u32, &[u8])>
    ensures { MatchOption result ((pid : ℕ) → (rest : List ℕ) → ¬ IsPrefixed text.now pid rest) (λ x. IsPrefixed text.now x.0 x.1.now) }
{
    match pid_then(text, b" ") {
        Some(x) => Some(x),
        None => bracketed(text),
    }
}

/// The process of a line, 0 where it has no prefix, and what is left behind the prefix and all its spaces.
pub fn cut(text: &[u8]) -> (u32, &[u8])
    ensures { IsCut text.now result.0 result.1.now }
{
    match prefix(text) {
        Some((pid, rest)) => (pid, skip_spaces(rest)),
        None => (0, text),
    }
}

/// What is left before all the spaces at the end.
fn trim(text: &[u8]) -> &[u8]
    ensures { (spaces : List ℕ) × EachIs (is 32) spaces × (text.now ≡ result.now ++ spaces) × ((front : List ℕ) → result.now ≢ front ++ (32 ∷ [])) }
{
    let mut left = text;
    while let Some(front) = strip_back(left, b" ") {
        left = front;
    }
    left
}

/// Whether the text ends as the line of a call that never returned does.
pub(crate) fn never_returned(text: &[u8]) -> bool
    ensures { Decides result (NeverReturned text.now) }
{
    match strip_back(text, b"= ?") {
        Some(rest) => match strip_back(rest, b" ") {
            Some(rest) => ends_with(trim(rest), b"<unfinished ...>)"),
            None => false,
        },
        None => false,
    }
}

/// How many bytes of the first half of a call are kept: those before the spaces and the ending.
pub(crate) fn first_half(text: &[u8]) -> Option<usize>
    ensures { MatchOption result (¬ EndsWith unfinished text.now) (λ len. (half : List ℕ) × IsHalf text.now half × (len ≡ length half)) }
{
    match strip_back(text, b"<unfinished ...>") {
        Some(front) => Some(trim(front).len()),
        None => None,
    }
}
