//! How the lines of a log are numbered. Without `-o`, strace(1) prints `[pid N]` only while there are several threads;
//! then the first thread's lines come with and without its number, and each line gets a plain one.
//! `specs/Numbering.antt` says when, and which.

ghost use Rattle.std.specs.Prelude.{◌≡◌, ◌≢◌, ◌⊎◌, ◌↔◌, ◌≤◌, ◌+◌, ◌++◌, ℕ, List, [], ◌∷◌, length, Contains, MatchOption, Option, option_map, IfOk, IfSome, IsNone};
ghost use Rattle.std.specs.Prelude.{OnOk};
ghost use Rattle.raw_lines.specs.Marks.{IsUnread};
ghost use Rattle.raw_logs.specs.Log.{texts_of};
ghost use Rattle.std.specs.Bool.{Decides};
ghost use Rattle.line_parts.specs.Lines.{lines_of};
ghost use Rattle.strace_reader.specs.Grammar.{IsBracketed};
ghost use Rattle.raw_logs.specs.Numbering.{HasBrackets, HasNoNumber, IsBareCall, IsAttached, Gives, IsLater, IsStart, StartsAt, IsMixed, IsFirstThread};
ghost use Rattle.raw_logs.specs.Numbering.{IsNumbering};
ghost use Rattle.raw_logs.specs.Numbering.{ChangesNumber, with_number};
ghost use Rattle.raw_logs.specs.Stages.{Has, EachLater, told_number};

use crate::lines::Lines;
use line_parts::next_line;
use raw_lines::{Making, is_of_profile, is_unread, number_end, told_by};
use std::alloc::{AllocError, Global};
use std::collections::BTreeSet;
use strace_reader::{begins_with, cut, strip_back, strip_front};

/// The base of a process number.
const DECIMAL: u64 = 10;

/// How the lines of a log are numbered.
#[derive(Clone, Copy, PartialEq, Eq, Debug)]
pub enum Numbering {
    /// As they are.
    AsPrinted,
    /// Each with a plain number; one without gets that of the first thread, where it is known.
    Plain(Option<u32>),
}

/// The number in brackets that the text begins with.
fn bracketed(text: &[u8]) -> Option<u32>
    ensures { MatchOption result (¬ HasBrackets text.now) (λ pid. (rest : List ℕ) × IsBracketed text.now pid rest) }
{
    if !begins_with(text, b"[pid ") {
        return None;
    }
    let (pid, body) = cut(text);
    if body.len() == text.len() {
        None
    } else {
        Some(pid)
    }
}

/// Whether the text begins with a number in brackets.
fn has_brackets(text: &[u8]) -> bool
    ensures { Decides result (HasBrackets text.now) }
{
    match bracketed(text) {
        Some(_) => true,
        None => false,
    }
}

/// Whether the text begins with no number of a process.
fn has_no_number(text: &[u8]) -> bool
    ensures { Decides result (HasNoNumber text.now) }
{
    let (_, body) = cut(text);
    body.len() == text.len()
}

/// Whether the text is a call of the profile, or the second half of one, without a number.
fn is_bare_call(text: &[u8]) -> bool
    ensures { Decides result (IsBareCall text.now) }
{
    has_no_number(text) && is_of_profile(text)
}

/// Whether one of the lines begins with a number in brackets.
fn some_bracketed(alloc: Global, lines: &Lines) -> Result<bool, AllocError>
    ensures { IfOk result (λ is. Decides is ((text : List ℕ) × Contains (texts_of lines.now) text × HasBrackets text)) }
{
    let mut room = Vec::new(alloc);
    'lines: for place in 0..lines.len() {
        let (_, text) = lines.at(place, &mut room)?;
        if has_brackets(text) {
            return Ok(true);
        }
    }
    Ok(false)
}

/// Whether one of the lines is a call of the profile, or a half of one, without a number.
fn some_bare_call(alloc: Global, lines: &Lines) -> Result<bool, AllocError>
    ensures { IfOk result (λ is. Decides is ((text : List ℕ) × Contains (texts_of lines.now) text × IsBareCall text)) }
{
    let mut room = Vec::new(alloc);
    'lines: for place in 0..lines.len() {
        let (_, text) = lines.at(place, &mut room)?;
        if is_bare_call(text) {
            return Ok(true);
        }
    }
    Ok(false)
}

/// Whether the log has lines with a number in brackets, and calls without a number.
fn is_mixed(alloc: Global, lines: &Lines) -> Result<bool, AllocError>
    ensures { IfOk result (λ is. Decides is (IsMixed (texts_of lines.now))) }
{
    let brackets = some_bracketed(alloc, lines)?;
    let bare = some_bare_call(alloc, lines)?;
    Ok(brackets && bare)
}

/// The number that a message says was attached.
fn attached(line: &[u8]) -> Option<u32>
    ensures some { IfSome result (λ pid. IsAttached (line.now ∷ []) pid) }
    ensures none { IsNone result → (pid : ℕ) → ¬ IsAttached (line.now ∷ []) pid }
{
    let front = strip_back(line, b" attached")?;
    number_end(front, b"strace: Process", b' ', DECIMAL)
}

/// Puts in the number that a line says was attached, where it is a message that says it.
fn add_attached(found: &mut BTreeSet<u32>, line: &[u8]) -> Result<(), AllocError>
    ensures { OnOk result ((pid : ℕ) → Has found.new pid ↔ (Has found.old pid ⊎ IsAttached (line.now ∷ []) pid)) }
{
    let Some(pid) = attached(line) else {
        return Ok(());
    };
    match found.insert(pid) {
        Ok(_) => Ok(()),
        Err(_) => Err(AllocError),
    }
}

/// The numbers that messages say were attached.
fn all_attached(alloc: Global, whole: &[u8]) -> Result<BTreeSet<u32>, AllocError>
    ensures { IfOk result (λ found. (pid : ℕ) → Has found pid ↔ IsAttached (lines_of whole.now) pid) }
{
    let mut found = BTreeSet::new(alloc);
    let mut rest = whole;
    'lines: while let Some((line, behind)) = next_line(rest) {
        add_attached(&mut found, line)?;
        rest = behind;
    }
    Ok(found)
}

/// The number that is told as the result of a call that makes a process or a thread.
fn told_number(making: Making) -> Option<u32>
    ensures { result ≡ told_number making }
{
    match making {
        Making::Makes { child, .. } => child,
        Making::Ends(child) => child,
        _ => None,
    }
}

/// The number that a line gives as such a result.
fn given(text: &[u8]) -> Option<u32>
    ensures some { IfSome result (Gives text.now) }
    ensures none { IsNone result → (pid : ℕ) → ¬ Gives text.now pid }
{
    let (_, body) = cut(text);
    told_number(told_by(body))
}

/// Puts in the number that a line gives as such a result, where it gives one.
fn add_given(found: &mut BTreeSet<u32>, text: &[u8]) -> Result<(), AllocError>
    ensures { OnOk result ((pid : ℕ) → Has found.new pid ↔ (Has found.old pid ⊎ Gives text.now pid)) }
{
    let Some(pid) = given(text) else {
        return Ok(());
    };
    match found.insert(pid) {
        Ok(_) => Ok(()),
        Err(_) => Err(AllocError),
    }
}

/// The numbers that messages say were attached, or that lines give as such results.
fn all_later(alloc: Global, whole: &[u8], lines: &Lines) -> Result<BTreeSet<u32>, AllocError>
    ensures { IfOk result (λ found. (pid : ℕ) → Has found pid ↔ IsLater (lines_of whole.now) (texts_of lines.now) pid) }
{
    let mut found = all_attached(alloc, whole)?;
    let mut room = Vec::new(alloc);
    'lines: for place in 0..lines.len() {
        let (_, text) = lines.at(place, &mut room)?;
        add_given(&mut found, text)?;
    }
    Ok(found)
}

/// The number in brackets that the text begins with, where it didn't come later.
fn fresh(text: &[u8], later: &BTreeSet<u32>) -> Option<u32>
    ensures { (log all : List (List ℕ)) → ((pid : ℕ) → Has later.now pid ↔ IsLater log all pid)
        → MatchOption result (EachLater (IsLater log all) text.now) (λ pid. (rest : List ℕ) × IsBracketed text.now pid rest × ¬ IsLater log all pid) }
{
    let Some(pid) = bracketed(text) else {
        return None;
    };
    if later.contains(&pid) {
        return None;
    }
    Some(pid)
}

/// The number of the first thread: the first in brackets that didn't come later.
fn first_thread(
    alloc: Global,
    lines: &Lines,
    later: &BTreeSet<u32>,
) -> Result<Option<u32>, AllocError>
    ensures { IfOk result (λ found. (log all : List (List ℕ)) → ((pid : ℕ) → Has later.now pid ↔ IsLater log all pid)
        → MatchOption found ((pid : ℕ) → ¬ IsFirstThread (IsLater log all) (texts_of lines.now) pid) (IsFirstThread (IsLater log all) (texts_of lines.now))) }
{
    let mut room = Vec::new(alloc);
    'lines: for place in 0..lines.len() {
        let (_, text) = lines.at(place, &mut room)?;
        if let Some(pid) = fresh(text, later) {
            return Ok(Some(pid));
        }
    }
    Ok(None)
}

/// The number of the message with which strace begins where it is let to a process.
fn start_of(line: &[u8]) -> Option<u32>
    ensures { MatchOption result ((pid : ℕ) → ¬ IsStart line.now pid) (IsStart line.now) }
{
    let text = strip_front(line, b"strace: Process ")?;
    let (pid, body) = cut(text);
    if pid == 0 || !begins_with(body, b"attached") {
        return None;
    }
    Some(pid)
}

/// The number with which the first line of a log says that strace began.
fn start(whole: &[u8]) -> Option<u32>
    ensures { MatchOption result ((pid : ℕ) → ¬ StartsAt (lines_of whole.now) pid) (StartsAt (lines_of whole.now)) }
{
    let (line, _) = next_line(whole)?;
    start_of(line)
}

/// How the lines of a log are numbered, by its raw lines and its plain texts.
pub(crate) fn numbering_of(
    alloc: Global,
    whole: &[u8],
    lines: &Lines,
) -> Result<Numbering, AllocError>
    ensures { IfOk result (λ numbering. IsNumbering (lines_of whole.now) (texts_of lines.now) numbering) }
{
    if let Some(pid) = start(whole) {
        return Ok(Numbering::Plain(Some(pid)));
    }
    let mixed = is_mixed(alloc, lines)?;
    if !mixed {
        return Ok(Numbering::AsPrinted);
    }
    let later = all_later(alloc, whole, lines)?;
    let first = first_thread(alloc, lines, &later)?;
    Ok(Numbering::Plain(first))
}

/// Whether a text gets the number of the first thread: where it has none, isn't empty, and bears no mark.
fn gets_number(text: &[u8]) -> bool
    ensures { Decides result (HasNoNumber text.now × (text.now ≢ []) × ¬ IsUnread text.now) }
{
    if text.is_empty() {
        return false;
    }
    if is_unread(text) {
        return false;
    }
    has_no_number(text)
}

/// The number that is written before a text, and the text behind it, where its number changes.
pub(crate) fn renumbered(first: Option<u32>, text: &[u8]) -> Option<(u32, &[u8])>
    ensures { MatchOption result ((line : List ℕ) → ¬ ChangesNumber (Numbering.Plain first) text.now line)
        (λ x. ChangesNumber (Numbering.Plain first) text.now (with_number x.0 x.1.now)) }
{
    if let Some(pid) = bracketed(text) {
        let (_, body) = cut(text);
        return Some((pid, body));
    }
    let Some(pid) = first else {
        return None;
    };
    if gets_number(text) {
        return Some((pid, text));
    }
    None
}

/// The number that lines without one get.
pub(crate) fn first_of(numbering: Numbering) -> u32 {
    match numbering {
        Numbering::Plain(Some(pid)) => pid,
        _ => 0,
    }
}
