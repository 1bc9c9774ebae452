//! What lines of clone(2), clone3(2), fork(2) and vfork(2) tell of new threads and processes, and those of execve(2) of
//! new programs. A thread shares the address space for good, and the flag `CLONE_THREAD` tells it; a child of vfork(2),
//! or with the flag `CLONE_VM`, shares it until its execve(2). strace(1) prints the number that was made as the result.
//! `specs/Makers.antt` has the forms.

ghost use Rattle.std.specs.Prelude.{◌⊎◌, ℕ, codes, IfSome, IsNone};
ghost use Rattle.std.specs.Bool.{Decides};
ghost use Rattle.raw_lines.specs.Numbers.{EndsInNumber};
ghost use Rattle.raw_lines.specs.Makers.{Holds, IsMaker, IsMakerEnd, IsMadeAs, IsChild, IsMaking};
ghost use Rattle.raw_lines.specs.Makers.{HasThreadFlag, IsThread, HasMemoryFlag, IsShared, HidesFlags, IsWithout, IsToResult, HasResult, IsExec, EndsWithNumber};

use crate::numbers::number_end;
use line_parts::digits;
use memchr::memmem;
use strace_reader::{begins_with, ends_with, strip_back, strip_front};

/// The bases of numbers.
const DECIMAL: u64 = 10;

const HEXADECIMAL: u64 = 16;

/// The flag CLONE_THREAD: every second multiple of it has the bit.
const THREAD_FLAG: u64 = 65_536;

/// The flag CLONE_VM.
const MEMORY_FLAG: u64 = 256;

/// What a call made.
#[derive(Clone, Copy, PartialEq, Eq, Debug, Drop)]
pub enum MadeAs {
    /// A thread, in the address space of the caller.
    Thread,
    /// A process, in the address space of the caller until it calls execve(2).
    Shared,
    /// A process, with an address space of its own.
    Process,
    /// The flags aren't shown, so the line doesn't tell.
    Untold,
}

/// What a line tells of new threads, processes and programs.
#[derive(Clone, Copy, PartialEq, Eq, Debug, Drop)]
pub enum Making {
    /// A whole call, with the number that it made where it made one.
    Makes {
        /// What was made.
        kind: MadeAs,
        /// Its number.
        child: Option<u32>,
    },
    /// The first half of such a call.
    Begins(MadeAs),
    /// The second half of one, with the number that was made where one was.
    Ends(Option<u32>),
    /// A call of execve(2) that returned, or its second half: the process is another program's from here on.
    Execs,
    /// Another line.
    Nothing,
}

fn holds(text: &[u8], word: &[u8]) -> bool
    ensures { Decides result (Holds word.now text.now) }
{
    memmem::find(text, word).is_some()
}

fn is_maker(body: &[u8]) -> bool
    ensures { Decides result (IsMaker body.now) }
{
    begins_with(body, b"clone(")
        || begins_with(body, b"clone3(")
        || begins_with(body, b"fork(")
        || begins_with(body, b"vfork(")
}

fn is_maker_end(body: &[u8]) -> bool
    ensures { Decides result (IsMakerEnd body.now) }
{
    begins_with(body, b"<... clone resumed>")
        || begins_with(body, b"<... clone3 resumed>")
        || begins_with(body, b"<... fork resumed>")
        || begins_with(body, b"<... vfork resumed>")
}

/// Whether a body shows flags of clone(2) as a number that has the bit of a thread.
fn has_thread_flag(body: &[u8]) -> bool
    ensures { Decides result (HasThreadFlag body.now) }
{
    let Some(rest) = strip_front(body, b"clone(0x") else {
        return false;
    };
    let (flags, _) = digits(rest, HEXADECIMAL);
    match flags {
        Some(flags) => flags / THREAD_FLAG % 2 == 1,
        None => false,
    }
}

fn is_thread(body: &[u8]) -> bool
    ensures { Decides result (IsThread body.now) }
{
    holds(body, b"CLONE_THREAD") || has_thread_flag(body)
}

/// Whether a body shows flags of clone(2) as a number that has the bit of a shared address space.
fn has_memory_flag(body: &[u8]) -> bool
    ensures { Decides result (HasMemoryFlag body.now) }
{
    let Some(rest) = strip_front(body, b"clone(0x") else {
        return false;
    };
    let (flags, _) = digits(rest, HEXADECIMAL);
    match flags {
        Some(flags) => flags / MEMORY_FLAG % 2 == 1,
        None => false,
    }
}

fn is_shared(body: &[u8]) -> bool
    ensures { Decides result (IsShared body.now) }
{
    begins_with(body, b"vfork(") || holds(body, b"CLONE_VM") || has_memory_flag(body)
}

fn hides_flags(body: &[u8]) -> bool
    ensures { Decides result (HidesFlags body.now) }
{
    begins_with(body, b"clone3(0x") || holds(body, b"flags=0x")
}

fn made_as(body: &[u8]) -> MadeAs
    ensures { IsMadeAs body.now result }
{
    if is_thread(body) {
        MadeAs::Thread
    } else if hides_flags(body) {
        MadeAs::Untold
    } else if is_shared(body) {
        MadeAs::Shared
    } else {
        MadeAs::Process
    }
}

/// The text without a word at its end, where it ends with it.
fn without<'a>(text: &'a [u8], word: &[u8]) -> &'a [u8]
    ensures { IsWithout word.now text.now result.now }
{
    match strip_back(text, word) {
        Some(front) => front,
        None => text,
    }
}

/// The body without what strace adds behind a result that it changed or delayed.
fn to_result(body: &[u8]) -> &[u8]
    ensures { IsToResult body.now result.now }
{
    let middle = without(body, b" (DELAYED)");
    without(middle, b" (INJECTED)")
}

/// The result that a text ends with, in decimal or hexadecimal digits.
fn plain_result(text: &[u8]) -> Option<u32>
    ensures some { IfSome result (λ n. EndsInNumber 10 (codes "=") 32 text.now n ⊎ EndsInNumber 16 (codes "= 0") 120 text.now n) }
    ensures none { IsNone result → (n : ℕ) → (EndsInNumber 10 (codes "=") 32 text.now n ⊎ EndsInNumber 16 (codes "= 0") 120 text.now n) → ⊥ }
{
    match number_end(text, b"=", b' ', DECIMAL) {
        Some(number) => Some(number),
        None => number_end(text, b"= 0", b'x', HEXADECIMAL),
    }
}

/// The result that a text ends with, in strace's own numbering.
fn result_of(text: &[u8]) -> Option<u32>
    ensures some { IfSome result (HasResult text.now) }
    ensures none { IsNone result → (n : ℕ) → ¬ HasResult text.now n }
{
    match strip_back(text, b" in strace's PID NS */") {
        Some(front) => number_end(front, b"/*", b' ', DECIMAL),
        None => plain_result(text),
    }
}

/// The number that the body ends with as its result.
fn child(body: &[u8]) -> Option<u32>
    ensures { IsChild body.now result }
{
    result_of(to_result(body))
}

fn is_exec(body: &[u8]) -> bool
    ensures { Decides result (IsExec body.now) }
{
    begins_with(body, b"execve(")
        || begins_with(body, b"execveat(")
        || begins_with(body, b"<... execve resumed>")
        || begins_with(body, b"<... execveat resumed>")
}

/// Whether the result of a body is 0.
fn ends_with_zero(body: &[u8]) -> bool
    ensures { Decides result (EndsWithNumber body.now 0) }
{
    match child(body) {
        Some(number) => number == 0,
        None => false,
    }
}

/// Whether a body is a call of execve(2) that returned, or its second half.
fn executes(body: &[u8]) -> bool
    ensures { Decides result (IsExec body.now × EndsWithNumber body.now 0) }
{
    if !is_exec(body) {
        return false;
    }
    ends_with_zero(body)
}

/// What the body of a line tells of new threads, processes and programs.
pub fn told_by(body: &[u8]) -> Making
    ensures { IsMaking body.now result }
{
    if is_maker(body) {
        let kind = made_as(body);
        if ends_with(body, b"<unfinished ...>") {
            return Making::Begins(kind);
        }
        return Making::Makes {
            kind,
            child: child(body),
        };
    }
    if is_maker_end(body) {
        return Making::Ends(child(body));
    }
    if executes(body) {
        return Making::Execs;
    }
    Making::Nothing
}
