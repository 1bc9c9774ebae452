//! What a line becomes that no other half belongs to: it stays as it is, it is mended, it is written as a call that
//! never returned, or it bears the mark of an unread line. `Becomes` in `specs/Places.antt` is what it says.

ghost use Rattle.std.specs.Prelude.{◌≡◌, ◌⊎◌, ◌≤◌, ◌++◌, ℕ, List, length, IfOk, IfSome, IsNone};
ghost use Rattle.std.specs.Bool.{Decides};
ghost use Rattle.strace_reader.specs.declared.item.Item.{Item as ItemOf};
ghost use Rattle.strace_reader.specs.declared.item.Item.TheVariants.{Played, Unfinished};
ghost use Rattle.raw_lines.specs.Mends.{IsWhole};
ghost use Rattle.strace_reader.specs.declared.item.Name.{Name};
ghost use Rattle.strace_reader.specs.Grammar.{Spells, Refuses};
ghost use Rattle.raw_lines.specs.Marks.{unread_text};
ghost use Rattle.raw_trace.specs.declared.settling.Ending.{Ending as EndingOf};
ghost use Rattle.raw_trace.specs.declared.settling.Ending.TheVariants.{AsItIs, AsUnread};
ghost use Rattle.raw_trace.specs.Places.{IsCause};
ghost use Rattle.raw_trace.specs.Places.{IsGood, Becomes, fails_outside, IsInjected, IsUndone, Shows, IsLeftOut, IsStillPlayed};

use crate::fault::{Cause, Trouble};
use page_types::Call;
use raw_lines::{UNREAD_MARK, is_still, mended};
use raw_logs::LINE_LIMIT;
use std::alloc::{AllocError, Global};
use strace_reader::{BadCall, Errno, Item, Recorded, ends_with, read_line};

/// How a line ends up.
#[derive(Clone, Copy, PartialEq, Eq, Debug)]
pub enum Ending {
    /// As it is.
    AsItIs,
    /// Mended.
    ByMends,
    /// As a call that never returned.
    AsUnreturned,
    /// With the mark of an unread line.
    AsUnread,
    /// With that mark, since its result was made up and the kernel didn't do it.
    AsInjected,
    /// With that mark, since it failed for a reason outside the address space.
    AsOutside,
}

/// What a line becomes.
#[derive(Debug, Drop)]
pub(crate) struct Settled {
    /// The line as it is written.
    pub(crate) line: Vec<u8>,
    /// How it ended up.
    pub(crate) ending: Ending,
}

/// Whether a call failed with an error that no rule of the profile gives it, so that it changed nothing.
fn fails_outside(call: Call, recorded: Option<Recorded>) -> bool
    ensures { result ≡ fails_outside call recorded }
{
    let Some(Recorded::Failed(errno)) = recorded else {
        return false;
    };
    match call {
        Call::Map { .. } => !matches!(
            &errno,
            Errno::Einval | Errno::Enomem | Errno::Eexist | Errno::Eperm
        ),
        Call::Unmap { .. } => !matches!(&errno, Errno::Einval | Errno::Enomem | Errno::Eperm),
        Call::Remap { .. } => !matches!(
            &errno,
            Errno::Einval | Errno::Enomem | Errno::Efault | Errno::Eperm
        ),
        Call::Brk { .. } => true,
        _ => false,
    }
}

/// Whether strace(1) says that it made the result of a line up.
fn is_injected(line: &[u8]) -> bool
    ensures { Decides result (IsInjected line.now) }
{
    ends_with(line, b" (INJECTED)") || ends_with(line, b" (INJECTED) (DELAYED)")
}

/// Why a call that a line is read as changed nothing, so that it isn't played.
fn why_undone(line: &[u8], call: Call, recorded: Option<Recorded>) -> Option<Ending>
    requires short { length line.now ≤ 65535 }
    requires read { (pid : ℕ) × Spells line.now (Played pid call recorded) }
    ensures some { IfSome result (IsUndone line.now) }
    ensures none { IsNone result → (why : EndingOf) → ¬ IsUndone line.now why }
{
    if is_injected(line) {
        return Some(Ending::AsInjected);
    }
    if fails_outside(call, recorded) {
        return Some(Ending::AsOutside);
    }
    None
}

/// Why a line isn't played that is a call which changed nothing.
fn undone(line: &[u8]) -> Option<Ending>
    ensures some { IfSome result (IsUndone line.now) }
    ensures none { IsNone result → (why : EndingOf) → ¬ IsUndone line.now why }
{
    if line.len() > LINE_LIMIT {
        return None;
    }
    match read_line(line) {
        Ok(Item::Played { call, recorded, .. }) => why_undone(line, call, recorded),
        _ => None,
    }
}

/// Whether a line stays as it is, and isn't a call that changed nothing.
fn stays(line: &[u8]) -> bool
    ensures { Decides result (IsStillPlayed line.now) }
{
    if undone(line).is_some() {
        return false;
    }
    is_still(line)
}

/// Whether the line is read as a whole, stays so, and is short enough.
fn is_good(line: &[u8]) -> bool
    ensures { Decides result (IsGood line.now) }
{
    if line.len() > LINE_LIMIT {
        return false;
    }
    match read_line(line) {
        Ok(Item::Played { .. }) => stays(line),
        Ok(Item::Other) => stays(line),
        Ok(Item::Blank) => stays(line),
        Ok(Item::Unfinished { .. }) => false,
        Ok(Item::Resumed { .. }) => false,
        Err(_) => false,
    }
}

/// Two texts, one behind the other.
pub(crate) fn joined(alloc: Global, front: &[u8], back: &[u8]) -> Result<Vec<u8>, AllocError>
    ensures { IfOk result (λ text. text.items ≡ front.now ++ back.now) }
{
    let mut text = Vec::from_slice(alloc, front)?;
    text.extend_from_slice(back)?;
    Ok(text)
}

/// The line with the mark of an unread line.
fn unread(alloc: Global, line: &[u8]) -> Result<Settled, AllocError>
    ensures { IfOk result (λ settled. (settled.line.items ≡ unread_text line.now) × (settled.ending ≡ AsUnread)) }
{
    Ok(Settled {
        line: joined(alloc, UNREAD_MARK, line)?,
        ending: Ending::AsUnread,
    })
}

/// A line that shows a call which changed nothing: with the mark of an unread line, as what it is where that is good.
fn left_out(alloc: Global, line: &[u8], why: Ending) -> Result<Settled, AllocError>
    requires { (shown : List ℕ) × Shows line.now shown × IsUndone shown why }
    ensures { IfOk result (λ settled. (IsLeftOut line.now why × (settled.line.items ≡ unread_text line.now) × (settled.ending ≡ why))
        ⊎ ((¬ IsGood (unread_text line.now)) × (settled.line.items ≡ unread_text line.now) × (settled.ending ≡ AsUnread))) }
{
    let settled = unread(alloc, line)?;
    if is_good(settled.line.as_slice()) {
        return Ok(Settled {
            line: settled.line,
            ending: why,
        });
    }
    Ok(settled)
}

/// A first half as a call that never returned, where that is good.
fn unreturned(alloc: Global, half: &[u8]) -> Result<Settled, AllocError>
    requires { (process : ℕ) × (name : Name) × (from to : ℕ) × Spells half.now (Unfinished process name from to) }
    ensures { IfOk result (λ settled. Becomes half.now settled.line.items settled.ending) }
{
    let line = joined(alloc, half, b") = ?")?;
    if is_good(line.as_slice()) {
        return Ok(Settled {
            line,
            ending: Ending::AsUnreturned,
        });
    }
    unread(alloc, half)
}

/// A refused line with its mends, where they make it good.
fn by_mends(alloc: Global, line: &[u8], bad: BadCall) -> Result<Settled, AllocError>
    requires short { length line.now ≤ 65535 }
    requires refused { Refuses line.now bad }
    ensures { IfOk result (λ settled. Becomes line.now settled.line.items settled.ending) }
{
    let Some(other) = mended(alloc, line, bad)? else {
        return unread(alloc, line);
    };
    let shown = other.as_slice();
    if let Some(why) = undone(shown) {
        return left_out(alloc, line, why);
    }
    if is_good(shown) {
        return Ok(Settled {
            line: other,
            ending: Ending::ByMends,
        });
    }
    unread(alloc, line)
}

/// The line as it is.
fn kept(alloc: Global, line: &[u8]) -> Result<Settled, AllocError>
    ensures { IfOk result (λ settled. (settled.line.items ≡ line.now) × (settled.ending ≡ AsItIs)) }
{
    Ok(Settled {
        line: Vec::from_slice(alloc, line)?,
        ending: Ending::AsItIs,
    })
}

/// A whole line, where it stays as it is.
fn as_it_is(alloc: Global, line: &[u8]) -> Result<Settled, AllocError>
    requires short { length line.now ≤ 65535 }
    requires whole { (item : ItemOf) × Spells line.now item × IsWhole item }
    ensures { IfOk result (λ settled. Becomes line.now settled.line.items settled.ending) }
{
    if let Some(why) = undone(line) {
        return left_out(alloc, line, why);
    }
    if is_still(line) {
        return kept(alloc, line);
    }
    unread(alloc, line)
}

/// What a line becomes. One that is too long is left unread.
pub(crate) fn settle(alloc: Global, line: &[u8]) -> Result<Settled, AllocError>
    ensures { IfOk result (λ settled. Becomes line.now settled.line.items settled.ending) }
{
    if line.len() > LINE_LIMIT {
        return unread(alloc, line);
    }
    match read_line(line) {
        Ok(Item::Unfinished { .. }) => unreturned(alloc, line),
        Ok(Item::Resumed { .. }) => unread(alloc, line),
        Ok(Item::Played { .. }) => as_it_is(alloc, line),
        Ok(Item::Other) => as_it_is(alloc, line),
        Ok(Item::Blank) => as_it_is(alloc, line),
        Err(bad) => by_mends(alloc, line, bad),
    }
}

/// Why a line is left unread, and at which column.
pub(crate) fn cause_of(line: &[u8]) -> Trouble
    requires { length line.now ≤ 65535 }
    ensures { IsCause line.now result }
{
    match read_line(line) {
        Err(bad) => Trouble {
            column: bad.column,
            cause: Cause::Form(bad.what),
        },
        Ok(Item::Resumed { .. }) => Trouble {
            column: 1,
            cause: Cause::Alone,
        },
        Ok(_) => Trouble {
            column: 1,
            cause: Cause::Unclear,
        },
    }
}
