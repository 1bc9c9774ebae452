//! Protections, flags and kinds as text: the words of mmap(2) and mprotect(2), in the order of their bits as strace(1)
//! prints them, and the four characters of proc_pid_maps(5). A set's bits that have no word aren't printed, so no call
//! needs a condition.
ghost use Rattle.std.specs.Prelude.{◌≡◌, ◌+◌, ◌≤◌, ◌++◌, length};
ghost use Rattle.maps_printer.specs.Words.{access_text, letter_if, flags_text, kind_text, log_kind, move_text, prot_text};

use crate::buffer::{Buffer, SIZE};
use bitflags::Flags;
use page_types::{Access, Kind, MapFlags, Prot};

/// The words of a protection: at most 30 bytes.
pub(crate) fn prot_text(prot: Prot) -> &'static str
    ensures text { result.now ≡ prot_text prot }
    ensures short { length result.now ≤ 30 }
{
    let (read, write, exec) = (
        prot.contains(Prot::READ),
        prot.contains(Prot::WRITE),
        prot.contains(Prot::EXEC),
    );
    match (read, write, exec) {
        (false, false, false) => "PROT_NONE",
        (true, false, false) => "PROT_READ",
        (false, true, false) => "PROT_WRITE",
        (true, true, false) => "PROT_READ|PROT_WRITE",
        (false, false, true) => "PROT_EXEC",
        (true, false, true) => "PROT_READ|PROT_EXEC",
        (false, true, true) => "PROT_WRITE|PROT_EXEC",
        (true, true, true) => "PROT_READ|PROT_WRITE|PROT_EXEC",
    }
}

/// The words of flags: at most 52 bytes.
pub(crate) fn flags_text(flags: MapFlags) -> &'static str
    ensures text { result.now ≡ flags_text flags }
    ensures short { length result.now ≤ 52 }
{
    let shared = flags.contains(MapFlags::SHARED);
    let private = flags.contains(MapFlags::PRIVATE);
    let fixed = flags.contains(MapFlags::FIXED);
    let noreplace = flags.contains(MapFlags::FIXED_NOREPLACE);
    match (shared, private, fixed, noreplace) {
        (false, false, false, false) => "0",
        (true, false, false, false) => "MAP_SHARED",
        (false, true, false, false) => "MAP_PRIVATE",
        (true, true, false, false) => "MAP_SHARED|MAP_PRIVATE",
        (false, false, true, false) => "MAP_FIXED",
        (true, false, true, false) => "MAP_SHARED|MAP_FIXED",
        (false, true, true, false) => "MAP_PRIVATE|MAP_FIXED",
        (true, true, true, false) => "MAP_SHARED|MAP_PRIVATE|MAP_FIXED",
        (false, false, false, true) => "MAP_FIXED_NOREPLACE",
        (true, false, false, true) => "MAP_SHARED|MAP_FIXED_NOREPLACE",
        (false, true, false, true) => "MAP_PRIVATE|MAP_FIXED_NOREPLACE",
        (true, true, false, true) => "MAP_SHARED|MAP_PRIVATE|MAP_FIXED_NOREPLACE",
        (false, false, true, true) => "MAP_FIXED|MAP_FIXED_NOREPLACE",
        (true, false, true, true) => "MAP_SHARED|MAP_FIXED|MAP_FIXED_NOREPLACE",
        (false, true, true, true) => "MAP_PRIVATE|MAP_FIXED|MAP_FIXED_NOREPLACE",
        (true, true, true, true) => "MAP_SHARED|MAP_PRIVATE|MAP_FIXED|MAP_FIXED_NOREPLACE",
    }
}

/// The word for what an access needs: at most 10 bytes.
pub(crate) fn access_text(access: Access) -> &'static str
    ensures text { result.now ≡ access_text access }
    ensures short { length result.now ≤ 10 }
{
    match access {
        Access::Read => "PROT_READ",
        Access::Write => "PROT_WRITE",
        Access::Exec => "PROT_EXEC",
    }
}

/// The word by which mremap(2) may put pages elsewhere, or 0: at most 14 bytes.
pub(crate) fn move_text(may_move: bool) -> &'static str
    ensures text { result.now ≡ move_text may_move }
    ensures short { length result.now ≤ 14 }
{
    if may_move { "MREMAP_MAYMOVE" } else { "0" }
}

/// Adds the four characters of a kind.
pub(crate) fn push_kind(buffer: &mut Buffer, kind: Kind)
    requires { length buffer.old + 4 ≤ SIZE }
    ensures text { buffer.new ≡ buffer.old ++ kind_text kind }
    ensures room { length buffer.new ≡ length buffer.old + 4 }
{
    buffer.push(&[
        letter_if(kind.prot.contains(Prot::READ), b'r'),
        letter_if(kind.prot.contains(Prot::WRITE), b'w'),
        letter_if(kind.prot.contains(Prot::EXEC), b'x'),
        if kind.shared { b's' } else { b'p' },
    ]);
}

/// Adds a kind as a log has it: at most 11 bytes.
pub(crate) fn push_log_kind(buffer: &mut Buffer, kind: Kind)
    requires { length buffer.old + 11 ≤ SIZE }
    ensures text { buffer.new ≡ buffer.old ++ log_kind kind }
    ensures room { length buffer.new ≤ length buffer.old + 11 }
{
    push_kind(buffer, kind);
    if kind.sealed {
        buffer.push(b" sealed");
    }
}

/// The letter, or `-` where its bit isn't set.
fn letter_if(is_set: bool, letter: u8) -> u8
    ensures { result ≡ letter_if is_set letter }
{
    if is_set { letter } else { b'-' }
}
