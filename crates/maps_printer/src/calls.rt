//! A call as text, as strace(1) prints a system call: `mmap`, `munmap`, `mprotect`, `mseal`, `brk` and `mremap` with
//! their arguments, and this project's own `fault`. The text is a function of the call, `call_text`. A reader may rely
//! on it to read back as the same call, which the crate `round_trip` proves.
ghost use Rattle.std.specs.Prelude.{◌≡◌, ◌+◌, ◌≤◌, ◌++◌, length, codes, decimal, OnOk, OnErr};
ghost use Rattle.std.specs.Io.KnownBytes.{Appends};
ghost use Rattle.byte_ports.specs.Bytes.{AppendsPrefix};
ghost use Rattle.byte_ports.specs.Counts.{Rose};
ghost use Rattle.maps_printer.specs.Calls.{call_text, hint_text};
ghost use Rattle.maps_printer.specs.Numbers.{address_text};

use crate::buffer::{Buffer, SIZE};
use crate::numbers::{push_address, push_decimal, push_prefixed_hex};
use crate::words::{access_text, flags_text, move_text, prot_text};
use byte_ports::{Failed, Sink};
use page_types::Call;

/// Writes one call, with no newline. A set's bits that have no word aren't written. It takes no memory.
///
/// `Failed`: the sink failed in this call; some first part of the text was appended.
pub fn write_call<K: Sink>(out: &mut K, call: &Call) -> Result<(), Failed>
    ensures text { OnOk result (Appends (K.contents out.old) (K.contents out.new) (call_text call.now)) }
    ensures failed_prefix { OnErr result
        (AppendsPrefix (K.contents out.old) (K.contents out.new) (call_text call.now)) }
    ensures failed_rose { OnErr result (Rose (K.fault_count out.old) (K.fault_count out.new)) }
    ensures never_falls { K.fault_count out.old ≤ K.fault_count out.new }
{
    let mut buffer = Buffer::new();
    push_call(&mut buffer, *call);
    buffer.flush(out)
}

/// Adds a call: at most 143 bytes.
pub(crate) fn push_call(buffer: &mut Buffer, call: Call)
    requires { length buffer.old + 143 ≤ SIZE }
    ensures text { buffer.new ≡ buffer.old ++ call_text call }
    ensures room { length buffer.new ≤ length buffer.old + 143 }
{
    match call {
        Call::Map {
            addr,
            len,
            prot,
            flags,
        } => {
            push_pages(buffer, b"mmap(", addr, len);
            push_word(buffer, prot_text(prot));
            push_word(buffer, flags_text(flags));
            buffer.push(b", -1, 0)");
        }
        Call::Unmap { addr, len } => {
            push_pages(buffer, b"munmap(", addr, len);
            buffer.push(b")");
        }
        Call::Protect { addr, len, prot } => {
            push_pages(buffer, b"mprotect(", addr, len);
            push_word(buffer, prot_text(prot));
            buffer.push(b")");
        }
        Call::Fault { addr, access } => {
            buffer.push(b"fault(");
            push_address(buffer, addr);
            push_word(buffer, access_text(access));
            buffer.push(b")");
        }
        Call::Seal { addr, len, flags } => {
            push_pages(buffer, b"mseal(", addr, len);
            buffer.push(b", ");
            push_decimal(buffer, flags);
            buffer.push(b")");
        }
        Call::Brk { base, addr } => {
            buffer.push(b"brk(");
            push_address(buffer, addr);
            buffer.push(b", ");
            push_address(buffer, base);
            buffer.push(b")");
        }
        Call::Remap {
            addr,
            old_len,
            new_len,
            may_move,
            hint,
        } => {
            push_pages(buffer, b"mremap(", addr, old_len);
            buffer.push(b", ");
            push_decimal(buffer, new_len);
            push_word(buffer, move_text(may_move));
            push_hint(buffer, hint);
            buffer.push(b")");
        }
    }
}

/// Adds a call's name and its first two arguments, an address and a length: at most 49 bytes.
fn push_pages(buffer: &mut Buffer, name: &[u8], addr: u64, len: u64)
    requires short { length name.now ≤ 9 }
    requires room { length buffer.old + 49 ≤ SIZE }
    ensures text { buffer.new ≡ buffer.old ++ (name.now ++ address_text addr ++ codes ", " ++ decimal len) }
    ensures room { length buffer.new ≤ length buffer.old + 49 }
{
    buffer.push(name);
    push_address(buffer, addr);
    buffer.push(b", ");
    push_decimal(buffer, len);
}

/// Adds a comma and a hint, where there is one: at most 20 bytes.
fn push_hint(buffer: &mut Buffer, hint: u64)
    requires { length buffer.old + 20 ≤ SIZE }
    ensures text { buffer.new ≡ buffer.old ++ hint_text hint }
    ensures room { length buffer.new ≤ length buffer.old + 20 }
{
    if hint != 0 {
        buffer.push(b", ");
        push_prefixed_hex(buffer, hint);
    }
}

/// Adds a comma and one more argument: at most 2 bytes more than it has.
fn push_word(buffer: &mut Buffer, word: &str)
    requires { length buffer.old + (length word.now + 2) ≤ SIZE }
    ensures text { buffer.new ≡ buffer.old ++ (codes ", " ++ word.now) }
    ensures room { length buffer.new ≡ length buffer.old + (length word.now + 2) }
{
    buffer.push(b", ");
    buffer.push(word.as_bytes());
}
