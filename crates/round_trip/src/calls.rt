//! The law between the text of a call and the lines that spell it. A reader may rely on it for every call whose sets
//! have named bits alone: to write the call down and to read it again changes nothing. The law is the contract of a
//! function, so that code above has it by a call.
ghost use Rattle.std.specs.Prelude.{◌≡◌, ◌<◌, ◌≤◌, ◌^◌, length};
ghost use Rattle.page_types.specs.Named.{IsNamedCall};
ghost use Rattle.maps_printer.specs.Calls.{call_text};
ghost use Rattle.strace_reader.specs.Grammar.{Spells};

use page_types::Call;
use strace_reader::{BadCall, Item, read_line};

/// What `write_call` writes of a call is a line that spells this call, of process 0 and with no recorded result, and
/// has at most 143 bytes. It does nothing: its contract is the law.
pub fn reads_back(call: Call)
    requires { IsNamedCall call }
    ensures spells { Spells (call_text call) (Item.Played 0 call None) }
    ensures short { length (call_text call) ≤ 143 }
{
    match call {
        Call::Map {
            addr,
            len,
            prot: _prot,
            flags: _flags,
        } => in_range(addr, len),
        Call::Unmap { addr, len } => in_range(addr, len),
        Call::Protect {
            addr,
            len,
            prot: _prot,
        } => in_range(addr, len),
        Call::Fault {
            addr,
            access: _access,
        } => in_range(addr, addr),
        Call::Seal { addr, len, flags } => {
            in_range(addr, len);
            in_range(flags, flags);
        }
        Call::Brk { base, addr } => in_range(base, addr),
        Call::Remap {
            addr,
            old_len,
            new_len,
            hint,
            may_move: _may_move,
        } => {
            in_range(addr, old_len);
            in_range(new_len, hint);
        }
    }
}

/// Two numbers of 64 bits are below 2^64. It does nothing: it gives the law above what the type of a number says.
fn in_range(one: u64, other: u64)
    ensures one { one < 2 ^ 64 }
    ensures other { other < 2 ^ 64 }
{}

/// Reads a line that `write_call` wrote of this call: the result is the call, of process 0 and with no recorded
/// result, and never a refusal.
pub fn read_written(line: &[u8], call: Call) -> Result<Item, BadCall>
    requires named { IsNamedCall call }
    requires written { line.now ≡ call_text call }
    ensures { result ≡ Ok (Item.Played 0 call None) }
{
    reads_back(call);
    read_line(line)
}
