//! How a line's call is played, and whether a reply is what the trace recorded. A trace's addresses are taken over
//! where mmap(2) and mremap(2) leave the choice to the kernel, and it tells the base of a heap, which brk(2) doesn't
//! say. A reply agrees with a result by the table of `Agrees` in `specs/Playing.antt`, which names the error of each
//! refused call as errno(3) and sigaction(2) do.

ghost use Rattle.std.specs.Prelude.{◌≡◌, ◌↔◌, ◌<◌, ◌-◌, ◌^◌, IsTrue};
ghost use Rattle.strace_reader.specs.Playing.{as_played, told_base, base_after, with_base, name_of, Differs};
ghost use Rattle.strace_reader.specs.Playing.{skipped_by, base_behind, on_base};

use crate::item::{Errno, Recorded};
use crate::joiner::Fed;
use page_types::{Call, PAGE, Reply, Why};

/// The call as it is played: a Map whose address doesn't bind has the recorded address, in bytes, as its hint, and so
/// has a Remap that may move and has no hint. Every other call is as it is, also where an error or nothing was
/// recorded.
pub fn as_played(call: &Call, recorded: Option<Recorded>) -> Call
    ensures { result ≡ as_played call.now recorded }
{
    match *call {
        Call::Map {
            addr,
            len,
            prot,
            flags,
        } => {
            let addr = match recorded {
                Some(Recorded::Value(at)) if !flags.is_fixed() => at,
                _ => addr,
            };
            Call::Map {
                addr,
                len,
                prot,
                flags,
            }
        }
        Call::Remap {
            addr,
            old_len,
            new_len,
            may_move,
            hint,
        } => {
            let hint = match recorded {
                Some(Recorded::Value(at)) if may_move && hint == 0 => at,
                _ => hint,
            };
            Call::Remap {
                addr,
                old_len,
                new_len,
                may_move,
                hint,
            }
        }
        other => other,
    }
}

/// The base that a recorded value tells, or 0 where it tells none.
fn told_base(recorded: Option<Recorded>) -> u64
    ensures { result ≡ told_base recorded }
{
    match recorded {
        Some(Recorded::Value(at)) if at % PAGE == 0 => at,
        _ => 0,
    }
}

/// The base of a trace from a call on, or 0 as long as there is none.
fn base_after(base: u64, call: &Call, recorded: Option<Recorded>) -> u64
    ensures { result ≡ base_after base call.now recorded }
{
    match *call {
        Call::Brk { base: own, addr } => {
            if base == 0 && own == 0 && addr == 0 {
                told_base(recorded)
            } else {
                base
            }
        }
        _ => base,
    }
}

/// The call with the trace's base, where it is a Brk without one; None where the trace has none either.
fn with_base(base: u64, call: &Call) -> Option<Call>
    ensures { result ≡ with_base base call.now }
{
    match *call {
        Call::Brk { base: own, addr } => {
            if own != 0 {
                Some(*call)
            } else if base == 0 {
                None
            } else {
                Some(Call::Brk { base, addr })
            }
        }
        other => Some(other),
    }
}

/// The base of a trace's heaps behind an answer, in bytes, or 0 as long as there is none; `base` is that of before. It
/// is told by the first Brk with the address 0 and no base of which the trace recorded the address of a page other than
/// 0.
pub fn base_behind(base: u64, fed: &Fed) -> u64
    ensures { result ≡ base_behind base fed.now }
{
    match *fed {
        Fed::Played { call, recorded, .. } => base_after(base, &call, recorded),
        _ => base,
    }
}

/// An answer with the trace's base, which is that behind it: a Brk without one has this, and where the trace has none
/// either it isn't played but passed over, as one line.
pub fn on_base(base: u64, fed: &Fed) -> Fed
    requires { skipped_by fed.now < 2 ^ 32 - 1 }
    ensures { result ≡ on_base base fed.now }
{
    match *fed {
        Fed::Played {
            pid,
            call,
            recorded,
            skipped,
        } => match with_base(base, &call) {
            Some(call) => Fed::Played {
                pid,
                call,
                recorded,
                skipped,
            },
            None => Fed::Skipped(skipped + 1),
        },
        other => other,
    }
}

/// Whether something was recorded and the reply is not that.
///
/// An address agrees with itself; a success without an address, and an access that was granted, agree with
/// 0; a refusal agrees with its error's name.
pub fn differs(reply: &Reply, recorded: Option<Recorded>) -> bool
    ensures { IsTrue result ↔ Differs reply.now recorded }
{
    let Some(recorded) = recorded else {
        return false;
    };
    match (*reply, recorded) {
        (Reply::At(addr), Recorded::Value(value)) => addr != value,
        (Reply::Zero | Reply::Granted(_), Recorded::Value(value)) => value != 0,
        (Reply::Refused(why), Recorded::Failed(name)) => name != name_of(why),
        _ => true,
    }
}

fn name_of(why: Why) -> Errno
    ensures { result ≡ name_of why }
{
    match why {
        Why::Einval(_) => Errno::Einval,
        Why::Enomem(_) => Errno::Enomem,
        Why::Eexist(_) => Errno::Eexist,
        Why::Eperm(_) => Errno::Eperm,
        Why::Efault(_) => Errno::Efault,
        Why::MapErr(_) => Errno::MapErr,
        Why::AccErr(_, _) => Errno::AccErr,
    }
}
