//! The call that four draws make for a worker, on pages that are the worker's own. The table of calls is this project's
//! own profile. A reader may rely on `call_of`, which is this table.
ghost use Rattle.std.specs.Prelude.{◌≡◌, ◌-◌, ◌<◌, ◌≤◌, ◌^◌};
ghost use Rattle.page_types.specs.Named.{IsNamedCall};
ghost use Rattle.load_lines.specs.Generator.{state_after};
ghost use Rattle.load_lines.specs.Calls.{call_of, line_at, prot_from_bits, private_fixed, drawn_access, IsNamedLine};

use crate::draws::draw;
use bitflags::Flags;
use page_types::{Access, Call, MapFlags, PAGE, Prot};

/// How many pages lie between the first pages of two workers.
const WORKER_PAGES: u64 = 1_048_576;

/// The first page of worker 0.
const FIRST_PAGE: u64 = 16;

/// A line of a load.
#[derive(Clone, Copy, Debug, PartialEq, Eq)]
pub struct MadeLine {
    /// The worker that plays it.
    pub worker: u32,
    /// Its number, counted from 1.
    pub line: u32,
    /// The call.
    pub call: Call,
}

/// The protection with these bits.
fn prot(bits: u8) -> Prot
    requires { bits < 8 }
    ensures { result ≡ prot_from_bits bits }
{
    Prot::from_bits_retain(bits)
}

/// PRIVATE and FIXED.
fn private_and_fixed() -> MapFlags
    ensures { result ≡ private_fixed }
{
    MapFlags::PRIVATE.union(MapFlags::FIXED)
}

/// What a fault does.
fn access(number: u64) -> Access
    ensures { result ≡ drawn_access number }
{
    match number {
        0 => Access::Read,
        1 => Access::Write,
        _ => Access::Exec,
    }
}

/// The call of a worker that four draws make.
fn made_call(worker: u32, kind: u64, place: u64, size: u64, sets: u64) -> Call
    requires { worker < 16 }
    ensures call { result ≡ call_of worker kind place size sets }
    ensures named { IsNamedCall result }
{
    let addr = (worker as u64 * WORKER_PAGES + FIRST_PAGE + place % 60) * PAGE;
    let len = (1 + size % 4) * PAGE;
    let prot = prot((sets % 8) as u8);
    let kind = kind % 8;
    if kind < 2 {
        Call::Map {
            addr,
            len,
            prot,
            flags: private_and_fixed(),
        }
    } else if kind == 2 {
        Call::Unmap { addr, len }
    } else if kind < 5 {
        Call::Protect { addr, len, prot }
    } else {
        Call::Fault {
            addr,
            access: access(sets % 3),
        }
    }
}

/// The next line of a load for so many threads, behind `made` others. The state is that of the generator behind them,
/// and then behind this one too.
pub fn next_line(state: &mut u64, threads: u32, made: u32) -> MadeLine
    requires state { state.old < 2 ^ 31 }
    requires some_threads { 0 < threads }
    requires few_threads { threads ≤ 16 }
    requires made { made < 2 ^ 32 - 1 }
    ensures line { result ≡ line_at state.old threads made }
    ensures state { state.new ≡ state_after state.old 4 }
    ensures bound { state.new < 2 ^ 31 }
    ensures named { IsNamedLine result }
{
    let worker = made % threads;
    let kind = draw(state);
    let place = draw(state);
    let size = draw(state);
    let sets = draw(state);
    MadeLine {
        worker,
        line: made + 1,
        call: made_call(worker, kind, place, size, sets),
    }
}
