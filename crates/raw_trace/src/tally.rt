//! How many calls were written, and how many programs their heaps show. brk(2) with the address 0 only asks where the
//! heap ends; the first call of a program does so, and is told where its own heap begins. `calls_after` in
//! `specs/Rewriting.antt` says what follows: a reader may take an answer that isn't the last one for another program.

ghost use Rattle.std.specs.Prelude.{◌≡◌, ◌+◌, if◌then◌else◌};
ghost use Rattle.raw_logs.specs.Counting.{within_32_bits};
ghost use Rattle.raw_trace.specs.Rewriting.{no_calls, is_part_done, counted_call};

use crate::calls::ReadCall;
use crate::heaps::{changes_heap, heap_end, heap_start, instead, is_moved};
use page_types::Call;
use strace_reader::{Errno, Recorded};

/// What is counted of the calls that were written.
#[derive(Clone, Copy, PartialEq, Eq, Debug)]
pub struct Tally {
    /// How many there are.
    pub calls: u32,
    /// Where the heap begins, in bytes: where it ended as it was first told.
    pub start: Option<u64>,
    /// Where the heap ends, in bytes, as it was last told.
    pub heap: Option<u64>,
    /// Whether one of them changed pages of the heap, which the next brk(2) doesn't find any more.
    pub over: bool,
    /// How many of them show that another program began: they ask where the heap ends, and it isn't where it was.
    pub programs: u32,
    /// How many calls of brk(2) were written as what they did.
    pub brks: u32,
    /// How many of them are mprotects that failed, and may have changed pages before the fault.
    pub protects: u32,
}

/// A count with one more, where there is one; it stays at 2^32 - 1.
fn one_more_if(is: bool, count: u32) -> u32
    ensures { result ≡ (if is then within_32_bits (count + 1) else count) }
{
    if is { count.saturating_add(1) } else { count }
}

/// Whether a call is an mprotect that failed, and may have changed pages before the fault.
fn is_part_done(call: Call, recorded: Option<Recorded>) -> bool
    ensures { result ≡ is_part_done call recorded }
{
    match (call, recorded) {
        (Call::Protect { .. }, Some(Recorded::Failed(errno))) => !matches!(&errno, Errno::Einval),
        _ => false,
    }
}

impl Tally {
    /// No call.
    pub(crate) fn new() -> Tally
        ensures { result ≡ no_calls }
    {
        Tally {
            calls: 0,
            start: None,
            heap: None,
            over: false,
            programs: 0,
            brks: 0,
            protects: 0,
        }
    }

    /// With one call more, where it is one; no count rises above 2^32 - 1.
    pub(crate) fn with(self, call: Option<ReadCall>) -> Tally
        ensures { result ≡ counted_call call self }
    {
        let Some(read) = call else {
            return self;
        };
        let moved = is_moved(read.call, read.recorded, self.heap);
        let changes = changes_heap(read, self.start, self.heap);
        let replaced = instead(self, call).is_some();
        let fails = is_part_done(read.call, read.recorded);
        Tally {
            calls: self.calls.saturating_add(1),
            start: heap_start(moved, read.call, read.recorded, self.start),
            heap: heap_end(read.call, read.recorded, self.heap),
            over: self.over || changes,
            programs: one_more_if(moved, self.programs),
            brks: one_more_if(replaced, self.brks),
            protects: one_more_if(fails, self.protects),
        }
    }
}
