//! Worked cases of workers at play. What a test expects is reckoned by hand or by the one-thread model, never taken
//! from the program.
ghost use Rattle.std.specs.Prelude.{◌<◌, ◌≤◌, length};
ghost use Rattle.page_types.specs.Named.{IsNamedCall};

use crate::beside::play_beside_writer;
use crate::dealt::play_reads;
use crate::signs::{Hold, Moment, SignGate};
use crate::{one_line, page_lines, read_line};
use area_rows::{Closed, SpaceFault};
use bitflags::Flags;
use list_cuts::Cut;
use page_types::{Call, Kind, MapFlags, PAGE, Prot, Span};
use space_model::{Area, Entry, PlainSpace, Under, have_named_calls, have_named_kinds, legal};
use std::alloc::Global;
use std::sync::Wait;
use std::thread::Threads;
use trace_threads::{Line, OpenGate, play_touched_trace};

/// The pages 16 to 19, which may be read.
const READABLE: Area = Area {
    lo: 16,
    hi: 20,
    kind: Kind {
        prot: Prot::READ,
        shared: false,
        sealed: false,
    },
};

/// Whether the entries are numbered from 0 and are, of each worker, just the lines that were dealt out to it: the line
/// numbers from the worker's own first one on, by as many as there are workers.
fn are_dealt(entries: &[Entry], counts: &[u32]) -> bool
    requires { length counts.now ≤ 16 }
{
    let workers = counts.len() as u32;
    let mut next = [1u32; 16];
    let mut played = [0u32; 16];
    for (number, entry) in entries.iter().enumerate() {
        let worker = entry.worker as usize;
        if worker >= counts.len() || worker >= 16 || entry.number != number as u64 {
            return false;
        }
        if entry.line != u32::wrapping_add(next[worker], entry.worker) {
            return false;
        }
        next[worker] = u32::wrapping_add(next[worker], workers);
        played[worker] = u32::wrapping_add(played[worker], 1);
    }
    &played[..counts.len().min(16)] == counts
}

#[test]
fn four_workers_read_two_hundred_times_each(rt: HostRuntime) {
    let alloc = rt.alloc();
    let start = PlainSpace::of_areas(alloc, &[READABLE]).expect(&rt, "an area list");
    let one = Cut::one();
    let counts = [200; 4];
    let closed = play_reads(&rt, alloc, one, &start, &counts, 5, &OpenGate).expect(&rt, "memory");
    let entries = closed.entries();
    assert_eq!(rt; entries.len(), 800);
    assert!(rt; are_dealt(entries, &counts));
    assert_eq!(rt; closed.areas(), [READABLE].as_slice());
    assert!(rt; have_named_calls(entries));
    let illegal = legal(alloc, &start, entries).expect(&rt, "memory");
    assert_eq!(rt; illegal, None);
}

#[test]
fn four_workers_read_in_seven_regions(rt: HostRuntime) {
    let alloc = rt.alloc();
    let start = PlainSpace::of_areas(alloc, &[READABLE]).expect(&rt, "an area list");
    let counts = [200; 4];
    let cut = Cut::of(7, 0).expect(&rt, "a cut");
    let closed = play_reads(&rt, alloc, cut, &start, &counts, 5, &OpenGate).expect(&rt, "memory");
    assert!(rt; are_dealt(closed.entries(), &counts));
    assert_eq!(rt; closed.areas(), [READABLE].as_slice());
}

#[test]
fn sixteen_workers_play_a_line_each_and_some_play_none(rt: HostRuntime) {
    let alloc = rt.alloc();
    let start = PlainSpace::of_areas(alloc, &[READABLE]).expect(&rt, "an area list");
    let one = Cut::one();
    let closed = play_reads(&rt, alloc, one, &start, &[1; 16], 4, &OpenGate).expect(&rt, "memory");
    assert_eq!(rt; closed.entries().len(), 16);
    assert!(rt; are_dealt(closed.entries(), &[1; 16]));
    let closed = play_reads(&rt, alloc, one, &start, &[3, 0, 2], 4, &OpenGate).expect(
        &rt, "memory",
    );
    assert_eq!(rt; closed.entries().len(), 5);
    assert!(rt; are_dealt(closed.entries(), &[3, 0, 2]));
    let closed = play_reads(&rt, alloc, one, &start, &[0], 4, &OpenGate).expect(&rt, "memory");
    assert!(rt; closed.entries().is_empty());
}

#[test]
fn a_trace_has_from_one_to_sixteen_workers(rt: HostRuntime) {
    let alloc = rt.alloc();
    let start = PlainSpace::new(alloc);
    let one = Cut::one();
    for count in [0, 17] {
        match play_reads(
            &rt,
            alloc,
            one,
            &start,
            &[1; 17][..count as usize],
            1,
            &OpenGate,
        ) {
            Ok(_) => panic!(rt; "{count} workers"),
            Err(refusal) => assert_eq!(rt; refusal, SpaceFault::Callers(count)),
        }
    }
}

/// A page that may be read and written.
fn writable(page: u64) -> Area
    requires { page < 1000 }
{
    Area {
        lo: page,
        hi: page + 1,
        kind: Kind {
            prot: Prot::READ.union(Prot::WRITE),
            shared: false,
            sealed: false,
        },
    }
}

/// A call on page 16, of one kind at each turn.
fn waiting_call(turn: u32) -> Call
    ensures { IsNamedCall result }
{
    let addr = 16 * PAGE;
    match turn {
        0 => read_line(201, 16).call,
        1 => Call::Map {
            addr,
            len: PAGE,
            prot: Prot::READ,
            flags: MapFlags::PRIVATE.union(MapFlags::FIXED),
        },
        2 => Call::Unmap { addr, len: PAGE },
        _ => Call::Protect {
            addr,
            len: PAGE,
            prot: Prot::READ,
        },
    }
}

/// How many of the entries are changes of protection that held these pages.
fn protects_over(entries: &[Entry], lo: u64, hi: u64) -> usize {
    let over = |entry: &&Entry| match (entry.call, entry.under) {
        (Call::Protect { .. }, Under::Area(span)) => (span.lo(), span.hi()) == (lo, hi),
        _ => false,
    };
    entries.iter().filter(over).count()
}

/// A worker reads and protects page 32 two hundred times. Another one makes the call on page 16, which a third caller
/// holds.
fn play_waiting<R: Threads + Wait + Sync>(
    rt: &R,
    alloc: Global,
    start: &PlainSpace,
    call: Call,
    gate: &SignGate,
) -> Result<Closed, SpaceFault>
    requires { IsNamedCall call }
{
    let Ok(first) = page_lines(alloc, 200, 32) else {
        return Err(SpaceFault::Memory);
    };
    let Ok(second) = one_line(alloc, Line { line: 201, call }) else {
        return Err(SpaceFault::Memory);
    };
    let Ok(span) = Span::of(16 * PAGE, PAGE) else {
        return Err(SpaceFault::Memory);
    };
    play_beside_writer(rt, alloc, start, first, second, span, gate)
}

#[test]
fn a_waiting_call_does_not_hold_up_calls_elsewhere(rt: HostRuntime) {
    let alloc = rt.alloc();
    let areas = [writable(16), writable(32)];
    assert!(rt; have_named_kinds(&areas));
    let start = PlainSpace::of_areas(alloc, &areas).expect(&rt, "an area list");
    let signs = [Moment::Before(1, 201), Moment::After(0, 200)];
    let holds = [
        Hold {
            at: Moment::Before(0, 1),
            until: 0,
        },
        Hold {
            at: Moment::After(0, 200),
            until: 1,
        },
    ];
    for turn in 0..4 {
        let gate = SignGate::new(signs, holds);
        let closed = play_waiting(&rt, alloc, &start, waiting_call(turn), &gate).expect(
            &rt, "memory",
        );
        assert_eq!(rt; gate.late(), 0);
        let (last, before) = closed.entries().split_last().expect(&rt, "an entry");
        assert_eq!(rt; before.len(), 200);
        assert_eq!(rt; (last.worker, last.line), (1, 201));
        assert_eq!(rt; protects_over(before, 31, 34), 100);
    }
}

/// Three workers with one line each, which read a byte of these pages. Gives the pages that were touched.
fn touched_by_three<R: Threads + Wait + Sync>(
    rt: &R,
    alloc: Global,
    start: &PlainSpace,
    pages: (u32, u32, u32),
) -> Option<Vec<u64>> {
    let Ok(first) = one_line(alloc, read_line(1, pages.0)) else {
        return None;
    };
    let Ok(second) = one_line(alloc, read_line(1, pages.1)) else {
        return None;
    };
    let Ok(third) = one_line(alloc, read_line(1, pages.2)) else {
        return None;
    };
    let Ok(mut lists) = Vec::with_capacity(alloc, 3) else {
        return None;
    };
    lists.push_reserved(first);
    lists.push_reserved(second);
    lists.push_reserved(third);
    match play_touched_trace(rt, alloc, Cut::one(), start, lists, &OpenGate) {
        Ok((_, pages)) => Some(pages),
        Err(_) => None,
    }
}

#[test]
fn the_pages_touched_are_those_of_granted_reads(rt: HostRuntime) {
    let alloc = rt.alloc();
    let start = PlainSpace::of_areas(alloc, &[READABLE]).expect(&rt, "an area list");
    let some = touched_by_three(&rt, alloc, &start, (17, 3, 17)).expect(&rt, "memory");
    assert_eq!(rt; some.as_slice(), [17].as_slice());
    let none = touched_by_three(&rt, alloc, &start, (3, 4, 20)).expect(&rt, "memory");
    assert_eq!(rt; none.as_slice(), [].as_slice());
    let all = touched_by_three(&rt, alloc, &start, (19, 16, 18)).expect(&rt, "memory");
    assert_eq!(rt; all.as_slice(), [16, 18, 19].as_slice());
}
