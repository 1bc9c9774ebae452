//! A heap that is mapped over: what a brk(2) is written as from there on. `instead` in `specs/Heaps.antt` is the rule.

ghost use Rattle.std.specs.Prelude.{◌≡◌, ◌<◌, ◌^◌, ℕ, take, Some, IfOk, OnOk};
ghost use Rattle.std.specs.Io.KnownBytes.{Appends};
ghost use Rattle.raw_trace.specs.Order.{meet};
ghost use Rattle.raw_trace.specs.Heaps.{heap_end, is_moved, heap_start, heap_pages, changed_pages, moving, done_by, instead, call_line};

use crate::calls::{NONE, Pages, ReadCall, freed_by, meet, pages_at};
use crate::tally::Tally;
use bitflags::Flags;
use byte_ports::{CleanSink, Failed, write_all, write_decimal};
use maps_printer::write_call;
use page_types::{Call, MapFlags, PAGE, Prot, page_count};
use std::alloc::{AllocError, Global};
use strace_reader::Recorded;

/// No end of a heap that counts is as large, in bytes.
const FAR: u64 = 1 << 63;

/// The line of a call is no longer.
const ROOM: usize = 192;

/// Where the heap begins behind a call, which shows another program or not.
pub(crate) fn heap_start(
    moved: bool,
    call: Call,
    recorded: Option<Recorded>,
    start: Option<u64>,
) -> Option<u64>
    ensures { result ≡ heap_start moved call recorded start }
{
    match (call, recorded) {
        (Call::Brk { .. }, Some(Recorded::Value(at))) => {
            if moved {
                return Some(at);
            }
            Some(start.unwrap_or(at))
        }
        _ => start,
    }
}

/// Where the heap ends behind a call.
pub(crate) fn heap_end(call: Call, recorded: Option<Recorded>, heap: Option<u64>) -> Option<u64>
    ensures { result ≡ heap_end call recorded heap }
{
    match (call, recorded) {
        (Call::Brk { .. }, Some(Recorded::Value(at))) => Some(at),
        _ => heap,
    }
}

/// Whether a call only asks where the heap ends, and is told another end than the last one.
pub(crate) fn is_moved(call: Call, recorded: Option<Recorded>, heap: Option<u64>) -> bool
    ensures { result ≡ is_moved call recorded heap }
{
    match (call, recorded, heap) {
        (Call::Brk { addr, .. }, Some(Recorded::Value(at)), Some(end)) => addr == 0 && at != end,
        _ => false,
    }
}

/// The pages of the heap, as far as they were told, and the one behind them.
fn heap_pages(start: Option<u64>, end: Option<u64>) -> Pages
    ensures { result ≡ heap_pages start end }
{
    match (start, end) {
        (Some(start), Some(end)) => {
            let Pages { from, to } = pages_at(start, end.saturating_sub(start));
            Pages { from, to: to + 1 }
        }
        _ => NONE,
    }
}

/// The pages that a call maps, frees, protects or seals.
fn changed_pages(call: Call, recorded: Option<Recorded>) -> Pages
    ensures { result ≡ changed_pages call recorded }
{
    match (call, recorded) {
        (Call::Map { len, .. }, Some(Recorded::Value(at))) => pages_at(at, len),
        (Call::Protect { addr, len, .. }, _) => pages_at(addr, len),
        (Call::Seal { addr, len, .. }, _) => pages_at(addr, len),
        (_, Some(Recorded::Value(value))) => freed_by(call, value),
        _ => NONE,
    }
}

/// Whether a call changes pages of a heap with this start and end, or the one behind them.
pub(crate) fn changes_heap(read: ReadCall, start: Option<u64>, end: Option<u64>) -> bool
    ensures { result ≡ meet (changed_pages read.call read.recorded) (heap_pages start end) }
{
    meet(
        changed_pages(read.call, read.recorded),
        heap_pages(start, end),
    )
}

/// The call that moves the end of a heap from one page to another.
fn moving(from: u64, to: u64) -> Call
    requires from { from < 2 ^ 52 }
    requires to { to < 2 ^ 52 }
    ensures { result ≡ moving from to }
{
    if from < to {
        return Call::Map {
            addr: from * PAGE,
            len: (to - from) * PAGE,
            prot: Prot::READ.union(Prot::WRITE),
            flags: MapFlags::PRIVATE.union(MapFlags::FIXED),
        };
    }
    if to < from {
        return Call::Unmap {
            addr: to * PAGE,
            len: (from - to) * PAGE,
        };
    }
    Call::Brk {
        base: to * PAGE,
        addr: 0,
    }
}

/// What a brk did by the end that it was told and the one before.
fn done_by(call: Call, recorded: Option<Recorded>, heap: Option<u64>) -> Option<Call>
    ensures { result ≡ done_by call recorded heap }
{
    match (call, recorded, heap) {
        (Call::Brk { addr, .. }, Some(Recorded::Value(end)), Some(old)) => {
            if old.max(end) >= FAR {
                return None;
            }
            let from = if addr == 0 { end } else { old };
            Some(moving(page_count(from), page_count(end)))
        }
        _ => None,
    }
}

/// The call that is written instead of one behind such calls, if one is.
pub(crate) fn instead(tally: Tally, call: Option<ReadCall>) -> Option<ReadCall>
    ensures { result ≡ instead tally call }
{
    let read = call?;
    if !tally.over {
        return None;
    }
    let call = done_by(read.call, read.recorded, tally.heap)?;
    Some(ReadCall {
        pid: read.pid,
        call,
        recorded: None,
    })
}

/// Writes the line of a call behind what a sink holds.
fn write_line(sink: &mut CleanSink, read: ReadCall) -> Result<(), Failed>
    ensures { OnOk result (Appends (Some (take sink.old.used sink.old.store.items)) (Some (take sink.new.used sink.new.store.items)) (call_line read)) }
{
    if read.pid != 0 {
        write_decimal(sink, read.pid as u64)?;
        write_all(sink, b" ")?;
    }
    write_call(sink, &read.call)
}

/// The line of a call, with no result.
pub(crate) fn call_line(alloc: Global, read: ReadCall) -> Result<Vec<u8>, AllocError>
    ensures { IfOk result (λ line. line.items ≡ call_line read) }
{
    let mut sink = CleanSink::new(vec![in alloc; 0u8; ROOM]?);
    match write_line(&mut sink, read) {
        Ok(()) => Vec::from_slice(alloc, sink.written()),
        Err(_) => Err(AllocError),
    }
}
