//! Workers that touch: each plays its lines as a worker does, and touches the page of each fault that was granted, in a
//! set of touched pages beside the space. A reader may rely on each seat having touched the pages of its worker's
//! granted faults and no other (`HasTouched` in `specs/Touching.antt`).
ghost use Rattle.std.specs.Prelude.{true, ◌≡◌, ◌<◌, ◌≤◌, ◌+◌, [], None, All, length};
ghost use Rattle.std.specs.List.{cons_option};
ghost use Rattle.area_rows.specs.Rows.{keeps_by};
ghost use Rattle.page_types.specs.declared.TheConstants.{LIMIT};
ghost use Rattle.page_types.specs.Named.{IsNamedCall};
ghost use Rattle.space_model.specs.declared.entries.Entry.{Entry};
ghost use Rattle.trace_threads.specs.Workers.{IsPlayedAs};
ghost use Rattle.trace_threads.specs.Touching.{AreTouchersOf, HasTouched, HaveTouched, fault_count, granted_page as page_in, line_faults};
ghost use Rattle.trace_threads.specs.Stages.{HasTouchedPage, HasTouchedLines};

use crate::calls::answer_line;
use crate::gate::Gate;
use crate::playing::MOST_THREADS;
use crate::worker::{Line, Worker};
use area_rows::{Caller, Space};
use page_touch::{TouchSeat, Touches};
use page_types::{Call, PAGE, Reply};
use space_model::Entry;
use std::marker::Model;
use std::sync::Wait;
use std::thread;
use std::thread::Threads;

/// A worker and its seat of a set of touched pages. The seat has a touch left for each Fault among the worker's lines.
#[derive(Drop)]
pub struct TouchWorker {
    pub(crate) worker: Worker,
    pub(crate) seat: TouchSeat,
}

impl Model for TouchWorker {
    ghost use Rattle.std.specs.Prelude.{◌≤◌, ◌+◌, length};
    ghost use Rattle.trace_threads.specs.Touching.{ToucherView, fault_count};

    ghost Value = { ToucherView };

    ghost view = { λ w. record { worker = w.worker; seat = w.seat } };

    ghost invariant = { λ w. fault_count w.worker.lines + length w.seat.touched ≤ w.seat.quota };
}

impl TouchWorker {
    ghost use Rattle.std.specs.Prelude.{◌≡◌, ◌≤◌, ◌+◌, length};
    ghost use Rattle.trace_threads.specs.Touching.{fault_count};

    /// A worker with a seat, which may still touch as many pages as the worker's lines have faults.
    pub fn new(worker: Worker, seat: TouchSeat) -> TouchWorker
        requires left { fault_count worker.lines + length seat.touched ≤ seat.quota }
        ensures worker { result.worker ≡ worker }
        ensures seat { result.seat ≡ seat }
    {
        TouchWorker { worker, seat }
    }

    /// The worker and its seat.
    pub fn into_parts(self) -> (Worker, TouchSeat)
        ensures worker { result.0 ≡ self.worker }
        ensures seat { result.1 ≡ self.seat }
    {
        let TouchWorker { worker, seat } = self;
        (worker, seat)
    }
}

/// The page of an entry that is a fault and was granted.
fn granted_page(entry: &Entry) -> Option<u64>
    ensures { cons_option result [] ≡ page_in entry.now }
{
    match entry.call {
        Call::Map { .. }
        | Call::Unmap { .. }
        | Call::Protect { .. }
        | Call::Seal { .. }
        | Call::Brk { .. }
        | Call::Remap { .. } => None,
        Call::Fault { addr, .. } => match entry.reply {
            Reply::Granted(_) => Some(addr / PAGE),
            Reply::At(_) | Reply::Zero | Reply::Refused(_) => None,
        },
    }
}

/// Touches the page of an entry, if it is a fault that was granted.
fn touch_entry(touches: &Touches, seat: &mut TouchSeat, entry: &Entry)
    requires table { seat.old.table ≡ touches.now.table }
    requires below { All (λ page. page < LIMIT) (page_in entry.now) }
    requires left { length (page_in entry.now) + length seat.old.touched ≤ seat.old.quota }
    ensures { HasTouchedPage entry.now seat.old seat.new }
{
    if let Some(page) = granted_page(entry) {
        touches.touch_uncounted(seat, page);
    }
}

/// A caller plays one line, between the gate's two calls, and its page is touched before the second.
fn touch_line<R: Wait, G: Gate>(
    space: &Space,
    touches: &Touches,
    wait: &R,
    caller: &mut Caller,
    seat: &mut TouchSeat,
    line: Line,
    gate: &G,
)
    requires tables { (caller.old.seat.table ≡ space.now.table) × (seat.old.table ≡ touches.now.table) }
    requires keeps { keeps_by space.now.table ≡ true }
    requires free { caller.old.seat.held ≡ None }
    requires left { 0 < caller.old.left }
    requires named { IsNamedCall line.call }
    requires may { line_faults line + length seat.old.touched ≤ seat.old.quota }
    ensures played { (e : Entry) × IsPlayedAs caller.old line e caller.new × HasTouchedPage e seat.old seat.new }
{
    let worker = caller.worker();
    gate.before(worker, line.line);
    let entry = answer_line(wait, space, caller, line);
    touch_entry(touches, seat, &entry);
    gate.after(worker, line.line);
}

/// A caller plays lines, in their order, and its seat touches the pages of those that are granted faults.
fn touch_lines<R: Wait, G: Gate>(
    space: &Space,
    touches: &Touches,
    wait: &R,
    caller: &mut Caller,
    seat: &mut TouchSeat,
    lines: &[Line],
    gate: &G,
)
    requires tables { (caller.old.seat.table ≡ space.now.table) × (seat.old.table ≡ touches.now.table) }
    requires keeps { keeps_by space.now.table ≡ true }
    requires free { caller.old.seat.held ≡ None }
    requires left { length lines.now ≤ caller.old.left }
    requires named { All (λ l. IsNamedCall l.call) lines.now }
    requires may { fault_count lines.now + length seat.old.touched ≤ seat.old.quota }
    ensures { HasTouchedLines lines.now caller.old caller.new seat.old seat.new }
{
    'lines: for line in lines {
        touch_line(space, touches, wait, caller, seat, *line, gate);
    }
}

/// A worker plays its lines, and has none left.
fn touch_worker<R: Wait, G: Gate>(
    space: &Space,
    touches: &Touches,
    wait: &R,
    toucher: &mut TouchWorker,
    gate: &G,
)
    requires tables { (toucher.old.worker.caller.seat.table ≡ space.now.table) × (toucher.old.seat.table ≡ touches.now.table) }
    requires keeps { keeps_by space.now.table ≡ true }
    ensures { HasTouched toucher.old toucher.new }
{
    let TouchWorker { worker, seat } = toucher;
    let Worker { caller, lines } = worker;
    touch_lines(space, touches, wait, caller, seat, lines.as_slice(), gate);
    lines.clear();
}

/// Plays the lines of all workers, as `play_all`, and touches the page of each fault that was granted, between the
/// call's answer and `gate.after`. The workers' callers are of this space, and their seats of this set.
///
/// It takes the lines out of the workers, has no refusal, and takes no memory.
pub fn play_touching<R: Threads + Wait + Sync, G: Gate>(
    space: &Space,
    touches: &Touches,
    wait: &R,
    workers: &mut [TouchWorker],
    gate: &G,
)
    requires workers { AreTouchersOf space.now.table touches.now.table workers.old }
    requires keeps { keeps_by space.now.table ≡ true }
    ensures { HaveTouched workers.old workers.new }
{
    let turn = |_: usize, toucher: &mut TouchWorker|
        requires { (toucher.now.worker.caller.seat.table ≡ space.now.table) × (toucher.now.seat.table ≡ touches.now.table)
            × (keeps_by space.now.table ≡ true) }
        ensures { HasTouched toucher.entry.now toucher.exit.now }
    { touch_worker(space, touches, wait, toucher, gate) };
    thread::for_each_mut(wait, workers, MOST_THREADS, &turn);
}
