//! Workers at play: each plays its lines in their order, and all play beside each other. What a reader may rely on is
//! said by place (`HavePlayed` in `specs/Workers.antt`): each worker's caller is the one that it was, and has made the
//! calls of its worker's lines, each once and in their order. That threads run at the same time is not said.
ghost use Rattle.std.specs.Prelude.{true, ◌≡◌, ◌<◌, ◌≤◌, None, All, length};
ghost use Rattle.area_rows.specs.Rows.{keeps_by};
ghost use Rattle.page_types.specs.Named.{IsNamedCall};
ghost use Rattle.space_model.specs.declared.entries.Entry.{Entry};
ghost use Rattle.trace_threads.specs.Workers.{AreOfTable, HasPlayed, HasDone, HavePlayed, IsPlayedAs};

use crate::calls::answer_line;
use crate::gate::Gate;
use crate::worker::{Line, Worker};
use area_rows::{Caller, Space};
use std::sync::Wait;
use std::thread;
use std::thread::Threads;

/// In how many threads at most workers play: as many as a space has callers.
pub(crate) const MOST_THREADS: usize = 16;

/// A caller plays one line, between the gate's two calls.
fn play_line<R: Wait, G: Gate>(space: &Space, wait: &R, caller: &mut Caller, line: Line, gate: &G)
    requires table { caller.old.seat.table ≡ space.now.table }
    requires keeps { keeps_by space.now.table ≡ true }
    requires free { caller.old.seat.held ≡ None }
    requires left { 0 < caller.old.left }
    requires named { IsNamedCall line.call }
    ensures played { (e : Entry) × IsPlayedAs caller.old line e caller.new }
{
    let worker = caller.worker();
    gate.before(worker, line.line);
    answer_line(wait, space, caller, line);
    gate.after(worker, line.line);
}

/// A caller plays lines, in their order.
fn play_lines<R: Wait, G: Gate>(
    space: &Space,
    wait: &R,
    caller: &mut Caller,
    lines: &[Line],
    gate: &G,
)
    requires table { caller.old.seat.table ≡ space.now.table }
    requires keeps { keeps_by space.now.table ≡ true }
    requires free { caller.old.seat.held ≡ None }
    requires left { length lines.now ≤ caller.old.left }
    requires named { All (λ l. IsNamedCall l.call) lines.now }
    ensures { HasPlayed lines.now caller.old caller.new }
{
    'lines: for line in lines {
        play_line(space, wait, caller, *line, gate);
    }
}

/// A worker plays its lines, and has none left.
fn play_worker<R: Wait, G: Gate>(space: &Space, wait: &R, worker: &mut Worker, gate: &G)
    requires table { worker.old.caller.seat.table ≡ space.now.table }
    requires keeps { keeps_by space.now.table ≡ true }
    ensures { HasDone worker.old worker.new }
{
    let Worker { caller, lines } = worker;
    play_lines(space, wait, caller, lines.as_slice(), gate);
    lines.clear();
}

/// Plays the lines of all workers, which are of this space: each worker's own in their order, and the workers beside
/// each other. Their slice is halved again and again, and one half goes to a new thread where one can be made.
///
/// Before a line it calls `gate.before`, and after the line's answer `gate.after`, on the thread that plays the line.
/// It takes the lines out of the workers, has no refusal, and takes no memory.
pub fn play_all<R: Threads + Wait + Sync, G: Gate>(
    space: &Space,
    wait: &R,
    workers: &mut [Worker],
    gate: &G,
)
    requires workers { AreOfTable space.now.table workers.old }
    requires keeps { keeps_by space.now.table ≡ true }
    ensures { HavePlayed workers.old workers.new }
{
    let turn = |_: usize, worker: &mut Worker|
        requires { (worker.now.caller.seat.table ≡ space.now.table) × (keeps_by space.now.table ≡ true) }
        ensures { HasDone worker.entry.now worker.exit.now }
    { play_worker(space, wait, worker, gate) };
    thread::for_each_mut(wait, workers, MOST_THREADS, &turn);
}
