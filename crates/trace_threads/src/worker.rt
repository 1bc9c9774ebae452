//! A worker: a caller of a running address space, and the lines that it has to play. A worker that stands holds no
//! range and has a number left for each of its lines, so whoever plays it has nothing to ask. It may go from one thread
//! to another.
ghost use Rattle.std.specs.Prelude.{◌≡◌};

use area_rows::Caller;
use page_types::Call;
use std::marker::Model;

/// A line that is played.
#[derive(Clone, Copy, Debug, PartialEq, Eq)]
pub struct Line {
    /// Its number in the input, counted from 1.
    pub line: u32,
    /// The call that it names.
    pub call: Call,
}

/// A caller and its lines.
#[derive(Drop)]
pub struct Worker {
    pub(crate) caller: Caller,
    pub(crate) lines: Vec<Line>,
}

impl Model for Worker {
    ghost use Rattle.std.specs.Prelude.{◌≡◌, ◌≤◌, None, All, vec_len};
    ghost use Rattle.page_types.specs.Named.{IsNamedCall};
    ghost use Rattle.trace_threads.specs.Workers.{WorkerView};

    ghost Value = { WorkerView };

    ghost view = { λ w. record { caller = w.caller; lines = w.lines.items } };

    ghost invariant = { λ w. (vec_len w.lines ≤ w.caller.left) × (w.caller.seat.held ≡ None) × All (λ l. IsNamedCall l.call) w.lines.items };
}

impl Worker {
    ghost use Rattle.std.specs.Prelude.{◌≡◌, ◌≤◌, None, All, vec_len};
    ghost use Rattle.page_types.specs.Named.{IsNamedCall};

    /// A caller with lines to play, in this order. The caller holds nothing and has a number left for each of them, and
    /// their calls have named bits alone. It takes no memory.
    pub fn new(caller: Caller, lines: Vec<Line>) -> Worker
        requires left { vec_len lines ≤ caller.left }
        requires free { caller.seat.held ≡ None }
        requires named { All (λ l. IsNamedCall l.call) lines.items }
        ensures caller { result.caller ≡ caller }
        ensures lines { result.lines ≡ lines.items }
    {
        Worker { caller, lines }
    }

    /// The worker's caller, which holds nothing. The lines that it hasn't played are dropped.
    pub fn into_caller(self) -> Caller
        ensures caller { result ≡ self.caller }
        ensures free { result.seat.held ≡ None }
    {
        let Worker { caller, .. } = self;
        caller
    }
}

fn sends<T: Send>() {}

/// That a worker is Send. It does nothing.
pub fn is_send_and_sync() {
    sends::<Worker>();
}
