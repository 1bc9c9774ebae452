//! What the tests of runs share: a run over given ports, and how it ended, without the history that it carries, so that
//! it can be compared.
ghost use Rattle.std.specs.Prelude.{◌≡◌, ◌↔◌, None};
ghost use Rattle.trace_driver.specs.declared.status.Status.TheVariants.{Done};
ghost use Rattle.trace_driver.specs.Status.{ending};
ghost use Rattle.test_cli.specs.Trials.{whole};

use byte_ports::{Sink, Source};
use std::alloc::{AllocError, Global};
use std::sync::Wait;
use std::thread::Threads;
use strace_reader::What;
use trace_driver::Which;
use trace_driver::run::run;
use trace_threads::Gate;

/// How a run ended. `Done` is that of a run that carries a history, `Checked` that of one that carries none.
#[derive(Clone, Copy, Debug, PartialEq, Eq)]
pub enum Status {
    Done,
    Checked,
    Usage,
    BadLine { line: u32, column: u32, what: What },
    ReadFault,
    WriteFault,
    Memory,
    Limit { which: Which, value: u64 },
    Wrong { line: u32 },
}

/// A run's status without the history that it carries.
pub fn plain(status: trace_driver::Status) -> Status
    ensures ending { whole result ≡ ending status }
    ensures checked { result ≡ Status.Checked ↔ status ≡ Done None }
{
    match status {
        trace_driver::Status::Done(Some(_)) => Status::Done,
        trace_driver::Status::Done(None) => Status::Checked,
        trace_driver::Status::Usage => Status::Usage,
        trace_driver::Status::BadLine { line, column, what } => Status::BadLine {
            line,
            column,
            what,
        },
        trace_driver::Status::ReadFault => Status::ReadFault,
        trace_driver::Status::WriteFault(_) => Status::WriteFault,
        trace_driver::Status::Memory => Status::Memory,
        trace_driver::Status::Limit { which, value } => Status::Limit { which, value },
        trace_driver::Status::Wrong { line } => Status::Wrong { line },
    }
}

/// How a run of these words over these ports ended.
pub fn ended<R: Threads + Wait + Sync, S: Source, K: Sink, G: Gate>(
    rt: &R,
    alloc: Global,
    words: &[&str],
    input: &mut S,
    out: &mut K,
    err: &mut K,
    gate: &G,
) -> Result<Status, AllocError> {
    let mut owned = Vec::new(alloc);
    for word in words {
        owned.push(String::from_str(alloc, word)?)?;
    }
    Ok(plain(run(rt, alloc, &owned, input, out, err, gate)))
}
