//! Standard input, output and error as a source and as sinks. This is the trusted edge: no contract can say what the
//! system gives or takes, so the contracts here say nothing of content. A reader may rely on the counts of failed calls
//! alone; that the right bytes move is tested.
ghost use Rattle.std.specs.Prelude.{◌≡◌, ℕ, ◌+◌, ◌<◌, ◌≤◌, ◌^◌, length, take, None, Ok, IfOk, OnOk, OnErr, IsErr};
ghost use Rattle.byte_ports.specs.Counts.{Rose, one_more};

use crate::{Failed, Sink, Source};
use std::io;
use std::io::{Read, Stderr, Stdin, Stdout, Write};

/// What comes of a call of the system that has to move at least so many bytes. An error is a failed call, and so is a
/// call that moves fewer; it is counted.
fn counted(moved: io::Result<usize>, least: usize, faults: &mut u64) -> Result<usize, Failed>
    ensures moved { IfOk moved (λ amount. least ≤ amount → result ≡ Ok amount) }
    ensures short { IfOk moved (λ amount. amount < least → IsErr result) }
    ensures failed { OnErr moved (IsErr result) }
    ensures kept { OnOk result (faults.new ≡ faults.old) }
    ensures counted { OnErr result (faults.new ≡ one_more 64 faults.old) }
{
    match moved {
        Ok(amount) if amount >= least => Ok(amount),
        _ => {
            *faults = faults.saturating_add(1);
            Err(Failed)
        }
    }
}

/// Standard input as a source. Each error of the system is a failed call, also an interrupted one.
#[derive(Drop)]
pub struct StdSource {
    stdin: Stdin,
    faults: u64,
    ghost countable: { faults < 2 ^ 64 },
}

impl StdSource {
    /// A source over standard input, as `rt.stdin()` gives it in `main`. It has read nothing, and no call has
    /// failed yet.
    pub fn new(stdin: Stdin) -> Self
        ensures { ⟦<StdSource as Source>⟧.fault_count result ≡ 0 }
    {
        StdSource { stdin, faults: 0 }
    }
}

impl Source for StdSource {
    ghost remaining = { λ _. None };

    ghost fault_count = { λ s. s.faults };

    ghost count_in_range = { λ s. s.countable };

    fn read(&mut self, buf: &mut [u8]) -> Result<usize, Failed> {
        if buf.is_empty() {
            return Ok(0);
        }
        counted(self.stdin.read(buf), 0, &mut self.faults)
    }
}

/// Which stream a `StdSink` writes to.
#[derive(Clone, Copy)]
enum Stream {
    Output(Stdout),
    Error(Stderr),
}

/// Standard output or standard error as a sink. Each error of the system is a failed call, also an interrupted one, and
/// so is a write of something that takes nothing. It has no buffer: each write is a call of the system.
#[derive(Drop)]
pub struct StdSink {
    stream: Stream,
    faults: u64,
    ghost countable: { faults < 2 ^ 64 },
}

impl StdSink {
    /// A sink over standard output, as `rt.stdout()` gives it in `main`. No call has failed yet.
    pub fn output(stdout: Stdout) -> Self
        ensures { ⟦<StdSink as Sink>⟧.fault_count result ≡ 0 }
    {
        StdSink {
            stream: Stream::Output(stdout),
            faults: 0,
        }
    }

    /// A sink over standard error, as `rt.stderr()` gives it in `main`. No call has failed yet.
    pub fn error(stderr: Stderr) -> Self
        ensures { ⟦<StdSink as Sink>⟧.fault_count result ≡ 0 }
    {
        StdSink {
            stream: Stream::Error(stderr),
            faults: 0,
        }
    }
}

impl Sink for StdSink {
    ghost contents = { λ _. None };

    ghost fault_count = { λ s. s.faults };

    ghost count_in_range = { λ s. s.countable };

    fn write(&mut self, bytes: &[u8]) -> Result<usize, Failed> {
        if bytes.is_empty() {
            return Ok(0);
        }
        let taken = match &mut self.stream {
            Stream::Output(stdout) => stdout.write(bytes),
            Stream::Error(stderr) => stderr.write(bytes),
        };
        counted(taken, 1, &mut self.faults)
    }
}
