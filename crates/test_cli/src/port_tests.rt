//! Runs over ports that fail or that move single bytes: tables of what such a run says and leaves. What a test expects
//! is worked by hand from docs/FORMATS.md. Inputs that are cut off, and inputs that pass a limit, the gate gives to the
//! built program: `tests/cuts` and `tests/cases`.
use crate::trial::{Status, ended};
use byte_ports::{DripSink, DripSource, MemorySink, MemorySource, Sink, Source};
use std::alloc::{AllocError, Global};
use std::process::Abort;
use std::sync::Wait;
use std::sync::atomic::{AtomicU64, Ordering};
use std::test::Fail;
use std::thread::Threads;
use strace_reader::What;
use trace_threads::Gate;

/// The lines of a program's start, with its maps before an empty line. `tests/cuts` says what comes where it is cut
/// off.
const START: &str = "00400000-00401000 r-xp 00000000 08:01 131 /bin/true\n\
    7ffc10000000-7ffc10021000 rw-p 00000000 00:00 0 [stack]\n\
    ffffffffff600000-ffffffffff601000 --xp 00000000 00:00 0 [vsyscall]\n\
    \n\
    execve(\"/bin/true\", [\"true\"], 0x7ffc1001f000 /* 3 vars */) = 0\n\
    brk(NULL)                               = 0x1c3a000\n\
    mmap(NULL, 8192, PROT_READ|PROT_WRITE, MAP_PRIVATE|MAP_ANONYMOUS, -1, 0) = 0x7f1200000000\n\
    mmap(NULL, 2000, PROT_READ, MAP_PRIVATE|MAP_DENYWRITE, 3, 0) = 0x7f1200010000\n\
    mmap(0x7f1200010000, 4096, PROT_READ|PROT_EXEC, MAP_PRIVATE|MAP_FIXED|MAP_DENYWRITE, 3, 0x1000) = 0x7f1200010000\n\
    mprotect(0x7f1200000000, 4096, PROT_READ) = 0\n\
    munmap(0x7f1200010000, 2000)            = 0\n\
    exit_group(0)                           = ?\n\
    +++ exited with 0 +++\n";

/// Calls of two processes, one of which is interrupted.
const HALVES: &str =
    "[pid     7] mmap(0x10000, 4096, PROT_READ, MAP_PRIVATE|MAP_FIXED, -1, 0 <unfinished ...>\n\
    [pid     8] mmap(0x20000, 4096, PROT_READ, MAP_PRIVATE|MAP_FIXED, -1, 0) = 0x20000\n\
    [pid     7] <... mmap resumed>) = 0x10000\n\
    [pid     7] munmap(0x10000, 4096) = 0\n";

/// What every run of them leaves.
const HALVES_LEFT: &str = "00020000-00021000 r--p 00000000 00:00 0\n\
    played 3 skipped 0 refused 0 differ 0\n";

/// A whole area, whose protection is changed.
const AREA: &str =
    "mmap(0x10000, 8192, PROT_READ|PROT_WRITE, MAP_PRIVATE|MAP_FIXED, -1, 0) = 0x10000\n\
    mprotect(0x10000, 8192, PROT_READ) = 0\n";

/// What a run of these two calls writes with its log.
const REPORT: &str =
    "0 0 1 mmap(0x10000, 8192, PROT_READ|PROT_WRITE, MAP_PRIVATE|MAP_FIXED, -1, 0) = 0x10000 under whole\n\
    1 0 2 mprotect(0x10000, 8192, PROT_READ) = 0 under area 0xf-0x13\n\
    00010000-00012000 r--p 00000000 00:00 0\n\
    played 2 skipped 0 refused 0 differ 0\n";

/// Its writes, with how many bytes stand before each: the log, the maps and the summary.
const WRITES: [(u32, usize); 3] = [(1, 0), (2, 165), (3, 205)];

/// More calls of a port than any run here makes.
const MOST_CALLS: u32 = 2000;

/// A gate that counts the lines that were played.
#[derive(Drop)]
struct CountGate {
    played: AtomicU64,
}

impl Gate for CountGate {
    fn before(&self, _worker: u32, _line: u32) {}

    fn after(&self, _worker: u32, _line: u32) {
        self.played.fetch_add(1, Ordering::SeqCst);
    }
}

/// How a run over these ports ended, and how many lines it played.
fn run_counted<R: Threads + Wait + Sync, S: Source, K: Sink>(
    rt: &R,
    alloc: Global,
    words: &[&str],
    input: &mut S,
    out: &mut K,
    err: &mut K,
) -> Result<(Status, u64), AllocError> {
    let gate = CountGate {
        played: AtomicU64::new(0),
    };
    let status = ended(rt, alloc, words, input, out, err, &gate)?;
    Ok((status, gate.played.load(Ordering::SeqCst)))
}

/// An empty sink that fails at these calls.
fn sink(alloc: Global, fails: &[u32]) -> Result<MemorySink, AllocError> {
    Ok(MemorySink::new(vec![in alloc; 0u8; 4096]?, fails.to_vec(alloc)?))
}

/// A source of these bytes that fails at these calls.
fn source(alloc: Global, bytes: &[u8], fails: &[u32]) -> Result<MemorySource, AllocError> {
    Ok(MemorySource::new(bytes.to_vec(alloc)?, fails.to_vec(alloc)?))
}

/// Fails the test unless the halves leave the same over ports of single bytes.
fn try_drips<R: Abort + Threads + Wait + Sync>(
    rt: &R,
    alloc: Global,
    words: &[&str],
) -> Result<(), Fail> {
    let mut input = DripSource {
        inner: source(alloc, HALVES.as_bytes(), &[])?,
    };
    let mut out = DripSink {
        inner: sink(alloc, &[])?,
    };
    let mut err = DripSink {
        inner: sink(alloc, &[])?,
    };
    let ended = run_counted(rt, alloc, words, &mut input, &mut out, &mut err)?;
    assert_eq!(rt; ended, (Status::Done, 3));
    assert_eq!(rt; out.inner.written(), HALVES_LEFT.as_bytes());
    assert!(rt; err.inner.written().is_empty());
    Ok(())
}

#[test]
fn ports_of_single_bytes_carry_the_same_report(rt: HostRuntime) -> Result<(), Fail> {
    try_drips(&rt, rt.alloc(), &["play"])?;
    try_drips(&rt, rt.alloc(), &["play", "--threads", "2"])
}

/// Runs the start from a source, and says whether it was done. Where it wasn't, the test fails unless the run says
/// that the source failed, and played and wrote nothing.
fn is_read<R: Abort + Threads + Wait + Sync, S: Source>(
    rt: &R,
    alloc: Global,
    input: &mut S,
) -> Result<bool, Fail> {
    let mut out = sink(alloc, &[])?;
    let mut err = sink(alloc, &[])?;
    let words = ["play", "--opening"];
    let ended = run_counted(rt, alloc, &words, input, &mut out, &mut err)?;
    if ended == (Status::Done, 6) {
        return Ok(true);
    }
    assert_eq!(rt; ended, (Status::ReadFault, 0));
    assert!(rt; out.written().is_empty());
    assert_eq!(rt; err.written(), b"read fault\n".as_slice());
    Ok(false)
}

/// Runs the start from a source that fails at this call, and says whether it was done, so that the call wasn't made.
fn is_whole<R: Abort + Threads + Wait + Sync>(
    rt: &R,
    alloc: Global,
    call: u32,
) -> Result<bool, Fail> {
    let mut input = source(alloc, START.as_bytes(), &[call])?;
    let done = is_read(rt, alloc, &mut input)?;
    assert_eq!(rt; done, input.faults == 0);
    Ok(done)
}

/// The same from a source of single bytes.
fn is_whole_by_drips<R: Abort + Threads + Wait + Sync>(
    rt: &R,
    alloc: Global,
    call: u32,
) -> Result<bool, Fail> {
    let mut input = DripSource {
        inner: source(alloc, START.as_bytes(), &[call])?,
    };
    let done = is_read(rt, alloc, &mut input)?;
    assert_eq!(rt; done, input.inner.faults == 0);
    Ok(done)
}

#[test]
fn a_read_that_fails_plays_nothing(rt: HostRuntime) -> Result<(), Fail> {
    // The first read gives all bytes and the second none, so a third isn't made.
    let mut unmade = 0u32;
    for call in 1..MOST_CALLS {
        if is_whole(&rt, rt.alloc(), call)? {
            unmade = call;
            break;
        }
    }
    assert_eq!(rt; unmade, 3);
    Ok(())
}

#[test]
fn a_read_of_a_byte_that_fails_plays_nothing(rt: HostRuntime) -> Result<(), Fail> {
    let mut unmade = 0u32;
    for call in 1..MOST_CALLS {
        if is_whole_by_drips(&rt, rt.alloc(), call)? {
            unmade = call;
            break;
        }
    }
    assert_eq!(rt; unmade as usize, START.len().wrapping_add(2));
    Ok(())
}

/// How a run of the area ends that writes its log to this sink.
fn write_area<R: Threads + Wait + Sync, K: Sink>(
    rt: &R,
    alloc: Global,
    out: &mut K,
    err: &mut K,
) -> Result<Status, AllocError> {
    let mut input = source(alloc, AREA.as_bytes(), &[])?;
    let (status, _) = run_counted(rt, alloc, &["play", "--log"], &mut input, out, err)?;
    Ok(status)
}

/// Fails the test unless a run says that its output failed, which has these bytes.
fn broke_off(rt: &impl Abort, status: Status, out: &MemorySink, err: &MemorySink, bytes: &[u8]) {
    assert_eq!(rt; (status, out.faults), (Status::WriteFault, 1));
    assert_eq!(rt; out.written(), bytes);
    assert_eq!(rt; err.written(), b"write fault\n".as_slice());
}

/// Runs the area with a sink that fails at this call. The test fails unless it has this part of the report then.
fn break_off<R: Abort + Threads + Wait + Sync>(
    rt: &R,
    alloc: Global,
    call: u32,
    bytes: &[u8],
) -> Result<(), Fail> {
    let mut out = sink(alloc, &[call])?;
    let mut err = sink(alloc, &[])?;
    let status = write_area(rt, alloc, &mut out, &mut err)?;
    broke_off(rt, status, &out, &err, bytes);
    Ok(())
}

/// The same with a sink that takes single bytes.
fn break_off_by_drips<R: Abort + Threads + Wait + Sync>(
    rt: &R,
    alloc: Global,
    call: u32,
    bytes: &[u8],
) -> Result<(), Fail> {
    let mut out = DripSink {
        inner: sink(alloc, &[call])?,
    };
    let mut err = DripSink {
        inner: sink(alloc, &[])?,
    };
    let status = write_area(rt, alloc, &mut out, &mut err)?;
    broke_off(rt, status, &out.inner, &err.inner, bytes);
    Ok(())
}

/// Runs the area with a sink that would fail at a fourth write. The test fails unless it has the whole report.
fn write_whole<R: Abort + Threads + Wait + Sync>(rt: &R, alloc: Global) -> Result<(), Fail> {
    let mut out = sink(alloc, &[4])?;
    let mut err = sink(alloc, &[])?;
    let status = write_area(rt, alloc, &mut out, &mut err)?;
    assert_eq!(rt; status, Status::Done);
    assert_eq!(rt; out.written(), REPORT.as_bytes());
    Ok(())
}

#[test]
fn a_write_that_fails_leaves_what_went_before(rt: HostRuntime) -> Result<(), Fail> {
    let report = REPORT.as_bytes();
    for (call, length) in WRITES {
        assert!(rt; length <= report.len());
        break_off(&rt, rt.alloc(), call, &report[..length])?;
    }
    write_whole(&rt, rt.alloc())
}

#[test]
fn a_write_of_a_byte_that_fails_leaves_what_went_before(rt: HostRuntime) -> Result<(), Fail> {
    let report = REPORT.as_bytes();
    let mut call = 1u32;
    for length in 0..report.len() {
        break_off_by_drips(&rt, rt.alloc(), call, &report[..length])?;
        call = call.wrapping_add(1);
    }
    Ok(())
}

/// Runs this word with a sink for errors that fails at its first write, over an input and an output that fail at these
/// calls. The test fails unless it ends so, writes nothing, and has played only where its output failed.
fn try_unsaid<R: Abort + Threads + Wait + Sync>(
    rt: &R,
    alloc: Global,
    word: &str,
    input: &[u8],
    read_fails: &[u32],
    write_fails: &[u32],
    status: Status,
) -> Result<(), Fail> {
    let mut input = source(alloc, input, read_fails)?;
    let mut out = sink(alloc, write_fails)?;
    let mut err = sink(alloc, &[1])?;
    let (ended, played) = run_counted(rt, alloc, &[word], &mut input, &mut out, &mut err)?;
    assert_eq!(rt; ended, status);
    assert_eq!(rt; played > 0, status == Status::WriteFault);
    assert_eq!(rt; (out.used, err.used, err.faults), (0, 0, 1));
    Ok(())
}

/// The line that breaks off at its end.
const CUT: Status = Status::BadLine {
    line: 1,
    column: 17,
    what: What::Comma,
};

#[test]
fn the_status_stays_where_its_line_cannot_be_written(rt: HostRuntime) -> Result<(), Fail> {
    let cases: [(&str, &str, &[u32], &[u32], Status); 4] = [
        ("plya", AREA, &[], &[], Status::Usage),
        ("play", "mmap(0x10000, 81", &[], &[], CUT),
        ("play", AREA, &[1], &[], Status::ReadFault),
        ("play", AREA, &[], &[1], Status::WriteFault),
    ];
    for (word, input, read_fails, write_fails, status) in cases {
        let bytes = input.as_bytes();
        try_unsaid(
            &rt,
            rt.alloc(),
            word,
            bytes,
            read_fails,
            write_fails,
            status,
        )?;
    }
    Ok(())
}
