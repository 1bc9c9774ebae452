//! A load by sixteen workers whose history is printed as a log and checked. A load has no log of its own, so this can't
//! be a case of tests/cases.
use byte_ports::{MemorySink, MemorySource};
use maps_printer::{write_log, write_maps};
use std::alloc::Global;
use std::sync::Wait;
use std::test::Fail;
use std::thread::Threads;
use trace_driver::Status;
use trace_driver::run::run;
use trace_threads::OpenGate;

/// An input that a load leaves unread.
const UNREAD: &str = "1 munmap(0x10000, 4096) = 0\n";

/// A run of an input over ports in memory, its output, and how many reads there were.
fn run_words<R: Threads + Wait + Sync>(
    rt: &R,
    alloc: Global,
    words: &[&str],
    input: &[u8],
) -> Result<(Status, MemorySink, u32), Fail> {
    let mut owned = Vec::new(alloc);
    for word in words {
        owned.push(String::from_str(alloc, word)?)?;
    }
    let mut source = MemorySource::new(input.to_vec(alloc)?, Vec::new(alloc));
    let mut out = MemorySink::new(vec![in alloc; 0u8; 4096]?, Vec::new(alloc));
    let mut err = MemorySink::new(vec![in alloc; 0u8; 256]?, Vec::new(alloc));
    let status = run(
        rt,
        alloc,
        &owned,
        &mut source,
        &mut out,
        &mut err,
        &OpenGate,
    );
    Ok((status, out, source.calls))
}

#[test]
fn the_log_of_a_load_by_sixteen_workers_is_legal(rt: HostRuntime) -> Result<(), Fail> {
    let words = ["load", "--seed=1", "--threads=16", "--calls=2000"];
    let (status, summary, reads) = run_words(&rt, rt.alloc(), &words, UNREAD.as_bytes())?;
    assert_eq!(rt; reads, 0);
    let Status::Done(Some(closed)) = status else {
        panic!(rt; "not done");
    };
    assert_eq!(rt; closed.entries().len(), 2000);
    let mut shown = MemorySink::new(vec![in rt.alloc(); 0u8; 400_000]?, Vec::new(rt.alloc()));
    assert!(rt; write_log(&mut shown, closed.entries()).is_ok());
    assert!(rt; write_maps(&mut shown, closed.areas()).is_ok());
    let mut log = shown.written().to_vec(rt.alloc())?;
    log.extend_from_slice(summary.written())?;
    let (status, verdict, _) = run_words(&rt, rt.alloc(), &["check"], &log)?;
    assert!(rt; matches!(status, Status::Done(None)));
    assert_eq!(rt; verdict.written(), b"legal 2000\n".as_slice());
    Ok(())
}
