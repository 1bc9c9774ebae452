//! A run whose workers can only go on beside each other: the gate holds worker 0 back before its line until worker 1
//! has its answer, and worker 1 until worker 0 stands there. A wait has a limit of turns, so that a run in which the
//! workers play one after the other fails the test and ends.
use crate::trial::{Status, ended};
use byte_ports::{MemorySink, MemorySource};
use std::sync::atomic::{AtomicU64, Ordering};
use std::test::Fail;
use std::thread;
use trace_threads::Gate;

/// How many turns a wait takes at most.
const MOST_TURNS: u32 = 20_000_000;

/// A fault of each of two processes.
const TWO: &str = "[pid     7] fault(0x10000, PROT_READ)\n[pid     8] fault(0x10000, PROT_READ)\n";

/// The gate.
#[derive(Drop)]
struct TurnGate {
    /// 1 where worker 0 stands before line 1.
    stands: AtomicU64,
    /// 1 where worker 1 has the answer of line 2.
    answered: AtomicU64,
    /// How many waits were given up.
    late: AtomicU64,
    /// How often it was called before a line, and after one.
    before: AtomicU64,
    after: AtomicU64,
}

impl TurnGate {
    /// Waits until a sign is raised, or gives up.
    fn wait_for(&self, sign: &AtomicU64) {
        for _ in 0..MOST_TURNS {
            if sign.load(Ordering::SeqCst) == 1 {
                return;
            }
            thread::yield_now();
        }
        self.late.fetch_add(1, Ordering::SeqCst);
    }
}

impl Gate for TurnGate {
    fn before(&self, worker: u32, line: u32) {
        self.before.fetch_add(1, Ordering::SeqCst);
        if worker == 0 && line == 1 {
            self.stands.store(1, Ordering::SeqCst);
            self.wait_for(&self.answered);
        }
        if worker == 1 && line == 2 {
            self.wait_for(&self.stands);
        }
    }

    fn after(&self, worker: u32, line: u32) {
        self.after.fetch_add(1, Ordering::SeqCst);
        if worker == 1 && line == 2 {
            self.answered.store(1, Ordering::SeqCst);
        }
    }
}

#[test]
fn two_workers_play_beside_each_other(rt: HostRuntime) -> Result<(), Fail> {
    let mut source = MemorySource::new(TWO.as_bytes().to_vec(rt.alloc())?, Vec::new(rt.alloc()));
    let mut out = MemorySink::new(vec![in rt.alloc(); 0u8; 4096]?, Vec::new(rt.alloc()));
    let mut err = MemorySink::new(vec![in rt.alloc(); 0u8; 256]?, Vec::new(rt.alloc()));
    let gate = TurnGate {
        stands: AtomicU64::new(0),
        answered: AtomicU64::new(0),
        late: AtomicU64::new(0),
        before: AtomicU64::new(0),
        after: AtomicU64::new(0),
    };
    let words = ["play", "--threads", "2"];
    let status = ended(
        &rt,
        rt.alloc(),
        &words,
        &mut source,
        &mut out,
        &mut err,
        &gate,
    )?;
    assert_eq!(rt; status, Status::Done);
    let summary = "played 2 skipped 0 refused 2 differ 0\n";
    assert_eq!(rt; out.written(), summary.as_bytes());
    assert_eq!(rt; gate.late.load(Ordering::SeqCst), 0);
    assert_eq!(rt; gate.before.load(Ordering::SeqCst), 2);
    assert_eq!(rt; gate.after.load(Ordering::SeqCst), 2);
    Ok(())
}
