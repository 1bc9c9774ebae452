//! What no clause says of a run over clean ports: that there is memory for it. The clauses leave a run over such ports
//! that is called for one other end, out of memory.
use crate::trial::{Status, plain};
use byte_ports::{CleanSink, CleanSource};
use std::test::Fail;
use trace_driver::run_clean;
use trace_threads::OpenGate;

/// A mapping of two pages.
const MAPPING: &[u8] =
    b"mmap(0x10000, 8192, PROT_READ|PROT_WRITE, MAP_PRIVATE|MAP_FIXED|MAP_ANONYMOUS, -1, 0)\n";

#[test]
fn a_run_over_clean_ports_is_done(rt: HostRuntime) -> Result<(), Fail> {
    let alloc = rt.alloc();
    let mut words = Vec::new(alloc);
    words.push(String::from_str(alloc, "play")?)?;
    let mut input = CleanSource::new(MAPPING.to_vec(alloc)?);
    let mut out = CleanSink::new(vec![in alloc; 0u8; 4096]?);
    let mut err = CleanSink::new(vec![in alloc; 0u8; 256]?);
    let status = run_clean(
        &rt, alloc, &words, &mut input, &mut out, &mut err, &OpenGate,
    );
    let text = "00010000-00012000 rw-p 00000000 00:00 0\nplayed 1 skipped 0 refused 0 differ 0\n";
    assert_eq!(rt; plain(status), Status::Done);
    assert_eq!(rt; out.written(), text.as_bytes());
    assert!(rt; err.written().is_empty());
    Ok(())
}
