//! Raw logs by the public calls, one case of each: a line without what strace's options add, and a log that is
//! rewritten. What is written of other logs is in the table `tests/raw_cases`, which the gate plays on the built
//! program.
use raw_lines::plain_parts;
use raw_trace::rewrite;
use std::test::Fail;

#[test]
fn a_line_gives_its_plain_text_in_two_slices(rt: HostRuntime) -> Result<(), Fail> {
    let (number, body) = plain_parts(b"7 18:50:03.445394 munmap(0x10000, 4096) = 0 <0.000021>");
    assert_eq!(rt; number, b"7 ".as_slice());
    assert_eq!(rt; body, b"munmap(0x10000, 4096) = 0".as_slice());
    Ok(())
}

/// Two threads of which one maps what the other is unmapping.
const CUT: &[u8] = b"7 munmap(0x10000, 4096 <unfinished ...>\n\
    8 mmap(NULL, 4096, PROT_READ, MAP_PRIVATE, -1, 0) = 0x10000\n\
    7 <... munmap resumed>) = 0\n";

/// What is written of them.
const WHOLE: &[u8] = b"7 munmap(0x10000, 4096) = 0\n\
    8 mmap(NULL, 4096, PROT_READ, MAP_PRIVATE, -1, 0) = 0x10000\n";

#[test]
fn a_log_is_rewritten(rt: HostRuntime) -> Result<(), Fail> {
    let found = rewrite(rt.alloc(), CUT, None, false).expect(&rt, "a rewriting");
    assert_eq!(rt; found.out.as_slice(), WHOLE);
    assert_eq!(rt; found.counts.joined, 1);
    Ok(())
}
