//! Whole logs that were written out by hand, and the same logs with one thing changed.
use bitflags::Flags;
use history_check::{Verdict, WrongLog, check, fits, printed_logs_are_good, read_log_line};
use page_types::{Call, MapFlags, Prot};
use space_model::PlainSpace;
use std::alloc::{AllocError, AllocGlobal};
use std::process::Abort;
use std::test::Fail;

/// The log of two calls, in its two lines, and what its run leaves.
const MAP: &str =
    "0 0 1 mmap(0x10000, 8192, PROT_READ|PROT_WRITE, MAP_PRIVATE|MAP_FIXED, -1, 0) = 0x10000 under whole";

const PROTECT: &str = "1 0 2 mprotect(0x10000, 8192, PROT_READ) = 0 under area 0xf-0x13";

const MAPS: &str = "00010000-00012000 r--p 00000000 00:00 0";

const SUMMARY: &str = "played 2 skipped 0 refused 0 differ 0";

const TOUCHED: &str = "touched 0";

const SEAL: &str = "1 0 2 mseal(0x10000, 4096, 0) = 0 under whole";

/// Logs from the empty space, line by line, and the verdict on each.
const LOGS: [(&[&str], Verdict); 30] = [
    // A log is legal with its rest or without.
    (
        &[MAP, PROTECT, MAPS, SUMMARY],
        Verdict::Legal { entries: 2 },
    ),
    (&[MAP, PROTECT], Verdict::Legal { entries: 2 }),
    (&[], Verdict::Legal { entries: 0 }),
    (
        &[MAP, PROTECT, MAPS, "played 9 of many"],
        Verdict::Legal { entries: 2 },
    ),
    (
        &[MAP, PROTECT, MAPS, SUMMARY, TOUCHED],
        Verdict::Legal { entries: 2 },
    ),
    // A rest is wrong at its first line that differs.
    (
        &[MAP, PROTECT, SUMMARY],
        Verdict::Wrong {
            line: 3,
            why: WrongLog::Rest,
        },
    ),
    (
        &[MAP, PROTECT, MAPS],
        Verdict::Wrong {
            line: 4,
            why: WrongLog::Rest,
        },
    ),
    (
        &[
            MAP,
            PROTECT,
            MAPS,
            "00020000-00021000 r--p 00000000 00:00 0",
            SUMMARY,
        ],
        Verdict::Wrong {
            line: 4,
            why: WrongLog::Rest,
        },
    ),
    (
        &[MAP, PROTECT, MAPS, SUMMARY, ""],
        Verdict::Wrong {
            line: 5,
            why: WrongLog::Rest,
        },
    ),
    (
        &[MAP, PROTECT, MAPS, SUMMARY, TOUCHED, TOUCHED],
        Verdict::Wrong {
            line: 6,
            why: WrongLog::Rest,
        },
    ),
    (
        &["", MAP, PROTECT, MAPS, SUMMARY],
        Verdict::Wrong {
            line: 1,
            why: WrongLog::Rest,
        },
    ),
    // A log line has the form of its entry.
    (
        &["0 0 1 munmap(0x0, 4096) = 0 under whole"],
        Verdict::Wrong {
            line: 1,
            why: WrongLog::Form,
        },
    ),
    (
        &["12 x"],
        Verdict::Wrong {
            line: 1,
            why: WrongLog::Form,
        },
    ),
    (
        &[
            MAP,
            "1 16 2 mprotect(0x10000, 8192, PROT_READ) = 0 under area 0xf-0x13",
            MAPS,
            SUMMARY,
        ],
        Verdict::Wrong {
            line: 2,
            why: WrongLog::Form,
        },
    ),
    (
        &[
            MAP,
            "1 15 2 mprotect(0x10000, 8192, PROT_READ) = 0 under area 0xf-0x13",
            MAPS,
            SUMMARY,
        ],
        Verdict::Legal { entries: 2 },
    ),
    (
        &[
            MAP,
            "18446744073709551616 0 2 mprotect(0x10000, 8192, PROT_READ) = 0 under area 0xf-0x13",
            MAPS,
            SUMMARY,
        ],
        Verdict::Wrong {
            line: 2,
            why: WrongLog::Form,
        },
    ),
    // Numbers are those of their places, and the lines of a worker rise.
    (
        &[PROTECT, MAP, MAPS, SUMMARY],
        Verdict::Wrong {
            line: 1,
            why: WrongLog::Number,
        },
    ),
    (
        &[
            MAP,
            "18446744073709551615 0 2 mprotect(0x10000, 8192, PROT_READ) = 0 under area 0xf-0x13",
            MAPS,
            SUMMARY,
        ],
        Verdict::Wrong {
            line: 2,
            why: WrongLog::Number,
        },
    ),
    (
        &[
            MAP,
            "1 0 1 mprotect(0x10000, 8192, PROT_READ) = 0 under area 0xf-0x13",
            MAPS,
            SUMMARY,
        ],
        Verdict::Wrong {
            line: 2,
            why: WrongLog::Order,
        },
    ),
    (
        &[
            MAP,
            "1 0 0 mprotect(0x10000, 8192, PROT_READ) = 0 under area 0xf-0x13",
            MAPS,
            SUMMARY,
        ],
        Verdict::Wrong {
            line: 2,
            why: WrongLog::Order,
        },
    ),
    (
        &[
            MAP,
            "1 1 0 mprotect(0x10000, 8192, PROT_READ) = 0 under area 0xf-0x13",
            MAPS,
            SUMMARY,
        ],
        Verdict::Legal { entries: 2 },
    ),
    // What was held is asked before the reply, and the order before both.
    (
        &[
            MAP,
            "1 0 2 mprotect(0x10000, 8192, PROT_READ) = 0 under whole",
            MAPS,
            SUMMARY,
        ],
        Verdict::Legal { entries: 2 },
    ),
    (
        &[
            MAP,
            "1 0 2 mprotect(0x10000, 8192, PROT_READ) = 0 under area 0x10-0x12",
            MAPS,
            SUMMARY,
        ],
        Verdict::Wrong {
            line: 2,
            why: WrongLog::Held,
        },
    ),
    (
        &[
            MAP,
            "1 0 2 mprotect(0x10000, 8192, PROT_READ) = -1 ENOMEM missing page 0x10 under area 0xf-0x13",
            MAPS,
            SUMMARY,
        ],
        Verdict::Wrong {
            line: 2,
            why: WrongLog::Reply,
        },
    ),
    (
        &[
            MAP,
            "1 0 2 mprotect(0x10000, 8192, PROT_READ) = 0x0 under area 0xf-0x14",
            MAPS,
            SUMMARY,
        ],
        Verdict::Wrong {
            line: 2,
            why: WrongLog::Held,
        },
    ),
    (
        &[
            MAP,
            "1 0 1 mprotect(0x10000, 8192, PROT_READ) = 0 under area 0xf-0x14",
            MAPS,
            SUMMARY,
        ],
        Verdict::Wrong {
            line: 2,
            why: WrongLog::Order,
        },
    ),
    // Sealed pages refuse.
    (
        &[
            MAP,
            SEAL,
            "2 0 3 mprotect(0x10000, 4096, PROT_READ) = -1 EPERM page 0x10 under area 0xf-0x12",
            "3 0 4 munmap(0x10000, 8192) = -1 EPERM page 0x10 under whole",
            "4 0 5 fault(0x10000, PROT_WRITE) = granted rw-p sealed under reader 0x10-0x11",
            "00010000-00011000 rw-p 00000000 00:00 0",
            "00011000-00012000 rw-p 00000000 00:00 0",
            "played 5 skipped 0 refused 2 differ 0",
        ],
        Verdict::Legal { entries: 5 },
    ),
    (
        &[
            MAP,
            SEAL,
            "2 0 3 mprotect(0x10000, 4096, PROT_READ) = 0 under area 0xf-0x12",
        ],
        Verdict::Wrong {
            line: 3,
            why: WrongLog::Reply,
        },
    ),
    (
        &[MAP, "1 0 2 mseal(0x10000, 4096, 0) = 0 under area 0xf-0x13"],
        Verdict::Wrong {
            line: 2,
            why: WrongLog::Held,
        },
    ),
    (
        &[
            MAP,
            SEAL,
            "2 0 3 fault(0x10000, PROT_WRITE) = granted rw-p under reader 0x10-0x11",
        ],
        Verdict::Wrong {
            line: 3,
            why: WrongLog::Reply,
        },
    ),
];

/// Logs without a newline behind their last line, or with another line end, and the verdict on each.
const TEXTS: [(&[u8], Verdict); 2] = [
    (
        b"0 0 1 munmap(NULL, 4096) = 0 under whole",
        Verdict::Legal { entries: 1 },
    ),
    (
        b"0 0 1 munmap(NULL, 4096) = 0 under whole\r\n",
        Verdict::Wrong {
            line: 1,
            why: WrongLog::Form,
        },
    ),
];

/// Logs from the area of a program, line by line, and the verdict on each.
const PROGRAM_LOGS: [(&[&str], Verdict); 2] = [
    (
        &[
            "0 3 7 fault(0x400123, PROT_EXEC) = granted r-xp under reader 0x400-0x401",
            "00400000-00401000 r-xp 00000000 00:00 0",
            "played 1",
        ],
        Verdict::Legal { entries: 1 },
    ),
    (
        &[
            "0 3 7 fault(0x400123, PROT_EXEC) = granted r-xs under reader 0x400-0x401",
            "00400000-00401000 r-xp 00000000 00:00 0",
            "played 1",
        ],
        Verdict::Wrong {
            line: 1,
            why: WrongLog::Reply,
        },
    ),
];

/// Looks at the verdict on these lines from this space, with a newline behind each.
fn expect_from(
    rt: &(impl Abort + AllocGlobal),
    start: PlainSpace,
    lines: &[&str],
    verdict: Verdict,
) -> Result<(), AllocError> {
    let mut text = Vec::new(rt.alloc());
    for line in lines {
        text.extend_from_slice(line.as_bytes())?;
        text.push(b'\n')?;
    }
    expect_text(rt, start, text.as_slice(), verdict)
}

/// The same of this text.
fn expect_text(
    rt: &impl Abort,
    start: PlainSpace,
    text: &[u8],
    verdict: Verdict,
) -> Result<(), AllocError> {
    assert!(rt; text.len() <= 1 << 26);
    assert_eq!(rt; check(start, text)?, verdict);
    Ok(())
}

#[test]
fn logs_from_the_empty_space_have_their_verdicts(rt: HostRuntime) -> Result<(), Fail> {
    for (lines, verdict) in LOGS {
        expect_from(&rt, PlainSpace::new(rt.alloc()), lines, verdict)?;
    }
    Ok(())
}

#[test]
fn a_line_end_belongs_to_no_log_line(rt: HostRuntime) -> Result<(), Fail> {
    for (text, verdict) in TEXTS {
        expect_text(&rt, PlainSpace::new(rt.alloc()), text, verdict)?;
    }
    Ok(())
}

/// A space with one area, which may be read and executed.
fn with_program(rt: &(impl Abort + AllocGlobal)) -> Result<PlainSpace, AllocError> {
    let mut space = PlainSpace::new(rt.alloc());
    let call = Call::Map {
        addr: 0x400000,
        len: 4096,
        prot: Prot::from_bits_retain(5),
        flags: MapFlags::from_bits_retain(6),
    };
    assert!(rt; call.is_named());
    space.step(&call)?;
    Ok(space)
}

#[test]
fn a_log_begins_at_the_areas_that_are_given(rt: HostRuntime) -> Result<(), Fail> {
    for (lines, verdict) in PROGRAM_LOGS {
        expect_from(&rt, with_program(&rt)?, lines, verdict)?;
    }
    Ok(())
}

#[test]
fn a_fault_holds_its_page_and_no_more(rt: HostRuntime) -> Result<(), Fail> {
    let space = with_program(&rt)?;
    let line = b"0 3 7 fault(0x400123, PROT_EXEC) = granted r-xp under reader 0x400-0x401";
    let Some(entry) = read_log_line(line) else {
        return rt.abort();
    };
    assert!(rt; fits(&space, &entry));
    printed_logs_are_good(&[entry]);
    let line = b"0 3 7 fault(0x400123, PROT_EXEC) = granted r-xp under whole";
    let Some(entry) = read_log_line(line) else {
        return rt.abort();
    };
    assert!(rt; !fits(&space, &entry));
    Ok(())
}
