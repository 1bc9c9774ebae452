//! What no clause shows: that the definitions say what the tables of `docs/FORMATS.md` say, on lines of each form,
//! after strace(1) and proc_pid_maps(5).

use bitflags::Flags;
use page_types::{Access, Call, Field, Kind, MapFlags, Prot, Reply, Why};
use space_model::Area;
use std::process::Abort;
use std::test::*;
use strace_reader::*;

fn map(addr: u64, len: u64, prot: u8, flags: u8) -> Call {
    Call::Map {
        addr,
        len,
        prot: Prot::from_bits_retain(prot),
        flags: MapFlags::from_bits_retain(flags),
    }
}

fn remap(addr: u64, old_len: u64, new_len: u64, may_move: bool, hint: u64) -> Call {
    Call::Remap {
        addr,
        old_len,
        new_len,
        may_move,
        hint,
    }
}

fn played(call: Call, recorded: Option<Recorded>) -> Result<Item, BadCall> {
    Ok(Item::Played {
        pid: 0,
        call,
        recorded,
    })
}

/// What is read of a line, which is no longer than one may be.
fn read(rt: &impl Abort, line: &[u8]) -> Result<Item, BadCall> {
    assert!(rt; line.len() <= 131_072);
    read_line(line)
}

/// Lines that are refused, the column and the cause.
const REFUSED: [(&[u8], u32, What); 64] = [
    (b"munmap(x, 1)", 8, What::Number),
    (b"munmap(0x, 1)", 10, What::Number),
    (b"munmap(NUX, 1)", 10, What::Number),
    (b"munmap(NU", 10, What::Number),
    (b"munmap(1, -1)", 11, What::Number),
    (b"munmap(0X10, 1)", 9, What::Comma),
    (b"mmap(1, 2, PROT_READ, MAP_FIXED, x, 0)", 34, What::Number),
    (b"mmap(1, 2, PROT_READ, MAP_FIXED, -2, 0)", 35, What::Number),
    (b"mmap(1, 2, PROT_READ, 21<<0x, -1, 0)", 29, What::Number),
    (b"munmap(99999999999999999999x", 8, What::Wide),
    (b"munmap(1, 0x10000000000000000)", 11, What::Wide),
    (
        b"mmap(1, 2, PROT_READ, 18446744073709551616|MAP_FIXED, -1, 0)",
        23,
        What::Wide,
    ),
    (b"munmap(1, 2) = 18446744073709551616", 16, What::Wide),
    (b"mprotect(1, 2, prot)", 16, What::Word),
    (b"mprotect(1, 2, PROT_READ|, 0)", 26, What::Word),
    (b"mmap(1, 2, PROT_READ, ", 23, What::Word),
    (b"mmap(1, 2, PROT_READ, 21<<-1, -1, 0)", 27, What::Word),
    (b"fault(0x10000, PROT_NONE)", 16, What::Word),
    (b"fault(0x10000, PROT_RE", 16, What::Word),
    (b"fault(0x10000, 99999999999999999999)", 16, What::Word),
    (b"fault(0x10000, )", 16, What::Word),
    (b"mmap(0x10000, 81", 17, What::Comma),
    (b"munmap(1", 9, What::Comma),
    (b"munmap(1 , 2)", 9, What::Comma),
    (b"munmap(99x, 2)", 10, What::Comma),
    (b"mmap(1, 2, PROT_READ |PROT_EXEC", 21, What::Comma),
    (b"mmap(1, 2, PROT_READ, MAP_FIX", 30, What::Comma),
    (b"mmap(1, 2, PROT_READ, 21<M, -1, 0)", 26, What::Comma),
    (b"mmap(1, 2, PROT_READ, 1<<2<<3, -1, 0)", 27, What::Comma),
    (b"mmap(1, 2, PROT_READ, 1 x, -1, 0)", 25, What::Comma),
    (b"mmap(1, 2, PROT_READ, 1 /x, -1, 0)", 26, What::Comma),
    (b"mmap(1, 2, PROT_READ, 1 /* x *", 31, What::Comma),
    (b"mmap(1, 2, PROT_READ, MAP_FIXED, 3</a>", 39, What::Comma),
    (b"mmap(1, 2, PROT_READ, MAP_FIXED, 3>, 0)", 35, What::Comma),
    (b"munmap(1, 2 )", 12, What::Close),
    (b"munmap(1, 2,)", 12, What::Close),
    (b"munmap(1, 2", 12, What::Close),
    (b"fault(1, PROT_READ, 0)", 19, What::Close),
    (b"munmap(1, 2)x", 13, What::Result),
    (b"munmap(1, 2) ", 14, What::Result),
    (b"munmap(1, 2) =0", 15, What::Result),
    (b"munmap(1, 2) = 0x", 18, What::Result),
    (b"munmap(1, 2) = -2", 17, What::Result),
    (b"munmap(1, 2) = -1 -", 19, What::Result),
    (b"munmap(1, 2) = -1 EINVAL(", 25, What::Result),
    (b"munmap(1, 2) = 0;", 17, What::Result),
    (b"munmap(1, 2) = ??", 17, What::Result),
    (b"[pid     7] munmap(0x10000 4096) = 0", 27, What::Comma),
    (b"7  fault(1, PROT_READ, 0)", 22, What::Close),
    (b"mseal(1, 2)", 11, What::Comma),
    (b"mseal(1, 2, )", 13, What::Number),
    (b"mseal(1, 2, MSEAL)", 13, What::Number),
    (b"mseal(1, 2, 0x0, 0)", 16, What::Close),
    (b"brk(x)", 5, What::Number),
    (b"brk(NULL x)", 9, What::Close),
    (b"brk(NULL, )", 11, What::Number),
    (b"brk(1, 2, 3)", 9, What::Close),
    (b"mremap(1, 2)", 12, What::Comma),
    (b"mremap(1, 2, 3, x)", 17, What::Word),
    (b"mremap(1, 2, 3, 0x)", 19, What::Number),
    (b"mremap(1, 2, 3, 0 )", 18, What::Close),
    (b"mremap(1, 2, 3, MREMAP_MAYMOVE )", 31, What::Close),
    (b"mremap(1, 2, 3, MREMAP_MAYMOVE, )", 33, What::Number),
    (b"mremap(1, 2, 3, 0, 4, 5)", 21, What::Close),
];

#[test]
fn refusals_have_their_column_and_cause(rt: HostRuntime) {
    for (line, column, what) in REFUSED {
        assert!(rt; read(&rt, line) == Err(BadCall { column, what }));
    }
}

/// Lines that are passed over.
const OTHERS: [&[u8]; 24] = [
    b"--- SIGSEGV {si_signo=SIGSEGV} ---",
    b"+++ exited with 0 +++",
    b"execve(\"/bin/true\", [\"true\"], 0x7ffc1001f000 /* 3 vars */) = 0",
    b"getpid()                                = 7",
    b"madvise(0x1c3a000, 4096, MADV_DONTNEED) = 0",
    b"exit_group(0)                           = ?",
    b"mprotect(0x1000, 4096, PROT_SEM) = 0",
    b"mprotect(0x1000, 4096, PROT_READ|99999999999999999999",
    b"mprotect(0x1000, 4096, PROT_RE",
    b"mmap(1, 2, PROT_READ, MAP_SHARED_VALIDATE|x",
    b"mremap(1, 2, 3, MREMAP_MAYMOVE|MREMAP_FIXED, 4) = 4",
    b"mremap(1, 2, 3, MREMAP_DONTUNMAP",
    b"mremap(1, 2, 3, 1) = 1",
    b"mremap(1, 2, 3, 00) = 1",
    b"mremap(1, 2, 3, 0x0) = 1",
    b"mremap(1, 2, 3, 0|x",
    b"munmap(0x1000 <unfinished ...>)   = ?",
    b" ",
    b"munmap",
    b"[pid 4294967296] munmap(1, 2",
    b"[pid 7]",
    b"7 ",
    b"7 +++ exited with 0 +++",
    b"[pid 7] munmap(0x1000 <unfinished ...>) = ?",
];

#[test]
fn other_lines_are_skipped(rt: HostRuntime) {
    for line in OTHERS {
        assert!(rt; read(&rt, line) == Ok(Item::Other));
    }
    assert!(rt; read_line(b"") == Ok(Item::Blank));
}

#[test]
fn a_long_line_is_skipped(rt: HostRuntime) -> Result<(), Fail> {
    let mut long = Vec::new(rt.alloc());
    long.resize(65_535, b'x')?;
    assert!(rt; read(&rt, long.as_slice()) == Ok(Item::Other));
    Ok(())
}

#[test]
fn halves_and_processes_are_read(rt: HostRuntime) {
    let call = Call::Unmap {
        addr: 0x10000,
        len: 4096,
    };
    let whole = Ok(Item::Played {
        pid: 7,
        call,
        recorded: Some(Recorded::Value(0)),
    });
    let line: &[u8] = b"[pid     7]  munmap(0x10000, 4096) = 0";
    assert!(rt; read(&rt, line) == whole);
    let line: &[u8] = b"7 munmap(0x10000, 4096) = 0";
    assert!(rt; read(&rt, line) == whole);
    let line: &[u8] = b"4294967295 munmap(0x10000,  <unfinished ...>";
    let half = Ok(Item::Unfinished {
        pid: u32::MAX,
        name: Name::Munmap,
        from: 11,
        to: 26,
    });
    assert!(rt; read(&rt, line) == half);
    let line: &[u8] = b"<... fault resumed>  PROT_READ)";
    let rest = Ok(Item::Resumed {
        pid: 0,
        name: Name::Fault,
        from: 21,
    });
    assert!(rt; read(&rt, line) == rest);
}

/// Lines of a Map: its address, its length, the bits of its protection and of its flags, and what was recorded.
const MAPS: [(&[u8], u64, u64, u8, u8, Option<Recorded>); 4] = [
    (
        b"mmap(0x10000, 8192, PROT_READ|PROT_WRITE, MAP_PRIVATE|MAP_FIXED|MAP_ANONYMOUS, -1, 0)",
        0x10000,
        8192,
        3,
        6,
        None,
    ),
    (
        b"mmap(NULL, 2000, PROT_READ, MAP_PRIVATE|MAP_DENYWRITE, 3, 0) = 0x7f1200010000",
        0,
        2000,
        1,
        2,
        Some(Recorded::Value(0x7f1200010000)),
    ),
    (
        b"mmap(NULL, 2097152, PROT_READ|PROT_WRITE, MAP_PRIVATE|MAP_ANONYMOUS|MAP_HUGETLB|21<<MAP_HUGE_SHIFT, -1, 0) = 0x40000000",
        0,
        2097152,
        3,
        2,
        Some(Recorded::Value(0x40000000)),
    ),
    (
        b"mmap(0xf000, 16384, PROT_NONE, MAP_SHARED|MAP_FIXED_NOREPLACE|0x80 /* a, b */|1<<MAP_FIXED /**/, 12</a,b>c>, 0xF)",
        0xf000,
        16384,
        0,
        9,
        None,
    ),
];

/// Lines of the other calls, and what was recorded.
const CALLS: [(&[u8], Call, Option<Recorded>); 15] = [
    (
        b"munmap(0x11000, 4096) = 0",
        Call::Unmap {
            addr: 0x11000,
            len: 4096,
        },
        Some(Recorded::Value(0)),
    ),
    (
        b"munmap(0xfFfFfFfFfFfFfFfF,18446744073709551615)   =   ?",
        Call::Unmap {
            addr: u64::MAX,
            len: u64::MAX,
        },
        None,
    ),
    (
        b"munmap(1, 2) = -1 EINVAL (Invalid argument)",
        Call::Unmap { addr: 1, len: 2 },
        Some(Recorded::Failed(Errno::Einval)),
    ),
    (
        b"munmap(1, 2) = -1 _9",
        Call::Unmap { addr: 1, len: 2 },
        Some(Recorded::Failed(Errno::Other)),
    ),
    (
        b"mprotect(0x10000, 8192, PROT_READ) = 0",
        Call::Protect {
            addr: 0x10000,
            len: 8192,
            prot: Prot::READ,
        },
        Some(Recorded::Value(0)),
    ),
    (
        b"fault(0x11fff, PROT_READ)",
        Call::Fault {
            addr: 0x11fff,
            access: Access::Read,
        },
        None,
    ),
    (
        b"fault(0x10000, PROT_WRITE) = -1 SEGV_ACCERR",
        Call::Fault {
            addr: 0x10000,
            access: Access::Write,
        },
        Some(Recorded::Failed(Errno::AccErr)),
    ),
    (
        b"fault(NULL, PROT_EXEC) = -1 SEGV_MAPERR x",
        Call::Fault {
            addr: 0,
            access: Access::Exec,
        },
        Some(Recorded::Failed(Errno::MapErr)),
    ),
    (
        b"mseal(0x10000, 0x1000, 0x0) = 0",
        Call::Seal {
            addr: 0x10000,
            len: 4096,
            flags: 0,
        },
        Some(Recorded::Value(0)),
    ),
    (
        b"mseal(NULL, 1,18446744073709551615) = -1 EPERM (Operation not permitted)",
        Call::Seal {
            addr: 0,
            len: 1,
            flags: u64::MAX,
        },
        Some(Recorded::Failed(Errno::Eperm)),
    ),
    (
        b"brk(NULL)                               = 0x1c3a000",
        Call::Brk { base: 0, addr: 0 },
        Some(Recorded::Value(0x1c3a000)),
    ),
    (
        b"brk(0x21001,0x20000)",
        Call::Brk {
            base: 0x20000,
            addr: 0x21001,
        },
        None,
    ),
    (
        b"brk(0x21001, NULL) = ?",
        Call::Brk {
            base: 0,
            addr: 0x21001,
        },
        None,
    ),
    (
        b"mremap(0x20000, 4096, 0x2000, MREMAP_MAYMOVE) = 0x40000",
        Call::Remap {
            addr: 0x20000,
            old_len: 4096,
            new_len: 8192,
            may_move: true,
            hint: 0,
        },
        Some(Recorded::Value(0x40000)),
    ),
    (
        b"mremap(NULL, 0, 18446744073709551615, 0, 0x10) = -1 EFAULT (Bad address)",
        Call::Remap {
            addr: 0,
            old_len: 0,
            new_len: u64::MAX,
            may_move: false,
            hint: 0x10,
        },
        Some(Recorded::Failed(Errno::Efault)),
    ),
];

#[test]
fn calls_are_read(rt: HostRuntime) {
    for (line, addr, len, prot, flags, recorded) in MAPS {
        assert!(rt; read(&rt, line) == played(map(addr, len, prot, flags), recorded));
    }
    for (line, call, recorded) in CALLS {
        assert!(rt; read(&rt, line) == played(call, recorded));
    }
}

/// Lines that are no maps lines, and the cause.
const NO_MAPS: [(&[u8], What); 11] = [
    (b"", What::Form),
    (b"-1000 rw-p", What::Form),
    (b"1000-2000 rw-", What::Form),
    (b"1000-2000 rw-px", What::Form),
    (b"1000-2000  rw-p", What::Form),
    (b"1000-2000 wr-p", What::Form),
    (b"1000-2001 rw-p", What::Form),
    (b"0x1000-2000 rw-p", What::Form),
    (b"1000-10000000000000000 rw-p", What::Form),
    (b"2000-1000 rw-p", What::Order),
    (b"1000-1000 rw-s", What::Order),
];

#[test]
fn maps_lines_are_read(rt: HostRuntime) {
    let kind = Kind {
        prot: Prot::from_bits_retain(5),
        shared: false,
        sealed: false,
    };
    let area = Area {
        lo: 0x400,
        hi: 0x401,
        kind,
    };
    let line: &[u8] = b"00400000-00401000 r-xp 00000000 08:01 131 /bin/true";
    assert!(rt; read_maps_line(line) == Ok(MapsItem::Area(area)));
    let past = MapsItem::Past {
        start: 0xffff_ffff_ff60_0000,
        end: 0xffff_ffff_ff60_1000,
    };
    let line: &[u8] = b"ffffffffff600000-FFFFFFFFFF601000 --xp";
    assert!(rt; read_maps_line(line) == Ok(past));
    for (line, what) in NO_MAPS {
        assert!(rt; read_maps_line(line) == Err(BadCall { column: 1, what }));
    }
}

#[test]
fn recorded_results_are_hints_and_answers(rt: HostRuntime) {
    let value = Some(Recorded::Value(0x7000));
    assert!(rt; as_played(&map(0, 1, 1, 2), value) == map(0x7000, 1, 1, 2));
    assert!(rt; as_played(&map(0, 1, 1, 6), value) == map(0, 1, 1, 6));
    assert!(rt; as_played(&remap(1, 2, 3, true, 0), value) == remap(1, 2, 3, true, 0x7000));
    assert!(rt; as_played(&remap(1, 2, 3, true, 4), value) == remap(1, 2, 3, true, 4));
    assert!(rt; as_played(&remap(1, 2, 3, false, 0), value) == remap(1, 2, 3, false, 0));
    assert!(rt; !differs(&Reply::At(0x7000), value));
    assert!(rt; differs(&Reply::Zero, value));
    assert!(rt; !differs(&Reply::Zero, None));
    let einval = Reply::Refused(Why::Einval(Field::Len));
    assert!(rt; !differs(&einval, Some(Recorded::Failed(Errno::Einval))));
    assert!(rt; differs(&einval, Some(Recorded::Failed(Errno::Enomem))));
}

/// What was recorded of a Brk that asks, and the base that it tells.
const BASES: [(Option<Recorded>, u64); 5] = [
    (None, 0),
    (Some(Recorded::Failed(Errno::Enomem)), 0),
    (Some(Recorded::Value(0)), 0),
    (Some(Recorded::Value(0x20001)), 0),
    (Some(Recorded::Value(0x20000)), 0x20000),
];

#[test]
fn a_recorded_value_is_the_base_of_a_trace(rt: HostRuntime) {
    let asked = |base: u64, recorded: Option<Recorded>| Fed::Played {
        pid: 7,
        call: Call::Brk { base, addr: 0 },
        recorded,
        skipped: 0,
    };
    for (recorded, base) in BASES {
        assert!(rt; base_behind(0, &asked(0, recorded)) == base);
        assert!(rt; base_behind(0x30000, &asked(0, recorded)) == 0x30000);
        assert!(rt; base_behind(0, &asked(0x30000, recorded)) == 0);
    }
}

#[test]
fn a_brk_has_the_base_of_its_trace(rt: HostRuntime) {
    let without = Fed::Played {
        pid: 7,
        call: Call::Brk {
            base: 0,
            addr: 0x21000,
        },
        recorded: Some(Recorded::Value(0x20000)),
        skipped: 1,
    };
    let with = Fed::Played {
        pid: 7,
        call: Call::Brk {
            base: 0x20000,
            addr: 0x21000,
        },
        recorded: Some(Recorded::Value(0x20000)),
        skipped: 1,
    };
    let kept = Fed::Kept { skipped: 1 };
    assert!(rt; base_behind(0, &without) == 0);
    assert!(rt; on_base(0, &without) == Fed::Skipped(2));
    assert!(rt; on_base(0x20000, &without) == with);
    assert!(rt; on_base(0, &with) == with);
    assert!(rt; on_base(0x30000, &with) == with);
    assert!(rt; on_base(0, &kept) == kept);
}

/// The call that the halves make.
const UNMAP: Call = Call::Unmap {
    addr: 0x10000,
    len: 4096,
};

/// Lines in their order, and what each answers.
const FED: [(&[u8], Fed); 17] = [
    (
        b"7 munmap(0x10000 <unfinished ...>",
        Fed::Kept { skipped: 0 },
    ),
    (
        b"8 munmap(0x10000, 4096) = 0",
        Fed::Played {
            pid: 8,
            call: UNMAP,
            recorded: Some(Recorded::Value(0)),
            skipped: 0,
        },
    ),
    (
        b"7 <... munmap resumed>, 4096) = 0",
        Fed::Played {
            pid: 7,
            call: UNMAP,
            recorded: Some(Recorded::Value(0)),
            skipped: 0,
        },
    ),
    (b"7 <... munmap resumed>, 4096) = 0", Fed::Skipped(1)),
    (
        b"7 munmap(0x10000 <unfinished ...>",
        Fed::Kept { skipped: 0 },
    ),
    (b"7 getpid() = 7", Fed::Skipped(1)),
    (b"", Fed::Blank),
    (
        b"7 munmap(0x10000 <unfinished ...>",
        Fed::Kept { skipped: 1 },
    ),
    (b"7 <... mmap resumed>) = 0", Fed::Skipped(2)),
    (
        b"7 munmap(0x10000 <unfinished ...>",
        Fed::Kept { skipped: 0 },
    ),
    (
        b"7 munmap(0x10000, 4096) = 0",
        Fed::Played {
            pid: 7,
            call: UNMAP,
            recorded: Some(Recorded::Value(0)),
            skipped: 1,
        },
    ),
    (
        b"7 munmap(0x10000 <unfinished ...>",
        Fed::Kept { skipped: 0 },
    ),
    (b"7 <... munmap resumed> <unfinished ...>", Fed::Skipped(2)),
    (
        b"7 mprotect(0x10000, 1, <unfinished ...>",
        Fed::Kept { skipped: 0 },
    ),
    (b"7 <... mprotect resumed> PROT_SEM) = 0", Fed::Skipped(1)),
    (
        b"8 munmap(0x10000 <unfinished ...>",
        Fed::Kept { skipped: 0 },
    ),
    (b"munmap(0x10000 <unfinished ...>", Fed::Kept { skipped: 0 }),
];

/// What a line answers, which is no longer than one may be.
fn feed(rt: &impl Abort, joiner: &mut Joiner, line: &[u8]) -> Result<Fed, FeedFault> {
    assert!(rt; line.len() <= 65_535);
    joiner.feed(line)
}

/// Feeds the lines, then one that is refused and so leaves the half that is kept, and then its second half.
fn feed_all(rt: &impl Abort, joiner: &mut Joiner) {
    for (line, fed) in FED {
        assert!(rt; feed(rt, joiner, line) == Ok(fed));
    }
    let bad = BadCall {
        column: 19,
        what: What::Comma,
    };
    let found = feed(rt, joiner, b"8 <... munmap resumed> 4096) = 0");
    assert!(rt; found == Err(FeedFault::Bad(bad)));
    let last = Fed::Played {
        pid: 8,
        call: UNMAP,
        recorded: Some(Recorded::Value(0)),
        skipped: 0,
    };
    let found = feed(rt, joiner, b"8 <... munmap resumed>, 4096) = 0");
    assert!(rt; found == Ok(last));
}

#[test]
fn halves_are_joined_by_process(rt: HostRuntime) {
    let mut joiner = Joiner::new(rt.alloc());
    feed_all(&rt, &mut joiner);
    assert!(rt; joiner.end() == 1);
}
