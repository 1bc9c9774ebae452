//! Lines of logs that were written out by hand, and the same lines with one thing changed.
use crate::entry;
use bitflags::Flags;
use history_check::read_log_line;
use page_types::{Access, Call, Field, Kind, MapFlags, Prot, Reply, Short, Span, Why};
use space_model::Under;

#[test]
fn a_line_of_a_log_is_read_as_its_entry(rt: HostRuntime) {
    let map = Call::Map {
        addr: 0x10000,
        len: 8192,
        prot: Prot::from_bits_retain(3),
        flags: MapFlags::from_bits_retain(6),
    };
    let mapped = entry(0, 1, map, Reply::At(0x10000), Under::Whole);
    assert_eq!(rt;
        read_log_line(
            b"0 0 1 mmap(0x10000, 8192, PROT_READ|PROT_WRITE, MAP_PRIVATE|MAP_FIXED, -1, 0) = 0x10000 under whole"
        ),
        Some(mapped)
    );
    let protect = Call::Protect {
        addr: 0x10000,
        len: 8192,
        prot: Prot::READ,
    };
    let area = Under::Area(Span { lo: 0xf, hi: 0x13 });
    let protected = entry(1, 2, protect, Reply::Zero, area);
    assert_eq!(rt;
        read_log_line(b"1 0 2 mprotect(0x10000, 8192, PROT_READ) = 0 under area 0xf-0x13"),
        Some(protected)
    );
    let fault = Call::Fault {
        addr: 0x10000,
        access: Access::Write,
    };
    let kind = Kind {
        prot: Prot::READ,
        shared: false,
        sealed: false,
    };
    let reader = Under::Reader(Span { lo: 0x10, hi: 0x11 });
    let refused = Reply::Refused(Why::AccErr(0x10, kind));
    assert_eq!(rt;
        read_log_line(
            b"7 0 9 fault(0x10000, PROT_WRITE) = -1 SEGV_ACCERR page 0x10 r--p under reader 0x10-0x11"
        ),
        Some(entry(7, 9, fault, refused, reader))
    );
    let sealed = Kind {
        sealed: true,
        ..kind
    };
    assert_eq!(rt;
        read_log_line(
            b"7 0 9 fault(0x10000, PROT_WRITE) = granted r--p sealed under reader 0x10-0x11"
        ),
        Some(entry(7, 9, fault, Reply::Granted(sealed), reader))
    );
    let seal = Call::Seal {
        addr: 0x10000,
        len: 4096,
        flags: 1,
    };
    let flags = Reply::Refused(Why::Einval(Field::Flags));
    assert_eq!(rt;
        read_log_line(b"5 0 6 mseal(0x10000, 4096, 1) = -1 EINVAL flags under none"),
        Some(entry(5, 6, seal, flags, Under::Nothing))
    );
    let brk = Call::Brk {
        base: 0x20000,
        addr: 0x22000,
    };
    assert_eq!(rt;
        read_log_line(b"1 0 2 brk(0x22000, 0x20000) = 0x22000 under whole"),
        Some(entry(1, 2, brk, Reply::At(0x22000), Under::Whole))
    );
    let remap = Call::Remap {
        addr: 0x20000,
        old_len: 8192,
        new_len: 12288,
        may_move: true,
        hint: 0x40000,
    };
    assert_eq!(rt;
        read_log_line(
            b"4 0 5 mremap(0x20000, 8192, 12288, MREMAP_MAYMOVE, 0x40000) = 0x40000 under whole"
        ),
        Some(entry(4, 5, remap, Reply::At(0x40000), Under::Whole))
    );
}

/// Lines with each refusal.
const REFUSALS: [(&[u8], Why); 8] = [
    (
        b"0 0 1 munmap(NULL, 4096) = -1 EINVAL flags under none",
        Why::Einval(Field::Flags),
    ),
    (
        b"0 0 1 munmap(NULL, 4096) = -1 ENOMEM missing page 0x11 under none",
        Why::Enomem(Short::Missing(0x11)),
    ),
    (
        b"0 0 1 munmap(NULL, 4096) = -1 ENOMEM no gap of 12 pages under none",
        Why::Enomem(Short::NoGap(12)),
    ),
    (
        b"0 0 1 munmap(NULL, 4096) = -1 ENOMEM rows 4294967295 under none",
        Why::Enomem(Short::Rows(4294967295)),
    ),
    (
        b"0 0 1 munmap(NULL, 4096) = -1 EEXIST page 0x10 under none",
        Why::Eexist(0x10),
    ),
    (
        b"0 0 1 munmap(NULL, 4096) = -1 EPERM page 0x10 under none",
        Why::Eperm(0x10),
    ),
    (
        b"0 0 1 munmap(NULL, 4096) = -1 EFAULT page 0x10 under none",
        Why::Efault(0x10),
    ),
    (
        b"0 0 1 munmap(NULL, 4096) = -1 SEGV_MAPERR page 0x12 under none",
        Why::MapErr(0x12),
    ),
];

#[test]
fn each_refusal_is_read(rt: HostRuntime) {
    let call = Call::Unmap { addr: 0, len: 4096 };
    for (text, why) in REFUSALS {
        assert_eq!(rt;
            read_log_line(text),
            Some(entry(0, 1, call, Reply::Refused(why), Under::Nothing))
        );
    }
}

/// Texts that are no line of a log.
const OTHERS: [&[u8]; 19] = [
    b"",
    b"played 2 skipped 0 refused 0 differ 0",
    b"0 16 1 munmap(NULL, 4096) = 0 under whole",
    b"00 0 1 munmap(NULL, 4096) = 0 under whole",
    b"18446744073709551616 0 1 munmap(NULL, 4096) = 0 under whole",
    b"0 0 4294967296 munmap(NULL, 4096) = 0 under whole",
    b"0 0 1 munmap(0x0, 4096) = 0 under whole",
    b"0 0 1 munmap(0xF000, 4096) = 0 under whole",
    b"0 0 1 munmap(NULL,  4096) = 0 under whole",
    b"0 0 1 munmap(NULL, 4096) = 0 under whole\r",
    b"0 0 1 munmap(NULL, 4096) = 0 under all",
    b"0 0 1 munmap(NULL, 4096) = 0 under area 0x10-0x10",
    b"0 0 1 munmap(NULL, 4096) = 0 under area 0x10-0x100000000000",
    b"0 0 1 munmap(NULL, 4096) = -1 ENOMEM rows 4294967296 under whole",
    b"0 0 1 mseal(NULL, 4096, 0x0) = 0 under whole",
    b"0 0 1 brk(NULL) = 0x20000 under whole",
    b"0 0 1 mremap(0x10000, 4096, 4096, 0, NULL) = 0x10000 under whole",
    b"0 0 1 mremap(0x10000, 4096, 4096, 0x0) = 0x10000 under whole",
    b"0 0 1 fault(NULL, PROT_READ) = granted r--p  sealed under reader 0x0-0x1",
];

#[test]
fn no_other_line_is_read(rt: HostRuntime) {
    for line in OTHERS {
        assert_eq!(rt; read_log_line(line), None);
    }
}
