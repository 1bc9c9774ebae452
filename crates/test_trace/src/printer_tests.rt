//! The texts at worked cases, and a sink that fails in mid-text. The expected texts are written out by hand.
use area_changes::{AreaChange, EntryChange};
use bitflags::Flags;
use byte_ports::{Failed, MemorySink};
use maps_printer::{
    write_call, write_changes, write_log, write_maps, write_summary, write_touched,
};
use page_types::{Access, Call, Field, Kind, MapFlags, Prot, Reply, Short, Span, Why};
use space_model::{Area, Entry, Under};
use std::alloc::{AllocError, Global};
use std::test::Fail;

/// A sink with room for so many bytes that fails at the listed calls.
fn sink(alloc: Global, room: usize, fails: &[u32]) -> Result<MemorySink, AllocError> {
    let mut store = Vec::new(alloc);
    store.resize(room, b'.')?;
    Ok(MemorySink::new(store, fails.to_vec(alloc)?))
}

/// A private kind with these bits of a protection.
fn private(bits: u8) -> Kind {
    Kind {
        prot: Prot::from_bits_retain(bits),
        shared: false,
        sealed: false,
    }
}

/// The first entry of worker 0, from line 1.
fn entry(call: Call, reply: Reply, under: Under) -> Entry {
    Entry {
        number: 0,
        worker: 0,
        line: 1,
        call,
        reply,
        under,
    }
}

/// A fault for reading at 0x12000.
fn fault() -> Call {
    Call::Fault {
        addr: 0x12000,
        access: Access::Read,
    }
}

#[test]
fn maps_have_a_line_for_each_area(rt: HostRuntime) -> Result<(), Fail> {
    let mut out = sink(rt.alloc(), 200, &[])?;
    let areas = [
        Area {
            lo: 0x10,
            hi: 0x12,
            kind: private(3),
        },
        Area {
            lo: 0x12,
            hi: 0x13,
            kind: Kind {
                prot: Prot::EXEC,
                shared: true,
                sealed: false,
            },
        },
        Area {
            lo: 0x7fffffffd,
            hi: 0x7ffffffff,
            kind: private(1),
        },
    ];
    assert_eq!(rt; write_maps(&mut out, &areas), Ok(()));
    let expected = b"00010000-00012000 rw-p 00000000 00:00 0\n\
        00012000-00013000 --xs 00000000 00:00 0\n\
        7fffffffd000-7ffffffff000 r--p 00000000 00:00 0\n";
    assert_eq!(rt; out.written(), expected.as_slice());
    Ok(())
}

#[test]
fn changes_have_a_line_for_each_span(rt: HostRuntime) -> Result<(), Fail> {
    let mut out = sink(rt.alloc(), 200, &[])?;
    let sealed = Kind {
        sealed: true,
        ..private(1)
    };
    let changes = [
        EntryChange {
            number: 0,
            change: AreaChange {
                lo: 0x10,
                hi: 0x12,
                before: None,
                after: Some(private(3)),
            },
        },
        EntryChange {
            number: u64::MAX,
            change: AreaChange {
                lo: 0x7fffffffd,
                hi: 0x7ffffffff,
                before: Some(private(1)),
                after: Some(sealed),
            },
        },
    ];
    assert_eq!(rt; write_changes(&mut out, &changes), Ok(()));
    let expected = b"0 00010000-00012000 none rw-p\n\
        18446744073709551615 7fffffffd000-7ffffffff000 r--p r--p sealed\n";
    assert_eq!(rt; out.written(), expected.as_slice());
    Ok(())
}

#[test]
fn the_summary_has_four_counts(rt: HostRuntime) -> Result<(), Fail> {
    let mut out = sink(rt.alloc(), 80, &[])?;
    assert_eq!(rt; write_summary(&mut out, 3, 0, 1, 4294967295), Ok(()));
    assert_eq!(rt;
        out.written(),
        b"played 3 skipped 0 refused 1 differ 4294967295\n".as_slice()
    );
    Ok(())
}

#[test]
fn the_touched_pages_have_one_count(rt: HostRuntime) -> Result<(), Fail> {
    let mut out = sink(rt.alloc(), 80, &[])?;
    assert_eq!(rt; write_touched(&mut out, 0), Ok(()));
    assert_eq!(rt; write_touched(&mut out, 4294967295), Ok(()));
    assert_eq!(rt;
        out.written(),
        b"touched 0\ntouched 4294967295\n".as_slice()
    );
    Ok(())
}

#[test]
fn the_log_has_a_line_for_each_entry(rt: HostRuntime) -> Result<(), Fail> {
    let mut out = sink(rt.alloc(), 400, &[])?;
    let map = Call::Map {
        addr: 0x10000,
        len: 8192,
        prot: Prot::from_bits_retain(3),
        flags: MapFlags::from_bits_retain(6),
    };
    let protect = Call::Protect {
        addr: 0x10000,
        len: 8192,
        prot: Prot::READ,
    };
    let second = Entry {
        number: 1,
        worker: 2,
        line: 3,
        call: protect,
        reply: Reply::Zero,
        under: Under::Area(Span { lo: 0xf, hi: 0x13 }),
    };
    let entries = [entry(map, Reply::At(0x10000), Under::Whole), second];
    assert_eq!(rt; write_log(&mut out, &entries), Ok(()));
    let expected = b"0 0 1 mmap(0x10000, 8192, PROT_READ|PROT_WRITE, MAP_PRIVATE|MAP_FIXED, -1, 0) \
        = 0x10000 under whole\n\
        1 2 3 mprotect(0x10000, 8192, PROT_READ) = 0 under area 0xf-0x13\n";
    assert_eq!(rt; out.written(), expected.as_slice());
    Ok(())
}

#[test]
fn each_reply_has_its_text(rt: HostRuntime) -> Result<(), Fail> {
    let mut out = sink(rt.alloc(), 2000, &[])?;
    let page = Under::Reader(Span { lo: 0x12, hi: 0x13 });
    let sealed = Kind {
        sealed: true,
        ..private(1)
    };
    let refused = [
        Why::Einval(Field::Addr),
        Why::Einval(Field::Len),
        Why::Einval(Field::Flags),
        Why::Einval(Field::End),
        Why::Enomem(Short::Missing(0x11)),
        Why::Enomem(Short::PastEnd(0x100000000000)),
        Why::Enomem(Short::NoGap(10)),
        Why::Enomem(Short::Rows(131063)),
        Why::Eexist(0x10),
        Why::Eperm(0x10),
        Why::Efault(0x10),
        Why::MapErr(0x12),
        Why::AccErr(0x10, private(1)),
        Why::AccErr(u64::MAX, sealed),
    ];
    for why in refused {
        let entries = [entry(fault(), Reply::Refused(why), Under::Nothing)];
        assert_eq!(rt; write_log(&mut out, &entries), Ok(()));
    }
    let entries = [entry(fault(), Reply::Granted(private(5)), page)];
    assert_eq!(rt; write_log(&mut out, &entries), Ok(()));
    let expected = b"0 0 1 fault(0x12000, PROT_READ) = -1 EINVAL addr under none\n\
        0 0 1 fault(0x12000, PROT_READ) = -1 EINVAL len under none\n\
        0 0 1 fault(0x12000, PROT_READ) = -1 EINVAL flags under none\n\
        0 0 1 fault(0x12000, PROT_READ) = -1 EINVAL end under none\n\
        0 0 1 fault(0x12000, PROT_READ) = -1 ENOMEM missing page 0x11 under none\n\
        0 0 1 fault(0x12000, PROT_READ) = -1 ENOMEM end page 0x100000000000 under none\n\
        0 0 1 fault(0x12000, PROT_READ) = -1 ENOMEM no gap of 10 pages under none\n\
        0 0 1 fault(0x12000, PROT_READ) = -1 ENOMEM rows 131063 under none\n\
        0 0 1 fault(0x12000, PROT_READ) = -1 EEXIST page 0x10 under none\n\
        0 0 1 fault(0x12000, PROT_READ) = -1 EPERM page 0x10 under none\n\
        0 0 1 fault(0x12000, PROT_READ) = -1 EFAULT page 0x10 under none\n\
        0 0 1 fault(0x12000, PROT_READ) = -1 SEGV_MAPERR page 0x12 under none\n\
        0 0 1 fault(0x12000, PROT_READ) = -1 SEGV_ACCERR page 0x10 r--p under none\n\
        0 0 1 fault(0x12000, PROT_READ) = -1 SEGV_ACCERR page 0xffffffffffffffff r--p sealed under none\n\
        0 0 1 fault(0x12000, PROT_READ) = granted r-xp under reader 0x12-0x13\n";
    assert_eq!(rt; out.written(), expected.as_slice());
    Ok(())
}

#[test]
fn a_call_has_no_newline(rt: HostRuntime) -> Result<(), Fail> {
    let mut out = sink(rt.alloc(), 300, &[])?;
    let map = Call::Map {
        addr: 0,
        len: 18446744073709551615,
        prot: Prot::from_bits_retain(0),
        flags: MapFlags::from_bits_retain(0),
    };
    let unmap = Call::Unmap {
        addr: 0xffffffffffffffff,
        len: 0,
    };
    assert_eq!(rt; write_call(&mut out, &map), Ok(()));
    assert_eq!(rt; write_call(&mut out, &unmap), Ok(()));
    let brk = Call::Brk {
        base: 0,
        addr: 0x21001,
    };
    let stays = Call::Remap {
        addr: 0x20000,
        old_len: 4096,
        new_len: 8192,
        may_move: false,
        hint: 0x40000,
    };
    let moves = Call::Remap {
        addr: 0,
        old_len: 0,
        new_len: 1,
        may_move: true,
        hint: 0,
    };
    assert_eq!(rt; write_call(&mut out, &brk), Ok(()));
    assert_eq!(rt; write_call(&mut out, &stays), Ok(()));
    assert_eq!(rt; write_call(&mut out, &moves), Ok(()));
    let expected =
        b"mmap(NULL, 18446744073709551615, PROT_NONE, 0, -1, 0)munmap(0xffffffffffffffff, 0)\
        brk(0x21001, NULL)mremap(0x20000, 4096, 8192, 0, 0x40000)mremap(NULL, 0, 1, MREMAP_MAYMOVE)";
    assert_eq!(rt; out.written(), expected.as_slice());
    Ok(())
}

#[test]
fn a_sink_that_fails_has_the_first_part(rt: HostRuntime) -> Result<(), Fail> {
    let area = Area {
        lo: 0x10,
        hi: 0x12,
        kind: private(3),
    };
    // 1000 lines of 40 bytes go to the sink in three writes.
    let mut areas = Vec::new(rt.alloc());
    areas.resize(1000, area)?;
    let mut whole = sink(rt.alloc(), 40000, &[])?;
    assert_eq!(rt; write_maps(&mut whole, &areas), Ok(()));
    assert_eq!(rt; whole.written().len(), 40000);
    assert_eq!(rt; whole.calls, 3);
    let mut second = sink(rt.alloc(), 40000, &[2])?;
    assert_eq!(rt; write_maps(&mut second, &areas), Err(Failed));
    assert!(rt; whole.written().starts_with(second.written()));
    assert_eq!(rt; second.faults, 1);
    let mut small = sink(rt.alloc(), 39999, &[])?;
    assert_eq!(rt; write_maps(&mut small, &areas), Err(Failed));
    assert_eq!(rt; small.written().len(), 39999);
    assert!(rt; whole.written().starts_with(small.written()));
    Ok(())
}
