//! Calls that are written into memory and read again, one of each kind.
use bitflags::Flags;
use byte_ports::MemorySink;
use maps_printer::write_call;
use page_types::{Access, Call, MapFlags, Prot};
use round_trip::read_written;
use std::test::Fail;
use strace_reader::{Item, read_line};

#[test]
fn each_kind_of_call_reads_back(rt: HostRuntime) -> Result<(), Fail> {
    let alloc = rt.alloc();
    let calls = [
        Call::Map {
            addr: 0,
            len: 18446744073709551615,
            prot: Prot::from_bits_retain(5),
            flags: MapFlags::from_bits_retain(10),
        },
        Call::Map {
            addr: 0xffffffffffffffff,
            len: 0,
            prot: Prot::from_bits_retain(0),
            flags: MapFlags::from_bits_retain(0),
        },
        Call::Unmap {
            addr: 0x10000,
            len: 4096,
        },
        Call::Protect {
            addr: 0x10000,
            len: 4096,
            prot: Prot::from_bits_retain(7),
        },
        Call::Fault {
            addr: 0x11fff,
            access: Access::Exec,
        },
        Call::Seal {
            addr: 0xffffffffffffffff,
            len: 18446744073709551615,
            flags: 18446744073709551615,
        },
        Call::Brk { base: 0, addr: 0 },
        Call::Brk {
            base: 0xfffffffffff000,
            addr: 0xffffffffffffffff,
        },
        Call::Remap {
            addr: 0x10000,
            old_len: 18446744073709551615,
            new_len: 18446744073709551615,
            may_move: true,
            hint: 0xffffffffffffffff,
        },
        Call::Remap {
            addr: 0,
            old_len: 0,
            new_len: 4096,
            may_move: false,
            hint: 0,
        },
    ];
    for call in calls {
        let mut store = Vec::new(alloc);
        store.resize(200, b'.')?;
        let mut out = MemorySink::new(store, Vec::new(alloc));
        assert_eq!(rt; write_call(&mut out, &call), Ok(()));
        let read = Item::Played {
            pid: 0,
            call,
            recorded: None,
        };
        assert!(rt; out.written().len() <= 143);
        assert_eq!(rt; read_line(out.written()), Ok(read));
    }
    Ok(())
}

#[test]
fn a_written_line_is_read(rt: HostRuntime) {
    let call = Call::Fault {
        addr: 0,
        access: Access::Read,
    };
    let read = Item::Played {
        pid: 0,
        call,
        recorded: None,
    };
    assert_eq!(rt; read_written(b"fault(NULL, PROT_READ)", call), Ok(read));
}
