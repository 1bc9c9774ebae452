//! What the arguments of a call decide, each case worked by hand, after mmap(2), munmap(2), mprotect(2),
//! brk(2) and mremap(2).
use crate::einval;
use bitflags::Flags;
use page_types::{Access, Call, Field, LIMIT, MapFlags, Prot, Reply, Short, Span, Why, plain};
use std::test::Fail;

/// A call is refused for its address, its length, its flags or its end.
const ADDR: Option<Reply> = Some(Reply::Refused(Why::Einval(Field::Addr)));

const LEN: Option<Reply> = Some(Reply::Refused(Why::Einval(Field::Len)));

const FLAGS: Option<Reply> = Some(Reply::Refused(Why::Einval(Field::Flags)));

const END: Option<Reply> = Some(Reply::Refused(Why::Einval(Field::End)));

/// It has a page past the last one, at the lowest such page or one above it.
const PAST: Option<Reply> = Some(Reply::Refused(Why::Enomem(Short::PastEnd(LIMIT + 1))));

/// The address of the last page.
const LAST: u64 = 0xff_ffff_ffff_e000;

/// Addresses and lengths, and the ends of their spans or the argument that is refused.
const SPANS: [(u64, u64, Result<(u64, u64), Field>); 6] = [
    (0x10000, 4097, Ok((16, 18))),
    (0x10001, 0, Err(Field::Addr)),
    (0x10000, 0, Err(Field::Len)),
    (LAST, 4096, Ok((LIMIT - 1, LIMIT))),
    (LAST, 4097, Err(Field::End)),
    (0xffff_ffff_ffff_f000, u64::MAX, Err(Field::End)),
];

#[test]
fn a_span_is_refused_by_the_first_wrong_argument(rt: HostRuntime) {
    for (addr, len, wanted) in SPANS {
        let found = match Span::of(addr, len) {
            Ok(span) => Ok((span.lo, span.hi)),
            Err(field) => Err(field),
        };
        assert_eq!(rt; found, wanted);
    }
}

/// Addresses, lengths and bits of the flags of a Map: 1 is SHARED, 2 PRIVATE, 4 FIXED, 8 FIXED_NOREPLACE.
const MAPS: [(u64, u64, u8, Option<Reply>); 6] = [
    (0x10001, 0, 6, ADDR),
    (0x10001, 0, 2, LEN),
    (0x10001, 1, 3, FLAGS),
    (0x10000, 1, 4, FLAGS),
    (0x10001, u64::MAX, 1, None),
    (LAST, 8192, 10, PAST),
];

#[test]
fn a_map_with_a_hint_has_neither_alignment_nor_end(rt: HostRuntime) {
    for (addr, len, bits, wanted) in MAPS {
        let call = Call::Map {
            addr,
            len,
            prot: Prot::READ,
            flags: MapFlags::from_bits_retain(bits),
        };
        assert_eq!(rt; plain(&call), wanted);
    }
}

/// The other calls, and what is decided.
const OTHERS: [(Call, Option<Reply>); 22] = [
    (
        Call::Unmap {
            addr: 0x50000,
            len: 0,
        },
        LEN,
    ),
    (
        Call::Unmap {
            addr: LAST,
            len: 8192,
        },
        END,
    ),
    (
        Call::Protect {
            addr: 0x10000,
            len: 0,
            prot: Prot::READ,
        },
        Some(Reply::Zero),
    ),
    (
        Call::Protect {
            addr: 0x10001,
            len: 0,
            prot: Prot::READ,
        },
        ADDR,
    ),
    (
        Call::Protect {
            addr: LAST,
            len: 8192,
            prot: Prot::READ,
        },
        PAST,
    ),
    (
        Call::Fault {
            addr: 0xff_ffff_ffff_efff,
            access: Access::Read,
        },
        None,
    ),
    (
        Call::Fault {
            addr: 0xff_ffff_ffff_f000,
            access: Access::Read,
        },
        Some(Reply::Refused(Why::MapErr(LIMIT))),
    ),
    // A Seal is asked for its length before its flags.
    (
        Call::Seal {
            addr: 0x10001,
            len: 0,
            flags: 1,
        },
        ADDR,
    ),
    (
        Call::Seal {
            addr: 0x10000,
            len: 0,
            flags: 1,
        },
        Some(Reply::Zero),
    ),
    (
        Call::Seal {
            addr: LAST,
            len: 8192,
            flags: 1,
        },
        FLAGS,
    ),
    (
        Call::Seal {
            addr: LAST,
            len: 8192,
            flags: 0,
        },
        PAST,
    ),
    (
        Call::Seal {
            addr: 0x10000,
            len: 1,
            flags: 0,
        },
        None,
    ),
    // A Brk is refused by its base alone.
    (
        Call::Brk {
            base: 0,
            addr: 0x10000,
        },
        ADDR,
    ),
    (
        Call::Brk {
            base: 0x10001,
            addr: 0x10000,
        },
        ADDR,
    ),
    (
        Call::Brk {
            base: 0xff_ffff_ffff_f000,
            addr: 0,
        },
        ADDR,
    ),
    (
        Call::Brk {
            base: LAST,
            addr: u64::MAX,
        },
        None,
    ),
    (
        Call::Brk {
            base: 0x10000,
            addr: 1,
        },
        None,
    ),
    // A Remap is asked for both lengths before its end.
    (
        Call::Remap {
            addr: 0x10001,
            old_len: 0,
            new_len: 0,
            may_move: true,
            hint: 1,
        },
        ADDR,
    ),
    (
        Call::Remap {
            addr: LAST,
            old_len: 0,
            new_len: 4096,
            may_move: true,
            hint: 1,
        },
        LEN,
    ),
    (
        Call::Remap {
            addr: LAST,
            old_len: 8192,
            new_len: 0,
            may_move: true,
            hint: 1,
        },
        LEN,
    ),
    (
        Call::Remap {
            addr: LAST,
            old_len: 8192,
            new_len: 4096,
            may_move: true,
            hint: 1,
        },
        END,
    ),
    (
        Call::Remap {
            addr: LAST,
            old_len: 4096,
            new_len: u64::MAX,
            may_move: true,
            hint: 1,
        },
        None,
    ),
];

#[test]
fn the_other_calls_are_decided_in_their_own_ways(rt: HostRuntime) {
    for (call, wanted) in OTHERS {
        assert_eq!(rt; plain(&call), wanted);
    }
}

/// What is said of each argument.
const SAID: [(Field, &str, Option<Reply>); 4] = [
    (Field::Addr, "the address is not a multiple of 4096", ADDR),
    (Field::Len, "the length is 0", LEN),
    (
        Field::Flags,
        "the flags are not right: a Map has one of SHARED and PRIVATE, a Seal has none",
        FLAGS,
    ),
    (Field::End, "the end is above page 17592186044415", END),
];

#[test]
fn a_refused_argument_is_printed(rt: HostRuntime) -> Result<(), Fail> {
    for (field, wanted, refusal) in SAID {
        assert_eq!(rt; einval(field), refusal);
        let text = format!(in rt.alloc(); "{field}")?;
        assert_eq!(rt; text.as_str(), wanted);
    }
    Ok(())
}
