//! The space of one thread, by its public calls: calls of each kind, what they have to hold and what they leave, a
//! list that is refused, and which histories are legal. What calls answer in worked runs stands in `tests/rows`: the
//! gate plays these on the space that threads share, and has this one judge their logs.
use page_types::{Access, Call, Field, Kind, MapFlags, PAGE, Prot, Reply, Short, Span, Why};
use space_model::{
    Area, AreasFault, Entry, NotAreas, PlainSpace, Under, by_number, have_named_calls,
    have_named_kinds, legal,
};
use std::alloc::AllocError;
use std::process::Abort;
use std::test::Fail;

/// Private pages that may be read.
const READABLE: Kind = Kind {
    prot: Prot::READ,
    shared: false,
    sealed: false,
};

/// Private pages whose bytes may be run.
const RUNNABLE: Kind = Kind {
    prot: Prot::EXEC,
    shared: false,
    sealed: false,
};

/// Private pages that may be read, and are sealed.
const SEALED: Kind = Kind {
    prot: Prot::READ,
    shared: false,
    sealed: true,
};

/// The areas before the calls.
const START: [Area; 2] = [
    Area {
        lo: 16,
        hi: 19,
        kind: READABLE,
    },
    Area {
        lo: 32,
        hi: 33,
        kind: SEALED,
    },
];

/// The areas that the calls leave.
const LEFT: [Area; 4] = [
    Area {
        lo: 16,
        hi: 17,
        kind: RUNNABLE,
    },
    Area {
        lo: 18,
        hi: 19,
        kind: READABLE,
    },
    Area {
        lo: 32,
        hi: 33,
        kind: SEALED,
    },
    Area {
        lo: 0x7_ffff_fffe,
        hi: 0x7_ffff_ffff,
        kind: READABLE,
    },
];

/// Calls of each kind, what is held for each, and its reply.
const CALLS: [(Call, Under, Reply); 12] = [
    (
        Call::Unmap {
            addr: 0x10000,
            len: 0,
        },
        Under::Nothing,
        Reply::Refused(Why::Einval(Field::Len)),
    ),
    (
        Call::Fault {
            addr: 0x10fff,
            access: Access::Read,
        },
        Under::Reader(Span { lo: 16, hi: 17 }),
        Reply::Granted(READABLE),
    ),
    (
        Call::Fault {
            addr: 0x13000,
            access: Access::Read,
        },
        Under::Reader(Span { lo: 19, hi: 20 }),
        Reply::Refused(Why::MapErr(19)),
    ),
    (
        Call::Unmap {
            addr: 0x11000,
            len: 4096,
        },
        Under::Whole,
        Reply::Zero,
    ),
    (
        Call::Protect {
            addr: 0x10000,
            len: 4096,
            prot: Prot::EXEC,
        },
        Under::Area(Span { lo: 15, hi: 18 }),
        Reply::Zero,
    ),
    (
        Call::Protect {
            addr: 0x10000,
            len: 12288,
            prot: Prot::WRITE,
        },
        Under::Whole,
        Reply::Refused(Why::Enomem(Short::Missing(17))),
    ),
    (
        Call::Map {
            addr: 0,
            len: 4096,
            prot: Prot::READ,
            flags: MapFlags::PRIVATE,
        },
        Under::Whole,
        Reply::At(0x7fff_ffff_e000),
    ),
    (
        Call::Seal {
            addr: 0x20000,
            len: 4096,
            flags: 0,
        },
        Under::Whole,
        Reply::Zero,
    ),
    (
        Call::Protect {
            addr: 0x20000,
            len: 4096,
            prot: Prot::EXEC,
        },
        Under::Area(Span { lo: 31, hi: 34 }),
        Reply::Refused(Why::Eperm(32)),
    ),
    (
        Call::Brk {
            base: 0x30000,
            addr: 0x31000,
        },
        Under::Whole,
        Reply::At(0x31000),
    ),
    (
        Call::Remap {
            addr: 0x30000,
            old_len: 4096,
            new_len: 8192,
            may_move: false,
            hint: 0,
        },
        Under::Whole,
        Reply::At(0x30000),
    ),
    (
        Call::Brk {
            base: 0x30000,
            addr: 0x30000,
        },
        Under::Whole,
        Reply::At(0x30000),
    ),
];

/// Makes the calls on a space, and compares what is held for each and its reply.
fn play(rt: &impl Abort, space: &mut PlainSpace) -> Result<(), AllocError> {
    for (call, under, reply) in CALLS {
        assert_eq!(rt; space.under(&call), under);
        assert!(rt; call.is_named());
        let (found, held) = space.step_under(&call)?;
        assert_eq!(rt; found, reply);
        assert_eq!(rt; held, under);
    }
    Ok(())
}

#[test]
fn calls_of_each_kind_hold_reply_and_leave_their_areas(rt: HostRuntime) -> Result<(), Fail> {
    let start = START;
    assert!(rt; have_named_kinds(&start));
    let mut space = PlainSpace::of_areas(rt.alloc(), &start)?;
    play(&rt, &mut space)?;
    assert_eq!(rt; space.areas(), LEFT.as_slice());
    assert_eq!(rt; space.rows(), 9);
    Ok(())
}

#[test]
fn touching_equal_areas_are_no_list(rt: HostRuntime) -> Result<(), Fail> {
    let first = Area {
        lo: 16,
        hi: 18,
        kind: READABLE,
    };
    let second = Area {
        lo: 18,
        hi: 19,
        kind: READABLE,
    };
    let list = [first, second];
    assert!(rt; have_named_kinds(&list));
    let space = PlainSpace::of_areas(rt.alloc(), &list);
    assert!(rt; matches!(space, Err(AreasFault::NotAreas(NotAreas { index: 1 }))));
    Ok(())
}

/// A fault on page 16 with this number and this reply.
fn fault(number: u64, reply: Reply) -> Entry {
    Entry {
        number,
        worker: 0,
        line: 1,
        call: Call::Fault {
            addr: 16 * PAGE,
            access: Access::Read,
        },
        reply,
        under: Under::Nothing,
    }
}

/// What `legal` says of entries from the empty space.
fn judged(rt: &(impl Abort + AllocGlobal), list: &[Entry]) -> Result<Option<u32>, AllocError> {
    assert!(rt; list.len() < 8);
    assert!(rt; have_named_calls(list));
    let start = PlainSpace::new(rt.alloc());
    legal(rt.alloc(), &start, list)
}

#[test]
fn a_history_is_judged_by_number_and_reply(rt: HostRuntime) -> Result<(), Fail> {
    let missing = Reply::Refused(Why::MapErr(16));
    let granted = Reply::Granted(READABLE);
    assert_eq!(rt; judged(&rt, &[fault(0, granted)])?, Some(0));
    assert_eq!(rt; judged(&rt, &[fault(0, missing)])?, None);
    assert_eq!(rt; judged(&rt, &[fault(1, missing)])?, Some(0));
    assert_eq!(rt;
        judged(&rt, &[fault(0, missing), fault(0, missing)])?,
        Some(1)
    );
    Ok(())
}

#[test]
fn entries_come_by_number(rt: HostRuntime) -> Result<(), Fail> {
    let missing = Reply::Refused(Why::MapErr(16));
    let mut list = vec![in rt.alloc(); fault(2, missing), fault(0, missing), fault(1, missing)]?;
    by_number(&mut list);
    assert_eq!(rt;
        list.as_slice(),
        [fault(0, missing), fault(1, missing), fault(2, missing)].as_slice()
    );
    Ok(())
}

#[test]
fn a_refused_list_is_printed_with_its_index(rt: HostRuntime) -> Result<(), Fail> {
    let refusal = AreasFault::NotAreas(NotAreas { index: 3 });
    let text = format!(in rt.alloc(); "{refusal}")?;
    assert_eq!(rt; text.as_str(), "the area with index 3 is not in order");
    let text = format!(in rt.alloc(); "{}", AreasFault::Memory)?;
    assert_eq!(rt; text.as_str(), "out of memory");
    Ok(())
}
