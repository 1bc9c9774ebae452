//! Worked cases of maps, unmaps, heaps and moves over a running space, both sides of the limit on rows, and threads
//! that map, unmap and fault on shared pages. What a test expects is reckoned by hand or by the one-thread model, never
//! taken from the program. More worked cases stand in `tests/rows`, which the gate plays on such a space too.
ghost use Rattle.std.specs.Prelude.{true, ◌≡◌, ◌<◌};
ghost use Rattle.page_types.specs.Named.{IsNamedCall};
ghost use Rattle.area_rows.specs.Rows.{keeps_by};
ghost use Rattle.test_crews.specs.Crews.{IsCrew};

use crate::replies::short;
use area_rows::{Answer, Caller, Closed, Space};
use list_cuts::Cut;
use page_fault::TriedFault;
use page_types::{Access, Call, Field, Kind, LIMIT, LOW, MapFlags, PAGE, Prot, Reply, Short, Why};
use space_model::{Area, PlainSpace, Under, have_named_calls, have_named_kinds, legal};
use std::alloc::Global;
use std::process::Abort;
use std::sync::Wait;
use std::test::Fail;
use std::thread::Threads;
use test_crews::{Work, call_at, call_by, open_crew, open_cut_crew, replacing, try_by, work_all};

/// A call, and what it answers under what.
#[derive(Clone, Copy)]
struct Case {
    call: Call,
    reply: Reply,
    under: Under,
}

fn read_write() -> Prot {
    Prot::READ | Prot::WRITE
}

fn area(lo: u64, hi: u64, prot: Prot) -> Area {
    Area {
        lo,
        hi,
        kind: Kind {
            prot,
            shared: false,
            sealed: false,
        },
    }
}

fn map(addr: u64, len: u64, prot: Prot, flags: MapFlags, reply: Reply) -> Case {
    Case {
        call: Call::Map {
            addr,
            len,
            prot,
            flags,
        },
        reply,
        under: Under::Whole,
    }
}

fn unmap(addr: u64, len: u64, reply: Reply) -> Case {
    Case {
        call: Call::Unmap { addr, len },
        reply,
        under: Under::Whole,
    }
}

fn protect(addr: u64, len: u64, prot: Prot, reply: Reply) -> Case {
    Case {
        call: Call::Protect { addr, len, prot },
        reply,
        under: Under::Whole,
    }
}

fn seal(addr: u64, len: u64, flags: u64, reply: Reply) -> Case {
    Case {
        call: Call::Seal { addr, len, flags },
        reply,
        under: Under::Whole,
    }
}

/// A heap that begins at page 32 is asked to end there.
fn brk(addr: u64, reply: Reply) -> Case {
    Case {
        call: Call::Brk {
            base: 0x20000,
            addr,
        },
        reply,
        under: Under::Whole,
    }
}

/// A Remap that may move, to that hint if it isn't 0.
fn remap(addr: u64, old_len: u64, new_len: u64, hint: u64, reply: Reply) -> Case {
    Case {
        call: Call::Remap {
            addr,
            old_len,
            new_len,
            may_move: true,
            hint,
        },
        reply,
        under: Under::Whole,
    }
}

/// The same area, sealed.
fn sealed(area: Area) -> Area {
    Area {
        kind: Kind {
            sealed: true,
            ..area.kind
        },
        ..area
    }
}

impl Case {
    /// The same, decided by the arguments alone.
    fn plain(self) -> Case {
        Case {
            under: Under::Nothing,
            ..self
        }
    }
}

/// Closes a space. Its history is legal from the start, as many entries long as it should be, and its areas are those
/// that the one-thread model has after it.
fn closed_right(
    rt: &impl Abort,
    alloc: Global,
    space: Space,
    callers: Vec<Caller>,
    start: &PlainSpace,
    count: usize,
) -> Result<Closed, Fail>
    requires crew { IsCrew space.table space.seats callers.items }
    requires keeps { keeps_by space.table ≡ true }
{
    let Ok(closed) = space.close(alloc, callers) else {
        panic!(rt; "memory");
    };
    let entries = closed.entries();
    assert!(rt; entries.len() == count && count < 1 << 30 && have_named_calls(entries));
    assert_eq!(rt; legal(alloc, start, entries)?, None);
    let mut model = start.copied(alloc)?;
    for entry in entries {
        assert!(rt; entry.call.is_named());
        assert_eq!(rt; model.step(&entry.call)?, entry.reply);
    }
    assert_eq!(rt; model.areas(), closed.areas());
    Ok(closed)
}

/// Closes a space, and gives the areas that are left.
pub(crate) fn areas_left(
    rt: &impl Abort,
    alloc: Global,
    space: Space,
    callers: Vec<Caller>,
) -> Vec<Area>
    requires { IsCrew space.table space.seats callers.items }
{
    let Ok(areas) = space.close_areas(alloc, callers) else {
        panic!(rt; "memory");
    };
    areas
}

/// Closes a space that keeps its history or doesn't. These areas are left; a history is so many entries long, and
/// legal.
fn ends_with(
    rt: &impl Abort,
    alloc: Global,
    keeps: bool,
    space: Space,
    callers: Vec<Caller>,
    start: &PlainSpace,
    count: usize,
    after: &[Area],
) -> Result<(), Fail>
    requires crew { IsCrew space.table space.seats callers.items }
    requires keeps { keeps_by space.table ≡ keeps }
{
    if keeps {
        let closed = closed_right(rt, alloc, space, callers, start, count)?;
        assert_eq!(rt; closed.areas(), after);
        return Ok(());
    }
    let areas = areas_left(rt, alloc, space, callers);
    assert_eq!(rt; areas.as_slice(), after);
    Ok(())
}

/// Makes the calls one after another on a space that starts with the first areas, and keeps its history or doesn't; the
/// last ones are left.
fn plays_kind<R: Abort + Wait>(
    rt: &R,
    alloc: Global,
    keeps: bool,
    before: &[Area],
    cases: &[Case],
    after: &[Area],
) -> Result<(), Fail> {
    assert!(rt; have_named_kinds(before) && before.len() < 1 << 30);
    let start = PlainSpace::of_areas(alloc, before)?;
    let Ok((space, mut callers)) = open_cut_crew(alloc, keeps, &[8], Cut::one(), &start) else {
        panic!(rt; "no space");
    };
    for case in cases {
        assert!(rt; case.call.is_named());
        let Answer::Given(entry) = call_by(rt, &space, callers.as_mut_slice(), 7, case.call) else {
            panic!(rt; "no number left");
        };
        assert_eq!(rt; entry.line, 7);
        assert_eq!(rt; entry.call, case.call);
        assert_eq!(rt; entry.reply, case.reply);
        assert_eq!(rt; entry.under, case.under);
    }
    ends_with(rt, alloc, keeps, space, callers, &start, cases.len(), after)
}

/// The same on a space of each kind.
fn plays<R: Abort + Wait>(
    rt: &R,
    alloc: Global,
    before: &[Area],
    cases: &[Case],
    after: &[Area],
) -> Result<(), Fail> {
    plays_kind(rt, alloc, true, before, cases, after)?;
    plays_kind(rt, alloc, false, before, cases, after)
}

#[test]
fn a_sealed_page_is_not_unmapped_replaced_or_protected(rt: HostRuntime) -> Result<(), Fail> {
    let refused = Reply::Refused(Why::Eperm(17));
    let cases = [
        seal(0x11000, 4096, 0, Reply::Zero),
        seal(0x11000, 4096, 1, Reply::Refused(Why::Einval(Field::Flags))).plain(),
        seal(0x11000, 12288, 0, short(Short::Missing(19))),
        unmap(0x10000, 12288, refused),
        map(0x10000, 8192, Prot::READ, replacing(), refused),
        protect(0x10000, 8192, Prot::READ, refused),
        protect(0x11000, 4096, read_write(), refused),
        unmap(0x12000, 4096, Reply::Zero),
    ];
    let left = [
        area(16, 17, read_write()),
        sealed(area(17, 18, read_write())),
    ];
    plays(
        &rt,
        rt.alloc(),
        &[area(16, 19, read_write())],
        &cases,
        &left,
    )
}

#[test]
fn a_heap_ends_where_its_pages_do(rt: HostRuntime) -> Result<(), Fail> {
    let areas = [area(34, 35, Prot::READ)];
    let cases = [
        // one byte has a page, and the reply is the address itself
        brk(0x20001, Reply::At(0x20001)),
        // the page of another area is no room, and the heap's end is its page's
        brk(0x23000, Reply::At(0x21000)),
        brk(0x22000, Reply::At(0x22000)),
        brk(0x1f000, Reply::At(0x22000)),
        brk(0x21000, Reply::At(0x21000)),
    ];
    let left = [area(32, 33, read_write()), area(34, 35, Prot::READ)];
    plays(&rt, rt.alloc(), &areas, &cases, &left)
}

#[test]
fn a_move_leaves_no_page_where_it_was(rt: HostRuntime) -> Result<(), Fail> {
    let areas = [area(32, 35, Prot::READ), area(40, 41, read_write())];
    let unlike = Reply::Refused(Why::Efault(35));
    let cases = [
        // the middle page of an area goes to a hint that touches another one
        remap(0x21000, 4096, 8192, 0x29000, Reply::At(0x29000)),
        // a page that isn't mapped, or is of another kind, refuses the whole
        remap(0x22000, 8192, 4096, 0, unlike),
        remap(0x28000, 8192, 4096, 0, Reply::Refused(Why::Efault(41))),
        // the last page grows where it is, and goes down again
        remap(0x22000, 4096, 8192, 0, Reply::At(0x22000)),
        remap(0x22000, 8192, 1, 0, Reply::At(0x22000)),
        // where nothing is free behind it, it goes up as high as it fits
        remap(0x28000, 4096, 8192, 0, Reply::At(0x7fffffffd000)),
    ];
    let left = [
        area(32, 33, Prot::READ),
        area(34, 35, Prot::READ),
        area(41, 43, Prot::READ),
        area(LOW - 2, LOW, read_write()),
    ];
    plays(&rt, rt.alloc(), &areas, &cases, &left)
}

/// The pages from 16 up to 131,074 of two kinds in turn, and then an area of three pages: 131,061 rows.
fn full(alloc: Global) -> Result<Vec<Area>, Fail> {
    let mut list = Vec::new(alloc);
    for page in 16..131_074u64 {
        let prot = if page % 2 == 0 {
            Prot::READ
        } else {
            read_write()
        };
        list.push(area(page, page + 1, prot))?;
    }
    list.push(area(131_074, 131_077, Prot::READ))?;
    Ok(list)
}

#[test]
fn a_change_may_leave_131061_rows_and_no_more(rt: HostRuntime) -> Result<(), Fail> {
    let areas = full(rt.alloc())?;
    let page = 131_074 * PAGE;
    let end = 131_077 * PAGE;
    let one_more = short(Short::Rows(131_062));
    let two_more = short(Short::Rows(131_063));
    let cases = [
        unmap(page + PAGE, PAGE, two_more),
        unmap(page, PAGE, one_more),
        map(page + PAGE, PAGE, read_write(), replacing(), two_more),
        map(end, PAGE, read_write(), replacing(), one_more),
        protect(page + PAGE, PAGE, read_write(), two_more),
        map(end, PAGE, Prot::READ, replacing(), Reply::At(end)),
        unmap(end, PAGE, Reply::Zero),
    ];
    plays(&rt, rt.alloc(), &areas, &cases, &areas)
}

/// What a read of a page of that space answers.
fn read_of(page: u64) -> Reply {
    if !(16..131_077).contains(&page) {
        return Reply::Refused(Why::MapErr(page));
    }
    let prot = if page >= 131_074 || page % 2 == 0 {
        Prot::READ
    } else {
        read_write()
    };
    Reply::Granted(Kind {
        prot,
        shared: false,
        sealed: false,
    })
}

/// The first caller tries at each of these pages, and the answers are those of the space of 131,061 rows.
fn tries<R: Abort>(rt: &R, space: &Space, callers: &mut [Caller], pages: &[u64])
    requires { IsCrew space.now.table space.now.seats callers.old }
    ensures { IsCrew space.now.table space.now.seats callers.new }
{
    for &page in pages {
        assert!(rt; page < LIMIT);
        let TriedFault::Answered(entry) = try_by(space, callers, page * PAGE) else {
            panic!(rt; "page {page} wasn't held");
        };
        assert_eq!(rt; entry.reply, read_of(page));
    }
}

#[test]
fn a_try_finds_its_page_among_131061_rows(rt: HostRuntime) -> Result<(), Fail> {
    let alloc = rt.alloc();
    let areas = full(alloc)?;
    assert!(rt; have_named_kinds(&areas) && areas.len() == 131_059);
    let start = PlainSpace::of_areas(alloc, &areas)?;
    let Ok((space, mut crew)) = open_crew(alloc, &[24], &start) else {
        panic!(rt; "no space");
    };
    let first = [
        16, 17, 18, 19, 20, 21, 22, 23, 24, 25, 26, 27, 28, 29, 30, 31,
    ];
    tries(&rt, &space, crew.as_mut_slice(), &first);
    let others = [0, 15, 65_545, 131_073, 131_074, 131_076, 131_077, LIMIT - 1];
    tries(&rt, &space, crew.as_mut_slice(), &others);
    closed_right(&rt, alloc, space, crew, &start, 24)?;
    Ok(())
}

/// Callers with 500 calls each, of which the first ones do the work and the others read, each on a thread of its own.
/// Each caller's entries are those of its turns, in their order.
fn works<R: Abort + Threads + Wait + Sync>(
    rt: &R,
    alloc: Global,
    work: Work,
    changing: usize,
    callers: usize,
) -> Result<(), Fail> {
    assert!(rt; callers <= 16);
    let start = PlainSpace::new(alloc);
    let calls = [500; 16];
    let Ok((space, mut crew)) = open_crew(alloc, &calls[..callers], &start) else {
        panic!(rt; "no space");
    };
    work_all(rt, &space, crew.as_mut_slice(), work, changing, 500);
    let closed = closed_right(rt, alloc, space, crew, &start, 500 * callers)?;
    let mut turns = [0u32; 16];
    for entry in closed.entries() {
        let worker = entry.worker as usize;
        assert!(rt; worker < callers && turns[worker] < 500);
        let turn = turns[worker];
        assert_eq!(rt; entry.line, turn + 1);
        assert_eq!(rt;
            entry.call,
            call_at(work.of(worker < changing), entry.worker, turn)
        );
        turns[worker] = turn + 1;
    }
    Ok(())
}

/// A read of the first byte of a page that is worked on, counted from 0.
fn read_at(index: u64) -> Call
    requires { index < 80 }
    ensures { IsNamedCall result }
{
    Call::Fault {
        addr: (16 + index) * PAGE,
        access: Access::Read,
    }
}

/// What the first caller of a crew is answered to a read of each page that is worked on.
fn read_all<R: Abort + Wait>(
    rt: &R,
    alloc: Global,
    space: &Space,
    callers: &mut [Caller],
) -> Result<Vec<Reply>, Fail>
    requires { IsCrew space.now.table space.now.seats callers.old }
    ensures { IsCrew space.now.table space.now.seats callers.new }
{
    let mut replies = Vec::new(alloc);
    for index in 0..64 {
        let Answer::Given(entry) = call_by(rt, space, callers, 501, read_at(index)) else {
            panic!(rt; "no number left");
        };
        replies.push(entry.reply)?;
    }
    Ok(replies)
}

/// The same calls on a space that keeps its history or doesn't, and then a read of each page that is worked on. The
/// areas that are left answer each as it was answered.
fn works_unjudged<R: Abort + Threads + Wait + Sync>(
    rt: &R,
    alloc: Global,
    keeps: bool,
    work: Work,
    callers: usize,
) -> Result<Vec<Area>, Fail> {
    assert!(rt; callers <= 16);
    let start = PlainSpace::new(alloc);
    let calls = [600; 16];
    let Ok((space, mut crew)) = open_cut_crew(alloc, keeps, &calls[..callers], Cut::one(), &start)
    else {
        panic!(rt; "no space");
    };
    work_all(rt, &space, crew.as_mut_slice(), work, callers, 500);
    let replies = read_all(rt, alloc, &space, crew.as_mut_slice())?;
    let areas = areas_left(rt, alloc, space, crew);
    assert!(rt; areas.len() < 1 << 30 && have_named_kinds(&areas));
    let mut model = PlainSpace::of_areas(alloc, &areas)?;
    for (index, reply) in replies.iter().enumerate() {
        assert!(rt; index < 64);
        assert_eq!(rt; model.step(&read_at(index as u64))?, *reply);
    }
    Ok(areas)
}

#[test]
fn two_threads_map_and_unmap_one_page(rt: HostRuntime) -> Result<(), Fail> {
    works(&rt, rt.alloc(), Work::OnePage, 2, 2)?;
    for keeps in [true, false] {
        let left = works_unjudged(&rt, rt.alloc(), keeps, Work::OnePage, 2)?;
        assert!(rt; left.is_empty());
    }
    Ok(())
}

#[test]
fn four_threads_change_64_pages_beside_two_that_fault(rt: HostRuntime) -> Result<(), Fail> {
    works(&rt, rt.alloc(), Work::Mixed, 4, 6)?;
    for keeps in [true, false] {
        works_unjudged(&rt, rt.alloc(), keeps, Work::Mixed, 6)?;
    }
    Ok(())
}
