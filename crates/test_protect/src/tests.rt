//! Worked cases of changes of protection over a running space, with their ways. What a test expects is reckoned by
//! hand, never taken from the program.
use crate::claims::ends_with;
use crate::protect_by;
use area_protect::{Cause, Path};
use area_rows::Answer;
use list_cuts::Cut;
use page_types::{Call, Field, Kind, PAGE, Prot, Reply, Short, Span, Why};
use space_model::{Area, PlainSpace, Under, have_named_kinds};
use std::alloc::Global;
use std::process::Abort;
use std::sync::Wait;
use std::test::Fail;
use test_crews::{call_by, open_cut_crew, replacing};

/// A change of protection, and what it answers, under what, and by which way.
#[derive(Clone, Copy)]
struct Case {
    addr: u64,
    len: u64,
    prot: Prot,
    reply: Reply,
    under: Under,
    path: Path,
}

fn read_write() -> Prot {
    Prot::READ | Prot::WRITE
}

fn area(lo: u64, hi: u64, prot: Prot) -> Area {
    Area {
        lo,
        hi,
        kind: Kind {
            prot,
            shared: false,
            sealed: false,
        },
    }
}

/// A span of pages, held by a call over its area.
fn over(lo: u64, hi: u64) -> Under {
    let pages = u64::wrapping_sub(hi, lo);
    match Span::of(u64::wrapping_mul(lo, PAGE), u64::wrapping_mul(pages, PAGE)) {
        Ok(span) => Under::Area(span),
        Err(_) => Under::Nothing,
    }
}

/// Maps the last areas on a space that starts with the first ones, whose pages are cut so and which keeps its history
/// or doesn't, and then makes the changes, one after another; these areas are left.
fn plays_kind<R: Abort + Wait>(
    rt: &R,
    alloc: Global,
    keeps: bool,
    cut: Cut,
    before: &[Area],
    maps: &[Area],
    cases: &[Case],
    after: &[Area],
) -> Result<(), Fail> {
    assert!(rt; have_named_kinds(before) && before.len() < 1 << 30);
    let start = PlainSpace::of_areas(alloc, before)?;
    let Ok((space, mut callers)) = open_cut_crew(alloc, keeps, &[8], cut, &start) else {
        panic!(rt; "no space");
    };
    for area in maps {
        assert!(rt; area.lo < area.hi && area.hi < 1 << 20 && area.kind.prot.is_named());
        let call = Call::Map {
            addr: area.lo * PAGE,
            len: (area.hi - area.lo) * PAGE,
            prot: area.kind.prot,
            flags: replacing(),
        };
        call_by(rt, &space, callers.as_mut_slice(), 1, call);
    }
    for case in cases {
        assert!(rt; case.prot.is_named());
        let (answer, path) = protect_by(
            rt,
            &space,
            callers.as_mut_slice(),
            keeps,
            7,
            case.addr,
            case.len,
            case.prot,
        );
        let Answer::Given(entry) = answer else {
            panic!(rt; "no number left");
        };
        assert_eq!(rt; entry.line, 7);
        assert_eq!(rt; entry.reply, case.reply);
        assert_eq!(rt; entry.under, case.under);
        assert_eq!(rt; path, keeps.then_some(case.path));
    }
    let count = usize::wrapping_add(maps.len(), cases.len());
    ends_with(rt, alloc, keeps, space, callers, &start, count, after)
}

/// The same on a space of each kind. What is answered and held is alike; the way is told where the history is kept.
fn plays_cut<R: Abort + Wait>(
    rt: &R,
    alloc: Global,
    cut: Cut,
    before: &[Area],
    maps: &[Area],
    cases: &[Case],
    after: &[Area],
) -> Result<(), Fail> {
    plays_kind(rt, alloc, true, cut, before, maps, cases, after)?;
    plays_kind(rt, alloc, false, cut, before, maps, cases, after)
}

/// The same on a space of one list.
fn plays_after<R: Abort + Wait>(
    rt: &R,
    alloc: Global,
    before: &[Area],
    maps: &[Area],
    cases: &[Case],
    after: &[Area],
) -> Result<(), Fail> {
    plays_cut(rt, alloc, Cut::one(), before, maps, cases, after)
}

/// The same on a space that starts with the areas.
fn plays<R: Abort + Wait>(
    rt: &R,
    alloc: Global,
    before: &[Area],
    cases: &[Case],
    after: &[Area],
) -> Result<(), Fail> {
    plays_after(rt, alloc, before, &[], cases, after)
}

#[test]
fn a_way_counts_the_calls_under_everything_before_it(rt: HostRuntime) -> Result<(), Fail> {
    let whole = Case {
        addr: 0x10000,
        len: 8192,
        prot: Prot::READ,
        reply: Reply::Zero,
        under: over(15, 19),
        path: Path::Area { seq: 1 },
    };
    let maps = [area(16, 18, read_write())];
    plays_after(
        &rt,
        rt.alloc(),
        &[],
        &maps,
        &[whole],
        &[area(16, 18, Prot::READ)],
    )?;
    let boundary = Case {
        addr: 0x11000,
        len: 4096,
        path: Path::Area { seq: 2 },
        ..whole
    };
    let maps = [area(16, 18, read_write()), area(18, 20, Prot::READ)];
    let moved = [area(16, 17, read_write()), area(17, 20, Prot::READ)];
    plays_after(&rt, rt.alloc(), &[], &maps, &[boundary], &moved)
}

#[test]
fn a_cause_names_the_history_at_its_look(rt: HostRuntime) -> Result<(), Fail> {
    let split = Case {
        addr: 0x11000,
        len: 4096,
        prot: Prot::READ,
        reply: Reply::Zero,
        under: Under::Whole,
        path: Path::Whole(Cause::NotSimple { at: 1 }),
    };
    let after = [
        area(16, 17, read_write()),
        area(17, 18, Prot::READ),
        area(18, 19, read_write()),
    ];
    plays_after(
        &rt,
        rt.alloc(),
        &[],
        &[area(16, 19, read_write())],
        &[split],
        &after,
    )?;
    let missing = Case {
        addr: 0x10000,
        len: 12288,
        reply: Reply::Refused(Why::Enomem(Short::Missing(17))),
        path: Path::Whole(Cause::NotOneArea { at: 2 }),
        ..split
    };
    let maps = [area(16, 17, read_write()), area(18, 19, read_write())];
    plays_after(&rt, rt.alloc(), &[], &maps, &[missing], &maps)
}

#[test]
fn a_last_page_goes_to_the_next_area_and_back(rt: HostRuntime) -> Result<(), Fail> {
    let there = Case {
        addr: 0x11000,
        len: 4096,
        prot: Prot::READ,
        reply: Reply::Zero,
        under: over(15, 19),
        path: Path::Area { seq: 0 },
    };
    let back = Case {
        prot: read_write(),
        under: over(16, 21),
        ..there
    };
    let before = [area(16, 18, read_write()), area(18, 20, Prot::READ)];
    let moved = [area(16, 17, read_write()), area(17, 20, Prot::READ)];
    plays(&rt, rt.alloc(), &before, &[there], &moved)?;
    plays(&rt, rt.alloc(), &before, &[there, back], &before)
}

#[test]
fn a_change_of_nothing_is_held_alone(rt: HostRuntime) -> Result<(), Fail> {
    let cases = [Case {
        addr: 0x11000,
        len: 4096,
        prot: read_write(),
        reply: Reply::Zero,
        under: over(15, 20),
        path: Path::Area { seq: 0 },
    }];
    let areas = [area(16, 19, read_write())];
    plays(&rt, rt.alloc(), &areas, &cases, &areas)
}

#[test]
fn arguments_that_decide_hold_nothing(rt: HostRuntime) -> Result<(), Fail> {
    let none = Case {
        addr: 0x10000,
        len: 0,
        prot: Prot::READ,
        reply: Reply::Zero,
        under: Under::Nothing,
        path: Path::Free,
    };
    let unaligned = Case {
        addr: 0x10001,
        len: 4096,
        reply: Reply::Refused(Why::Einval(Field::Addr)),
        ..none
    };
    let both = Case {
        len: 0,
        ..unaligned
    };
    let areas = [area(16, 17, read_write())];
    plays(&rt, rt.alloc(), &areas, &[none, unaligned, both], &areas)
}

#[test]
fn at_the_limit_on_rows_a_split_is_refused_and_a_recolouring_is_done(
    rt: HostRuntime,
) -> Result<(), Fail> {
    let alloc = rt.alloc();
    let mut before = Vec::new(alloc);
    for page in 16..131_074 {
        let prot = if page % 2 == 0 {
            Prot::READ
        } else {
            read_write()
        };
        before.push(area(page, page + 1, prot))?;
    }
    before.push(area(131_074, 131_077, Prot::READ))?;
    let split = Case {
        addr: 0x2000_3000,
        len: 4096,
        prot: read_write(),
        reply: Reply::Refused(Why::Enomem(Short::Rows(131_063))),
        under: Under::Whole,
        path: Path::Whole(Cause::NotSimple { at: 0 }),
    };
    let recoloured = Case {
        addr: 0x10000,
        prot: Prot::READ | Prot::EXEC,
        reply: Reply::Zero,
        under: over(15, 18),
        path: Path::Area { seq: 1 },
        ..split
    };
    let mut after = Vec::from_slice(alloc, &before)?;
    after[0] = area(16, 17, Prot::READ | Prot::EXEC);
    plays(&rt, alloc, &before, &[split, recoloured], &after)
}

#[test]
fn a_sealed_area_refuses_under_itself(rt: HostRuntime) -> Result<(), Fail> {
    let own = area(16, 18, read_write());
    let areas = [
        Area {
            kind: Kind {
                sealed: true,
                ..own.kind
            },
            ..own
        },
        area(18, 20, read_write()),
    ];
    // one that would split the area, and one that would change nothing
    let split = Case {
        addr: 0x11000,
        len: 4096,
        prot: Prot::READ,
        reply: Reply::Refused(Why::Eperm(17)),
        under: over(15, 19),
        path: Path::Area { seq: 0 },
    };
    let nothing = Case {
        addr: 0x10000,
        len: 8192,
        prot: read_write(),
        reply: Reply::Refused(Why::Eperm(16)),
        ..split
    };
    // over both areas, which look alike in the maps, everything is held
    let both = Case {
        len: 8192,
        under: Under::Whole,
        path: Path::Whole(Cause::NotOneArea { at: 2 }),
        ..split
    };
    plays(&rt, rt.alloc(), &areas, &[split, nothing, both], &areas)
}

#[test]
fn changes_over_two_regions_are_as_in_one_list(rt: HostRuntime) -> Result<(), Fail> {
    // blocks of two regions meet at page 65,536, so what is held takes the lists of both
    let Ok(seven) = Cut::of(7, 16) else {
        panic!(rt; "no cut");
    };
    let there = Case {
        addr: 0x1000_0000,
        len: 4096,
        prot: Prot::READ,
        reply: Reply::Zero,
        under: over(65_533, 65_538),
        path: Path::Area { seq: 0 },
    };
    let back = Case {
        prot: read_write(),
        under: over(65_535, 65_541),
        ..there
    };
    let split = Case {
        addr: 0x1000_2000,
        under: Under::Whole,
        path: Path::Whole(Cause::NotSimple { at: 2 }),
        ..back
    };
    let before = [
        area(65_534, 65_537, read_write()),
        area(65_537, 65_540, Prot::READ),
    ];
    let after = [
        area(65_534, 65_537, read_write()),
        area(65_537, 65_538, Prot::READ),
        area(65_538, 65_539, read_write()),
        area(65_539, 65_540, Prot::READ),
    ];
    let cases = [there, back, split];
    plays(&rt, rt.alloc(), &before, &cases, &after)?;
    plays_cut(&rt, rt.alloc(), seven, &before, &[], &cases, &after)
}
