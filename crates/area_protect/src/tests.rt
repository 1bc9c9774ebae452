//! The steps of a change of protection, one by one, with a call of another caller between them: so each way that ends
//! at holding everything, and the one that begins anew, is seen to come.
ghost use Rattle.area_rows.specs.Rows.{keeps_by};
ghost use Rattle.std.specs.Prelude.{true, ◌≡◌, ◌<◌, ◌≤◌, None};
ghost use Rattle.page_types.specs.Named.{IsNamedCall};
ghost use Rattle.page_types.specs.PlainReply.{plain_reply};
ghost use Rattle.page_types.specs.Classes.{IsFault};

use crate::protecting::protect;
use crate::steps::{Held, hold_area, look_around};
use area_rows::{Caller, Space};
use page_types::{Call, Kind, MapFlags, PAGE, Prot, Span};
use space_model::{Area, PlainSpace, have_named_kinds};
use std::marker::Brand;
use std::sync::Wait;
use std::sync::ledger::{Blank, Ledger};
use std::test::Fail;
use word_rows::Steps;

/// What the second look finds where another caller makes a call under everything between the two.
fn held_after<R: Wait, L: Ledger>(
    rt: &R,
    space: &Space,
    caller: &mut Caller,
    other: &mut Caller,
    pages: Span,
    call: Call,
    blank: Blank,
) -> Option<Held>
    requires blank { (blank.name ≡ L.name) × (blank.parts ≡ L.parts) × (0 < L.parts) }
    requires caller { (caller.old.seat.table ≡ space.now.table) × (caller.old.seat.held ≡ None) }
    requires keeps { keeps_by space.now.table ≡ true }
    requires other { (other.old.seat.table ≡ space.now.table) × (other.old.seat.held ≡ None) × (0 < other.old.left) }
    requires call { ¬ IsFault call }
    requires named { IsNamedCall call }
    requires undecided { plain_reply call ≡ None }
{
    let mut steps = Steps::<L>::new(blank);
    let Ok(found) = look_around(space, rt, caller, pages, &mut steps) else {
        return None;
    };
    let wide = found.area.widened();
    space.call_whole(rt, other, 1, call);
    let held = hold_area(space, rt, caller, pages.lo(), found, wide, &mut steps);
    if let Held::Area(_, _) = held {
        space.release(caller, &mut steps);
    }
    Some(held)
}

/// What the second look finds where another caller changes a protection between the two.
fn held_beside<R: Wait, L: Ledger>(
    rt: &R,
    space: &Space,
    caller: &mut Caller,
    other: &mut Caller,
    pages: Span,
    changed: Span,
    blank: Blank,
) -> Option<Held>
    requires blank { (blank.name ≡ L.name) × (blank.parts ≡ L.parts) × (0 < L.parts) }
    requires caller { (caller.old.seat.table ≡ space.now.table) × (caller.old.seat.held ≡ None) }
    requires keeps { keeps_by space.now.table ≡ true }
    requires other { (other.old.seat.table ≡ space.now.table) × (other.old.seat.held ≡ None) }
{
    let mut steps = Steps::<L>::new(blank);
    let Ok(found) = look_around(space, rt, caller, pages, &mut steps) else {
        return None;
    };
    let wide = found.area.widened();
    let len = (changed.hi() - changed.lo()) * PAGE;
    protect(space, rt, other, 1, changed.lo() * PAGE, len, Prot::READ);
    let held = hold_area(space, rt, caller, pages.lo(), found, wide, &mut steps);
    if let Held::Area(_, _) = held {
        space.release(caller, &mut steps);
    }
    Some(held)
}

#[test]
fn a_boundary_that_moves_between_two_looks_is_seen(rt: HostRuntime) -> Result<(), Fail> {
    let alloc = rt.alloc();
    let kind = |prot: Prot| Kind {
        prot,
        shared: false,
        sealed: false,
    };
    let areas = [
        Area {
            lo: 16,
            hi: 18,
            kind: kind(Prot::WRITE),
        },
        Area {
            lo: 18,
            hi: 20,
            kind: kind(Prot::READ),
        },
    ];
    assert!(rt; have_named_kinds(&areas));
    let start = PlainSpace::of_areas(alloc, &areas)?;
    let Ok((space, mut callers)) = Space::open(alloc, &[1, 1], &start) else {
        panic!(rt; "no space");
    };
    let (Ok(pages), Ok(changed)) = (Span::of(16 * PAGE, PAGE), Span::of(17 * PAGE, PAGE)) else {
        panic!(rt; "a page");
    };
    let (first, others) = callers.split_at_mut(1);
    let held = held_beside::<_, Brand>(
        &rt,
        &space,
        &mut first[0],
        &mut others[0],
        pages,
        changed,
        Blank::new(1),
    );
    match held {
        Some(Held::Other) => Ok(()),
        _ => panic!(rt; "the boundary was seen where it had been"),
    }
}

#[test]
fn a_map_between_two_looks_is_named(rt: HostRuntime) -> Result<(), Fail> {
    let alloc = rt.alloc();
    let areas = [Area {
        lo: 16,
        hi: 18,
        kind: Kind {
            prot: Prot::READ,
            shared: false,
            sealed: false,
        },
    }];
    assert!(rt; have_named_kinds(&areas));
    let start = PlainSpace::of_areas(alloc, &areas)?;
    let Ok((space, mut callers)) = Space::open(alloc, &[1, 1], &start) else {
        panic!(rt; "no space");
    };
    let Ok(pages) = Span::of(16 * PAGE, PAGE) else {
        panic!(rt; "a page");
    };
    let call = Call::Map {
        addr: 64 * PAGE,
        len: PAGE,
        prot: Prot::READ,
        flags: MapFlags::PRIVATE,
    };
    let (first, others) = callers.split_at_mut(1);
    let held = held_after::<_, Brand>(
        &rt,
        &space,
        &mut first[0],
        &mut others[0],
        pages,
        call,
        Blank::new(1),
    );
    match held {
        Some(Held::Moved { second, sequence }) => assert_eq!(rt; (second, sequence), (1, 1)),
        _ => panic!(rt; "no call under everything was seen"),
    }
    Ok(())
}
