//! Worked cases of faults over a running space, and four threads on shared pages. What a test expects is reckoned by
//! hand or by the one-thread model, never taken from the program.
ghost use Rattle.std.specs.Prelude.{false, ◌≡◌, ◌≤◌};
ghost use Rattle.test_crews.specs.declared.held.Holding.TheVariants.{ReadsAlone};
ghost use Rattle.page_types.specs.Named.{IsNamedCall};
ghost use Rattle.test_crews.specs.Crews.{IsCrew};

use crate::map_tests::areas_left;
use area_rows::{Answer, Caller, Space, SpaceFault};
use list_cuts::Cut;
use lock_core::{Mode, Range};
use page_fault::TriedFault;
use page_types::{Access, Call, Kind, PAGE, Prot, Reply, Span, Why};
use range_rw::NotHeld;
use space_model::{Area, PlainSpace, Under, have_named_calls, have_named_kinds, legal};
use std::alloc::Global;
use std::process::Abort;
use std::sync::Wait;
use test_crews::{
    HeldCalls, Holding, Work, call_by, hold_beside, open_crew, open_cut_crew, try_beside, work_all,
};

/// The pages 16 and 17, which may be read.
const PRIVATE: Area = Area {
    lo: 16,
    hi: 18,
    kind: Kind {
        prot: Prot::READ,
        shared: false,
        sealed: false,
    },
};

/// The same pages, shared.
const SHARED: Area = Area {
    lo: 16,
    hi: 18,
    kind: Kind {
        prot: Prot::READ,
        shared: true,
        sealed: false,
    },
};

/// How a space of so many callers is refused, if it is.
fn refusal_of(alloc: Global, keeps: bool, count: u32) -> Option<SpaceFault>
    requires { count ≤ 17 }
{
    let start = PlainSpace::new(alloc);
    let calls = [1; 17];
    open_cut_crew(alloc, keeps, &calls[..count as usize], Cut::one(), &start).err()
}

#[test]
fn a_space_has_from_one_to_sixteen_callers(rt: HostRuntime) {
    for keeps in [true, false] {
        for count in [0, 17] {
            let refusal = refusal_of(rt.alloc(), keeps, count);
            assert_eq!(rt; refusal, Some(SpaceFault::Callers(count)));
        }
        assert_eq!(rt; refusal_of(rt.alloc(), keeps, 16), None);
    }
    let text = format!(in rt.alloc(); "{}", SpaceFault::Callers(17)).expect(&rt, "memory");
    assert_eq!(rt; text.as_str(), "17 callers, where 1 to 16 may be");
}

#[test]
fn faults_answer_as_worked_by_hand(rt: HostRuntime) {
    let alloc = rt.alloc();
    let start = PlainSpace::of_areas(alloc, &[PRIVATE]).expect(&rt, "an area list");
    let kind = PRIVATE.kind;
    let (space, mut callers) = open_crew(alloc, &[4], &start).expect(&rt, "memory");
    let cases = [
        (0x10000, Access::Read, Reply::Granted(kind), 16),
        (0x11fff, Access::Read, Reply::Granted(kind), 17),
        (0x12000, Access::Read, Reply::Refused(Why::MapErr(18)), 18),
        (
            0x10000,
            Access::Write,
            Reply::Refused(Why::AccErr(16, kind)),
            16,
        ),
    ];
    for (addr, access, reply, page) in cases {
        let call = Call::Fault { addr, access };
        let Answer::Given(entry) = call_by(&rt, &space, callers.as_mut_slice(), 7, call) else {
            panic!(rt; "no number left");
        };
        assert_eq!(rt; entry.reply, reply);
        assert_eq!(rt; entry.line, 7);
        match entry.under {
            Under::Reader(span) => assert_eq!(rt; (span.lo(), span.hi()), (page, page + 1)),
            _ => panic!(rt; "the page wasn't held"),
        }
    }
    let call = Call::Fault {
        addr: 0,
        access: Access::Read,
    };
    assert_eq!(rt;
        call_by(&rt, &space, callers.as_mut_slice(), 7, call),
        Answer::Spent
    );
    let Ok(closed) = space.close(alloc, callers) else {
        panic!(rt; "memory");
    };
    assert_eq!(rt; closed.areas(), [PRIVATE].as_slice());
    assert_eq!(rt; closed.entries().len(), 4);
}

#[test]
fn four_threads_draw_two_thousand_numbers(rt: HostRuntime) {
    let alloc = rt.alloc();
    let start = PlainSpace::of_areas(alloc, &[SHARED]).expect(&rt, "an area list");
    let (space, mut callers) = open_crew(alloc, &[500; 4], &start).expect(&rt, "memory");
    work_all(&rt, &space, callers.as_mut_slice(), Work::FourPages, 4, 500);
    let Ok(closed) = space.close(alloc, callers) else {
        panic!(rt; "memory");
    };
    let entries = closed.entries();
    assert_eq!(rt; entries.len(), 2000);
    assert!(rt; have_named_calls(entries));
    let illegal = legal(alloc, &start, entries).expect(&rt, "memory");
    assert_eq!(rt; illegal, None);
    let mut next = [0; 4];
    for (i, entry) in entries.iter().enumerate() {
        assert_eq!(rt; entry.number, i as u64);
        let worker = entry.worker as usize;
        assert!(rt; worker < 4);
        next[worker] = u32::wrapping_add(next[worker], 1);
        assert_eq!(rt; entry.line, next[worker]);
    }
    assert_eq!(rt; next, [500; 4]);
}

#[test]
fn a_start_of_131062_rows_is_too_large(rt: HostRuntime) {
    let alloc = rt.alloc();
    let mut areas = Vec::new(alloc);
    for page in 16..131_076 {
        let kind = Kind {
            prot: if page % 2 == 0 {
                Prot::READ
            } else {
                Prot::WRITE
            },
            shared: false,
            sealed: false,
        };
        let area = Area {
            lo: page,
            hi: page + 1,
            kind,
        };
        areas.push(area).expect(&rt, "memory");
    }
    assert!(rt; areas.len() == 131_060 && have_named_kinds(&areas));
    let start = PlainSpace::of_areas(alloc, &areas).expect(&rt, "an area list");
    for keeps in [true, false] {
        match open_cut_crew(alloc, keeps, &[1], Cut::one(), &start) {
            Ok(_) => panic!(rt; "a space of 131062 rows"),
            Err(refusal) => assert_eq!(rt; refusal, SpaceFault::Rows(131_062)),
        }
    }
    let text = format!(in alloc; "{}", SpaceFault::Rows(131_062)).expect(&rt, "memory");
    assert_eq!(rt; text.as_str(), "131062 rows, where at most 131061 may be");
}

/// The first caller's two answers to a call on line 1 and the same call on line 2.
fn call_twice<R: Wait>(
    rt: &R,
    space: &Space,
    callers: &mut [Caller],
    call: Call,
) -> (Answer, Answer)
    requires crew { IsCrew space.now.table space.now.seats callers.old }
    requires named { IsNamedCall call }
    ensures crew { IsCrew space.now.table space.now.seats callers.new }
{
    let first = call_by(rt, space, callers, 1, call);
    let second = call_by(rt, space, callers, 2, call);
    (first, second)
}

#[test]
fn a_caller_with_one_number_faults_once(rt: HostRuntime) {
    let alloc = rt.alloc();
    let start = PlainSpace::new(alloc);
    let (space, mut callers) = open_crew(alloc, &[1], &start).expect(&rt, "memory");
    let call = Call::Fault {
        addr: 0x10000,
        access: Access::Read,
    };
    let (first, second) = call_twice(&rt, &space, callers.as_mut_slice(), call);
    let Answer::Given(entry) = first else {
        panic!(rt; "no number left");
    };
    assert_eq!(rt; entry.reply, Reply::Refused(Why::MapErr(16)));
    assert_eq!(rt; second, Answer::Spent);
    let Ok(closed) = space.close(alloc, callers) else {
        panic!(rt; "memory");
    };
    assert!(rt; closed.areas().is_empty());
    assert_eq!(rt; closed.entries(), [entry].as_slice());
    assert!(rt; have_named_calls(closed.entries()));
    let illegal = legal(alloc, &start, closed.entries()).expect(&rt, "memory");
    assert_eq!(rt; illegal, None);
    let mut wrong = entry;
    wrong.reply = Reply::Granted(Kind {
        prot: Prot::READ,
        shared: false,
        sealed: false,
    });
    let wrong = [wrong];
    assert!(rt; have_named_calls(&wrong));
    let illegal = legal(alloc, &start, &wrong).expect(&rt, "memory");
    assert_eq!(rt; illegal, Some(0));
}

#[test]
fn without_a_history_a_caller_goes_on(rt: HostRuntime) {
    let alloc = rt.alloc();
    let start = PlainSpace::new(alloc);
    let Ok((space, mut callers)) = open_cut_crew(alloc, false, &[1], Cut::one(), &start) else {
        panic!(rt; "no space");
    };
    let call = Call::Fault {
        addr: 0x10000,
        access: Access::Read,
    };
    let (first, second) = call_twice(&rt, &space, callers.as_mut_slice(), call);
    match callers.first() {
        Some(caller) => assert_eq!(rt; caller.left(), (1 << 56) - 2),
        None => panic!(rt; "no caller"),
    }
    assert!(rt; areas_left(&rt, alloc, space, callers).is_empty());
    for (answer, line) in [(first, 1), (second, 2)] {
        let Answer::Given(entry) = answer else {
            panic!(rt; "no number left");
        };
        assert_eq!(rt; (entry.number, entry.line), (0, line));
        assert_eq!(rt; entry.reply, Reply::Refused(Why::MapErr(16)));
    }
}

/// What is answered to calls of a caller that goes on holding, and to the tries of another one beside it.
fn held_by<R: Abort + Wait>(
    rt: &R,
    alloc: Global,
    keeps: bool,
    holding: Holding,
    before: &[Area],
) -> HeldCalls
    requires { holding ≡ ReadsAlone → keeps ≡ false }
{
    assert!(rt; have_named_kinds(before) && before.len() < 1 << 30);
    let start = PlainSpace::of_areas(alloc, before).expect(rt, "an area list");
    let Ok((space, mut callers)) = open_cut_crew(alloc, keeps, &[2, 2], Cut::one(), &start) else {
        panic!(rt; "no space");
    };
    let calls = hold_beside(rt, &space, callers.as_mut_slice(), holding);
    let areas = areas_left(rt, alloc, space, callers);
    assert_eq!(rt; areas.as_slice(), before);
    calls.expect(rt, "a number is left")
}

#[test]
fn who_goes_on_holding_a_page_as_a_writer_hinders_a_fault(rt: HostRuntime) {
    let granted = Reply::Granted(PRIVATE.kind);
    let calls = held_by(&rt, rt.alloc(), false, Holding::ReadsAlone, &[PRIVATE]);
    assert_eq!(rt; (calls.first.reply, calls.second.reply), (granted, granted));
    assert!(rt; matches!(calls.first.under, Under::Reader(_)));
    assert!(rt;
        matches!(
            calls.between,
            TriedFault::NotHeld(NotHeld::Busy { owner: 0, .. })
        )
    );
    assert_eq!(rt; reply_of(calls.behind), Some(granted));
}

/// The reply of a try.
fn reply_of(answer: TriedFault) -> Option<Reply> {
    match answer {
        TriedFault::Answered(entry) => Some(entry.reply),
        _ => None,
    }
}

#[test]
fn who_goes_on_holding_all_pages_hinders_a_fault(rt: HostRuntime) {
    for keeps in [true, false] {
        let calls = held_by(&rt, rt.alloc(), keeps, Holding::Maps, &[]);
        assert_eq!(rt; calls.first.reply, Reply::At(16 * PAGE));
        assert_eq!(rt; calls.second.reply, Reply::Zero);
        assert_eq!(rt;
            (calls.first.under, calls.second.under),
            (Under::Whole, Under::Whole)
        );
        assert!(rt;
            matches!(
                calls.between,
                TriedFault::NotHeld(NotHeld::Busy { owner: 0, .. })
            )
        );
        let gone = Reply::Refused(Why::MapErr(16));
        assert_eq!(rt; reply_of(calls.behind), Some(gone));
    }
}

#[test]
fn who_goes_on_holding_a_page_as_a_reader_hinders_no_fault(rt: HostRuntime) {
    let granted = Reply::Granted(PRIVATE.kind);
    for keeps in [true, false] {
        let calls = held_by(&rt, rt.alloc(), keeps, Holding::Reads, &[PRIVATE]);
        assert_eq!(rt; (calls.first.reply, calls.second.reply), (granted, granted));
        assert_eq!(rt; (calls.first.line, calls.second.line), (1, 2));
        assert_eq!(rt; reply_of(calls.between), Some(granted));
        assert_eq!(rt; reply_of(calls.behind), Some(granted));
    }
}

#[test]
fn a_try_beside_a_writer_is_answered_at_other_pages(rt: HostRuntime) {
    let alloc = rt.alloc();
    let start = PlainSpace::of_areas(alloc, &[SHARED]).expect(&rt, "an area list");
    let kind = SHARED.kind;
    let (space, mut callers) = open_crew(alloc, &[0, 3], &start).expect(&rt, "memory");
    let Ok(span) = Span::of(17 * PAGE, PAGE) else {
        panic!(rt; "a page");
    };
    let Ok(range) = Range::of(17, 18) else {
        panic!(rt; "a range");
    };
    let busy = NotHeld::Busy {
        owner: 0,
        range,
        mode: Mode::Writer,
    };
    let cases = [
        (16, Some(Reply::Granted(kind))),
        (17, None),
        (18, Some(Reply::Refused(Why::MapErr(18)))),
    ];
    for (page, reply) in cases {
        match try_beside(&rt, &space, callers.as_mut_slice(), span, page * PAGE) {
            TriedFault::Answered(entry) => assert_eq!(rt; Some(entry.reply), reply),
            TriedFault::NotHeld(why) => assert!(rt; reply.is_none() && why == busy),
            TriedFault::Spent => panic!(rt; "no number left"),
        }
    }
    let Ok(closed) = space.close(alloc, callers) else {
        panic!(rt; "memory");
    };
    assert_eq!(rt; closed.entries().len(), 2);
    assert!(rt; have_named_calls(closed.entries()));
    let illegal = legal(alloc, &start, closed.entries()).expect(&rt, "memory");
    assert_eq!(rt; illegal, None);
}
