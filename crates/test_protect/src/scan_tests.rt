//! A worked case of a fault beside an open scan. What the test expects is reckoned by hand, never taken from the
//! program.
use crate::scanning::try_beside_scan;
use page_fault::TriedFault;
use page_types::{Kind, Prot, Reply};
use range_rw::Scanned;
use space_model::{Area, PlainSpace, have_named_kinds};
use test_crews::open_crew;

#[test]
fn an_open_scan_hinders_no_fault(rt: HostRuntime) {
    let alloc = rt.alloc();
    let kind = Kind {
        prot: Prot::READ | Prot::WRITE,
        shared: false,
        sealed: false,
    };
    let areas = [Area {
        lo: 16,
        hi: 17,
        kind,
    }];
    assert!(rt; have_named_kinds(&areas));
    let start = PlainSpace::of_areas(alloc, &areas).expect(&rt, "an area list");
    let (space, mut callers) = open_crew(alloc, &[0, 1, 0], &start).expect(&rt, "memory");
    let (answer, scanned) = try_beside_scan(&space, callers.as_mut_slice(), 0x10000);
    let TriedFault::Answered(entry) = answer else {
        panic!(rt; "the fault has no entry");
    };
    assert_eq!(rt; entry.reply, Reply::Granted(kind));
    assert_eq!(rt; entry.worker, 1);
    assert_eq!(rt; scanned, Scanned::End);
    let Ok(closed) = space.close(alloc, callers) else {
        panic!(rt; "memory");
    };
    assert_eq!(rt; closed.entries(), [entry].as_slice());
}
