//! Overtaking, counted. A caller that waits is overtaken by each other seat once at most, behind its announcement; the
//! count has one more, of a grant before it that is counted late.
use crate::opened::open_seats;
use crate::stress::{Seen, take_all};
use std::sync::atomic::{AtomicU64, Ordering};

#[test]
fn each_of_three_others_overtakes_once_at_most(rt: HostRuntime) {
    let Some((table, mut seats)) = open_seats(rt.alloc(), 4) else {
        panic!(rt; "memory")
    };
    let seen = Seen {
        grants: AtomicU64::new(0),
        waits: AtomicU64::new(0),
        most: AtomicU64::new(0),
        lost: AtomicU64::new(0),
    };
    take_all(&rt, &table, seats.as_mut_slice(), &seen, 500);
    assert_eq!(rt; seen.lost.load(Ordering::SeqCst), 0);
    assert_eq!(rt; seen.grants.load(Ordering::SeqCst), 2000);
    assert!(rt; seen.waits.load(Ordering::SeqCst) > 0);
    let most = seen.most.load(Ordering::SeqCst);
    assert!(rt; most <= 4, "{most}");
}
