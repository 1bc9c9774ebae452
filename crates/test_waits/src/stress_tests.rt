//! What four threads count at one range. A writer counts for more than all readers together, so more than one writer's
//! count says that somebody was beside a writer.
use crate::stress::{Plan, Seen, WRITER, Way, play};
use std::process::Abort;
use std::sync::atomic::Ordering;

/// All these turns came, and nobody was beside a writer.
fn all_came_alone(rt: &impl Abort, seen: &Seen, turns: u64) {
    assert_eq!(rt; seen.turns.load(Ordering::SeqCst), turns);
    assert_eq!(rt; seen.lost.load(Ordering::SeqCst), 0);
    assert_eq!(rt; seen.inside.load(Ordering::SeqCst), 0);
    assert_eq!(rt; seen.most.load(Ordering::SeqCst), WRITER);
}

#[test]
fn writers_that_sleep_are_alone_and_all_come(rt: HostRuntime) {
    let plan = Plan {
        way: Way::Sleeps,
        turns: 500,
        pauses: 2,
        readers: false,
    };
    let seen = play(&rt, rt.alloc(), plan);
    all_came_alone(&rt, &seen, 2000);
}

#[test]
fn writers_that_never_sleep_are_alone_and_all_come(rt: HostRuntime) {
    let plan = Plan {
        way: Way::Tries,
        turns: 500,
        pauses: 2,
        readers: false,
    };
    let seen = play(&rt, rt.alloc(), plan);
    all_came_alone(&rt, &seen, 2000);
    assert_eq!(rt; seen.woke.load(Ordering::SeqCst), 0);
}

#[test]
fn no_reader_is_beside_a_writer(rt: HostRuntime) {
    let plan = Plan {
        way: Way::Sleeps,
        turns: 500,
        pauses: 2,
        readers: true,
    };
    let seen = play(&rt, rt.alloc(), plan);
    all_came_alone(&rt, &seen, 2000);
}

#[test]
fn a_long_hold_ends_with_sleepers_woken(rt: HostRuntime) {
    let plan = Plan {
        way: Way::Sleeps,
        turns: 5,
        pauses: 100,
        readers: false,
    };
    let seen = play(&rt, rt.alloc(), plan);
    all_came_alone(&rt, &seen, 20);
    assert!(rt; seen.woke.load(Ordering::SeqCst) > 0);
}
