//! Timers, as time passes.
use crate::home::Given::{Flag, Null, Text, Whole};
use crate::home::Step::{Call, Clock, With};
use crate::home::Wants::{Changes, Fails, Finish};
use crate::home::{goes, row, timed};

const T: &str = "timer.t";

const U: &str = "timer.u";

const Z: &str = "timer.z";

const STARTED: &str = "timer.started";

const RESTARTED: &str = "timer.restarted";

#[test]
fn timers_finish_as_configured(rt: HostRuntime) {
    let good = goes(
        rt.alloc(),
        &[
            row(
                Call("timer.start", &[U, T, U]),
                Changes(&[
                    timed(U, "active", Some(4000), STARTED),
                    timed(T, "active", Some(5000), STARTED),
                ]),
            ),
            row(Clock(3999), Finish(&[])),
            // the one that is configured later is due first
            row(Clock(9000), Finish(&[T, U])),
            // and none finishes again
            row(Clock(9001), Finish(&[])),
            row(Call("timer.cancel", &[T]), Changes(&[])),
            row(Call("timer.pause", &[T]), Changes(&[])),
            row(Call("timer.finish", &[T]), Changes(&[])),
        ],
    )
    .unwrap_or(false);
    assert!(rt; good);
}

#[test]
fn a_paused_timer_goes_on_with_its_rest(rt: HostRuntime) {
    let good = goes(
        rt.alloc(),
        &[
            row(
                Call("timer.start", &[T]),
                Changes(&[timed(T, "active", Some(5000), STARTED)]),
            ),
            row(Clock(3000), Finish(&[])),
            row(
                Call("timer.pause", &[T, U]),
                Changes(&[timed(T, "paused", Some(2000), "timer.paused")]),
            ),
            // it does not go on by itself, and is not paused again
            row(Clock(60_000), Finish(&[])),
            row(Call("timer.pause", &[T]), Changes(&[])),
            row(Call("timer.finish", &[T]), Changes(&[])),
            row(
                Call("timer.start", &[T]),
                Changes(&[timed(T, "active", Some(2000), RESTARTED)]),
            ),
            row(Clock(61_999), Finish(&[])),
            row(Clock(62_000), Finish(&[T])),
            // from idle it has its own span again
            row(
                Call("timer.start", &[T]),
                Changes(&[timed(T, "active", Some(5000), STARTED)]),
            ),
        ],
    )
    .unwrap_or(false);
    assert!(rt; good);
}

#[test]
fn an_active_timer_starts_anew(rt: HostRuntime) {
    let good = goes(
        rt.alloc(),
        &[
            row(
                Call("timer.start", &[T]),
                Changes(&[timed(T, "active", Some(5000), STARTED)]),
            ),
            row(Clock(4000), Finish(&[])),
            row(
                Call("timer.start", &[T]),
                Changes(&[timed(T, "active", Some(5000), RESTARTED)]),
            ),
            row(Clock(8999), Finish(&[])),
            row(Clock(9000), Finish(&[T])),
        ],
    )
    .unwrap_or(false);
    assert!(rt; good);
}

#[test]
fn a_timer_that_is_ended_does_not_finish(rt: HostRuntime) {
    let good = goes(
        rt.alloc(),
        &[
            row(
                Call("timer.start", &[T]),
                Changes(&[timed(T, "active", Some(5000), STARTED)]),
            ),
            row(
                Call("timer.cancel", &[T]),
                Changes(&[timed(T, "idle", None, "timer.cancelled")]),
            ),
            row(
                Call("timer.start", &[T]),
                Changes(&[timed(T, "active", Some(5000), STARTED)]),
            ),
            row(
                Call("timer.pause", &[T]),
                Changes(&[timed(T, "paused", Some(5000), "timer.paused")]),
            ),
            row(
                Call("timer.cancel", &[T]),
                Changes(&[timed(T, "idle", None, "timer.cancelled")]),
            ),
            row(
                Call("timer.start", &[T]),
                Changes(&[timed(T, "active", Some(5000), STARTED)]),
            ),
            row(
                Call("timer.finish", &[U, T]),
                Changes(&[timed(T, "idle", None, "timer.finished")]),
            ),
            row(Clock(60_000), Finish(&[])),
        ],
    )
    .unwrap_or(false);
    assert!(rt; good);
}

#[test]
fn a_timer_starts_with_the_span_of_its_call(rt: HostRuntime) {
    let start = "timer.start";
    let good = goes(
        rt.alloc(),
        &[
            row(
                With(start, &[U], "duration", Text("00:01")),
                Changes(&[timed(U, "active", Some(60_000), STARTED)]),
            ),
            row(
                With(start, &[U], "duration", Whole(90)),
                Changes(&[timed(U, "active", Some(90_000), RESTARTED)]),
            ),
            // a fault changes nothing
            row(With(start, &[U], "duration", Whole(-1)), Fails(4)),
            row(With(start, &[U], "duration", Whole(31_622_401)), Fails(4)),
            row(With(start, &[U], "duration", Text("never")), Fails(4)),
            row(With(start, &[U], "duration", Flag(true)), Fails(4)),
            row(With(start, &[U], "duration", Null), Fails(4)),
            row(Clock(89_999), Finish(&[])),
            row(Clock(90_000), Finish(&[U])),
            row(
                Call(start, &[U]),
                Changes(&[timed(U, "active", Some(4000), STARTED)]),
            ),
        ],
    )
    .unwrap_or(false);
    assert!(rt; good);
}

#[test]
fn a_timer_of_no_time_waits_for_a_moment(rt: HostRuntime) {
    let good = goes(
        rt.alloc(),
        &[
            row(Clock(7000), Finish(&[])),
            row(
                Call("timer.start", &[Z]),
                Changes(&[timed(Z, "active", Some(0), STARTED)]),
            ),
            row(
                Call("timer.pause", &[Z]),
                Changes(&[timed(Z, "paused", Some(0), "timer.paused")]),
            ),
            row(
                Call("timer.start", &[Z]),
                Changes(&[timed(Z, "active", Some(0), RESTARTED)]),
            ),
            // the same moment once more
            row(Clock(7000), Finish(&[Z])),
            row(Clock(7000), Finish(&[])),
        ],
    )
    .unwrap_or(false);
    assert!(rt; good);
}
