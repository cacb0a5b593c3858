//! What a call changes, and where it fails.
use crate::home::Given::{Flag, Null, Text, Whole};
use crate::home::Step::{Call, With};
use crate::home::Wants::{Changes, Fails, Outer};
use crate::home::{begins, goes, row, told};

const WIDE: &str = "counter.wide";

const NARROW: &str = "counter.narrow";

const FLAG: &str = "input_boolean.a";

#[test]
fn helpers_begin_with_their_texts(rt: HostRuntime) {
    let texts = [
        (FLAG, "on"),
        (WIDE, "4"),
        (NARROW, "1"),
        ("timer.t", "idle"),
    ];
    assert!(rt;
        begins(
            rt.alloc(),
            &texts,
            &["counter.none", "timer.wide", "light.a"]
        )
        .unwrap_or(false)
    );
}

#[test]
fn a_flag_is_turned(rt: HostRuntime) {
    let good = goes(
        rt.alloc(),
        &[
            row(
                Call("input_boolean.toggle", &[FLAG]),
                Changes(&[told(FLAG, "off")]),
            ),
            row(
                Call("input_boolean.toggle", &[FLAG]),
                Changes(&[told(FLAG, "on")]),
            ),
            // on again: a change all the same
            row(
                Call("input_boolean.turn_on", &[FLAG]),
                Changes(&[told(FLAG, "on")]),
            ),
            // named twice, it is changed once
            row(
                Call("input_boolean.turn_off", &[FLAG, FLAG]),
                Changes(&[told(FLAG, "off")]),
            ),
        ],
    )
    .unwrap_or(false);
    assert!(rt; good);
}

#[test]
fn a_counter_stays_within_its_bounds(rt: HostRuntime) {
    let good = goes(
        rt.alloc(),
        &[
            row(
                Call("counter.increment", &[WIDE]),
                Changes(&[told(WIDE, "5")]),
            ),
            // in the order of the targets
            row(
                Call("counter.increment", &[NARROW, WIDE, NARROW]),
                Changes(&[told(NARROW, "2"), told(WIDE, "5")]),
            ),
            row(
                Call("counter.decrement", &[WIDE]),
                Changes(&[told(WIDE, "3")]),
            ),
            row(
                Call("counter.decrement", &[WIDE]),
                Changes(&[told(WIDE, "1")]),
            ),
            row(
                Call("counter.decrement", &[WIDE]),
                Changes(&[told(WIDE, "0")]),
            ),
            row(Call("counter.reset", &[WIDE]), Changes(&[told(WIDE, "4")])),
        ],
    )
    .unwrap_or(false);
    assert!(rt; good);
}

#[test]
fn a_value_out_of_bounds_changes_nothing(rt: HostRuntime) {
    let set = "counter.set_value";
    let good = goes(
        rt.alloc(),
        &[
            row(
                With(set, &[WIDE], "value", Whole(3)),
                Changes(&[told(WIDE, "3")]),
            ),
            // 3 is within the bounds of one of the two
            row(With(set, &[WIDE, NARROW], "value", Whole(3)), Fails(7)),
            row(With(set, &[WIDE], "value", Whole(-1)), Fails(7)),
            row(With(set, &[WIDE], "value", Whole(6)), Fails(7)),
            row(
                With(set, &[WIDE], "value", Whole(0)),
                Changes(&[told(WIDE, "0")]),
            ),
            row(
                Call("counter.increment", &[WIDE]),
                Changes(&[told(WIDE, "2")]),
            ),
        ],
    )
    .unwrap_or(false);
    assert!(rt; good);
}

#[test]
fn a_value_is_a_whole_number(rt: HostRuntime) {
    let set = "counter.set_value";
    let good = goes(
        rt.alloc(),
        &[
            row(Call(set, &[WIDE]), Fails(7)),
            row(With(set, &[WIDE], "number", Whole(2)), Fails(7)),
            row(With(set, &[WIDE], "value", Text("2")), Fails(7)),
            row(With(set, &[WIDE], "value", Flag(true)), Fails(7)),
            row(With(set, &[WIDE], "value", Null), Fails(7)),
            row(
                Call("counter.increment", &[WIDE]),
                Changes(&[told(WIDE, "5")]),
            ),
        ],
    )
    .unwrap_or(false);
    assert!(rt; good);
}

#[test]
fn other_calls_go_out(rt: HostRuntime) {
    let good = goes(
        rt.alloc(),
        &[
            row(Call("light.turn_on", &["light.a"]), Outer),
            row(Call("counter.configure", &[WIDE]), Outer),
            row(Call("script.turn_on", &[FLAG]), Outer),
            // of another domain, or not configured: passed over
            row(
                Call("counter.increment", &[FLAG, "counter.none"]),
                Changes(&[]),
            ),
        ],
    )
    .unwrap_or(false);
    assert!(rt; good);
}
