//! Templates from their text to the rendered text.
use crate::shown::{all_give, faults};
use ha_sight::Env;
use state_table::StateTable;
use std::alloc::Global;

/// Whether each text is a template that renders as the other text, where no entity has a state.
fn give(alloc: Global, rows: &[(&str, &str)]) -> bool {
    all_give(alloc, &StateTable::make(alloc), &Env::none(alloc), rows)
}

/// Whether each text is a template whose meaning is a fault there.
fn fault(alloc: Global, texts: &[&str]) -> bool {
    let states = StateTable::make(alloc);
    for text in texts {
        if !faults(alloc, &states, &Env::none(alloc), text.as_bytes()) {
            return false;
        }
    }
    true
}

#[test]
fn arithmetic_is_rendered(rt: HostRuntime) {
    let alloc = rt.alloc();
    assert!(rt;
        give(
            alloc,
            &[
                ("{{ -7 // 2 }}", "-4"),
                ("{{ 7 // -2 }}", "-4"),
                ("{{ -7 % 3 }}", "2"),
                ("{{ 7 / 2 }}", "3.5"),
                ("{{ 10 / 3 }}", "3.333333"),
                ("{{ 6 / 2 }}", "3.0"),
            ]
        ) && fault(
            alloc,
            &["{{ 1000000000000 + 1 }}", "{{ 1 // 0 }}", "{{ 7 / 0 }}",]
        )
    );
}

#[test]
fn filters_are_rendered(rt: HostRuntime) {
    let alloc = rt.alloc();
    assert!(rt;
        give(
            alloc,
            &[
                ("{{ 2.5|round }}", "2"),
                ("{{ -7|abs }}", "7"),
                ("{{ states('sensor.no')|int(0) }}", "0"),
            ]
        ) && fault(alloc, &["{{ states('sensor.no')|int }}"])
    );
}

#[test]
fn each_filter_once(rt: HostRuntime) {
    assert!(rt;
        give(
            rt.alloc(),
            &[
                ("{{ '-2.7'|int }}", "-2"),
                ("{{ ' 3 '|float }}", "3.0"),
                ("{{ 2.345|round(1) }}", "2.3"),
                ("{{ -7.5|abs }}", "7.5"),
                ("{{ 'On'|lower }}", "on"),
                ("{{ 'On'|upper }}", "ON"),
                ("{{ '[' ~ ' a '|trim ~ ']' }}", "[a]"),
                ("{{ 'Tür'|length }}", "3"),
                ("{{ missing|default(1) }}", "1"),
                ("{{ [1, 2]|first }}", "1"),
                ("{{ [1, 2]|last }}", "2"),
                ("{{ 'aaa'|replace('aa', 'b') }}", "ba"),
                ("{{ 3.50|string }}", "3.5"),
                ("{{ '1e3'|is_number }}", "False"),
            ]
        )
    );
}

#[test]
fn each_function_of_values_once(rt: HostRuntime) {
    assert!(rt;
        give(
            rt.alloc(),
            &[
                ("{{ int('no', 0) }}", "0"),
                ("{{ float('1.5') }}", "1.5"),
                ("{{ min(2, 1.5) }}", "1.5"),
                ("{{ max([1, 2.5]) }}", "2.5"),
                ("{{ iif(true, 'yes', 'no') }}", "yes"),
                ("{{ is_number(3) }}", "True"),
            ]
        )
    );
}

#[test]
fn what_does_not_decide_is_not_computed(rt: HostRuntime) {
    let alloc = rt.alloc();
    assert!(rt;
        give(
            alloc,
            &[
                ("{{ true or 1 // 0 }}", "True"),
                ("{{ 0 and 1 // 0 }}", "0"),
                ("{{ 1 if true else 1 // 0 }}", "1"),
            ]
        ) && fault(alloc, &["{{ true and 1 // 0 }}"])
    );
}

#[test]
fn tags_are_rendered(rt: HostRuntime) {
    assert!(rt;
        give(
            rt.alloc(),
            &[
                ("{% if true %}{% set a = 1 %}{% endif %}{{ a }}", "1"),
                ("a {{- 'b' -}} c {# d #}", "abc"),
                ("{{ [1, 2, 3][-1] ~ 'x' }}", "3x"),
            ]
        )
    );
}

#[test]
fn a_name_that_is_set_again_has_its_last_value(rt: HostRuntime) {
    assert!(rt;
        give(
            rt.alloc(),
            &[
                (
                    "{% set m = 1 %}{% set m = m + 1 %}{% set m = m * 5 %}{{ m }}",
                    "10"
                ),
                (
                    "{% set m = 1 %}{% set n = 5 %}{% set m = 2 %}{{ m }} {{ n }}",
                    "2 5"
                ),
                (
                    "{% set m = 1 %}{% if m == 1 %}{% set m = 2 %}{% endif %}{{ m }}",
                    "2"
                ),
                (
                    "{% set m = 1 %}{% if false %}{% set m = 2 %}{% else %}{% set m = m + 6 %}{% set n = m %}{% endif %}{{ m }} {{ n }}",
                    "7 7"
                ),
            ]
        )
    );
}
