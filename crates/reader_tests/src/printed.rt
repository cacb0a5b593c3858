//! Printed commands, and lines of a trace: each is read of exactly its bytes.
use flow_printed::{read_line, read_printed};
use ha_config::Cmd;
use ha_value::Word;
use std::alloc::{AllocError, Global};

fn kind(cmd: &Cmd) -> &'static str {
    match cmd {
        Cmd::Report { .. } => "report",
        Cmd::Gone { .. } => "gone",
        Cmd::Event { .. } => "event",
        Cmd::Moment(_) => "moment",
        Cmd::Switch { .. } => "switch",
        Cmd::Trigger { .. } => "trigger",
        Cmd::Restart => "restart",
        Cmd::Reload { .. } => "reload",
        Cmd::Refused(_) => "refused",
        Cmd::Lost => "lost",
        Cmd::TooLong => "too long",
    }
}

/// Whether a text is the print of a command of this kind, or of none.
fn is_print(alloc: Global, text: &[u8], wanted: &str) -> bool {
    if text.len() > 100_000 {
        return false;
    }
    let mut shown = Word::new(alloc);
    match read_printed(alloc, text, &mut shown) {
        Ok(Some(cmd)) => kind(&cmd) == wanted,
        Ok(None) => wanted == "none",
        Err(_) => false,
    }
}

fn are_prints(alloc: Global, rows: &[(&str, &str)]) -> bool {
    for row in rows {
        if !is_print(alloc, row.0.as_bytes(), row.1) {
            return false;
        }
    }
    true
}

#[test]
fn each_kind_is_read_of_its_print(rt: HostRuntime) {
    assert!(rt;
        are_prints(
            rt.alloc(),
            &[
                (
                    "{\"report\":\"light.x\",\"state\":\"on\",\"attributes\":{\"b\":[1,-2.5]}}",
                    "report",
                ),
                (
                    "{\"report\":\"light.x\",\"state\":\"on\",\"attributes\":{}}",
                    "report",
                ),
                (
                    "{\"report\":\"light.x\",\"state\":\"a\\\"b\",\"attributes\":{}}",
                    "report",
                ),
                ("{\"gone\":\"light.x\"}", "gone"),
                ("{\"event\":\"a\\nb\",\"data\":{}}", "event"),
                ("{\"moment\":\"2024-05-01T20:00:01.000Z\"}", "moment"),
                (
                    "{\"switch\":\"automation.a\",\"to\":\"off\",\"stop_actions\":true}",
                    "switch",
                ),
                (
                    "{\"trigger\":\"automation.none\",\"skip_condition\":false}",
                    "trigger",
                ),
                ("{\"restart\":true}", "restart"),
                ("{\"reload\":\"automation: []\\n\"}", "reload"),
                ("{\"reload\":\"\\tx\"}", "reload"),
                ("{\"refused\":\"L9\"}", "refused"),
                ("{\"refused\":\"L10\"}", "refused"),
                ("{\"refused\":\"L12\"}", "refused"),
                ("{\"refused\":\"L13\"}", "refused"),
                ("{\"refused\":\"L14\"}", "refused"),
                ("{\"lost\":true}", "lost"),
                ("{\"too_long\":true}", "too long"),
            ]
        )
    );
}

fn are_no_prints(alloc: Global, texts: &[&str]) -> bool {
    for text in texts {
        if !is_print(alloc, text.as_bytes(), "none") {
            return false;
        }
    }
    true
}

#[test]
fn no_other_text_is_read(rt: HostRuntime) {
    assert!(rt;
        are_no_prints(
            rt.alloc(),
            &[
                "",
                "{}",
                "[]",
                "{\"report\":\"light.x\",\"state\":\"on\"}",
                "{\"state\":\"on\",\"report\":\"light.x\",\"attributes\":{}}",
                "{\"report\":\"light.x\",\"state\":\"on\", \"attributes\":{}}",
                "{\"report\":\"light.x\",\"state\":\"on\",\"attributes\":{\"b\":2.50}}",
                "{\"report\":\"light.x\",\"state\":\"on\",\"attributes\":{\"b\":1,\"b\":1}}",
                "{\"report\":\"light.x\",\"state\":\"a\\u0062\",\"attributes\":{}}",
                "{\"report\":\"automation.x\",\"state\":\"on\",\"attributes\":{}}",
                "{\"gone\":\"light.x\",\"state\":\"on\"}",
                "{\"gone\":\"Light.x\"}",
                "{\"event\":\"\\u0061\",\"data\":{}}",
                "{\"moment\":\"2024-05-01T20:00:01Z\"}",
                "{\"moment\":\"3000-01-01T00:00:00.000Z\"}",
                "{\"switch\":\"automation.a\",\"to\":\"off\"}",
                "{\"switch\":\"light.a\",\"to\":\"off\",\"stop_actions\":true}",
                "{\"trigger\":\"automation.a\"}",
                "{\"restart\":false}",
                "{\"restart\":true}\n",
                "{\"reload\":5}",
                "{\"reload\":\"\\u005b]\"}",
                "{\"reload\":\"[]\",\"to\":\"on\"}",
                "{\"refused\":\"L0\"}",
                "{\"refused\":\"L01\"}",
                "{\"refused\":\"L11\"}",
                "{\"refused\":\"L15\"}",
                "{\"lost\":true,\"too_long\":true}",
            ]
        )
    );
}

/// The print of an event of a type of so many characters.
fn long_event(alloc: Global, count: usize) -> Result<String, AllocError> {
    let mut text = String::from_str(alloc, "{\"event\":\"")?;
    for _i in 0..count {
        text.push_str("x")?;
    }
    text.push_str("\",\"data\":{}}")?;
    Ok(text)
}

/// Whether the print of an event of a type of so many characters is read.
fn is_event(alloc: Global, count: usize) -> bool {
    match long_event(alloc, count) {
        Ok(text) => is_print(alloc, text.as_bytes(), "event"),
        Err(_) => false,
    }
}

#[test]
fn a_print_may_be_longer_than_a_line(rt: HostRuntime) {
    assert!(rt; is_event(rt.alloc(), 70_000));
}

/// Whether the text is a line with this source, this number and a command of this kind.
fn is_line(alloc: Global, text: &str, source: u32, number: u64, wanted: &str) -> bool {
    if text.len() > 1000 {
        return false;
    }
    let mut shown = Word::new(alloc);
    match read_line(alloc, text.as_bytes(), &mut shown) {
        Ok(Some(line)) => {
            line.source == source && line.number == number && kind(&line.cmd) == wanted
        }
        _ => false,
    }
}

#[test]
fn a_line_is_read_with_its_numbers(rt: HostRuntime) {
    let alloc = rt.alloc();
    assert!(rt;
        is_line(
            alloc,
            "{\"source\":0,\"number\":0,\"cmd\":{\"restart\":true}}",
            0,
            0,
            "restart"
        ) && is_line(
            alloc,
            "{\"source\":15,\"number\":18446744073709551615,\"cmd\":{\"lost\":true}}",
            15,
            18_446_744_073_709_551_615,
            "lost"
        )
    );
}

/// Whether none of the texts is a line.
fn are_no_lines(alloc: Global, texts: &[&str]) -> bool {
    let mut shown = Word::new(alloc);
    for text in texts {
        if text.len() > 1000 || !matches!(read_line(alloc, text.as_bytes(), &mut shown), Ok(None)) {
            return false;
        }
    }
    true
}

#[test]
fn no_other_line_is_read(rt: HostRuntime) {
    assert!(rt;
        are_no_lines(
            rt.alloc(),
            &[
                "{\"source\":0,\"number\":18446744073709551616,\"cmd\":{\"lost\":true}}",
                "{\"source\":4294967296,\"number\":0,\"cmd\":{\"lost\":true}}",
                "{\"source\":00,\"number\":0,\"cmd\":{\"lost\":true}}",
                "{\"source\":+1,\"number\":0,\"cmd\":{\"lost\":true}}",
                "{\"number\":0,\"source\":0,\"cmd\":{\"lost\":true}}",
                "{\"source\":0,\"number\":0,\"cmd\":{\"lost\":true}",
                "{\"source\":0,\"number\":0,\"cmd\":{\"lost\":true}} ",
                "{\"end\":2}",
            ]
        )
    );
}
