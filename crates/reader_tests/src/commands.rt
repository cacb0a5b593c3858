//! Commands and printed values. What is wanted stands in the formats' own words.
use flow_line::{print_value, read_cmd, read_value};
use ha_config::Cmd;
use ha_value::{EntityId, Many, Plain, Value, Word};
use std::alloc::{AllocError, Global};

/// Whether the line is refused with this code, or is a command where it is 0.
fn is_refused(alloc: Global, line: &[u8], code: u8) -> bool {
    match read_cmd(alloc, line) {
        Ok(Cmd::Refused(found)) => found == code,
        Ok(_) => code == 0,
        Err(_) => false,
    }
}

fn are_refused(alloc: Global, rows: &[(&str, u8)]) -> bool {
    for row in rows {
        if !is_refused(alloc, row.0.as_bytes(), row.1) {
            return false;
        }
    }
    true
}

#[test]
fn each_refusal_has_its_code(rt: HostRuntime) {
    assert!(rt;
        are_refused(
            rt.alloc(),
            &[
                ("{\"report\":\"light.x\"}", 4),
                ("{\"dim\":\"light.x\"}", 3),
                ("{\"report\":\"Light\",\"state\":\"on\"}", 6),
                ("{\"report\":\"light.x\",\"state\":5}", 5),
                ("{\"moment\":\"yesterday\"}", 8),
                ("{\"trigger\":\"automation.none\"}", 0),
                ("{\"report\":\"light.x\"", 2),
                ("{\"restart\":true} ", 2),
                ("[]", 2),
                ("{\"restart\":false}", 5),
                ("{\"restart\":true,\"gone\":\"light.x\"}", 3),
                ("{\"restart\":true,\"to\":\"on\"}", 4),
                ("{\"gone\":\"automation.a\"}", 6),
                ("{\"switch\":\"light.a\",\"to\":\"on\"}", 6),
                ("{\"switch\":\"automation.a\",\"to\":\"On\"}", 5),
                ("{\"reload\":\"[]\"}", 0),
                ("{\"reload\":\"\\tx\"}", 0),
                ("{\"reload\":5}", 5),
                ("{\"reload\":null}", 5),
                ("{\"reload\":[\"[]\"]}", 5),
                ("{\"reload\":\"[]\",\"to\":\"on\"}", 4),
                ("{\"reload\":\"[]\",\"restart\":true}", 3),
            ]
        ) && is_refused(rt.alloc(), b"\xff", 1)
    );
}

/// A report of a state of so many characters.
fn long_state(alloc: Global, count: usize) -> Result<String, AllocError> {
    let mut line = String::from_str(alloc, "{\"report\":\"light.x\",\"state\":\"")?;
    for _i in 0..count {
        line.push_str("x")?;
    }
    line.push_str("\"}")?;
    Ok(line)
}

/// Whether a state of so many characters has this code.
fn has_code(alloc: Global, count: usize, code: u8) -> bool {
    match long_state(alloc, count) {
        Ok(line) => is_refused(alloc, line.as_bytes(), code),
        Err(_) => false,
    }
}

/// Whether a line of so many characters has this code.
fn is_too_long(alloc: Global, count: usize, code: u8) -> bool {
    let mut line = Vec::new(alloc);
    for _i in 0..count {
        if line.push(b'x').is_err() {
            return false;
        }
    }
    is_refused(alloc, line.as_slice(), code)
}

#[test]
fn long_states_and_lines_are_refused(rt: HostRuntime) {
    let alloc = rt.alloc();
    assert!(rt;
        has_code(alloc, 255, 0)
            && has_code(alloc, 256, 7)
            && is_too_long(alloc, 65_537, 10)
            && is_too_long(alloc, 65_536, 2)
    );
}

/// Whether a reload in a line of so many characters has this code.
fn is_long_reload(alloc: Global, count: usize, code: u8) -> bool {
    match reload_of(alloc, count) {
        Ok(line) => is_refused(alloc, line.as_bytes(), code),
        Err(_) => false,
    }
}

/// A reload's line of so many characters, at least 13.
fn reload_of(alloc: Global, count: usize) -> Result<String, AllocError> {
    let mut line = String::from_str(alloc, "{\"reload\":\"")?;
    for _i in 13..count {
        line.push_str("x")?;
    }
    line.push_str("\"}")?;
    Ok(line)
}

/// The text is read where the line is put, and not before.
#[test]
fn the_longest_reload_is_read(rt: HostRuntime) {
    let alloc = rt.alloc();
    assert!(rt; is_long_reload(alloc, 65_536, 0) && is_long_reload(alloc, 65_537, 10));
}

/// An event whose data has so many lists in one another. They stand in two maps, that of the line and that of the data.
fn nested(alloc: Global, lists: usize) -> Result<String, AllocError> {
    let mut line = String::from_str(alloc, "{\"event\":\"x\",\"data\":{\"a\":")?;
    for _i in 0..lists {
        line.push_str("[")?;
    }
    for _i in 0..lists {
        line.push_str("]")?;
    }
    line.push_str("}}")?;
    Ok(line)
}

/// Whether an event with so many lists has this code.
fn is_nested(alloc: Global, lists: usize, code: u8) -> bool {
    match nested(alloc, lists) {
        Ok(line) => is_refused(alloc, line.as_bytes(), code),
        Err(_) => false,
    }
}

#[test]
fn thirty_two_brackets_stand_in_one_another(rt: HostRuntime) {
    let alloc = rt.alloc();
    assert!(rt; is_nested(alloc, 30, 0) && is_nested(alloc, 31, 2));
}

/// Appends the printed pairs.
fn push_pairs(
    alloc: Global,
    said: &mut String,
    pairs: &Many<(Word, Value)>,
) -> Result<(), AllocError> {
    let value = Value::Pairs(pairs.copy(alloc)?);
    push_value(alloc, said, &value)
}

fn push_value(alloc: Global, said: &mut String, value: &Value) -> Result<(), AllocError> {
    let shown = print_value(alloc, value)?;
    said.push_str(shown.as_str())
}

/// Appends a word and a blank.
fn push_word(said: &mut String, word: &str) -> Result<(), AllocError> {
    said.push_str(word)?;
    said.push_str(" ")
}

fn push_entity(alloc: Global, said: &mut String, entity: &EntityId) -> Result<(), AllocError> {
    let id = entity.print(alloc)?;
    push_word(said, id.as_str())
}

fn push_flag(said: &mut String, flag: bool) -> Result<(), AllocError> {
    push_word(said, if flag { "true" } else { "false" })
}

/// Appends the words of a report.
fn push_report(
    alloc: Global,
    said: &mut String,
    entity: &EntityId,
    text: &Word,
    attributes: &Many<(Word, Value)>,
) -> Result<(), AllocError> {
    push_word(said, "report")?;
    push_entity(alloc, said, entity)?;
    push_word(said, text.as_str())?;
    push_pairs(alloc, said, attributes)
}

fn push_event(
    alloc: Global,
    said: &mut String,
    kind: &Word,
    pairs: &Many<(Word, Value)>,
) -> Result<(), AllocError> {
    push_word(said, "event")?;
    push_word(said, kind.as_str())?;
    push_pairs(alloc, said, pairs)
}

/// Appends a word, a name and two flags.
fn push_named(
    said: &mut String,
    word: &str,
    name: &Word,
    first: bool,
    second: bool,
) -> Result<(), AllocError> {
    push_word(said, word)?;
    push_word(said, name.as_str())?;
    push_flag(said, first)?;
    push_flag(said, second)
}

/// Appends the parts of a command: its kind, and what it holds.
fn push_cmd(alloc: Global, said: &mut String, cmd: &Cmd) -> Result<(), AllocError> {
    match cmd {
        Cmd::Report {
            entity,
            text,
            attributes,
        } => push_report(alloc, said, entity, text, attributes),
        Cmd::Gone { entity } => {
            push_word(said, "gone")?;
            push_entity(alloc, said, entity)
        }
        Cmd::Event { kind, pairs } => push_event(alloc, said, kind, pairs),
        Cmd::Switch { name, on, stop } => push_named(said, "switch", name, *on, *stop),
        Cmd::Trigger { name, skip } => push_named(said, "trigger", name, *skip, *skip),
        Cmd::Restart => push_word(said, "restart"),
        _ => Ok(()),
    }
}

/// Whether a command has these parts.
fn has_parts(alloc: Global, cmd: &Cmd, wanted: &str) -> Result<bool, AllocError> {
    let mut said = String::new(alloc);
    push_cmd(alloc, &mut said, cmd)?;
    Ok(said.as_str() == wanted)
}

/// Whether a line is a command of these parts.
fn is_command(alloc: Global, line: &str, wanted: &str) -> bool {
    match read_cmd(alloc, line.as_bytes()) {
        Ok(cmd) => has_parts(alloc, &cmd, wanted) == Ok(true),
        Err(_) => false,
    }
}

fn are_commands(alloc: Global, rows: &[(&str, &str)]) -> bool {
    for row in rows {
        if !is_command(alloc, row.0, row.1) {
            return false;
        }
    }
    true
}

/// The milliseconds of a moment.
fn millis_of(cmd: &Cmd) -> Option<u64> {
    match cmd {
        Cmd::Moment(at) => Some(at.millis()),
        _ => None,
    }
}

/// Whether a line is the moment of so many milliseconds.
fn is_moment(alloc: Global, line: &str, millis: u64) -> bool {
    match read_cmd(alloc, line.as_bytes()) {
        Ok(cmd) => millis_of(&cmd) == Some(millis),
        Err(_) => false,
    }
}

#[test]
fn each_command_is_read_with_its_keys_in_any_order(rt: HostRuntime) {
    let alloc = rt.alloc();
    assert!(rt;
        are_commands(
            alloc,
            &[
                (
                    "{\"report\":\"light.x\",\"state\":\"on\",\"attributes\":{\"b\":1}}",
                    "report light.x on {\"b\":1}",
                ),
                (
                    "{ \"attributes\" : {\"b\":1} , \"state\":\"on\", \"report\":\"light.x\" }",
                    "report light.x on {\"b\":1}",
                ),
                (
                    "{\"state\":\"\",\"report\":\"light.x\"}",
                    "report light.x  {}",
                ),
                ("{\"gone\":\"light.x\"}", "gone light.x "),
                (
                    "{\"event\":\"go\",\"data\":{\"n\":1}}",
                    "event go {\"n\":1}",
                ),
                (
                    "{\"data\":{\"n\":1},\"event\":\"go\"}",
                    "event go {\"n\":1}",
                ),
                ("{\"event\":\"go\"}", "event go {}"),
                (
                    "{\"switch\":\"automation.a\",\"to\":\"off\",\"stop_actions\":false}",
                    "switch a false false ",
                ),
                (
                    "{\"stop_actions\":false,\"to\":\"off\",\"switch\":\"automation.a\"}",
                    "switch a false false ",
                ),
                (
                    "{\"switch\":\"automation.a\",\"to\":\"on\"}",
                    "switch a true true ",
                ),
                ("{\"trigger\":\"automation.b\"}", "trigger b true true "),
                (
                    "{\"skip_condition\":false,\"trigger\":\"automation.b\"}",
                    "trigger b false false ",
                ),
                ("{\"restart\":true}", "restart "),
            ]
        ) && is_moment(alloc, "{\"moment\":\"1970-01-01T00:00:01.5Z\"}", 1500)
    );
}

/// Whether a short text is a value that is printed so.
fn is_printed(alloc: Global, text: &str, wanted: &str) -> bool {
    if text.len() > 1000 {
        return false;
    }
    match read_value(alloc, text.as_bytes()) {
        Ok(value) => match print_value(alloc, &value) {
            Ok(shown) => shown.as_str() == wanted,
            Err(_) => false,
        },
        Err(_) => false,
    }
}

fn are_printed(alloc: Global, rows: &[(&str, &str)]) -> bool {
    for row in rows {
        if !is_printed(alloc, row.0, row.1) {
            return false;
        }
    }
    true
}

#[test]
fn values_are_printed_without_blanks(rt: HostRuntime) {
    assert!(rt;
        are_printed(
            rt.alloc(),
            &[
                (
                    "{\"b\" : [ 1 , 2.50 ,-0, null],\t\"a\":{ } }",
                    "{\"b\":[1,2.5,0,null],\"a\":{}}",
                ),
                (
                    "\"\\u0022\\\\\\/\\b\\f\\n\\r\\t\\u001F\\u007f\"",
                    "\"\\\"\\\\/\\u0008\\u000c\\n\\r\\t\\u001f\u{7f}\"",
                ),
                ("\"\\ud83d\\ude00 \u{e9}\"", "\"\u{1f600} \u{e9}\""),
                ("[true,false,3.0,+5,\"\"]", "[true,false,3.0,5,\"\"]"),
            ]
        )
    );
}
