//! The words of the command line.
use ha_words::{Plan, RunWords, WordsFault, read_words};
use std::alloc::{AllocError, Global};

const START: &str = "2024-05-01T20:00:00Z";

/// These words, and those behind them.
fn words(alloc: Global, front: &[&str], behind: &[&str]) -> Result<Vec<String>, AllocError> {
    let mut words = Vec::new(alloc);
    for text in front {
        words.push(String::from_str(alloc, text)?)?;
    }
    for text in behind {
        words.push(String::from_str(alloc, text)?)?;
    }
    Ok(words)
}

/// What these words ask for.
fn read(alloc: Global, front: &[&str], behind: &[&str]) -> Result<Plan, WordsFault> {
    match words(alloc, front, behind) {
        Ok(list) => read_words(alloc, list.as_slice()),
        Err(_) => Err(WordsFault::Memory),
    }
}

/// Whether each of these is usage.
fn are_usage(alloc: Global, rows: &[&[&str]]) -> bool {
    for row in rows {
        if !matches!(read(alloc, row, &[]), Err(WordsFault::Usage)) {
            return false;
        }
    }
    true
}

/// What `run` asks for, with these words behind a configuration and a start.
fn read_run(alloc: Global, behind: &[&str]) -> Result<Plan, WordsFault> {
    read(alloc, &["run", "--config", "f", "--start", START], behind)
}

/// Whether `run` is usage with each of these behind a configuration and a start.
fn are_run_usage(alloc: Global, rows: &[&[&str]]) -> bool {
    for row in rows {
        if !matches!(read_run(alloc, row), Err(WordsFault::Usage)) {
            return false;
        }
    }
    true
}

/// A run of one source, by its words, with the source's name and the zone.
type RunRow<'a> = (&'a [&'a str], &'a str, &'a str);

/// Whether it is a run of one source of this name, in this zone, with the configuration `f`.
fn is_run_of(plan: &RunWords, source: &str, zone: &str) -> bool {
    match plan.sources.as_slice().first() {
        Some(found) => {
            plan.config.as_str() == "f"
                && found.as_str() == source
                && plan.zone.text() == zone.as_bytes()
        }
        None => false,
    }
}

fn is_run(alloc: Global, row: &RunRow<'_>) -> bool {
    match read(alloc, row.0, &[]) {
        Ok(Plan::Run(plan)) => is_run_of(&plan, row.1, row.2),
        _ => false,
    }
}

fn are_runs(alloc: Global, rows: &[RunRow<'_>]) -> bool {
    for row in rows {
        if !is_run(alloc, row) {
            return false;
        }
    }
    true
}

/// Whether these words ask for the check of this file.
fn is_check(alloc: Global, texts: &[&str], name: &str) -> bool {
    match read(alloc, texts, &[]) {
        Ok(Plan::Check(found)) => found.as_str() == name,
        _ => false,
    }
}

#[test]
fn options_stand_in_any_place(rt: HostRuntime) {
    assert!(rt;
        are_runs(
            rt.alloc(),
            &[
                (
                    &["run", "--config", "f", "--start", START, "s"],
                    "s",
                    "UTC",
                ),
                (
                    &["run", "stdin", "--start", START, "--config=f"],
                    "stdin",
                    "UTC",
                ),
                (
                    &[
                        "run",
                        "--zone=+02:00",
                        "--config",
                        "f",
                        "--start",
                        START,
                        "--",
                        "s",
                    ],
                    "s",
                    "+02:00",
                ),
            ]
        )
    );
}

#[test]
fn each_option_stands_once(rt: HostRuntime) {
    let alloc = rt.alloc();
    assert!(rt;
        are_run_usage(
            alloc,
            &[
                &["--config", "f", "s"],
                &["--zone", "UTC", "--zone", "UTC", "s"],
            ]
        ) && read_run(alloc, &["--zone", "UTC", "s"]).is_ok()
    );
}

#[test]
fn no_value_begins_with_a_hyphen(rt: HostRuntime) {
    let alloc = rt.alloc();
    assert!(rt;
        are_run_usage(alloc, &[&["--zone=-05:00", "s"], &["--", "-s"]])
            && are_usage(alloc, &[&["check", "-"]])
    );
}

/// Whether the file of the trace has this name, where one is asked for.
fn is_trace(plan: &RunWords, trace: Option<&str>) -> bool {
    match (&plan.trace, trace) {
        (Some(found), Some(name)) => found.as_str() == name,
        (None, None) => true,
        _ => false,
    }
}

/// Whether it is a run with so many sources, and a trace of this name where one is asked for.
fn is_traced(alloc: Global, row: &(&[&str], usize, Option<&str>)) -> bool {
    match read_run(alloc, row.0) {
        Ok(Plan::Run(plan)) => plan.sources.len() == row.1 && is_trace(&plan, row.2),
        _ => false,
    }
}

fn are_traced(alloc: Global, rows: &[(&[&str], usize, Option<&str>)]) -> bool {
    for row in rows {
        if !is_traced(alloc, row) {
            return false;
        }
    }
    true
}

#[test]
fn up_to_sixteen_sources_are_taken(rt: HostRuntime) {
    let alloc = rt.alloc();
    let most = [
        "a", "b", "c", "d", "e", "f", "g", "h", "i", "j", "k", "l", "m", "n", "o", "p",
    ];
    let more = [
        "a", "b", "c", "d", "e", "f", "g", "h", "i", "j", "k", "l", "m", "n", "o", "p", "q",
    ];
    assert!(rt;
        are_run_usage(alloc, &[&[], &more, &["--help", "s"]])
            && are_traced(alloc, &[(&["s", "t"], 2, None), (&most, 16, None)])
    );
}

#[test]
fn a_trace_may_be_named(rt: HostRuntime) {
    let alloc = rt.alloc();
    assert!(rt;
        are_traced(
            alloc,
            &[
                (&["--trace", "t", "s"], 1, Some("t")),
                (&["s", "--trace=t"], 1, Some("t")),
            ]
        ) && are_run_usage(
            alloc,
            &[
                &["--trace", "t", "--trace", "t", "s"],
                &["--trace", "-t", "s"],
            ]
        )
    );
}

#[test]
fn a_moment_and_a_zone_are_read(rt: HostRuntime) {
    let alloc = rt.alloc();
    assert!(rt;
        are_usage(
            alloc,
            &[&["run", "--config", "f", "--start", "yesterday", "s"]]
        ) && are_run_usage(alloc, &[&["--zone", "Berlin", "s"]])
            && are_runs(
                alloc,
                &[(
                    &[
                        "run", "--config", "f", "--start", START, "--zone", "<-05>5", "s",
                    ],
                    "s",
                    "<-05>5",
                )]
            )
    );
}

#[test]
fn check_takes_one_word(rt: HostRuntime) {
    let alloc = rt.alloc();
    assert!(rt;
        is_check(alloc, &["check", "home.yaml"], "home.yaml")
            && is_check(alloc, &["check", ""], "")
            && are_usage(alloc, &[&["check"], &["check", "a", "b"]])
    );
}

fn is_replay(alloc: Global, text: &str) -> bool {
    match read(alloc, &["replay", text], &[]) {
        Ok(Plan::Replay(found)) => found.as_str() == text,
        _ => false,
    }
}

#[test]
fn replay_takes_one_word(rt: HostRuntime) {
    let alloc = rt.alloc();
    assert!(rt; is_replay(alloc, "t") && are_usage(alloc, &[&["replay"], &["replay", "t", "u"]]));
}

fn is_rehearse(alloc: Global, text: &str, count: u32) -> bool {
    match read(alloc, &["rehearse", text], &[]) {
        Ok(Plan::Rehearse(lines)) => lines == count,
        _ => false,
    }
}

#[test]
fn rehearse_takes_a_number_of_lines(rt: HostRuntime) {
    let alloc = rt.alloc();
    assert!(rt;
        is_rehearse(alloc, "0", 0)
            && is_rehearse(alloc, "100000", 100_000)
            && are_usage(
                alloc,
                &[
                    &["rehearse", "100001"],
                    &["rehearse", "05"],
                    &["rehearse", "+5"],
                    &["rehearse", "5.0"],
                    &["rehearse", ""],
                    &["rehearse"],
                ]
            )
    );
}

#[test]
fn other_words_are_usage(rt: HostRuntime) {
    assert!(rt; are_usage(rt.alloc(), &[&[], &["walk"], &["--version"]]));
}
