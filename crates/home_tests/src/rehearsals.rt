//! The command `rehearse`, over the engine.
use crate::day::Fact::{Errors, Output, Well};
use crate::day::words_end;
use crate::files::PLAIN;
use std::alloc::Global;
use std::process::Abort;
use std::sync::Wait;
use std::thread::Threads;

/// Whether a rehearsal of each of these numbers of lines ends well and tells this.
fn are_told<R: Abort + Threads + Wait + Sync + Alloc<A = Global>>(
    rt: &R,
    rows: &[(&str, &str)],
) -> bool {
    for row in rows {
        let facts = [Well, Output(row.1), Errors("")];
        if !words_end(rt, &["rehearse", row.0], &[], &[], &PLAIN, &facts) {
            return false;
        }
    }
    true
}

/// The counts of the long one were reckoned from the rules of its home, apart from the program.
#[test]
fn rehearsed_lines_are_counted(rt: HostRuntime) {
    assert!(rt;
        are_told(
            &rt,
            &[
                ("0", "lines 0\nentries 1\nruns 0\ncalls 0\n"),
                ("5", "lines 5\nentries 20\nruns 3\ncalls 6\n"),
                (
                    "20000",
                    "lines 20000\nentries 68001\nruns 10000\ncalls 20000\n"
                ),
            ]
        )
    );
}
