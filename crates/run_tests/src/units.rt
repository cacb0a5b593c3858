//! Runs of two units in one table: an automation, and a script that it calls.
use ha_config::Mode;
use ha_model::{EndCause, Record};
use ha_sight::Env;
use run_modes::{Admission, Runs};
use std::alloc::{AllocError, Global};

const CALLER: u32 = 0;

const SCRIPT: u32 = 7;

/// What is wanted of a run: its unit, its number there, where it began, and where and how it ended.
type Wanted = (u32, u64, Option<u64>, Option<(u64, EndCause)>);

fn is(run: &Record, wanted: &Wanted) -> bool {
    run.automation == wanted.0
        && run.number == wanted.1
        && run.begin == wanted.2
        && run.end == wanted.3
}

/// Whether the records are these, in order.
fn are(records: &[Record], wanted: &[Wanted]) -> bool {
    if records.len() != wanted.len() {
        return false;
    }
    for at in 0..wanted.len() {
        if !is(&records[at], &wanted[at]) {
            return false;
        }
    }
    true
}

/// A run of the automation, which calls the script at the entry behind its own; both have this number.
fn call(
    alloc: Global,
    runs: &mut Runs,
    mode: Mode,
    place: u64,
    behind: u64,
    number: u64,
) -> Result<(), AllocError> {
    let _ = runs.attempt(
        CALLER,
        Mode::Parallel,
        10,
        place,
        0,
        number,
        Env::none(alloc),
    )?;
    let _ = runs.attempt(SCRIPT, mode, 10, behind, 0, number, Env::none(alloc))?;
    Ok(())
}

/// The runs after two such calls.
fn called(alloc: Global, mode: Mode) -> Result<Runs, AllocError> {
    let mut runs = Runs::make(alloc);
    call(alloc, &mut runs, mode, 1, 2, 1)?;
    call(alloc, &mut runs, mode, 3, 4, 2)?;
    Ok(runs)
}

/// The one that waits for its begin ends too, and the callers go on.
fn halted(alloc: Global) -> Result<bool, AllocError> {
    let mut runs = called(alloc, Mode::Queued)?;
    runs.stop_all(Some(SCRIPT), 5, EndCause::SwitchedOff);
    let told = runs.attempt(SCRIPT, Mode::Queued, 10, 6, 0, 3, Env::none(alloc))?;
    let end = Some((5, EndCause::SwitchedOff));
    Ok(
        told == Admission::Begun(5)
            && are(
                runs.list(),
                &[
                    (CALLER, 1, Some(1), None),
                    (SCRIPT, 1, Some(2), end),
                    (CALLER, 2, Some(3), None),
                    (SCRIPT, 2, None, end),
                    (SCRIPT, 3, Some(6), None),
                ],
            ),
    )
}

#[test]
fn the_runs_of_one_unit_end_together_and_no_others(rt: HostRuntime) {
    assert!(rt; halted(rt.alloc()).unwrap_or(false));
}

/// A script that replaces its run, with a number of its own.
fn replaced(alloc: Global) -> Result<bool, AllocError> {
    let runs = called(alloc, Mode::Restart)?;
    Ok(are(
        runs.list(),
        &[
            (CALLER, 1, Some(1), None),
            (SCRIPT, 1, Some(2), Some((4, EndCause::Replaced))),
            (CALLER, 2, Some(3), None),
            (SCRIPT, 2, Some(4), None),
        ],
    ))
}

#[test]
fn a_run_replaces_one_of_its_own_unit(rt: HostRuntime) {
    assert!(rt; replaced(rt.alloc()).unwrap_or(false));
}
