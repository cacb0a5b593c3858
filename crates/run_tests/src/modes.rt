//! Runs of one automation, as its mode admits, begins and ends them.
ghost use Rattle.std.specs.Prelude.{◌≡◌, ◌&&◌, ◌<◌, ◌-◌, ◌^◌, true, Some, None, is_none, is_some, nat_eq, nat_lt};
ghost use Rattle.std.specs.Option.{option_copied};
ghost use Rattle.ha_model.specs.declared.record.Record.{Record as Run};
ghost use Rattle.ha_model.specs.Lawful.{record_of};
ghost use Rattle.run_modes.specs.Table.{HasBegun};

use ha_config::Mode;
use ha_model::{EndCause, Record};
use ha_sight::Env;
use run_modes::{Admission, Runs};
use std::alloc::{AllocError, Global};

/// An attempt of automation 0 at a place.
fn attempt(
    alloc: Global,
    runs: &mut Runs,
    mode: Mode,
    max: u32,
    place: u64,
) -> Result<Admission, AllocError> {
    let number = (runs.list().len() as u64).saturating_add(1);
    runs.attempt(0, mode, max, place, 0, number, Env::none(alloc))
}

/// Whether the attempts at one entry are told these in turn.
fn told(alloc: Global, mode: Mode, max: u32, wanted: &[Admission]) -> Result<bool, AllocError> {
    let mut runs = Runs::make(alloc);
    for want in wanted {
        if attempt(alloc, &mut runs, mode, max, 1)? != *want {
            return Ok(false);
        }
    }
    Ok(true)
}

/// Whether, at each limit, the attempts at one entry are told these in turn.
fn are_told(alloc: Global, mode: Mode, rows: &[(u32, &[Admission])]) -> bool {
    for row in rows {
        if !told(alloc, mode, row.0, row.1).unwrap_or(false) {
            return false;
        }
    }
    true
}

/// The runs after one attempt at each of these places.
fn attempted(alloc: Global, mode: Mode, max: u32, places: &[u64]) -> Result<Runs, AllocError> {
    let mut runs = Runs::make(alloc);
    for place in places {
        let _ = attempt(alloc, &mut runs, mode, max, *place)?;
    }
    Ok(runs)
}

/// The record with that serial.
fn record_at(records: &[Record], serial: u64) -> Option<&Record>
    ensures { option_copied result ≡ record_of records.now serial }
{
    records.get(serial.saturating_sub(1) as usize)
}

/// Whether the run with this serial has begun and is live.
fn may_end(records: &[Record], serial: u64) -> bool
    ensures { result ≡ true → (r : Run) × (record_of records.now serial ≡ Some r) × (r.serial ≡ serial) × HasBegun r.begin × (r.end ≡ None) }
{
    match record_at(records, serial) {
        Some(found) => is_running(found, serial),
        None => false,
    }
}

/// Whether the run has this serial, has begun and is live.
fn is_running(run: &Record, serial: u64) -> bool
    ensures { result ≡ (nat_eq run.now.serial serial && is_some run.now.begin && is_none run.now.end) }
{
    run.serial == serial && run.begin.is_some() && run.end.is_none()
}

/// Whether the run with this serial is there, and has made no call or one.
fn may_call(records: &[Record], serial: u64) -> bool
    ensures { result ≡ true → (r : Run) × (record_of records.now serial ≡ Some r) × (r.serial ≡ serial) × (r.calls < 2 ^ 64 - 1) }
{
    match record_at(records, serial) {
        Some(found) => has_room(found, serial),
        None => false,
    }
}

/// Whether the run has this serial, and has made no call or one.
fn has_room(run: &Record, serial: u64) -> bool
    ensures { result ≡ (nat_eq run.now.serial serial && nat_lt run.now.calls 2) }
{
    run.serial == serial && run.calls < 2
}

/// The run with this serial makes a call, if it may.
fn call(runs: &mut Runs, serial: u64) {
    if may_call(runs.list(), serial) {
        runs.called(serial);
    }
}

/// Whether the records have made these calls.
fn made(records: &[Record], calls: &[u64]) -> bool {
    if records.len() != calls.len() {
        return false;
    }
    for at in 0..calls.len() {
        if records[at].calls != calls[at] {
            return false;
        }
    }
    true
}

/// The run with this serial is done at a place. Whether it may end, and this one begins there.
fn is_done(runs: &mut Runs, serial: u64, place: u64, begins: Option<u64>) -> bool {
    if may_end(runs.list(), serial) {
        runs.ended(serial, place, EndCause::Done) == begins
    } else {
        false
    }
}

/// Whether the run with this serial has this number, and began and ended there.
fn went(
    runs: &Runs,
    serial: u64,
    number: u64,
    begin: Option<u64>,
    end: Option<(u64, EndCause)>,
) -> bool {
    match record_at(runs.list(), serial) {
        Some(run) => run.number == number && run.begin == begin && run.end == end,
        None => false,
    }
}

#[test]
fn single_admits_one_whatever_the_limit(rt: HostRuntime) {
    let wanted = [Admission::Begun(1), Admission::Refused, Admission::Refused];
    assert!(rt;
        are_told(
            rt.alloc(),
            Mode::Single,
            &[(1, &wanted), (2, &wanted), (10, &wanted)]
        )
    );
}

#[test]
fn restart_admits_each_whatever_the_limit(rt: HostRuntime) {
    let wanted = [
        Admission::Begun(1),
        Admission::Replaces(2, 1),
        Admission::Replaces(3, 2),
    ];
    assert!(rt;
        are_told(
            rt.alloc(),
            Mode::Restart,
            &[(1, &wanted), (2, &wanted), (10, &wanted)]
        )
    );
}

#[test]
fn queued_admits_up_to_the_limit(rt: HostRuntime) {
    let one = [Admission::Begun(1), Admission::Refused];
    let two = [
        Admission::Begun(1),
        Admission::Queued(2),
        Admission::Refused,
    ];
    let ten = [
        Admission::Begun(1),
        Admission::Queued(2),
        Admission::Queued(3),
        Admission::Queued(4),
        Admission::Queued(5),
        Admission::Queued(6),
        Admission::Queued(7),
        Admission::Queued(8),
        Admission::Queued(9),
        Admission::Queued(10),
        Admission::Refused,
    ];
    assert!(rt;
        are_told(
            rt.alloc(),
            Mode::Queued,
            &[(1, &one), (2, &two), (10, &ten)]
        )
    );
}

#[test]
fn parallel_admits_up_to_the_limit(rt: HostRuntime) {
    let one = [Admission::Begun(1), Admission::Refused];
    let two = [Admission::Begun(1), Admission::Begun(2), Admission::Refused];
    let ten = [
        Admission::Begun(1),
        Admission::Begun(2),
        Admission::Begun(3),
        Admission::Begun(4),
        Admission::Begun(5),
        Admission::Begun(6),
        Admission::Begun(7),
        Admission::Begun(8),
        Admission::Begun(9),
        Admission::Begun(10),
        Admission::Refused,
    ];
    assert!(rt;
        are_told(
            rt.alloc(),
            Mode::Parallel,
            &[(1, &one), (2, &two), (10, &ten)]
        )
    );
}

/// Whether a run that is done makes place for the next, which has the number behind it.
fn numbers_go_on(alloc: Global) -> Result<bool, AllocError> {
    let mut runs = attempted(alloc, Mode::Single, 10, &[1, 2])?;
    let done = is_done(&mut runs, 1, 3, None);
    let told = attempt(alloc, &mut runs, Mode::Single, 10, 3)?;
    Ok(done && told == Admission::Begun(2) && went(&runs, 2, 2, Some(3), None))
}

#[test]
fn a_refused_attempt_has_no_number(rt: HostRuntime) {
    assert!(rt; numbers_go_on(rt.alloc()).unwrap_or(false));
}

fn queue_goes_on(alloc: Global) -> Result<bool, AllocError> {
    let mut runs = attempted(alloc, Mode::Queued, 3, &[1, 2, 2])?;
    // it waits
    let early = is_done(&mut runs, 2, 5, None);
    let first = is_done(&mut runs, 1, 5, Some(2));
    let second = is_done(&mut runs, 2, 9, Some(3));
    Ok(
        !early
            && first
            && second
            && went(&runs, 2, 2, Some(5), Some((9, EndCause::Done)))
            && went(&runs, 3, 3, Some(9), None),
    )
}

#[test]
fn a_queue_begins_in_its_order(rt: HostRuntime) {
    assert!(rt; queue_goes_on(rt.alloc()).unwrap_or(false));
}

fn stopped_queue(alloc: Global) -> Result<bool, AllocError> {
    let mut runs = attempted(alloc, Mode::Queued, 2, &[1, 2])?;
    runs.stop_all(Some(0), 4, EndCause::SwitchedOff);
    let end = Some((4, EndCause::SwitchedOff));
    let stopped = went(&runs, 1, 1, Some(1), end) && went(&runs, 2, 2, None, end);
    let told = attempt(alloc, &mut runs, Mode::Queued, 2, 5)?;
    Ok(stopped && told == Admission::Begun(3))
}

#[test]
fn a_waiting_run_that_is_stopped_never_begins(rt: HostRuntime) {
    assert!(rt; stopped_queue(rt.alloc()).unwrap_or(false));
}

fn stopped_at_an_end(alloc: Global) -> Result<bool, AllocError> {
    let mut runs = attempted(alloc, Mode::Queued, 10, &[1, 2])?;
    let done = is_done(&mut runs, 1, 4, Some(2));
    runs.stop_all(None, 4, EndCause::Restarted);
    Ok(
        done && went(&runs, 1, 1, Some(1), Some((4, EndCause::Done)))
            && went(&runs, 2, 2, None, Some((4, EndCause::Restarted))),
    )
}

#[test]
fn a_stop_at_the_entry_of_an_end_begins_none(rt: HostRuntime) {
    assert!(rt; stopped_at_an_end(rt.alloc()).unwrap_or(false));
}

fn replaced_at_its_begin(alloc: Global) -> Result<bool, AllocError> {
    let runs = attempted(alloc, Mode::Restart, 1, &[1, 2, 2])?;
    Ok(
        went(&runs, 1, 1, Some(1), Some((2, EndCause::Replaced)))
            && went(&runs, 2, 2, Some(2), Some((2, EndCause::Replaced)))
            && went(&runs, 3, 3, Some(2), None),
    )
}

#[test]
fn a_run_that_is_replaced_where_it_began_has_begun(rt: HostRuntime) {
    assert!(rt; replaced_at_its_begin(rt.alloc()).unwrap_or(false));
}

fn done_before_the_next(alloc: Global) -> Result<bool, AllocError> {
    let mut runs = attempted(alloc, Mode::Restart, 1, &[1])?;
    let done = is_done(&mut runs, 1, 7, None);
    let told = attempt(alloc, &mut runs, Mode::Restart, 1, 7)?;
    Ok(done && told == Admission::Begun(2) && went(&runs, 1, 1, Some(1), Some((7, EndCause::Done))))
}

#[test]
fn a_run_that_is_done_is_not_replaced(rt: HostRuntime) {
    assert!(rt; done_before_the_next(rt.alloc()).unwrap_or(false));
}

/// Whether the calls of these runs, which are two at most, are counted so.
fn are_counted(alloc: Global, serials: &[u64], calls: &[u64]) -> Result<bool, AllocError> {
    let mut runs = Runs::make(alloc);
    runs.reserve(2)?;
    for place in [1, 2] {
        let _ = attempt(alloc, &mut runs, Mode::Parallel, 2, place)?;
    }
    for serial in serials {
        call(&mut runs, *serial);
    }
    let live = runs.live(0, 1) == Some(2) && runs.live(0, 2).is_none() && runs.live(1, 0).is_none();
    let counted = made(runs.list(), calls);
    Ok(live && counted && made(runs.into_list().as_slice(), calls))
}

#[test]
fn a_call_counts_for_its_run(rt: HostRuntime) {
    assert!(rt; are_counted(rt.alloc(), &[2, 1, 2, 3], &[1, 2]).unwrap_or(false));
}
