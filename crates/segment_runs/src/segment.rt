//! The table of the last segment's runs.
ghost use Rattle.std.specs.Prelude.{◌≡◌, ℕ, suc, ◌+◌, ◌-◌, ◌<◌, ◌≤◌, ◌^◌, [], length, IfOk, OnOk, OnErr, IsOk, Some, None, slice_get, drop, option_map};
ghost use Rattle.std.specs.Option.{option_copied};
ghost use Rattle.ha_model.specs.declared.record.Record.{Record as Run};
ghost use Rattle.ha_model.specs.Lawful.{record_of};
ghost use Rattle.run_modes.specs.Table.{admission, attempted, begun_by, called_on, ended_at, live_of, stopped, HasBegun};
ghost use Rattle.segment_runs.specs.Goes.{AllEnded, CountAlike};
ghost use Rattle.segment_runs.specs.Segment.{all_of, number_at};
ghost use Rattle.segment_runs.specs.Told.{answered, lowered};

use ha_config::Mode;
use ha_model::{EndCause, Record};
use ha_sight::Env;
use ha_value::Many;
use run_modes::{Admission, Runs};
use std::alloc::{AllocError, Global};
use std::marker::Model;

/// The runs of the last segment, read alone: serials and numbers count there from 1, and places from its front. They stand behind those
/// of closed segments in one table, whose serials, numbers and places go on.
#[derive(Drop)]
pub struct SegmentRuns {
    all: Runs,
    /// How many entries the closed segments have.
    front: u64,
    /// How many runs they have.
    base: u64,
    /// For each unit of the last segment, by its number there, how many runs of its name they have.
    numbers: Many<u64>,
}

impl Model for SegmentRuns {
    ghost use Rattle.std.specs.Coded.{codes};
    ghost use Rattle.ha_value.specs.contracts.value.Value as value;
    ghost use Rattle.segment_runs.specs.Segment.{SegmentTable};

    ghost Value = { SegmentTable };

    ghost coded = { Prim.hlevel (codes, value.the_row.coded) };

    ghost use Rattle.segment_runs.specs.Segment.{closed_in, own_in, StandsOver};

    ghost view = { λ r. record { list = own_in r.front r.base r.numbers r.all.list; spare = r.all.spare; closed = closed_in r.front r.base r.numbers r.all.list } };

    ghost invariant = { λ r. StandsOver r.front r.base r.numbers r.all.list };
}

impl SegmentRuns {
    /// No runs, and no closed segment: no unit has had a run before.
    pub fn make(alloc: Global) -> SegmentRuns
        ensures list { result.list ≡ [] }
        ensures closed { result.closed ≡ record { records = []; entries = 0; numbers = [] } }
    {
        let all = Runs::make(alloc);
        SegmentRuns {
            all,
            front: 0,
            base: 0,
            numbers: Many::make(alloc),
        }
    }

    /// Closes the segment, whose runs have all ended: the next one has so many entries before it, and no runs yet. By the number of a unit
    /// there, `numbers` has how many runs of its name there were; one that it has not has none.
    pub fn close(&mut self, front: u64, numbers: Many<u64>)
        requires ended { AllEnded self.old.list }
        requires front { front < 2 ^ 63 }
        ensures list { self.new.list ≡ [] }
        ensures closed { self.new.closed ≡ record { records = all_of self.old.closed self.old.list; entries = front; numbers = numbers } }
        ensures spare { self.new.spare ≡ self.old.spare }
    {
        self.base = count_of(self.all.list()) as u64;
        self.front = front;
        self.numbers = numbers;
    }

    /// Other units come into force: by the number of a unit, `numbers` has how many runs of its name closed segments have. It says the same
    /// as before of each unit that has a run here.
    pub fn enter(&mut self, numbers: Many<u64>)
        requires { CountAlike (number_at self.old.closed.numbers) (number_at numbers) self.old.list }
        ensures list { self.new.list ≡ self.old.list }
        ensures spare { self.new.spare ≡ self.old.spare }
        ensures closed { self.new.closed ≡ record self.old.closed { numbers = numbers } }
    {
        self.numbers = numbers;
    }

    /// Takes room for so many more attempts.
    pub fn reserve(&mut self, more: u64) -> Result<(), AllocError>
        ensures list { self.new.list ≡ self.old.list }
        ensures closed { self.new.closed ≡ self.old.closed }
        ensures ok { OnOk result (more ≤ self.new.spare) }
        ensures kept { self.old.spare ≤ self.new.spare }
        ensures succeeds { more ≤ self.old.spare → IsOk result }
    {
        self.all.reserve(more)
    }

    /// An attempt of an automation, whose mode and limit these are: the one that has this order among those of the entry at `place`; its
    /// run has this number, counted in the segment from 1. Refused exactly where the mode does not admit it. It wants no memory where there
    /// is room for it; after an error all is as before.
    pub fn attempt(
        &mut self,
        automation: u32,
        mode: Mode,
        max: u32,
        place: u64,
        order: u64,
        number: u64,
        env: Env,
    ) -> Result<Admission, AllocError>
        requires place { place < 2 ^ 56 }
        requires number { number_at self.old.closed.numbers automation + number < 2 ^ 64 }
        ensures ok { OnOk result (self.new.list ≡ attempted automation mode max place order number env self.old.list) }
        ensures answer { IfOk result (λ told. told ≡ admission automation mode max self.old.list) }
        ensures err { OnErr result (self.new.list ≡ self.old.list) }
        ensures succeeds { 0 < self.old.spare → IsOk result }
        ensures spare { self.old.spare ≤ suc self.new.spare }
        ensures closed { self.new.closed ≡ self.old.closed }
    {
        let at = self.front + place;
        let whole = whole_number(self.numbers.as_slice(), automation, number);
        let told = self
            .all
            .attempt(automation, mode, max, at, order, whole, env);
        own_answer(told, self.base)
    }

    /// The run with this serial ends at an entry. The answer is the serial of the run that waited for it and begins there, if no stop ends
    /// that one at the same entry.
    pub fn ended(&mut self, serial: u64, place: u64, cause: EndCause) -> Option<u64>
        requires run { (r : Run) × (record_of self.old.list serial ≡ Some r) × (r.serial ≡ serial) × HasBegun r.begin × (r.end ≡ None) }
        requires place { place < 2 ^ 56 }
        ensures list { self.new.list ≡ ended_at serial place cause self.old.list }
        ensures answer { result ≡ begun_by serial self.old.list }
        ensures spare { self.old.spare ≤ self.new.spare }
        ensures closed { self.new.closed ≡ self.old.closed }
    {
        let whole = all_serial(self.all.list(), self.base, serial);
        let at = self.front + place;
        let next = self.all.ended(whole, at, cause);
        own_serial(next, self.base)
    }

    /// All live runs of an automation, or of all, end at an entry. One that began there since another ended never begins.
    pub fn stop_all(&mut self, automation: Option<u32>, place: u64, cause: EndCause)
        requires place { place < 2 ^ 56 }
        ensures list { self.new.list ≡ stopped automation place cause self.old.list }
        ensures spare { self.old.spare ≤ self.new.spare }
        ensures closed { self.new.closed ≡ self.old.closed }
    {
        let at = self.front + place;
        self.all.stop_all(automation, at, cause);
    }

    /// The run with this serial made a call more.
    pub fn called(&mut self, serial: u64)
        requires { (r : Run) × (record_of self.old.list serial ≡ Some r) × (r.serial ≡ serial) × (r.calls < 2 ^ 64 - 1) }
        ensures list { self.new.list ≡ called_on serial self.old.list }
        ensures spare { self.new.spare ≡ self.old.spare }
        ensures closed { self.new.closed ≡ self.old.closed }
    {
        let whole = all_serial(self.all.list(), self.base, serial);
        self.all.called(whole);
    }

    /// The serial of the live run of the automation at that place, the oldest first.
    pub fn live(&self, automation: u32, at: usize) -> Option<u64>
        ensures { result ≡ slice_get (live_of automation self.now.list) at }
    {
        own_serial(self.all.live(automation, at), self.base)
    }

    /// How many runs the segment has.
    pub fn len(&self) -> usize
        ensures { result ≡ length self.now.list }
    {
        count_of(self.all.list()) - self.base as usize
    }

    /// The same: fewer than what memory holds.
    pub fn count(&self) -> usize
        ensures value { result ≡ length self.now.list }
        ensures few { result < 2 ^ 63 }
    {
        self.all.count() - self.base as usize
    }

    /// The automation of the run with this serial.
    pub fn automation(&self, serial: u64) -> Option<u32>
        ensures { result ≡ option_map (λ (r : Run). r.automation) (record_of self.now.list serial) }
    {
        automation_at(self.all.list(), self.base, serial)
    }

    /// How many runs of a unit's name closed segments have.
    pub fn carried(&self, unit: usize) -> u64
        ensures { result ≡ number_at self.now.closed.numbers unit }
    {
        carried_at(self.numbers.as_slice(), unit)
    }

    /// The records of all segments, in the order of their serials.
    pub fn all(&self) -> &[Record]
        ensures { result.now ≡ all_of self.now.closed self.now.list }
    {
        self.all.list()
    }

    /// The records of all segments, without taking memory.
    pub fn into_all(self) -> Many<Record>
        ensures { result ≡ all_of self.closed self.list }
    {
        let SegmentRuns { all, .. } = self;
        all.into_list()
    }
}

/// How many records there are.
fn count_of(records: &[Record]) -> usize
    ensures { result ≡ length records.now }
{
    records.len()
}

/// The serial of a run of the segment among those of all, behind so many runs.
fn all_serial(records: &[Record], base: u64, serial: u64) -> u64
    requires { base + serial ≤ length records.now }
    ensures { result ≡ base + serial }
{
    let _count = records.len();
    base + serial
}

/// The number of a run among those of all segments, where the segment alone has this one.
fn whole_number(numbers: &[u64], automation: u32, number: u64) -> u64
    requires { number_at numbers.now automation + number < 2 ^ 64 }
    ensures { result ≡ number_at numbers.now automation + number }
{
    carried_at(numbers, automation as usize) + number
}

/// The automation of the run with this serial, behind so many others.
fn automation_at(records: &[Record], base: u64, serial: u64) -> Option<u32>
    requires { base ≤ length records.now }
    ensures { result ≡ option_map (λ (r : Run). r.automation) (slice_get (drop base records.now) (serial - 1)) }
{
    let own = &records[base as usize..];
    automation_of(own.get(serial.saturating_sub(1) as usize))
}

/// The automation of a record, if there is one.
fn automation_of(run: Option<&Record>) -> Option<u32>
    ensures { result ≡ option_map (λ (r : Run). r.automation) (option_copied run.entry) }
{
    match run {
        Some(run) => Some(run.automation),
        None => None,
    }
}

/// The serial as the segment alone has it, behind so many runs.
fn own_serial(serial: Option<u64>, base: u64) -> Option<u64>
    ensures { result ≡ option_map (λ s. s - base) serial }
{
    match serial {
        Some(serial) => Some(serial.saturating_sub(base)),
        None => None,
    }
}

/// What an attempt is told, as the segment alone has it.
fn own_admission(told: Admission, base: u64) -> Admission
    ensures { result ≡ lowered base told }
{
    match told {
        Admission::Begun(serial) => Admission::Begun(serial.saturating_sub(base)),
        Admission::Queued(serial) => Admission::Queued(serial.saturating_sub(base)),
        Admission::Replaces(serial, old) => {
            Admission::Replaces(serial.saturating_sub(base), old.saturating_sub(base))
        }
        Admission::Refused => Admission::Refused,
    }
}

/// The same, where the attempt found memory.
fn own_answer(told: Result<Admission, AllocError>, base: u64) -> Result<Admission, AllocError>
    ensures { result ≡ answered base told }
{
    match told {
        Ok(told) => Ok(own_admission(told, base)),
        Err(fault) => Err(fault),
    }
}

/// The number at a unit's place, and 0 where there is none.
fn carried_at(numbers: &[u64], unit: usize) -> u64
    ensures { result ≡ number_at numbers.now unit }
{
    match numbers.get(unit) {
        Some(number) => *number,
        None => 0,
    }
}
