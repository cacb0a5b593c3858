//! The table of runs with its counts.
ghost use Rattle.std.specs.Prelude.{◌≡◌, ◌-◌, ◌<◌, ◌≤◌, ◌^◌, ℕ, suc, [], nat_lt, true, IfOk, OnOk, OnErr, IsOk, Some, None, length, option_map, slice_get};
ghost use Rattle.std.specs.List.{list_all};
ghost use Rattle.ha_model.specs.declared.record.Record.{Record as Run};
ghost use Rattle.ha_model.specs.Lawful.{record_of};
ghost use Rattle.run_modes.specs.Table.{admission, attempted, begun_by, called_on, ended_at, live_of, stopped, HasBegun};
ghost use Rattle.segment_runs.specs.Goes.{AllEnded, CountAlike};
ghost use Rattle.segment_runs.specs.Segment.{all_of, number_at};
ghost use Rattle.named_runs.specs.Named.{GoesOn, first_in, last_of, runs_named};
ghost use Rattle.named_runs.specs.Opening.{IsOpening};
ghost use Rattle.named_runs.specs.Told.{is_admission as is_admission_lem, is_admitted};

use crate::counts::{
    are_small, copied, count_told, counts_with, first_of, first_told, last_numbers, next_number,
};
use ha_config::Mode;
use ha_model::{EndCause, Record};
use ha_sight::Env;
use ha_value::Many;
use run_modes::Admission;
use segment_runs::SegmentRuns;
use std::alloc::{AllocError, Global};
use std::marker::Model;

/// The runs of the last segment, whose numbers go by the names of their units.
#[derive(Drop)]
pub struct NamedRuns {
    runs: SegmentRuns,
    /// By unit: the first one of its name.
    firsts: Vec<u32>,
    /// By the first unit of a name: how many runs the segment has of it.
    counts: Vec<u64>,
}

impl Model for NamedRuns {
    ghost use Rattle.std.specs.Coded.{codes};
    ghost use Rattle.ha_value.specs.contracts.value.Value as value;
    ghost use Rattle.named_runs.specs.Named.{NamedTable};

    ghost Value = { NamedTable };

    ghost coded = { Prim.hlevel (codes, value.the_row.coded) };

    ghost use Rattle.named_runs.specs.Named.{IsCounted};

    ghost view = { λ r. record { list = r.runs.list; spare = r.runs.spare; closed = r.runs.closed; firsts = r.firsts.items } };

    ghost invariant = { λ r. IsCounted r.firsts.items r.counts.items r.runs };
}

impl NamedRuns {
    /// No runs, and no closed segment; `firsts` has for each unit the first one of its name.
    pub fn make(alloc: Global, firsts: &[u32]) -> Result<NamedRuns, AllocError>
        requires { list_all (λ n. nat_lt n (length firsts.now)) firsts.now ≡ true }
        ensures list { IfOk result (λ r. r.list ≡ []) }
        ensures closed { IfOk result (λ r. r.closed ≡ record { records = []; entries = 0; numbers = [] }) }
        ensures firsts { IfOk result (λ r. r.firsts ≡ firsts.now) }
    {
        let runs = SegmentRuns::make(alloc);
        let counts = counts_with(alloc, &[], firsts.len())?;
        let firsts = copied(alloc, firsts)?;
        Ok(NamedRuns {
            runs,
            firsts,
            counts,
        })
    }

    /// What the next segment begins with, where it has these units: `numbers` has by unit how many runs of its name there were. Nothing is
    /// changed, so that it can be made before the segment closes.
    pub fn opening(alloc: Global, firsts: &[u32], numbers: Many<u64>) -> Result<Opening, AllocError>
        requires { list_all (λ n. nat_lt n (length firsts.now)) firsts.now ≡ true }
        ensures { IfOk result (λ o. IsOpening firsts.now numbers o) }
    {
        if !are_small(numbers.as_slice()) {
            return Err(AllocError);
        }
        let counts = counts_with(alloc, &[], firsts.len())?;
        let firsts = copied(alloc, firsts)?;
        Ok(Opening {
            firsts,
            counts,
            numbers,
        })
    }

    /// Closes the segment, whose runs have all ended: the next one has so many entries before it, and no runs yet.
    pub fn close(&mut self, front: u64, opening: Opening)
        requires ended { AllEnded self.old.list }
        requires front { front < 2 ^ 63 }
        requires opens { IsOpening opening.firsts.items opening.numbers opening }
        ensures list { self.new.list ≡ [] }
        ensures closed { self.new.closed ≡ record { records = all_of self.old.closed self.old.list; entries = front; numbers = opening.numbers } }
        ensures spare { self.new.spare ≡ self.old.spare }
        ensures firsts { self.new.firsts ≡ opening.firsts.items }
    {
        let Opening {
            firsts,
            counts,
            numbers,
        } = opening;
        self.runs.close(front, numbers);
        self.firsts = firsts;
        self.counts = counts;
    }

    /// Other units come into force behind those that are there. `numbers` has by unit how many runs of its name closed segments have: the
    /// same as before of each unit that was there. After an error all is as before.
    pub fn enter(
        &mut self,
        alloc: Global,
        firsts: &[u32],
        numbers: Many<u64>,
    ) -> Result<(), AllocError>
        requires firsts { GoesOn self.old.firsts firsts.now }
        requires numbers { (a : ℕ) → a < length self.old.firsts → number_at self.old.closed.numbers a ≡ number_at numbers a }
        ensures list { self.new.list ≡ self.old.list }
        ensures spare { self.new.spare ≡ self.old.spare }
        ensures closed { OnOk result (self.new.closed ≡ record self.old.closed { numbers = numbers }) }
        ensures firsts { OnOk result (self.new.firsts ≡ firsts.now) }
        ensures err { OnErr result (self.new ≡ self.old) }
    {
        if !are_small(numbers.as_slice()) {
            return Err(AllocError);
        }
        let counts = counts_with(alloc, self.counts.as_slice(), firsts.len())?;
        let firsts = copied(alloc, firsts)?;
        self.runs.enter(numbers);
        self.firsts = firsts;
        self.counts = counts;
        Ok(())
    }

    /// Takes room for so many more attempts.
    pub fn reserve(&mut self, more: u64) -> Result<(), AllocError>
        ensures list { self.new.list ≡ self.old.list }
        ensures closed { self.new.closed ≡ self.old.closed }
        ensures firsts { self.new.firsts ≡ self.old.firsts }
        ensures ok { OnOk result (more ≤ self.new.spare) }
        ensures kept { self.old.spare ≤ self.new.spare }
    {
        self.runs.reserve(more)
    }

    /// An attempt of a unit, whose mode and limit these are: the one that has this order among those of the entry at `place`. Its run is
    /// numbered by its name. Refused exactly where the mode does not admit it. It wants no memory where there is room for it.
    pub fn attempt(
        &mut self,
        automation: u32,
        mode: Mode,
        max: u32,
        place: u64,
        order: u64,
        env: Env,
    ) -> Result<Admission, AllocError>
        requires known { automation < length self.old.firsts }
        requires place { place < 2 ^ 56 }
        ensures known { list_all (λ r. nat_lt r.automation (length self.old.firsts)) self.old.list ≡ true }
        ensures ok { OnOk result (self.new.list ≡ attempted automation mode max place order (suc (runs_named self.old.firsts (first_in self.old.firsts automation) self.old.list)) env self.old.list) }
        ensures answer { IfOk result (λ told. told ≡ admission automation mode max self.old.list) }
        ensures err { OnErr result (self.new.list ≡ self.old.list) }
        ensures succeeds { 0 < self.old.spare → IsOk result }
        ensures spare { self.old.spare ≤ suc self.new.spare }
        ensures closed { self.new.closed ≡ self.old.closed }
        ensures firsts { self.new.firsts ≡ self.old.firsts }
    {
        let first = first_of(self.firsts.as_slice(), automation as usize);
        let all = self.runs.count();
        let number = next_number(self.counts.as_slice(), first as usize, all);
        let told = self
            .runs
            .attempt(automation, mode, max, place, order, number, env);
        let is_more = is_admitted(&told);
        count_told(&mut self.counts, first as usize, is_more);
        told
    }

    /// The run with this serial ends at an entry. The answer is the serial of the run that waited for it and begins there, if no stop ends
    /// that one at the same entry.
    pub fn ended(&mut self, serial: u64, place: u64, cause: EndCause) -> Option<u64>
        requires run { (r : Run) × (record_of self.old.list serial ≡ Some r) × (r.serial ≡ serial) × HasBegun r.begin × (r.end ≡ None) }
        requires place { place < 2 ^ 56 }
        ensures list { self.new.list ≡ ended_at serial place cause self.old.list }
        ensures answer { result ≡ begun_by serial self.old.list }
        ensures spare { self.old.spare ≤ self.new.spare }
        ensures closed { self.new.closed ≡ self.old.closed }
        ensures firsts { self.new.firsts ≡ self.old.firsts }
    {
        self.runs.ended(serial, place, cause)
    }

    /// All live runs of an automation, or of all, end at an entry. One that began there since another ended never begins.
    pub fn stop_all(&mut self, automation: Option<u32>, place: u64, cause: EndCause)
        requires place { place < 2 ^ 56 }
        ensures list { self.new.list ≡ stopped automation place cause self.old.list }
        ensures spare { self.old.spare ≤ self.new.spare }
        ensures closed { self.new.closed ≡ self.old.closed }
        ensures firsts { self.new.firsts ≡ self.old.firsts }
    {
        self.runs.stop_all(automation, place, cause);
    }

    /// The run with this serial made a call more.
    pub fn called(&mut self, serial: u64)
        requires { (r : Run) × (record_of self.old.list serial ≡ Some r) × (r.serial ≡ serial) × (r.calls < 2 ^ 64 - 1) }
        ensures list { self.new.list ≡ called_on serial self.old.list }
        ensures spare { self.new.spare ≡ self.old.spare }
        ensures closed { self.new.closed ≡ self.old.closed }
        ensures firsts { self.new.firsts ≡ self.old.firsts }
    {
        self.runs.called(serial);
    }

    /// The serial of the live run of the automation at that place, the oldest first.
    pub fn live(&self, automation: u32, at: usize) -> Option<u64>
        ensures { result ≡ slice_get (live_of automation self.now.list) at }
    {
        self.runs.live(automation, at)
    }

    /// How many units there are.
    pub fn units(&self) -> usize
        ensures { result ≡ length self.now.firsts }
    {
        self.firsts.len()
    }

    /// The first unit of the name of a unit.
    pub fn first_unit(&self, unit: u32) -> u32
        requires { unit < length self.now.firsts }
        ensures { result ≡ first_in self.now.firsts unit }
    {
        first_of(self.firsts.as_slice(), unit as usize)
    }

    /// How many runs the segment has.
    pub fn len(&self) -> usize
        ensures { result ≡ length self.now.list }
    {
        self.runs.len()
    }

    /// The automation of the run with this serial.
    pub fn automation(&self, serial: u64) -> Option<u32>
        ensures { result ≡ option_map (λ (r : Run). r.automation) (record_of self.now.list serial) }
    {
        self.runs.automation(serial)
    }

    /// The first unit of the name of the run's unit.
    pub fn first(&self, serial: u64) -> Option<u32>
        ensures { result ≡ option_map (λ (r : Run). first_in self.now.firsts r.automation) (record_of self.now.list serial) }
    {
        first_told(self.firsts.as_slice(), self.runs.automation(serial))
    }

    /// The records of all segments, in the order of their serials.
    pub fn all(&self) -> &[Record]
        ensures { result.now ≡ all_of self.now.closed self.now.list }
    {
        self.runs.all()
    }

    /// The records of all segments, without taking memory.
    pub fn into_all(self) -> Many<Record>
        ensures { result ≡ all_of self.closed self.list }
    {
        let NamedRuns { runs, .. } = self;
        runs.into_all()
    }

    /// For each unit the number of the last run of its name, over all segments, and 0 where there is none.
    pub fn last_numbers(&self, alloc: Global) -> Result<Vec<u64>, AllocError>
        ensures { IfOk result (λ made. made.items ≡ last_of self.now.firsts self.now.closed self.now.list) }
    {
        last_numbers(
            alloc,
            &self.runs,
            self.firsts.as_slice(),
            self.counts.as_slice(),
        )
    }

    /// The table alone.
    pub fn table(&self) -> &SegmentRuns
        ensures list { result.now.list ≡ self.now.list }
        ensures closed { result.now.closed ≡ self.now.closed }
    {
        &self.runs
    }
}

/// What the next segment begins with.
#[derive(Drop)]
pub struct Opening {
    pub(crate) firsts: Vec<u32>,
    pub(crate) counts: Vec<u64>,
    pub(crate) numbers: Many<u64>,
}

/// Whether an attempt was admitted.
fn is_admitted(told: &Result<Admission, AllocError>) -> bool
    ensures { result ≡ is_admitted told.now }
{
    match told {
        Ok(told) => is_admission(told),
        Err(_) => false,
    }
}

/// Whether a run was begun or waits.
fn is_admission(told: &Admission) -> bool
    ensures { result ≡ is_admission_lem told.now }
{
    match told {
        Admission::Begun(_) => true,
        Admission::Queued(_) => true,
        Admission::Replaces(_, _) => true,
        Admission::Refused => false,
    }
}
