//! A reload: another configuration comes into force behind the one that was.
ghost use Rattle.std.specs.Prelude.{◌≡◌, ◌<◌, ◌≤◌, ◌^◌, ℕ, IfOk, OnOk, OnErr, Some, fold, length, slice_set, true, if◌then◌else◌};
ghost use Rattle.ha_config.specs.declared.config.Config.{Config as Settings};
ghost use Rattle.ha_journal.specs.Journal.{Journal, last_place};
ghost use Rattle.ha_model.specs.declared.record.EndCause.{EndCause as Cause};
ghost use Rattle.ha_model.specs.Lawful.{Right};
ghost use Rattle.run_modes.specs.Calls.{stop_turned};
ghost use Rattle.segment_runs.specs.Segment.{all_of, number_at};
ghost use Rattle.conf_reload.specs.Plan.{IsPlan};
ghost use Rattle.unit_book.specs.Book.{config_at as config_lem};
ghost use Rattle.engine_parts.specs.Kept.{Going, Kept, nobody};
ghost use Rattle.engine_parts.specs.Records.{HasRoom, IsTable};
ghost use Rattle.ha_engine.specs.Named.{AreFirsts};
ghost use Rattle.ha_engine.specs.Reloads.{AddsReload, AreEntered, BringsNext, EntersUnits, IsBrought, IsEntering, IsReloaded, PlansLast, marks_of, unmarked};

use crate::bounds::Bounds;
use crate::carried::{carry_at, numbers_by_name};
use crate::conclude::{make_room, settle};
use crate::lasts::lasts_by_name;
use crate::prepare::prepare;
use crate::stop::stop_runs;
use conf_reload::{Plan, plan};
use engine_entry::reload::enter_reload;
use engine_parts::attend::attend;
use engine_parts::parts::Parts;
use ha_clock::Moment;
use ha_config::Config;
use ha_journal::Entry;
use ha_model::EndCause;
use ha_value::Many;
use named_runs::NamedRuns;
use segment_carry::rule_order;
use segment_view::Segment;
use std::alloc::{AllocError, Global};
use unit_book::{UnitBook, config_at};

/// What an engine has anew behind a reload.
#[derive(Drop)]
pub(crate) struct Reloaded {
    /// Where the units stand.
    pub(crate) book: UnitBook,
    /// The places of the automations in the byte order of their names.
    pub(crate) order: Many<u32>,
    /// By the first unit of a name, when one of the name last triggered before the reload.
    pub(crate) lasts: Vec<Option<Moment>>,
}

/// For so many units whether one of these numbers is its.
fn marks_of(alloc: Global, numbers: &[u32], count: usize) -> Result<Vec<bool>, AllocError>
    ensures { IfOk result (λ marks. marks.items ≡ marks_of numbers.now count) }
{
    let mut marks = Vec::with_capacity(alloc, count)?;
    'units: for _at in 0..count {
        marks.push(false)?;
    }
    'numbers: for number in numbers {
        mark(&mut marks, *number as usize);
    }
    Ok(marks)
}

/// A place is marked.
fn mark(marks: &mut Vec<bool>, at: usize)
    ensures { marks.new.items ≡ slice_set marks.old.items at true }
{
    match marks.get_mut(at) {
        Some(flag) => *flag = true,
        None => {}
    }
}

/// The runs of a unit end, where it is not marked.
fn drop_if(runs: &mut NamedRuns, parts: &mut Parts, unit: u32, marked: bool, place: u64)
    requires place { place < 2 ^ 56 }
    requires room { HasRoom 0 parts.old }
    ensures list { runs.new.list ≡ (if marked then runs.old.list else stop_turned place Cause.Reloaded runs.old.list unit) }
    ensures kept { (k : Journal) → place ≡ last_place k → 0 < length k → IsTable k runs.old.list → Going nobody k runs.old.list parts.old → IsTable k runs.new.list × Going nobody k runs.new.list parts.new }
    ensures closed { runs.new.closed ≡ runs.old.closed }
    ensures firsts { runs.new.firsts ≡ runs.old.firsts }
    ensures spare { runs.old.spare ≤ runs.new.spare }
    ensures room { (n : ℕ) → HasRoom n parts.old → HasRoom n parts.new }
    ensures rested { parts.new.rested ≡ parts.old.rested }
{
    if !marked {
        stop_runs(runs, parts, unit, place, EndCause::Reloaded);
    }
}

/// The runs of all units end that are not marked.
fn drop_unmarked(runs: &mut NamedRuns, parts: &mut Parts, marks: &[bool], place: u64)
    requires place { place < 2 ^ 56 }
    requires few { length marks.now < 2 ^ 32 }
    requires room { HasRoom 0 parts.old }
    ensures list { runs.new.list ≡ fold (stop_turned place Cause.Reloaded) runs.old.list (unmarked 0 marks.now) }
    ensures kept { (k : Journal) → place ≡ last_place k → 0 < length k → IsTable k runs.old.list → Going nobody k runs.old.list parts.old → IsTable k runs.new.list × Going nobody k runs.new.list parts.new }
    ensures closed { runs.new.closed ≡ runs.old.closed }
    ensures firsts { runs.new.firsts ≡ runs.old.firsts }
    ensures spare { runs.old.spare ≤ runs.new.spare }
    ensures room { (n : ℕ) → HasRoom n parts.old → HasRoom n parts.new }
    ensures rested { parts.new.rested ≡ parts.old.rested }
{
    'units: for unit in 0..marks.len() {
        drop_if(runs, parts, unit as u32, marks[unit], place);
    }
}

/// What follows from a reload, whose units the segment knows: `old` was in force before it, and `plan` says what becomes of the numbers.
/// After an error the records are as before, and the parts may only be dropped.
fn follow_entered(
    alloc: Global,
    journal: &Segment<'_>,
    runs: &mut NamedRuns,
    parts: &mut Parts,
    old: &Config,
    plan: Plan,
) -> Result<(), AllocError>
    requires entering { IsEntering journal.now old.now plan runs.old.list parts.old }
    requires named { AreFirsts journal.now runs.old.firsts }
    ensures ok { OnOk result (Right journal.now runs.new.list × Kept journal.now runs.new.list parts.new) }
    ensures err { OnErr result (runs.new.list ≡ runs.old.list) }
    ensures closed { runs.new.closed ≡ runs.old.closed }
    ensures firsts { runs.new.firsts ≡ runs.old.firsts }
{
    let count = parts.free as usize;
    let marks = marks_of(alloc, plan.numbers.as_slice(), count)?;
    let before = enter_reload(parts, alloc, journal, old, plan)?;
    let fired = attend(parts, alloc, journal, before)?;
    let stack = prepare(alloc, &*journal, parts, fired)?;
    make_room(runs, parts, stack.len())?;
    drop_unmarked(runs, parts, marks.as_slice(), journal.place());
    settle(alloc, journal, runs, parts, stack);
    Ok(())
}

/// The configuration that the entry at a place brought into force.
fn config_in(journal: &[Entry], at: usize) -> &Config
    requires { (c : Settings) × (config_lem journal.now at ≡ Some c) }
    ensures { config_lem journal.now at ≡ Some result.now }
{
    match config_at(journal, at) {
        Some(config) => config,
        None => unreachable!(),
    }
}

/// What becomes of the numbers at the reload that stands last.
fn plan_last(
    alloc: Global,
    journal: &[Entry],
    book: &UnitBook,
    parts: &Parts,
) -> Result<Plan, AllocError>
    requires { PlansLast journal.now book.now parts.now }
    ensures { IfOk result (λ p. (old new : Settings) → config_lem journal.now book.now.latest ≡ Some old → config_lem journal.now (last_place journal.now) ≡ Some new → IsPlan old parts.now.numbers parts.now.free new p) }
{
    let old = config_in(journal, book.latest());
    let new = config_in(journal, journal.len() - 1);
    plan(alloc, old, new, &parts.numbers, parts.free)
}

/// What an engine has anew behind the reload that stands last.
fn next_of(
    alloc: Global,
    journal: &[Entry],
    bounds: Bounds,
    book: &UnitBook,
    numbers: &Many<u32>,
    lasts: &[Option<Moment>],
) -> Result<Reloaded, AllocError>
    requires { BringsNext journal.now bounds book.now numbers.now }
    ensures { IfOk result (λ n. IsBrought journal.now bounds book.now numbers.now lasts.now n) }
{
    let next = book.reloaded(alloc, journal, numbers)?;
    let config = config_in(journal, journal.len() - 1);
    let order = rule_order(alloc, config.automations.as_slice())?;
    let carried = carry_at(journal, bounds.front).last.as_slice();
    let known = lasts_by_name(alloc, lasts, next.names().as_slice(), carried)?;
    Ok(Reloaded {
        book: next,
        order,
        lasts: known,
    })
}

/// The table of runs has the units of a book.
fn enter_units(
    alloc: Global,
    journal: &[Entry],
    bounds: Bounds,
    book: &UnitBook,
    runs: &mut NamedRuns,
) -> Result<(), AllocError>
    requires { EntersUnits journal.now bounds book.now runs.old }
    ensures list { runs.new.list ≡ runs.old.list }
    ensures ok { OnOk result (AreEntered journal.now bounds book.now runs.old runs.new) }
    ensures err { OnErr result (runs.new ≡ runs.old) }
{
    let carried = carry_at(journal, bounds.front).numbers.as_slice();
    let numbers = numbers_by_name(alloc, book.names().as_slice(), carried)?;
    runs.enter(alloc, book.firsts(), numbers)
}

/// A reload was pushed, which nothing knows of yet. After an error the records are as before, and the parts may only be dropped.
pub(crate) fn follow_reload(
    alloc: Global,
    journal: &[Entry],
    bounds: Bounds,
    book: &UnitBook,
    runs: &mut NamedRuns,
    parts: &mut Parts,
    lasts: &[Option<Moment>],
) -> Result<Reloaded, AllocError>
    requires { AddsReload journal.now bounds book.now runs.old parts.old lasts.now }
    ensures ok { IfOk result (λ n. (h : AddsReload journal.now bounds book.now runs.old parts.old lasts.now) → IsReloaded h n runs.new parts.new) }
    ensures err { OnErr result (runs.new.list ≡ runs.old.list) }
    ensures records { runs.new.closed.records ≡ runs.old.closed.records }
    ensures entries { runs.new.closed.entries ≡ runs.old.closed.entries }
    ensures all { OnErr result (all_of runs.new.closed runs.new.list ≡ all_of runs.old.closed runs.old.list) }
    ensures numbers { OnErr result ((a : ℕ) → a < length runs.old.firsts → number_at runs.new.closed.numbers a ≡ number_at runs.old.closed.numbers a) }
{
    let plan = plan_last(alloc, journal, book, parts)?;
    let next = next_of(alloc, journal, bounds, book, &plan.numbers, lasts)?;
    enter_units(alloc, journal, bounds, &next.book, runs)?;
    let segment = Segment::of_list(journal, bounds.front, bounds.base, &next.book);
    let old = config_in(journal, book.latest());
    follow_entered(alloc, &segment, runs, parts, old, plan)?;
    Ok(next)
}
