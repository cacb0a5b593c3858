//! A restart: it closes the last segment, whose runs all end, and opens the next one.
ghost use Rattle.std.specs.Prelude.{◌≡◌, ◌≤◌, ◌<◌, ◌||◌, ◌^◌, ℕ, List, Bool, [], Some, None, IfOk, IfSome, IsSome, OnOk, OnErr, map, not, option_map, slice_get, true, length, take, unwrap_or, vec_len, vec_capacity, zip};
ghost use Rattle.std.specs.List.{list_any};
ghost use Rattle.ha_config.specs.declared.command.Cmd.TheVariants.{Restart};
ghost use Rattle.ha_config.specs.Equal.{same_flag};
ghost use Rattle.ha_config.specs.Numbered.{has_number};
ghost use Rattle.ha_config.specs.Sound.{IsSoundConfig};
ghost use Rattle.ha_config.specs.Words.{Text};
ghost use Rattle.ha_journal.specs.declared.carry.Carry.{Carry as Handed};
ghost use Rattle.ha_journal.specs.declared.entry.Entry.{Entry as Put};
ghost use Rattle.ha_journal.specs.declared.entry.Entry.TheVariants.{Again, Line};
ghost use Rattle.ha_journal.specs.Attempts.{passing};
ghost use Rattle.ha_journal.specs.Entries.{BeginsSegment};
ghost use Rattle.ha_journal.specs.Force.{force, in_place_of};
ghost use Rattle.ha_journal.specs.Journal.{HasEntry, Journal, automations, configured, in_force, more};
ghost use Rattle.ha_journal.specs.Switches.{is_on};
ghost use Rattle.ha_model.specs.declared.record.EndCause.{EndCause as Cause};
ghost use Rattle.ha_model.specs.Lawful.{Right};
ghost use Rattle.ha_model.specs.Records.{records_of};
ghost use Rattle.run_modes.specs.Table.{stopped};
ghost use Rattle.ha_whole.specs.Named.{named};
ghost use Rattle.ha_whole.specs.Segments.{segment};
ghost use Rattle.ha_whole.specs.Whole.{again_of};
ghost use Rattle.switch_book.specs.Book as book;
ghost use Rattle.segment_runs.specs.Segment.{all_of};
ghost use Rattle.named_runs.specs.Opening.{IsOpening};
ghost use Rattle.unit_book.specs.Book.{Holds, config_at, firsts_of};
ghost use Rattle.engine_parts.specs.Numbers.{numbers_in};
ghost use Rattle.engine_parts.specs.Kept.{Going, Kept, nobody};
ghost use Rattle.engine_parts.specs.Records.{HasRoom};
ghost use Rattle.ha_engine.specs.Admits.{ArePrepared, from_end};
ghost use Rattle.ha_engine.specs.Begun.{IsBegun, trues};
ghost use Rattle.ha_engine.specs.Noted.{AreNoted, are_in_time, moved_by, noted};
ghost use Rattle.ha_engine.specs.Named.{AreFirsts, AreKnown};
ghost use Rattle.ha_engine.specs.Next.{IsNextSegment};
ghost use Rattle.ha_engine.specs.Reloads.{numbers_at};
ghost use Rattle.ha_engine.specs.Restarts.{ClosesWith, Reopened, Restarting};
ghost use Rattle.ha_engine.specs.Told.{IsFollowed, IsTold};

use crate::admit::Prepared;
use crate::boot::{admit_first, begin_parts, first_lasts, first_numbers, unit_count};
use crate::bounds::Bounds;
use crate::carried::{carry_at, numbers_by_name};
use crate::conclude::make_room;
use crate::lasts::{lasts_of_rules, note_lasts};
use engine_entry::open::on_of;
use engine_parts::last::drop_last;
use engine_parts::parts::Parts;
use ha_clock::{ClockFault, Moment, Zone};
use ha_config::{Automation, Config};
use ha_journal::Entry;
use ha_model::EndCause;
use ha_value::{Many, Word};
use named_runs::{NamedRuns, Opening};
use segment_carry::{Closing, again};
use segment_view::Behind;
use std::alloc::{AllocError, Global};
use switch_book::Switches;
use unit_book::{UnitBook, config_at};

/// Whether a restart changes the switch of an automation, which has this number.
fn moves(switches: &Switches, number: u32, rule: &Automation) -> bool
    ensures { (j : Journal) → book.StandsFor switches.now j → has_number (in_force j) number ≡ true → result ≡ not (same_flag (is_on j number) (unwrap_or rule.now.initial (is_on j number))) }
{
    match rule.initial {
        Some(on) => on_of(switches, number) != on,
        None => false,
    }
}

/// One or the other.
pub(crate) fn either(left: bool, right: bool) -> bool
    ensures { result ≡ (left || right) }
{
    left || right
}

/// Whether it changes one; each automation has its number.
fn moves_any(switches: &Switches, numbers: &[u32], rules: &[Automation]) -> bool
    requires { length rules.now ≤ length numbers.now }
    ensures { (j : Journal) → book.StandsFor switches.now j → zip numbers.now rules.now ≡ in_force j → result ≡ list_any (λ p. not (same_flag (is_on j p.0) (unwrap_or p.1.initial (is_on j p.0)))) (in_force j) }
{
    let mut changed = false;
    'rules: for at in 0..rules.len() {
        let moved = moves(switches, numbers[at], &rules[at]);
        changed = either(changed, moved);
    }
    changed
}

/// The switches are set anew; the answer is whether one changed.
fn reset_switches(parts: &mut Parts, config: &Config) -> bool
    requires { length config.now.automations ≤ length parts.old.numbers }
    ensures changed { (j : Journal) → book.StandsFor parts.old.switches j → zip parts.old.numbers config.now.automations ≡ in_force j
        → result ≡ list_any (λ p. not (same_flag (is_on j p.0) (unwrap_or p.1.initial (is_on j p.0)))) (in_force j) }
    ensures stands { (j : Journal) (source number : ℕ) → HasEntry j → automations j ≡ config.now.automations → book.StandsFor parts.old.switches j → book.StandsFor parts.new.switches (more j (Line source number Restart)) }
    ensures rest { parts.new ≡ record parts.old { switches = parts.new.switches } }
{
    let changed = moves_any(
        &parts.switches,
        parts.numbers.as_slice(),
        config.automations.as_slice(),
    );
    parts.switches.restart(config);
    changed
}

/// The numbers of the automations, of those of all units of a configuration.
pub(crate) fn rule_numbers<'a>(numbers: &'a Many<u32>, config: &Config) -> &'a [u32]
    requires { length config.now.automations ≤ length numbers.now }
    ensures { result.now ≡ take (length config.now.automations) numbers.now }
{
    &numbers.as_slice()[..config.automations.len()]
}

/// The entry that opens the next segment, behind the restart line that stands last.
fn make_again<'a>(
    alloc: Global,
    journal: &'a [Entry],
    bounds: Bounds,
    book: &'a UnitBook,
    runs: &'a NamedRuns,
    parts: &'a Parts,
    lasts: &[Option<Moment>],
) -> Result<Entry, AllocError>
    requires { ClosesWith journal.now bounds book.now runs.now parts.now lasts.now }
    ensures { IfOk result (λ entry. entry ≡ again_of journal.entry.now) }
{
    let config = book.configuration(journal);
    let last = runs.last_numbers(alloc)?;
    let rules = rule_numbers(&parts.numbers, config);
    let lasts = lasts_of_rules(alloc, lasts, book.firsts(), rules)?;
    let closing = Closing {
        journal,
        front: bounds.front,
        segments: bounds.segments,
        at: parts.at,
        config,
        runs: runs.table(),
        names: book.names().as_slice(),
        last: last.as_slice(),
        switches: &parts.switches,
        lasts: lasts.as_slice(),
    };
    again(alloc, &closing)
}

/// It is put there; there is room for it.
fn push_again(
    alloc: Global,
    journal: &mut Vec<Entry>,
    bounds: Bounds,
    book: &UnitBook,
    runs: &NamedRuns,
    parts: &Parts,
    lasts: &[Option<Moment>],
) -> Result<(), AllocError>
    requires stands { ClosesWith journal.old.items bounds book.now runs.now parts.now lasts.now }
    requires room { vec_len journal.old < vec_capacity journal.old }
    ensures put { OnOk result (journal.new.items ≡ more journal.old.items (again_of journal.old.items)) }
    ensures stays { OnErr result (journal.new.items ≡ journal.old.items) }
{
    let entry = make_again(alloc, journal.as_slice(), bounds, book, runs, parts, lasts)?;
    journal.push_reserved(entry);
    Ok(())
}

/// The last entry.
pub(crate) fn last_of(journal: &[Entry]) -> &Entry
    requires { 0 < length journal.now }
    ensures { (j : Journal) (x : Put) → journal.now ≡ more j x → result.now ≡ x }
{
    &journal[journal.len() - 1]
}

/// The switches that an opening behind a restart has.
fn stored_of(entry: &Entry) -> &Many<(Word, bool)>
    requires { (number : ℕ) × (start : ℕ) × (stored : List (Text × Bool)) × (carry : Handed) × (entry.now ≡ Again number start stored carry) }
    ensures { (number start : ℕ) (stored : List (Text × Bool)) (carry : Handed) → entry.now ≡ Again number start stored carry → result.now ≡ stored }
{
    match entry {
        Entry::Again { stored, .. } => stored,
        _ => unreachable!(),
    }
}

/// Those of the one that stands last.
fn stored_in(journal: &[Entry]) -> &Many<(Word, bool)>
    requires { (k : Journal) × (number : ℕ) × (start : ℕ) × (stored : List (Text × Bool)) × (carry : Handed) × (journal.now ≡ more k (Again number start stored carry)) }
    ensures { (k : Journal) (number start : ℕ) (stored : List (Text × Bool)) (carry : Handed) → journal.now ≡ more k (Again number start stored carry) → result.now ≡ stored }
{
    stored_of(last_of(journal))
}

/// The same zone once more.
fn same_zone(alloc: Global, zone: &Zone) -> Result<Zone, AllocError>
    ensures { IfOk result (λ z. z ≡ zone.now) }
{
    match Zone::read(alloc, zone.text()) {
        Ok(read) => Ok(read),
        Err(ClockFault::Memory) => Err(AllocError),
        Err(ClockFault::Text) => unreachable!(),
    }
}

/// What the next segment begins with, where nothing was changed yet.
pub(crate) struct Next {
    /// Where its units stand.
    book: UnitBook,
    parts: Parts,
    stack: Vec<Prepared>,
    /// Its units, by their names, for the table of runs.
    opening: Opening,
    lasts: Vec<Option<Moment>>,
}

/// The parts and the attempts of the opening that stands last, where these are the parts behind the restart.
fn open_parts<'a>(
    alloc: Global,
    journal: &'a [Entry],
    bounds: Bounds,
    book: &'a UnitBook,
    parts: &Parts,
    numbers: Many<u32>,
) -> Result<(Parts, Vec<Prepared>), AllocError>
    requires reopened { Reopened journal.now bounds parts.now.zone parts.now.at }
    requires holds { Holds journal.now (force (segment journal.now)) book.now }
    requires numbers { numbers ≡ numbers_in (segment journal.now) }
    ensures going { IfOk result (λ x. Going nobody (segment journal.entry.now) [] x.0) }
    ensures rested { IfOk result (λ x. x.0.rested.items ≡ trues 16) }
    ensures prepared { IfOk result (λ x. ArePrepared (segment journal.entry.now) (passing (segment journal.entry.now)) (from_end x.1.items)) }
{
    let segment = Behind::make(journal, bounds.front, bounds.base, book);
    let zone = same_zone(alloc, &parts.zone)?;
    let switches = Switches::restore(alloc, segment.configuration(), Some(stored_in(journal)))?;
    begin_parts(alloc, &segment, switches, zone, parts.at, numbers)
}

/// What the table of runs begins with, where the segment of the opening at a place has the units of a book.
fn open_runs(
    alloc: Global,
    journal: &[Entry],
    front: usize,
    book: &UnitBook,
) -> Result<Opening, AllocError>
    requires carried { (e : Put) × (slice_get journal.now front ≡ Some e) × BeginsSegment e }
    requires firsts { book.now.firsts.items ≡ firsts_of book.now.names }
    ensures opens { IfOk result (λ o. IsOpening o.firsts.items o.numbers o) }
    ensures firsts { IfOk result (λ o. o.firsts.items ≡ book.now.firsts.items) }
    ensures numbers { IfOk result (λ o. o.numbers ≡ map (λ name. unwrap_or (named name (numbers_at journal.now front)) 0) book.now.names) }
{
    let carried = carry_at(journal, front).numbers.as_slice();
    let numbers = numbers_by_name(alloc, book.names().as_slice(), carried)?;
    let opening = NamedRuns::opening(alloc, book.firsts(), numbers)?;
    Ok(opening)
}

/// What the opening that stands last begins, with room for its runs; `latest` is the place of the entry whose configuration is in force.
fn open_next(
    alloc: Global,
    journal: &[Entry],
    bounds: Bounds,
    latest: usize,
    runs: &mut NamedRuns,
    parts: &Parts,
) -> Result<Next, AllocError>
    requires reopened { Reopened journal.now bounds parts.now.zone parts.now.at }
    requires config { option_map (in_place_of (configured (segment journal.now))) (config_at journal.now latest) ≡ Some (configured (segment journal.now)) }
    requires sound { IfSome (config_at journal.now latest) IsSoundConfig }
    ensures list { runs.new.list ≡ runs.old.list }
    ensures closed { runs.new.closed ≡ runs.old.closed }
    ensures firsts { runs.new.firsts ≡ runs.old.firsts }
    ensures next { IfOk result (λ n. IsNextSegment journal.now runs.new.spare n) }
{
    let config = config_in(journal, latest);
    let numbers = first_numbers(alloc, unit_count(config))?;
    let book = UnitBook::open(alloc, journal, latest, &numbers)?;
    let opening = open_runs(alloc, journal, bounds.front, &book)?;
    let lasts = first_lasts(alloc, journal, bounds.front, &book)?;
    let (mut opened, stack) = open_parts(alloc, journal, bounds, &book, parts, numbers)?;
    make_room(runs, &mut opened, stack.len())?;
    Ok(Next {
        book,
        parts: opened,
        stack,
        opening,
        lasts,
    })
}

/// The segment is closed at the place of the restart, and the next one begins, with so many entries before it. Nothing wants memory any
/// more. The answer has its parts, where its units stand, when automations last triggered, and whether one now did at another moment.
fn turn_over(
    alloc: Global,
    runs: &mut NamedRuns,
    next: Next,
    place: u64,
    front: u64,
) -> (UnitBook, Parts, Vec<Option<Moment>>, bool)
    requires place { place < 2 ^ 56 }
    requires front { front < 2 ^ 63 }
    requires spare { vec_len next.stack ≤ runs.old.spare }
    requires room { HasRoom (vec_len next.stack) next.parts }
    requires opens { IsOpening next.opening.firsts.items next.opening.numbers next.opening }
    requires known { AreKnown (length next.opening.firsts.items) next.stack.items }
    ensures begun { (k : Journal) → IsBegun k → AreFirsts k next.opening.firsts.items → Going nobody k [] next.parts → next.parts.rested.items ≡ trues 16 → ArePrepared k (passing k) (from_end next.stack.items)
        → (runs.new.list ≡ records_of k) × Right k runs.new.list × Kept k runs.new.list result.1 }
    ensures closed { runs.new.closed ≡ record { records = all_of runs.old.closed (stopped None place Cause.Restarted runs.old.list); entries = front; numbers = next.opening.numbers } }
    ensures firsts { runs.new.firsts ≡ next.opening.firsts.items }
    ensures book { result.0 ≡ next.book }
    ensures lasts { result.2.items ≡ noted result.1.at runs.new.firsts runs.new.list next.lasts.items }
    ensures moved { result.3 ≡ moved_by result.1.at runs.new.firsts next.book.listed.items runs.new.list next.lasts.items }
{
    let Next {
        book,
        mut parts,
        stack,
        opening,
        mut lasts,
    } = next;
    runs.stop_all(None, place, EndCause::Restarted);
    runs.close(front, opening);
    admit_first(alloc, runs, &mut parts, stack);
    let moved = note_lasts(&mut lasts, book.listed(), runs, 0, parts.at);
    (book, parts, lasts, moved)
}

/// The configuration that the entry at a place brought into force.
fn config_in(journal: &[Entry], at: usize) -> &Config
    requires { IsSome (config_at journal.now at) }
    ensures { config_at journal.now at ≡ Some result.now }
{
    match config_at(journal, at) {
        Some(config) => config,
        None => unreachable!(),
    }
}

/// How many runs there are, of all segments.
fn count_runs(runs: &NamedRuns) -> u64
    ensures { result ≡ length (all_of runs.now.closed runs.now.list) }
{
    runs.all().len() as u64
}

/// A restart line was pushed, and there is room for one entry more: the segment is closed and the next one opened. The answer is whether
/// that changed a switch; `moved` then says whether it changed when an automation last triggered. After an error all but the parts and the
/// moments is as before, and these may only be dropped.
pub(crate) fn follow_restart(
    alloc: Global,
    journal: &mut Vec<Entry>,
    bounds: &mut Bounds,
    book: &mut UnitBook,
    runs: &mut NamedRuns,
    parts: &mut Parts,
    lasts: &mut Vec<Option<Moment>>,
    moved: &mut bool,
) -> Result<bool, AllocError>
    requires restarting { Restarting journal.old.items bounds.old book.old runs.old parts.old lasts.old.items }
    requires in_time { are_in_time lasts.old.items ≡ true }
    requires room { vec_len journal.old < vec_capacity journal.old }
    ensures put { OnOk result (journal.new.items ≡ more journal.old.items (again_of journal.old.items)) }
    ensures told { OnOk result (IsTold journal.new.items bounds.new book.new runs.new) }
    ensures followed { IfOk result (λ reset. IsFollowed journal.new.items book.new runs.new parts.new lasts.new.items reset) }
    ensures noted { OnOk result (AreNoted journal.new.items lasts.new.items moved.new) }
    ensures journal { OnErr result (journal.new.items ≡ journal.old.items) }
    ensures stays { OnErr result ((bounds.new ≡ bounds.old) × (book.new ≡ book.old) × (runs.new.list ≡ runs.old.list) × (runs.new.closed ≡ runs.old.closed) × (runs.new.firsts ≡ runs.old.firsts)) }
{
    let reset = reset_switches(parts, book.configuration(journal.as_slice()));
    push_again(alloc, journal, *bounds, book, runs, parts, lasts.as_slice())?;
    let front = journal.len() - 1;
    let behind = bounds.next(front, count_runs(runs));
    let next = match open_next(
        alloc,
        journal.as_slice(),
        behind,
        book.latest(),
        runs,
        parts,
    ) {
        Ok(next) => next,
        Err(error) => {
            drop_last(journal);
            return Err(error);
        }
    };
    let place = (front - 1 - bounds.front) as u64;
    let (opened, begun, known, changed) = turn_over(alloc, runs, next, place, front as u64);
    *book = opened;
    *parts = begun;
    *lasts = known;
    *moved = changed;
    *bounds = behind;
    Ok(reset)
}
