//! What an opening begins, and the engine after its first entry, the boot.
ghost use Rattle.std.specs.Prelude.{◌≡◌, ◌<◌, ◌≤◌, ◌^◌, ◌∷◌, [], None, Some, false, map, slice_get, IfOk, IsSome, OnOk, length, vec_len};
ghost use Rattle.std.specs.Option.{option_map_or};
ghost use Rattle.ha_value.specs.declared.value.EntityId.{EntityId as Id};
ghost use Rattle.ha_sight.specs.StateStep.{next_object};
ghost use Rattle.helper_set.specs.Kept as helped;
ghost use Rattle.state_table.specs.Table.{at};
ghost use Rattle.engine_parts.specs.Texts.{first_change, first_of};
ghost use Rattle.ha_clock.specs.Local.{last_moment};
ghost use Rattle.ha_clock.specs.Zone.{zone_of};
ghost use Rattle.ha_journal.specs.declared.entry.Entry.{Entry as Item};
ghost use Rattle.ha_journal.specs.declared.entry.Entry.TheVariants.{Boot};
ghost use Rattle.ha_journal.specs.Attempts.{fired as fired_lem, passing};
ghost use Rattle.ha_journal.specs.Entries.{BeginsSegment, first_carry};
ghost use Rattle.ha_journal.specs.Journal.{Journal, automations, last_place};
ghost use Rattle.ha_model.specs.Records.{records_of};
ghost use Rattle.ha_model.specs.Lawful.{Right};
ghost use Rattle.ha_config.specs.Names.{of_automations};
ghost use Rattle.ha_config.specs.Sound.{AreSoundMoments, IsSoundConfig};
ghost use Rattle.trig_set.specs.Stands.{StandsFor, attached};
ghost use Rattle.ha_whole.specs.Whole.{Right as RightWhole, records_of as records_whole};
ghost use Rattle.ha_engine.specs.Admits.{ArePrepared, from_end};
ghost use Rattle.ha_engine.specs.Begun.{Begun, BegunWith, Boots, IsBegun, trues};
ghost use Rattle.ha_engine.specs.Noted.{known_lasts};
ghost use Rattle.ha_engine.specs.Reloads.{lasts_at};
ghost use Rattle.segment_carry.specs.ByName.{rule_order};
ghost use Rattle.engine_parts.specs.Kept.{Going, Kept, nobody};
ghost use Rattle.ha_config.specs.Units.{units_of};
ghost use Rattle.ha_config.specs.Words.{up_to};
ghost use Rattle.ha_journal.specs.Force.{force};
ghost use Rattle.ha_engine.specs.Named.{AreFirsts, AreKnown};
ghost use Rattle.unit_book.specs.Book.{Holds};
ghost use Rattle.engine_parts.specs.Numbers.{numbers_in};
ghost use Rattle.engine_parts.specs.Owners.{attempts_by};
ghost use Rattle.engine_parts.specs.Records.{HasRoom};

use crate::admit::{Prepared, admit_all};
use crate::bounds::Bounds;
use crate::carried::carry_at;
use crate::conclude::{drop_refused, make_room};
use crate::engine::Machine;
use crate::lasts::{known_moments, lasts_by_name, note_lasts};
use crate::prepare::prepare_opening;
use engine_entry::open::open_all;
use engine_parts::parts::Parts;
use engine_parts::ready::Ready;
use engine_parts::slots::Slots;
use engine_parts::texts::{first_all, tell_all};
use ha_clock::{ClockFault, Moment, Zone};
use ha_config::{Config, Helper};
use ha_journal::{Carry, Entry, Firing};
use ha_value::{Boxed, Many, Word};
use helper_set::Helpers;
use named_runs::NamedRuns;
use script_calls::{Calls, Seeing};
use segment_carry::rule_order;
use segment_view::Behind;
use state_table::StateTable;
use std::alloc::{AllocError, Global};
use switch_book::Switches;
use timer_queue::TimerQueue;
use trig_set::TrigSet;
use unit_book::UnitBook;
use wait_set::Waits;

/// The zone of a text that can be read.
fn read_zone(alloc: Global, zone: &Word) -> Result<Zone, AllocError>
    requires { IsSome (zone_of zone.now) }
    ensures { IfOk result (λ z. z ≡ zone.now) }
{
    match Zone::read(alloc, zone.bytes()) {
        Ok(read) => Ok(read),
        Err(ClockFault::Memory) => Err(AllocError),
        Err(ClockFault::Text) => unreachable!(),
    }
}

/// The journal of the boot alone.
fn first_journal(
    alloc: Global,
    text: Word,
    config: Config,
    stored: Option<Many<(Word, bool)>>,
    start: Moment,
    zone: Word,
    carry: Boxed<Carry>,
) -> Result<Vec<Entry>, AllocError>
    ensures { IfOk result (λ j. j.items ≡ Boot text config stored start zone carry ∷ []) }
{
    let mut journal = Vec::new(alloc);
    journal.push(Entry::Boot {
        text,
        config,
        stored,
        start,
        zone,
        carry,
    })?;
    Ok(journal)
}

/// The states of the helpers at the opening.
fn first_states(alloc: Global, helpers: &[Helper], start: Moment) -> Result<StateTable, AllocError>
    ensures { IfOk result (λ table. (e : Id) → at table e ≡ option_map_or (λ c. Some (next_object None c.text [] start)) (first_of (map first_change helpers.now) e) None) }
{
    let mut states = StateTable::make(alloc);
    let changes = first_all(alloc, helpers)?;
    let firsts = changes.as_slice();
    tell_all(&mut states, alloc, firsts, start)?;
    Ok(states)
}

/// The helpers have their first states, and all automations are set.
fn open_first(
    alloc: Global,
    journal: &Behind<'_>,
    switches: &Switches,
    zone: &Zone,
    start: Moment,
) -> Result<(StateTable, TrigSet), AllocError>
    requires { Begun journal.now switches.now zone.now start }
    ensures { IfOk result (λ x. BegunWith journal.now switches.now zone.now start x.0 x.1) }
{
    let mut states = first_states(
        alloc,
        journal.first_configuration().helpers.as_slice(),
        start,
    )?;
    let mut triggers = TrigSet::make(alloc);
    open_all(
        &mut states,
        &mut triggers,
        alloc,
        switches,
        journal.configuration().automations.as_slice(),
        0,
        start,
    )?;
    Ok((states, triggers))
}

/// The triggers are told of the opening.
fn note_first<'a>(
    triggers: &mut TrigSet,
    alloc: Global,
    journal: &'a Behind<'_>,
    switches: &'a Switches,
    states: &'a StateTable,
    numbers: &'a Many<u32>,
    helpers: &'a Helpers,
    zone: &'a Zone,
    start: Moment,
) -> Result<Many<Firing>, AllocError>
    requires begun { BegunWith journal.now switches.now zone.now start states.now triggers.old }
    requires helpers { helped.StandsFor helpers.now journal.now }
    requires numbers { numbers.now ≡ numbers_in journal.now }
    ensures attached { OnOk result (attached triggers.new ≡ attached triggers.old) }
    ensures stands { OnOk result (StandsFor triggers.new journal.entry.now) }
    ensures fired { IfOk result (λ fired. attempts_by fired ≡ fired_lem journal.entry.now (last_place journal.entry.now)) }
{
    let view = Seeing::make(
        states,
        journal.configuration(),
        numbers,
        zone,
        start,
        helpers,
    );
    // The borrow checker builds its plan only where a place has the type that the view holds.
    let _ = &view.view;
    let fired = triggers.open_segment(alloc, zone, &view)?;
    Ok(fired)
}

/// All sources are rested.
fn all_rested(alloc: Global) -> Result<Vec<bool>, AllocError>
    ensures { IfOk result (λ v. v.items ≡ trues 16) }
{
    let mut flags = Vec::new(alloc);
    'sources: for _at in 0..16u32 {
        flags.push(true)?;
    }
    Ok(flags)
}

/// The parts, and what fires at the opening.
fn first_parts(
    alloc: Global,
    journal: &Behind<'_>,
    switches: Switches,
    zone: Zone,
    start: Moment,
    numbers: Many<u32>,
) -> Result<(Parts, Many<Firing>), AllocError>
    requires begun { Begun journal.now switches zone start }
    requires numbers { numbers ≡ numbers_in journal.now }
    ensures going { IfOk result (λ x. Going nobody journal.now [] x.0) }
    ensures rested { IfOk result (λ x. x.0.rested.items ≡ trues 16) }
    ensures fired { IfOk result (λ x. attempts_by x.1 ≡ fired_lem journal.now (last_place journal.now)) }
{
    let (states, mut triggers) = open_first(alloc, journal, &switches, &zone, start)?;
    let helpers = Helpers::make(alloc, journal.first_configuration())?;
    let fired = note_first(
        &mut triggers,
        alloc,
        journal,
        &switches,
        &states,
        &numbers,
        &helpers,
        &zone,
        start,
    )?;
    let rested = all_rested(alloc)?;
    let given = Many::make(alloc);
    let waits = Waits::make(alloc);
    let calls = Calls::make(alloc);
    let frames = Slots::make(alloc);
    let delays = TimerQueue::make(alloc);
    let free = numbers.len() as u32;
    let parts = Parts {
        at: start,
        zone,
        numbers,
        free,
        ascending: true,
        states,
        helpers,
        given,
        switches,
        triggers,
        waits,
        calls,
        frames,
        delays,
        ready: Ready {
            pairs: Vec::new(alloc),
        },
        rested,
        changed: true,
    };
    Ok((parts, fired))
}

/// The parts behind an opening, and the attempts that it makes.
pub(crate) fn begin_parts(
    alloc: Global,
    journal: &Behind<'_>,
    switches: Switches,
    zone: Zone,
    start: Moment,
    numbers: Many<u32>,
) -> Result<(Parts, Vec<Prepared>), AllocError>
    requires begun { Begun journal.now switches zone start }
    requires numbers { numbers ≡ numbers_in journal.now }
    ensures going { IfOk result (λ x. Going nobody journal.now [] x.0) }
    ensures rested { IfOk result (λ x. x.0.rested.items ≡ trues 16) }
    ensures prepared { IfOk result (λ x. ArePrepared journal.now (passing journal.now) (from_end x.1.items)) }
{
    let (parts, fired) = first_parts(alloc, journal, switches, zone, start, numbers)?;
    let stack = prepare_opening(alloc, journal, &parts, fired)?;
    Ok((parts, stack))
}

/// The attempts of an opening are made, for which there is room: behind it no run is there yet.
pub(crate) fn admit_first(
    alloc: Global,
    runs: &mut NamedRuns,
    parts: &mut Parts,
    stack: Vec<Prepared>,
)
    requires none { runs.old.list ≡ [] }
    requires spare { vec_len stack ≤ runs.old.spare }
    requires room { HasRoom (vec_len stack) parts.old }
    requires known { AreKnown (length runs.old.firsts) stack.items }
    ensures begun { (k : Journal) → IsBegun k → AreFirsts k runs.old.firsts → Going nobody k [] parts.old → parts.old.rested.items ≡ trues 16 → ArePrepared k (passing k) (from_end stack.items)
        → (runs.new.list ≡ records_of k) × Right k runs.new.list × Kept k runs.new.list parts.new }
    ensures closed { runs.new.closed ≡ runs.old.closed }
    ensures firsts { runs.new.firsts ≡ runs.old.firsts }
{
    admit_all(runs, parts, alloc, 0, stack);
    drop_refused(parts, 0);
}

/// The runs and the parts behind the boot.
fn begin(
    alloc: Global,
    journal: &Behind<'_>,
    firsts: &[u32],
    switches: Switches,
    zone: Zone,
    start: Moment,
    numbers: Many<u32>,
) -> Result<(NamedRuns, Parts), AllocError>
    requires begun { Begun journal.now switches zone start }
    requires numbers { numbers ≡ numbers_in journal.now }
    requires firsts { AreFirsts journal.now firsts.now }
    ensures runs { IfOk result (λ x. x.0.list ≡ records_of journal.now) }
    ensures right { IfOk result (λ x. Right journal.now x.0.list) }
    ensures kept { IfOk result (λ x. Kept journal.now x.0.list x.1) }
    ensures closed { IfOk result (λ x. x.0.closed ≡ record { records = []; entries = 0; numbers = [] }) }
    ensures firsts { IfOk result (λ x. x.0.firsts ≡ firsts.now) }
{
    let (mut parts, stack) = begin_parts(alloc, journal, switches, zone, start, numbers)?;
    let mut runs = NamedRuns::make(alloc, firsts)?;
    make_room(&mut runs, &mut parts, stack.len())?;
    admit_first(alloc, &mut runs, &mut parts, stack);
    Ok((runs, parts))
}

/// The same, of the list of all entries, which is the boot alone.
fn begin_first<'a>(
    alloc: Global,
    journal: &'a [Entry],
    book: &'a UnitBook,
    switches: Switches,
    zone: Zone,
    start: Moment,
    numbers: Many<u32>,
) -> Result<(NamedRuns, Parts), AllocError>
    requires begun { Begun journal.now switches zone start }
    requires numbers { numbers ≡ numbers_in journal.now }
    requires holds { Holds journal.now (force journal.now) book.now }
    ensures runs { IfOk result (λ x. x.0.list ≡ records_of journal.entry.now) }
    ensures right { IfOk result (λ x. Right journal.entry.now x.0.list) }
    ensures kept { IfOk result (λ x. Kept journal.entry.now x.0.list x.1) }
    ensures closed { IfOk result (λ x. x.0.closed ≡ record { records = []; entries = 0; numbers = [] }) }
    ensures firsts { IfOk result (λ x. x.0.firsts ≡ book.now.firsts.items) }
{
    let segment = Behind::make(journal, 0, 0, book);
    begin(
        alloc,
        &segment,
        book.firsts(),
        switches,
        zone,
        start,
        numbers,
    )
}

/// How many units a configuration has.
pub(crate) fn unit_count(config: &Config) -> usize
    requires { length (units_of config.now) ≤ 2_048 }
    ensures count { result ≡ length (units_of config.now) }
    ensures few { result ≤ 2_048 }
{
    config.automations.len() + config.scripts.len()
}

/// The numbers from 0 on.
pub(crate) fn first_numbers(alloc: Global, count: usize) -> Result<Many<u32>, AllocError>
    requires { count < 2 ^ 32 }
    ensures { IfOk result (λ numbers. numbers ≡ up_to count) }
{
    let mut numbers = Many::with_room(alloc, count)?;
    'each: for at in 0..count {
        numbers.push(at as u32)?;
    }
    Ok(numbers)
}

/// The moments that the opening at a place takes over, by the names of its units.
pub(crate) fn first_lasts(
    alloc: Global,
    journal: &[Entry],
    front: usize,
    book: &UnitBook,
) -> Result<Vec<Option<Moment>>, AllocError>
    requires { (e : Item) × (slice_get journal.now front ≡ Some e) × BeginsSegment e }
    ensures { IfOk result (λ lasts. lasts.items ≡ known_lasts [] book.now.names (lasts_at journal.now front)) }
{
    let carried = carry_at(journal, front).last.as_slice();
    let lasts = lasts_by_name(alloc, &[], book.names().as_slice(), carried)?;
    Ok(lasts)
}

/// The machine whose journal is the boot alone.
fn first_machine(
    alloc: Global,
    journal: Vec<Entry>,
    switches: Switches,
    zone: Zone,
    start: Moment,
    order: Many<u32>,
    numbers: Many<u32>,
) -> Result<Machine, AllocError>
    requires boots { Boots journal.items switches zone start }
    requires order { order ≡ rule_order (automations journal.items) }
    requires numbers { numbers ≡ numbers_in journal.items }
    ensures entries { IfOk result (λ e. e.entries ≡ journal.items) }
    ensures runs { IfOk result (λ e. e.runs ≡ records_whole journal.items) }
    ensures right { IfOk result (λ e. RightWhole e.entries e.runs) }
    ensures spent { IfOk result (λ e. e.is_spent ≡ false) }
{
    let book = UnitBook::open(alloc, journal.as_slice(), 0, &numbers)?;
    let mut lasts = first_lasts(alloc, journal.as_slice(), 0, &book)?;
    let (runs, parts) = begin_first(
        alloc,
        journal.as_slice(),
        &book,
        switches,
        zone,
        start,
        numbers,
    )?;
    let moved = note_lasts(&mut lasts, book.listed(), &runs, 0, start);
    Ok(Machine {
        alloc,
        journal,
        book,
        runs,
        parts,
        lasts,
        order,
        bounds: Bounds::first(),
        reloads: 0,
        reset: true,
        moved,
        kept: None,
        spent: false,
    })
}

impl Machine {
    /// The machine after its first entry, the boot: the switches are the initial ones, else those stored, else on, and start triggers fire.
    /// `zone` is `UTC`, an offset or a POSIX rule text. Of the moments at which automations last triggered those are taken over whose names
    /// automations have. The error is want of memory alone.
    pub fn boot(
        alloc: Global,
        text: Word,
        config: Config,
        stored: Option<Many<(Word, bool)>>,
        start: Moment,
        zone: Word,
        last: Many<(Word, Moment)>,
    ) -> Result<Machine, AllocError>
        requires config { IsSoundConfig config }
        requires zone { IsSome (zone_of zone) }
        requires start { start ≤ last_moment }
        requires last { AreSoundMoments last }
        ensures entries { IfOk result (λ e. e.entries ≡ Boot text config stored start zone (first_carry (of_automations config.automations last)) ∷ []) }
        ensures runs { IfOk result (λ e. e.runs ≡ records_whole (Boot text config stored start zone (first_carry (of_automations config.automations last)) ∷ [])) }
        ensures right { IfOk result (λ e. RightWhole e.entries e.runs) }
        ensures spent { IfOk result (λ e. e.is_spent ≡ false) }
    {
        let read = read_zone(alloc, &zone)?;
        let switches = Switches::restore(alloc, &config, stored.as_ref())?;
        let automations = config.automations.as_slice();
        let known = known_moments(alloc, automations, last.as_slice())?;
        let order = rule_order(alloc, automations)?;
        let numbers = first_numbers(alloc, unit_count(&config))?;
        let carry = Carry::first(alloc, known)?;
        let journal = first_journal(alloc, text, config, stored, start, zone, carry)?;
        let machine = first_machine(alloc, journal, switches, read, start, order, numbers)?;
        Ok(machine)
    }
}
