//! Attached triggers, with the states that the entries before leave.
ghost use Rattle.std.specs.Prelude.{◌≤◌, IsTrue};
ghost use Rattle.ha_clock.specs.Local.{last_moment};
ghost use Rattle.ha_config.specs.Sound.{are_sound_triggers};

use cond_eval::View;
use ha_clock::{Moment, Zone};
use ha_config::{Cmd, Config, Trigger};
use ha_journal::{Entry, Firing};
use ha_sight::StateObject;
use ha_value::{EntityId, Many, Num, Plain, Value, Word, push_value};
use state_table::StateTable;
use std::alloc::{AllocError, Global};
use trig_set::{Before, TrigSet};

// 2024-05-01T20:00:00Z
pub const EIGHT: u64 = 1_714_593_600_000;

/// What happens at one entry.
#[derive(Clone, Copy)]
pub enum Step<'a> {
    /// An entity is reported with a text.
    Says(&'a str, &'a str),
    /// The same, with the attribute `b`.
    Has(&'a str, &'a str, i64),
    Gone(&'a str),
    /// A restart, where this entity has a state, and no other.
    Restart(&'a str),
    /// An event of a type, with the number `n`.
    Event(&'a str, i64),
    /// The clock, in milliseconds after the start.
    Clock(u64),
}

/// An entry, and the indexes of the triggers that fire at it, in order.
#[derive(Clone, Copy)]
pub struct Expected<'a> {
    pub step: Step<'a>,
    pub fire: &'a [u32],
}

pub fn row<'a>(step: Step<'a>, fire: &'a [u32]) -> Expected<'a> {
    Expected { step, fire }
}

#[derive(Drop)]
pub struct Home {
    set: TrigSet,
    states: StateTable,
    zone: Zone,
    start: u64,
    now: u64,
    place: u64,
}

/// The entity of an id.
pub fn entity(alloc: Global, id: &str) -> Result<EntityId, AllocError> {
    match EntityId::read(alloc, id.as_bytes()) {
        Ok(entity) => Ok(entity),
        Err(_) => Err(AllocError),
    }
}

/// One pair of a name and a whole number.
fn pair(alloc: Global, name: &str, number: i64) -> Result<Many<(Word, Value)>, AllocError> {
    let mut pairs = Many::make(alloc);
    push_value(alloc, &mut pairs, name, Value::Number(Num::Whole(number)))?;
    Ok(pairs)
}

fn report(
    alloc: Global,
    id: &str,
    text: &str,
    attributes: Many<(Word, Value)>,
) -> Result<Cmd, AllocError> {
    Ok(Cmd::Report {
        entity: entity(alloc, id)?,
        text: Word::from_str(alloc, text)?,
        attributes,
    })
}

fn event(alloc: Global, kind: &str, number: i64) -> Result<Cmd, AllocError> {
    Ok(Cmd::Event {
        kind: Word::from_str(alloc, kind)?,
        pairs: pair(alloc, "n", number)?,
    })
}

/// A moment so many milliseconds after 1970; after the year 2999, that of 1970.
fn moment(millis: u64) -> Moment
    ensures { result ≤ last_moment }
{
    if millis <= 32_503_679_999_999 {
        Moment::at(millis)
    } else {
        Moment::at(0)
    }
}

/// A list of one entry.
fn entries(alloc: Global, entry: Entry) -> Result<Many<Entry>, AllocError> {
    let mut entries = Many::make(alloc);
    entries.push(entry)?;
    Ok(entries)
}

/// The command of a step.
fn command(alloc: Global, step: Step<'_>, now: u64) -> Result<Cmd, AllocError> {
    match step {
        Step::Says(id, text) => report(alloc, id, text, Many::make(alloc)),
        Step::Has(id, text, number) => report(alloc, id, text, pair(alloc, "b", number)?),
        Step::Gone(id) => Ok(Cmd::Gone {
            entity: entity(alloc, id)?,
        }),
        Step::Restart(_) => Ok(Cmd::Restart),
        Step::Event(kind, number) => event(alloc, kind, number),
        Step::Clock(_) => Ok(Cmd::Moment(moment(now))),
    }
}

/// The entry of a step.
fn line(alloc: Global, step: Step<'_>, now: u64) -> Result<Many<Entry>, AllocError> {
    match command(alloc, step, now) {
        Ok(cmd) => entries(
            alloc,
            Entry::Line {
                source: 0,
                number: 0,
                cmd,
            },
        ),
        Err(fault) => Err(fault),
    }
}

/// The entity whose state a step may change.
fn touched<'a>(step: Step<'a>) -> Option<&'a str> {
    match step {
        Step::Says(id, _) | Step::Has(id, _, _) | Step::Gone(id) | Step::Restart(id) => Some(id),
        Step::Event(_, _) | Step::Clock(_) => None,
    }
}

fn state_of(
    alloc: Global,
    states: &StateTable,
    entity: &EntityId,
) -> Result<Option<StateObject>, AllocError> {
    match states.get(entity) {
        Some(state) => Ok(Some(state.copy(alloc)?)),
        None => Ok(None),
    }
}

/// Whether these fired, by the indexes of their triggers, in this order.
fn are(fired: &[Firing], wanted: &[u32]) -> bool {
    if fired.len() != wanted.len() {
        return false;
    }
    for at in 0..fired.len() {
        if fired[at].trigger != wanted[at] {
            return false;
        }
    }
    true
}

impl Home {
    /// A home with attached triggers, before its boot.
    fn make(alloc: Global, zone: &str, start: u64, set: TrigSet) -> Result<Home, AllocError> {
        let Ok(zone) = Zone::read(alloc, zone.as_bytes()) else {
            return Err(AllocError);
        };
        Ok(Home {
            set,
            states: StateTable::make(alloc),
            zone,
            start,
            now: start,
            place: 0,
        })
    }

    /// What fires at the next entry.
    fn note(
        &mut self,
        alloc: Global,
        entries: &Many<Entry>,
        before: Before,
    ) -> Result<Many<Firing>, AllocError> {
        let automations = Many::make(alloc);
        let config = Config {
            automations,
            scripts: Many::make(alloc),
            helpers: Many::make(alloc),
        };
        let numbers = Many::make(alloc);
        let view = View::make(
            &self.states,
            &config,
            &numbers,
            &self.zone,
            moment(self.now),
        );
        let place = self.place;
        self.place = place.saturating_add(1);
        match entries.get(0) {
            Some(entry) => self
                .set
                .note(alloc, place, entry, before, &Many::make(alloc), &view),
            None => Ok(Many::make(alloc)),
        }
    }

    /// The entity that a step touches, with its state before.
    fn before(&self, alloc: Global, step: Step<'_>) -> Result<Before, AllocError> {
        let Some(id) = touched(step) else {
            return Ok(Before::make(alloc));
        };
        let entity = entity(alloc, id)?;
        let state = state_of(alloc, &self.states, &entity)?;
        Before::one(alloc, &entity, state)
    }

    /// The states after a report.
    fn reported(
        &mut self,
        alloc: Global,
        id: &str,
        text: &str,
        attributes: &Many<(Word, Value)>,
    ) -> Result<(), AllocError> {
        let entity = entity(alloc, id)?;
        let text = Word::from_str(alloc, text)?;
        self.states
            .report(alloc, &entity, &text, attributes, moment(self.now))?;
        Ok(())
    }

    /// The states and the clock after a step.
    fn go_on(&mut self, alloc: Global, step: Step<'_>) -> Result<(), AllocError> {
        match step {
            Step::Says(id, text) => self.reported(alloc, id, text, &Many::make(alloc))?,
            Step::Has(id, text, number) => {
                self.reported(alloc, id, text, &pair(alloc, "b", number)?)?;
            }
            Step::Gone(id) => {
                self.states.gone(&entity(alloc, id)?);
            }
            Step::Restart(_) => self.states.clear(),
            Step::Event(_, _) => {}
            Step::Clock(after) => self.now = self.start.saturating_add(after),
        }
        Ok(())
    }

    /// Whether these triggers fire at the opening of the journal, in this order.
    fn starts(&mut self, alloc: Global, wanted: &[u32]) -> Result<bool, AllocError> {
        let automations = Many::make(alloc);
        let config = Config {
            automations,
            scripts: Many::make(alloc),
            helpers: Many::make(alloc),
        };
        let numbers = Many::make(alloc);
        let view = View::make(
            &self.states,
            &config,
            &numbers,
            &self.zone,
            moment(self.start),
        );
        let fired = self.set.open_segment(alloc, &self.zone, &view)?;
        self.place = 1;
        Ok(are(fired.as_slice(), wanted))
    }

    /// Whether these triggers fire at the next entry, in this order.
    fn fires(&mut self, alloc: Global, row: &Expected<'_>) -> Result<bool, AllocError> {
        let before = self.before(alloc, row.step)?;
        self.go_on(alloc, row.step)?;
        let entries = line(alloc, row.step, self.now)?;
        let fired = self.note(alloc, &entries, before)?;
        Ok(are(fired.as_slice(), row.fire))
    }

    /// Whether exactly the wanted triggers fire at each of these entries.
    fn goes_on(&mut self, alloc: Global, rows: &[Expected<'_>]) -> Result<bool, AllocError> {
        for row in rows {
            if !self.fires(alloc, row)? {
                return Ok(false);
            }
        }
        Ok(true)
    }
}

/// The triggers, attached under owner 0 at the boot.
fn attached(alloc: Global, triggers: &Many<Trigger>) -> Result<TrigSet, AllocError>
    requires { IsTrue (are_sound_triggers triggers.now) }
{
    let mut set = TrigSet::make(alloc);
    set.attach(alloc, 0, triggers, 0)?;
    Ok(set)
}

/// The home before its boot, at which the triggers are attached.
fn home_with(
    alloc: Global,
    zone: &str,
    start: u64,
    triggers: &Many<Trigger>,
) -> Result<Home, AllocError>
    requires { IsTrue (are_sound_triggers triggers.now) }
{
    let set = attached(alloc, triggers)?;
    Home::make(alloc, zone, start, set)
}

/// Whether exactly the wanted triggers fire at the boot, and at each of these entries behind it.
pub fn goes(
    alloc: Global,
    zone: &str,
    start: u64,
    triggers: &Many<Trigger>,
    at_boot: &[u32],
    rows: &[Expected<'_>],
) -> Result<bool, AllocError>
    requires { IsTrue (are_sound_triggers triggers.now) }
{
    let mut home = home_with(alloc, zone, start, triggers)?;
    if !home.starts(alloc, at_boot)? {
        return Ok(false);
    }
    home.goes_on(alloc, rows)
}

/// Whether exactly the wanted triggers fire at each of these entries, from eight in the evening on, and none at the later ones, before
/// which they are detached: alone, or where `all` with all that are attached.
pub fn goes_until_detached(
    alloc: Global,
    triggers: &Many<Trigger>,
    rows: &[Expected<'_>],
    all: bool,
    later: &[Expected<'_>],
) -> Result<bool, AllocError>
    requires { IsTrue (are_sound_triggers triggers.now) }
{
    let mut home = home_with(alloc, "UTC", EIGHT, triggers)?;
    if !home.starts(alloc, &[])? || !home.goes_on(alloc, rows)? {
        return Ok(false);
    }
    if all {
        home.set.clear();
    } else {
        home.set.detach(0);
    }
    home.goes_on(alloc, later)
}

/// The same, from eight in the evening on, in UTC, where none fires at the boot.
pub fn goes_at_eight(
    alloc: Global,
    triggers: &Many<Trigger>,
    rows: &[Expected<'_>],
) -> Result<bool, AllocError>
    requires { IsTrue (are_sound_triggers triggers.now) }
{
    goes(alloc, "UTC", EIGHT, triggers, &[], rows)
}

/// Whether exactly the wanted triggers, which are attached at a place, fire at each of these entries, from eight in the evening on.
pub fn goes_from(
    alloc: Global,
    triggers: &Many<Trigger>,
    place: u64,
    rows: &[Expected<'_>],
) -> Result<bool, AllocError>
    requires { IsTrue (are_sound_triggers triggers.now) }
{
    let mut set = TrigSet::make(alloc);
    set.attach(alloc, 0, triggers, place)?;
    let mut home = Home::make(alloc, "UTC", EIGHT, set)?;
    if !home.starts(alloc, &[])? {
        return Ok(false);
    }
    home.goes_on(alloc, rows)
}

/// Whether exactly the wanted triggers fire at each of these entries, and at the later ones, before which they are attached again.
pub fn goes_again(
    alloc: Global,
    triggers: &Many<Trigger>,
    rows: &[Expected<'_>],
    later: &[Expected<'_>],
) -> Result<bool, AllocError>
    requires { IsTrue (are_sound_triggers triggers.now) }
{
    let mut home = home_with(alloc, "UTC", EIGHT, triggers)?;
    if !home.starts(alloc, &[])? || !home.goes_on(alloc, rows)? {
        return Ok(false);
    }
    home.set.clear();
    let place = home.place;
    home.set.attach(alloc, 0, triggers, place)?;
    home.goes_on(alloc, later)
}
