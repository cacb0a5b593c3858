//! The set of attached triggers.
ghost use Rattle.std.specs.Prelude.{◌≡◌, ◌↔◌, ◌≤◌, ◌<◌, ℕ, [], ◌∷◌, Option, IsNone, IsTrue, IfOk, OnOk, OnErr, Some, IsSome, MatchOption, length, true};
ghost use Rattle.ha_clock.specs.Local.{last_moment};
ghost use Rattle.ha_clock.specs.Zone.{zone_of};
ghost use Rattle.ha_journal.specs.Entries.{boot_of};
ghost use Rattle.ha_config.specs.declared.command.Cmd.TheVariants.{Report};
ghost use Rattle.ha_journal.specs.declared.entry.Entry.{Entry as Item};
ghost use Rattle.ha_journal.specs.declared.entry.Entry.TheVariants.{Line};
ghost use Rattle.ha_sight.specs.declared.state.StateObject.{StateObject as State};
ghost use Rattle.ha_journal.specs.Journal.{Journal, now as now_of, more};
ghost use Rattle.ha_sight.specs.Sight.{Sight};
ghost use Rattle.ha_config.specs.Sound.{are_sound_triggers};
ghost use Rattle.ha_past.specs.Firings.{Owner, owner_named, placed, without_owner, firings};
ghost use Rattle.trig_set.specs.Known.{IsFree};
ghost use Rattle.trig_set.specs.Left.{Leaves, NobodyRecent};
ghost use Rattle.trig_set.specs.Next.{IsNext};
ghost use Rattle.trig_set.specs.Opening.{Opens};
ghost use Rattle.trig_set.specs.Stands.{attached, StandsFor};

use crate::before::Before;
use crate::changes::Changes;
use crate::events::Events;
use crate::left::asked;
use crate::listed::list;
use crate::numbers::Numbers;
use crate::ordered::Owners;
use crate::owners::{fresh, unlist_attached};
use crate::recent::Recent;
use crate::scene::Scene;
use crate::shifts::shifts_of;
use event_bus::Index;
use ha_clock::{ClockFault, Moment, Zone};
use ha_config::Trigger;
use ha_journal::{BusEvent, Entry, Firing};
use ha_sight::Answers;
use ha_value::{EntityId, Many, Value, Word};
use std::alloc::{AllocError, Global};
use std::collections::BTreeMap;
use timer_queue::TimerQueue;

/// Triggers that are attached under owners, with what has to be known of the journal so far to tell what fires at its next entry.
#[derive(Drop)]
pub struct TrigSet {
    owners: Owners,
    /// Which owners each entity and each type of events concerns.
    index: Index,
    /// Those that no entry was noted with.
    recent: Recent,
    /// The earliest due of the holds of each owner that has some, under its number.
    queue: TimerQueue,
    /// Now.
    now: Moment,
    /// The Boot's, once it was noted.
    zone: Option<Zone>,
    numbers: Numbers,
}

impl TrigSet {
    /// No triggers; it stands for the empty journal.
    pub fn make(alloc: Global) -> TrigSet
        ensures empty { attached result ≡ [] }
        ensures stands { StandsFor result [] }
    {
        TrigSet {
            owners: Owners::make(alloc),
            index: Index::make(alloc),
            recent: Recent::make(alloc),
            queue: TimerQueue::make(alloc),
            now: Moment::at(0),
            zone: None,
            numbers: Numbers {
                entities: BTreeMap::new(alloc),
            },
        }
    }

    /// Attaches triggers under an owner. They fire at entries after `place`, a start trigger at that place too; the place is that of the
    /// next entry that is noted, or a later one. After an error the set is as before.
    pub fn attach(
        &mut self,
        alloc: Global,
        owner: u64,
        triggers: &Many<Trigger>,
        place: u64,
    ) -> Result<(), AllocError>
        requires fresh { IsNone (owner_named owner (attached self.old)) }
        requires sound { IsTrue (are_sound_triggers triggers.now) }
        ensures ok { OnOk result (attached self.new ≡ placed (record { owner = owner; triggers = triggers.now; since = place }) (attached self.old)) }
        ensures stands { OnOk result ((j : Journal) → StandsFor self.old j → length j ≤ place → StandsFor self.new j) }
        ensures err { OnErr result ((attached self.new ≡ attached self.old) × ((j : Journal) → StandsFor self.old j → StandsFor self.new j)) }
    {
        let attached = fresh(alloc, owner, triggers, place)?;
        let slice = triggers.as_slice();
        self.recent.put(owner, place)?;
        list(alloc, &mut self.index, slice, &attached.reads, owner)?;
        match self.owners.put_in(attached) {
            Ok(()) => Ok(()),
            Err(failed) => {
                unlist_attached(&mut self.index, &failed.value, owner);
                Err(AllocError)
            }
        }
    }

    /// Detaches the triggers of an owner, with their holds; of an owner that has none, nothing changes.
    pub fn detach(&mut self, owner: u64)
        ensures rest { attached self.new ≡ without_owner owner (attached self.old) }
        ensures stands { (j : Journal) → StandsFor self.old j → StandsFor self.new j }
    {
        self.owners.unlist(&mut self.index, owner);
        self.owners.take_out(owner);
        self.queue.remove(owner);
    }

    /// Detaches all triggers, with their holds.
    pub fn clear(&mut self)
        ensures empty { attached self.new ≡ [] }
        ensures stands { (j : Journal) → StandsFor self.old j → StandsFor self.new j }
    {
        self.owners.clear();
        self.index.clear();
        self.recent.clear();
        self.queue.clear();
    }

    /// The zone of a Boot is read.
    fn open(&mut self, alloc: Global, entry: &Entry) -> Result<(), AllocError>
        ensures rest { self.new ≡ record self.old { zone = self.new.zone } }
        ensures boot { OnOk result (MatchOption (boot_of entry.now) (self.new.zone ≡ self.old.zone) (λ b. IsSome (zone_of b.zone) → self.new.zone ≡ Some b.zone)) }
    {
        if let Entry::Boot { zone, .. } = entry {
            self.zone = match Zone::read(alloc, zone.bytes()) {
                Ok(zone) => Some(zone),
                Err(ClockFault::Text) => None,
                Err(ClockFault::Memory) => return Err(AllocError),
            };
        }
        Ok(())
    }

    /// The zone that an opening has is taken.
    fn set_zone(&mut self, alloc: Global, zone: &Zone) -> Result<(), AllocError>
        ensures rest { self.new ≡ record self.old { zone = self.new.zone } }
        ensures zone { OnOk result (self.new.zone ≡ Some zone.now) }
    {
        match Zone::read(alloc, zone.text()) {
            Ok(read) => self.zone = Some(read),
            Err(ClockFault::Text) => unreachable!(),
            Err(ClockFault::Memory) => return Err(AllocError),
        }
        Ok(())
    }

    /// Opens a journal in this zone: what fires there, in the order of the owners' numbers, and there of triggers. `answers` holds what is
    /// seen after the opening. What fires is the same, and the set stands alike, whatever the Boot says else. After an error the set may
    /// only be dropped.
    pub fn open_segment<A: Answers>(
        &mut self,
        alloc: Global,
        zone: &Zone,
        answers: &A,
    ) -> Result<Many<Firing>, AllocError>
        ensures kept { OnOk result (attached self.new ≡ attached self.old) }
        ensures fired { IfOk result (λ fired. (x : Item) → StandsFor self.old [] → Opens x zone.now (A.sight answers.now) → fired ≡ firings (x ∷ []) 0 (attached self.old)) }
        ensures stands { OnOk result ((x : Item) → StandsFor self.old [] → Opens x zone.now (A.sight answers.now) → StandsFor self.new (x ∷ [])) }
    {
        self.set_zone(alloc, zone)?;
        let mut fired = Many::make(alloc);
        self.owners.open_all(alloc, answers, &mut fired)?;
        self.recent.note(0);
        self.now = answers.now();
        Ok(fired)
    }

    /// None where the entity concerns nobody: no trigger is on it, no template reads it, no trigger asks a template at each entry, and
    /// nobody was attached since the last entry. Else a place for `Before::look_at`, at which `note` finds at once whom the entity concerns.
    pub fn asked(&self, entity: &EntityId) -> Option<usize>
        ensures left { IsNone result ↔ Leaves self.entry.now entity.now }
        ensures free { (j : Journal) → StandsFor self.entry.now j → NobodyRecent self.entry.now → IsNone result ↔ IsFree (attached self.entry.now) entity.now }
    {
        asked(&self.index, &self.recent, entity)
    }

    /// Notes the next entry, a report of an entity that concerns nobody, after which Now is `to`: nothing fires. It needs no states. After
    /// an error the set may only be dropped.
    pub fn note_left(
        &mut self,
        alloc: Global,
        entity: &EntityId,
        text: &Word,
        attributes: &Many<(Word, Value)>,
        to: Moment,
    ) -> Result<(), AllocError>
        requires left { Leaves self.old entity.now }
        ensures kept { attached self.new ≡ attached self.old }
        ensures fired { (j : Journal) (k n place : ℕ) (old : Option State) (seen : Sight) → StandsFor self.old j
            → IsNext j place (Line k n (Report entity.now text.now attributes.now)) ((entity.now, old) ∷ []) [] seen (attached self.old)
            → firings (more j (Line k n (Report entity.now text.now attributes.now))) place (attached self.old) ≡ [] }
        ensures stands { OnOk result ((j : Journal) (k n place : ℕ) (old : Option State) (seen : Sight) → StandsFor self.old j
            → IsNext j place (Line k n (Report entity.now text.now attributes.now)) ((entity.now, old) ∷ []) [] seen (attached self.old)
            → to ≡ now_of (more j (Line k n (Report entity.now text.now attributes.now)))
            → StandsFor self.new (more j (Line k n (Report entity.now text.now attributes.now)))) }
    {
        self.numbers.report(alloc, entity, text, attributes)?;
        self.now = to;
        Ok(())
    }

    /// Notes the next entry: what fires at it, in the order of the owners' numbers, and there of triggers and entities, or events. `before`
    /// has states before the entry, among them that of each entity whose state the entry changes; `events` has the events of helpers that it
    /// gives, in order, and not that of an event command or of a step that makes an event; `answers` holds what is seen after it. After an
    /// error the set may only be dropped.
    pub fn note<A: Answers>(
        &mut self,
        alloc: Global,
        place: u64,
        entry: &Entry,
        before: Before,
        events: &Many<BusEvent>,
        answers: &A,
    ) -> Result<Many<Firing>, AllocError>
        requires in_time { (A.sight answers.now).now ≤ last_moment }
        ensures kept { OnOk result (attached self.new ≡ attached self.old) }
        ensures fired { IfOk result (λ fired. (j : Journal) → StandsFor self.old j → IsNext j place entry.now before events.now (A.sight answers.now) (attached self.old)
            → fired ≡ firings (more j entry.now) place (attached self.old)) }
        ensures stands { OnOk result ((j : Journal) → StandsFor self.old j → IsNext j place entry.now before events.now (A.sight answers.now) (attached self.old)
            → StandsFor self.new (more j entry.now)) }
    {
        self.open(alloc, entry)?;
        let near = before.near();
        let listed = events.as_slice();
        let given = Events::make(alloc, listed)?;
        let shifts = shifts_of(alloc, entry, before, &given, answers)?;
        let changes = Changes::make(alloc, shifts.as_slice())?;
        let to = answers.now();
        let mut fired = Many::make(alloc);
        let scene = Scene {
            place,
            entry,
            shifts: &changes,
            events: &given,
            near,
            zone: self.zone.as_ref(),
            numbers: &self.numbers,
            from: self.now,
            to,
        };
        self.owners.note(
            alloc,
            &scene,
            answers,
            &self.index,
            &self.recent,
            &mut self.queue,
            &mut fired,
        )?;
        self.numbers.note(alloc, entry)?;
        self.recent.note(place);
        self.now = to;
        Ok(fired)
    }
}
