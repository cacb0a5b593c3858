//! The set of pending and ended waits.
ghost use Rattle.std.specs.Prelude.{◌≡◌, ◌≤◌, ◌<◌, ◌-◌, suc, take, drop, filter, not, vec_capacity, [], ◌∷◌, ◌++◌, All, Bool, IfOk, IfSome, IsNone, OnOk, OnErr, None, Some, true, false, length, nat_eq, is_none, is_some, option_map, ◌||◌, ◌&&◌, ℕ};
ghost use Rattle.std.specs.List.{list_any};
ghost use Rattle.ha_value.specs.declared.value.EntityId.{EntityId as Entity};
ghost use Rattle.ha_config.specs.Words.{same_entity};
ghost use Rattle.ha_journal.specs.declared.entry.Entry.{Entry};
ghost use Rattle.ha_journal.specs.Journal.{HasEntry, Journal, more};
ghost use Rattle.ha_sight.specs.Scripts.{Branch as Path};
ghost use Rattle.wait_set.specs.declared.asked.Asked.{Asked as Wait};
ghost use Rattle.wait_set.specs.Asked.{added, end_of, finished, is_bare, is_of, noted, owners_ended, owners_of, wait_of, without_run};
ghost use Rattle.wait_set.specs.Concern.{Ascend, has};
ghost use Rattle.wait_set.specs.Readers.{is_reader};
ghost use Rattle.wait_set.specs.Stands.{IsNext, StandsFor};
ghost use Rattle.wait_set.specs.Tested.{TestedOrQuiet, TestedOrSpared};
ghost use Rattle.wait_set.specs.Runs.{AllBefore, AreUnlisted, IsPaired, has_pair};
ghost use Rattle.wait_set.specs.Timers.{AreFound, AreKept, AreTimed, timer_added};
ghost use Rattle.timer_queue.specs.Timers.{due_of};

use crate::asked::{Asked, is_of};
use crate::note::note_entry;
use crate::pending::{Pending, list_ask, settle};
use crate::readers::Readers;
use crate::runs::{ask_of, next_place, owner_from, owner_in, place_in_branch, unlist};
use crate::tested::{add_readers, tested_from};
use ha_clock::Moment;
use ha_journal::Firing;
use ha_sight::{Answers, Branch, Ended, WaitAsk, WaitEnd};
use ha_value::{EntityId, Many};
use std::alloc::{AllocError, Global};
use std::collections::BTreeSet;
use std::marker::Model;
use timer_queue::TimerQueue;

/// The waits of all runs, in the order in which they were asked for; who owns those that ended at
/// the entry noted last; what is kept of those that have not ended; and whether each one's owner
/// is known to be less than those of later ones.
#[derive(Drop)]
pub struct Waits {
    asks: Vec<Asked>,
    fresh: Vec<u64>,
    pending: Pending,
    ordered: bool,
}

impl Model for Waits {
    ghost use Rattle.std.specs.Coded.{codes};
    ghost use Rattle.ha_value.specs.contracts.value.Value as value;
    ghost use Rattle.ha_config.specs.contracts.template.Expr as expr;
    ghost use Rattle.ha_config.specs.contracts.template.Piece as piece;
    ghost use Rattle.ha_config.specs.contracts.template.Template as template;
    ghost use Rattle.wait_set.specs.Asked.{WaitTable};

    ghost Value = { WaitTable };

    ghost coded = { Prim.hlevel (codes, value.the_row.coded, expr.the_row.coded, piece.the_row.coded, template.the_row.coded) };

    ghost use Rattle.wait_set.specs.Timers.{AreKept};

    ghost view = { λ w. record { asks = w.asks.items; fresh = w.fresh.items } };

    ghost invariant = { λ w. AreKept w.asks.items w.pending.timers w.pending.readers w.pending.runs w.ordered };
}

impl Waits {
    /// No waits.
    pub fn make(alloc: Global) -> Waits
        ensures asks { result.asks ≡ [] }
        ensures fresh { result.fresh ≡ [] }
        ensures stands { (j : Journal) → StandsFor result.asks j }
    {
        Waits {
            asks: Vec::new(alloc),
            fresh: Vec::new(alloc),
            pending: Pending {
                timers: TimerQueue::make(alloc),
                readers: Readers::make(alloc),
                runs: BTreeSet::new(alloc),
            },
            ordered: true,
        }
    }

    /// A wait, asked for by the step at `place`; its triggers are attached under `owner`. An ended
    /// wait of its run and branch gives way to it. After an error all is as before.
    pub fn add(
        &mut self,
        alloc: Global,
        ask: WaitAsk,
        owner: u64,
        place: u64,
    ) -> Result<(), AllocError>
        requires owner { list_any (λ a. nat_eq a.owner owner) self.old.asks ≡ false }
        requires pending { list_any (λ a. is_of ask.serial ask.branch a && is_none a.end) self.old.asks ≡ false }
        ensures ok { OnOk result (self.new.asks ≡ added (record { owner = owner; place = place; ask = ask; end = None }) self.old.asks) }
        ensures fresh { self.new.fresh ≡ self.old.fresh }
        ensures err { OnErr result (self.new.asks ≡ self.old.asks) }
        ensures stands { OnOk result ((j : Journal) → HasEntry j → StandsFor self.old.asks j → place ≡ length j → StandsFor self.new.asks j) }
    {
        let ordered = stay_ordered(self.ordered, self.asks.as_slice(), owner);
        list_ask(&mut self.pending, alloc, &ask, owner)?;
        add_one(
            &mut self.asks,
            &mut self.pending.timers,
            &mut self.pending.runs,
            Asked {
                owner,
                place,
                ask,
                end: None,
            },
            self.ordered,
        )?;
        self.ordered = ordered;
        Ok(())
    }

    /// The owners of the waits whose templates the next entry tests, where it changes no state: of
    /// those whose templates' entities are not all written in them, and of those that have an owner
    /// from `from` on, with which no entry was noted yet.
    pub fn tested(&self, alloc: Global, from: u64) -> Result<BTreeSet<u64>, AllocError>
        ensures { IfOk result (λ tested. All (TestedOrSpared from (λ e. false) (has tested)) self.now.asks) }
    {
        let tested = tested_from(
            alloc,
            self.asks.as_slice(),
            &self.pending.readers,
            self.ordered,
            from,
        )?;
        Ok(tested)
    }

    /// Adds those whose templates read an entity whose state it changes.
    pub fn add_readers(
        &self,
        entity: &EntityId,
        tested: &mut BTreeSet<u64>,
    ) -> Result<(), AllocError>
        ensures { OnOk result ((from : ℕ) (changes : Entity → Bool) → All (TestedOrSpared from changes (has tested.old)) self.now.asks
            → All (TestedOrSpared from (λ e. same_entity entity.now e || changes e) (has tested.new)) self.now.asks) }
    {
        add_readers(self.asks.as_slice(), &self.pending.readers, entity, tested)?;
        Ok(())
    }

    /// Notes the next entry, where `answers` holds what is seen after it, and `fired` what fires
    /// at it, of other owners too. Of templates it asks those of the owners in `tested` alone. After
    /// an error the set may only be dropped.
    pub fn note<A: Answers>(
        &mut self,
        alloc: Global,
        place: u64,
        tested: &BTreeSet<u64>,
        fired: &Many<Firing>,
        answers: &A,
    ) -> Result<(), AllocError>
        requires quiet { All (TestedOrQuiet (A.sight answers.now) (has tested.now)) self.old.asks }
        ensures ok { OnOk result (self.new.asks ≡ noted place (A.sight answers.now) fired.now self.old.asks) }
        ensures fresh { OnOk result (self.new.fresh ≡ owners_ended place (A.sight answers.now) fired.now self.old.asks) }
        ensures told { OnOk result ((serial : ℕ) (branch : Path) (a : Wait) → wait_of serial branch self.old.asks ≡ Some a
            → is_some (end_of self.new.asks serial branch) ≡ (is_some (end_of self.old.asks serial branch) || list_any (nat_eq a.owner) self.new.fresh)) }
        ensures stands { OnOk result ((j : Journal) (x : Entry) → StandsFor self.old.asks j → IsNext j place x (A.sight answers.now) fired.now self.old.asks → StandsFor self.new.asks (more j x)) }
    {
        self.fresh.clear();
        note_entry(
            alloc,
            &mut self.asks,
            &mut self.fresh,
            &mut self.pending,
            self.ordered,
            place,
            tested,
            fired,
            answers,
        )?;
        Ok(())
    }

    /// The owners of the waits that ended at the entry noted last, in the order in which they were
    /// asked for.
    pub fn ended_now(&self) -> &[u64]
        ensures { result.now ≡ self.now.fresh }
    {
        self.fresh.as_slice()
    }

    /// The owner of a run's first wait from a place on, and the place behind that wait: so the
    /// owners of all its waits are found in order, from place 0 on.
    pub fn owner_from(&self, serial: u64, from: usize) -> Option<(u64, usize)>
        ensures first { IfSome result (λ found. owners_of serial (drop from self.now.asks) ≡ found.0 ∷ owners_of serial (drop found.1 self.now.asks)) }
        ensures behind { IfSome result (λ found. (from < found.1) × (found.1 ≤ length self.now.asks)) }
        ensures none { IsNone result → owners_of serial (drop from self.now.asks) ≡ [] }
    {
        owner_from(
            self.asks.as_slice(),
            &self.pending.runs,
            self.ordered,
            serial,
            from,
        )
    }

    /// The owner of the wait of a run in a branch, if there is one.
    pub fn owner_of(&self, serial: u64, branch: &Branch) -> Option<u64>
        ensures { result ≡ option_map (λ a. a.owner) (wait_of serial branch.now self.now.asks) }
    {
        let found = ask_of(
            self.asks.as_slice(),
            &self.pending.runs,
            self.ordered,
            serial,
            branch,
        );
        match found {
            Some(asked) => Some(asked.owner),
            None => None,
        }
    }

    /// The run that this one's call in this branch waits for has ended at a place: so has the wait, where it is pending and bare. Takes no
    /// memory.
    pub fn finish(&mut self, serial: u64, branch: &Branch, place: u64)
        ensures asks { self.new.asks ≡ finished serial branch.now place self.old.asks }
        ensures fresh { self.new.fresh ≡ self.old.fresh }
        ensures stands { (j : Journal) (a : Wait) → wait_of serial branch.now self.old.asks ≡ Some a → is_bare a.ask ≡ true → a.place < length j
            → StandsFor self.old.asks j → StandsFor self.new.asks j }
    {
        finish_one(
            &mut self.asks,
            &mut self.pending,
            self.ordered,
            serial,
            branch,
            place,
        );
    }

    /// The waits of the run with this serial go. Takes no memory.
    pub fn drop_run(&mut self, serial: u64)
        ensures rest { self.new.asks ≡ without_run serial self.old.asks }
        ensures fresh { self.new.fresh ≡ self.old.fresh }
        ensures stands { (j : Journal) → StandsFor self.old.asks j → StandsFor self.new.asks j }
    {
        drop_all(&mut self.asks, &mut self.pending, self.ordered, serial);
    }
}

impl Ended for Waits {
    ghost ends = { λ w serial branch. end_of w.asks serial branch };

    fn ended(&self, serial: u64, branch: &Branch) -> Option<&WaitEnd> {
        let found = ask_of(
            self.asks.as_slice(),
            &self.pending.runs,
            self.ordered,
            serial,
            branch,
        );
        match found {
            Some(asked) => asked.end.as_ref(),
            None => None,
        }
    }
}

/// Ends the first wait of a run in a branch at a place.
fn finish_one(
    asks: &mut Vec<Asked>,
    pending: &mut Pending,
    ordered: bool,
    serial: u64,
    branch: &Branch,
    place: u64,
)
    requires { AreKept asks.old.items pending.old.timers pending.old.readers pending.old.runs ordered }
    ensures asks { asks.new.items ≡ finished serial branch.now place asks.old.items }
    ensures kept { AreKept asks.new.items pending.new.timers pending.new.readers pending.new.runs ordered }
{
    let at = place_in_branch(asks.as_slice(), &pending.runs, ordered, serial, branch);
    if at >= asks.len() {
        return;
    }
    let waiting = &mut asks[at];
    let owner = waiting.owner;
    waiting.end = Some(WaitEnd {
        place,
        done: true,
        remaining: None,
        trigger: None,
    });
    settle(pending, owner);
}

/// Takes a wait in, and its due, where the ended ones of its run and branch go.
fn add_one(
    asks: &mut Vec<Asked>,
    timers: &mut TimerQueue,
    runs: &mut BTreeSet<(u64, u64)>,
    asked: Asked,
    ordered: bool,
) -> Result<(), AllocError>
    requires timed { AreTimed asks.old.items timers.old }
    requires found { AreFound asks.old.items runs.old ordered }
    requires listed { has_pair runs.old asked.ask.serial asked.owner ≡ true }
    requires owner { list_any (λ a. nat_eq a.owner asked.owner) asks.old.items ≡ false }
    requires pending { list_any (λ a. is_of asked.ask.serial asked.ask.branch a && is_none a.end) asks.old.items ≡ false }
    requires fresh { asked.end ≡ None }
    ensures ok { OnOk result (asks.new.items ≡ added asked asks.old.items) }
    ensures err { OnErr result (asks.new.items ≡ asks.old.items) }
    ensures runs { OnErr result (runs.new ≡ runs.old) }
    ensures timed { AreTimed asks.new.items timers.new }
    ensures paired { OnOk result (All (IsPaired runs.new) asks.new.items) }
{
    make_place(asks, timers, runs, &asked, ordered)?;
    asks.push_reserved(asked);
    Ok(())
}

/// Makes place for a wait: its timer is set, and the waits of its run and branch go.
fn make_place(
    asks: &mut Vec<Asked>,
    timers: &mut TimerQueue,
    runs: &mut BTreeSet<(u64, u64)>,
    asked: &Asked,
    ordered: bool,
) -> Result<(), AllocError>
    requires due { due_of asked.now.owner timers.old ≡ None }
    requires found { AreFound asks.old.items runs.old ordered }
    requires owner { list_any (λ a. nat_eq a.owner asked.now.owner) asks.old.items ≡ false }
    ensures asks { OnOk result (asks.new.items ≡ filter (λ b. not (is_of asked.now.ask.serial asked.now.ask.branch b)) asks.old.items) }
    ensures timers { OnOk result (timers.new ≡ timer_added asked.now.ask.due asked.now.owner timers.old) }
    ensures room { OnOk result (length asks.new.items < vec_capacity asks.new) }
    ensures unlisted { OnOk result (AreUnlisted asks.old.items asks.new.items
        (has_pair runs.old asked.now.ask.serial) (has_pair runs.new asked.now.ask.serial)) }
    ensures paired { OnOk result (All (IsPaired runs.new) asks.new.items) }
    ensures listed { OnOk result (has_pair runs.new asked.now.ask.serial asked.now.owner ≡ has_pair runs.old asked.now.ask.serial asked.now.owner) }
    ensures err { OnErr result ((asks.new.items ≡ asks.old.items) × (timers.new ≡ timers.old)) }
    ensures runs { OnErr result (runs.new ≡ runs.old) }
{
    asks.reserve(1)?;
    set_timer(timers, asked.ask.due, asked.owner)?;
    drop_ended(asks, runs, ordered, asked);
    Ok(())
}

/// A timer for the owner, where there is a due.
fn set_timer(timers: &mut TimerQueue, due: Option<Moment>, owner: u64) -> Result<(), AllocError>
    requires { due_of owner timers.old ≡ None }
    ensures ok { OnOk result (timers.new ≡ timer_added due owner timers.old) }
    ensures err { OnErr result (timers.new ≡ timers.old) }
{
    let Some(due) = due else {
        return Ok(());
    };
    match timers.insert(due, owner) {
        Ok(_) => Ok(()),
        Err(_) => Err(AllocError),
    }
}

/// Takes the waits of a wait's run and branch out.
fn drop_ended(asks: &mut Vec<Asked>, runs: &mut BTreeSet<(u64, u64)>, ordered: bool, asked: &Asked)
    requires { AreFound asks.old.items runs.old ordered }
    ensures rest { asks.new.items ≡ filter (λ b. not (is_of asked.now.ask.serial asked.now.ask.branch b)) asks.old.items }
    ensures found { AreFound asks.new.items runs.new ordered }
    ensures unlisted { AreUnlisted asks.old.items asks.new.items
        (has_pair runs.old asked.now.ask.serial) (has_pair runs.new asked.now.ask.serial) }
    ensures others { (o : ℕ) → list_any (λ a. nat_eq a.owner o) asks.old.items ≡ false → (s : ℕ) → has_pair runs.new s o ≡ has_pair runs.old s o }
    ensures len { length asks.new.items ≤ length asks.old.items }
    ensures capacity { vec_capacity asks.new ≡ vec_capacity asks.old }
{
    let mut at = 0;
    'asks: while at < asks.len() {
        at = drop_next_ended(asks, runs, ordered, asked, at);
    }
}

/// Takes the first wait of a wait's run from a place on out, if it is of its branch, and gives the
/// place from which the others are.
fn drop_next_ended(
    asks: &mut Vec<Asked>,
    runs: &mut BTreeSet<(u64, u64)>,
    ordered: bool,
    asked: &Asked,
    from: usize,
) -> usize
    requires fits { from < length asks.old.items }
    requires found { AreFound asks.old.items runs.old ordered }
    ensures fits { result ≤ length asks.new.items }
    ensures smaller { length asks.new.items - result < length asks.old.items - from }
    ensures rest { filter (λ b. not (is_of asked.now.ask.serial asked.now.ask.branch b)) asks.new.items
        ≡ filter (λ b. not (is_of asked.now.ask.serial asked.now.ask.branch b)) asks.old.items }
    ensures before { AllBefore (λ b. not (is_of asked.now.ask.serial asked.now.ask.branch b)) asks.old.items from
        → AllBefore (λ b. not (is_of asked.now.ask.serial asked.now.ask.branch b)) asks.new.items result }
    ensures found { AreFound asks.new.items runs.new ordered }
    ensures unlisted { AreUnlisted asks.old.items asks.new.items
        (has_pair runs.old asked.now.ask.serial) (has_pair runs.new asked.now.ask.serial) }
    ensures others { (o : ℕ) → list_any (λ a. nat_eq a.owner o) asks.old.items ≡ false
        → (list_any (λ a. nat_eq a.owner o) asks.new.items ≡ false) × ((s : ℕ) → has_pair runs.new s o ≡ has_pair runs.old s o) }
    ensures len { length asks.new.items ≤ length asks.old.items }
    ensures capacity { vec_capacity asks.new ≡ vec_capacity asks.old }
{
    let at = next_place(asks.as_slice(), runs, ordered, asked.ask.serial, from);
    if at >= asks.len() {
        return at;
    }
    if !is_of(&asks[at], asked.ask.serial, &asked.ask.branch) {
        return at + 1;
    }
    unlist(runs, asked.ask.serial, owner_in(asks.as_slice(), at));
    cut(asks, at);
    at
}

/// Whether the owners still ascend, with one more wait.
fn stay_ordered(ordered: bool, asks: &[Asked], owner: u64) -> bool
    ensures { result ≡ true → (ordered ≡ true) × (Ascend asks.now → All (λ a. a.owner < owner) asks.now) }
{
    if !ordered {
        return false;
    }
    match asks.last() {
        Some(last) => last.owner < owner,
        None => true,
    }
}

/// Takes the waits of a run out, with what is kept of them.
fn drop_all(asks: &mut Vec<Asked>, pending: &mut Pending, ordered: bool, serial: u64)
    requires { AreKept asks.old.items pending.old.timers pending.old.readers pending.old.runs ordered }
    ensures rest { asks.new.items ≡ without_run serial asks.old.items }
    ensures kept { AreKept asks.new.items pending.new.timers pending.new.readers pending.new.runs ordered }
    ensures unlisted { AreUnlisted asks.old.items asks.new.items (has_pair pending.old.runs serial) (has_pair pending.new.runs serial) }
    ensures settled { AreUnlisted asks.old.items asks.new.items (is_reader pending.old.readers) (is_reader pending.new.readers) }
{
    let mut at = 0;
    'asks: while at < asks.len() {
        at = drop_next(asks, pending, ordered, serial, at);
    }
}

/// Takes the first wait of a run from a place on out, if there is one, and gives the place from
/// which the others are.
fn drop_next(
    asks: &mut Vec<Asked>,
    pending: &mut Pending,
    ordered: bool,
    serial: u64,
    from: usize,
) -> usize
    requires fits { from < length asks.old.items }
    requires kept { AreKept asks.old.items pending.old.timers pending.old.readers pending.old.runs ordered }
    ensures fits { result ≤ length asks.new.items }
    ensures smaller { length asks.new.items - result < length asks.old.items - from }
    ensures rest { without_run serial asks.new.items ≡ without_run serial asks.old.items }
    ensures before { AllBefore (λ a. not (nat_eq a.ask.serial serial)) asks.old.items from → AllBefore (λ a. not (nat_eq a.ask.serial serial)) asks.new.items result }
    ensures kept { AreKept asks.new.items pending.new.timers pending.new.readers pending.new.runs ordered }
    ensures unlisted { AreUnlisted asks.old.items asks.new.items (has_pair pending.old.runs serial) (has_pair pending.new.runs serial) }
    ensures settled { AreUnlisted asks.old.items asks.new.items (is_reader pending.old.readers) (is_reader pending.new.readers) }
{
    let at = next_place(asks.as_slice(), &pending.runs, ordered, serial, from);
    if at >= asks.len() {
        return at;
    }
    let owner = owner_in(asks.as_slice(), at);
    settle(pending, owner);
    unlist(&mut pending.runs, serial, owner);
    cut(asks, at);
    at
}

/// Takes one wait out.
fn cut(asks: &mut Vec<Asked>, at: usize)
    requires { at < length asks.old.items }
    ensures items { asks.new.items ≡ take at asks.old.items ++ drop (suc at) asks.old.items }
    ensures capacity { vec_capacity asks.new ≡ vec_capacity asks.old }
{
    asks.remove(at);
}
