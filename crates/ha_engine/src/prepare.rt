//! The attempts of an entry that pass, each with the frames that its run begins with.
ghost use Rattle.std.specs.Prelude.{◌≡◌, ◌+◌, ◌≤◌, ◌∷◌, [], ◌++◌, ◌||◌, ℕ, suc, true, false, IsTrue, List, Some, None, IfOk, OnOk, codes, length, map, slice_get, if◌then◌else◌};
ghost use Rattle.std.specs.List.{enumerate_from};
ghost use Rattle.std.specs.Option.{option_copied, option_map_or};
ghost use Rattle.ha_journal.specs.declared.firing.Firing.{Firing as Fire};
ghost use Rattle.ha_journal.specs.Attempts.{attempts, by_hand, fired as fired_lem, passes as passes_lem, passing};
ghost use Rattle.ha_sight.specs.Conditions.{hold_all};
ghost use Rattle.ha_journal.specs.Entries.{asked_in};
ghost use Rattle.ha_journal.specs.Journal.{Journal, IsJournal, in_force, last_place, units};
ghost use Rattle.ha_config.specs.Sound.{are_sound_actions};
ghost use Rattle.ha_config.specs.declared.config.Script.{Script as Called};
ghost use Rattle.ha_config.specs.Names.{named_among, unit_of};
ghost use Rattle.ha_journal.specs.Moves.{sight};
ghost use Rattle.script_step.specs.Few.{has_few_lists};
ghost use Rattle.script_step.specs.Gates.{first_fronts};
ghost use Rattle.engine_parts.specs.Fronts.{Stands, fronts};
ghost use Rattle.ha_engine.specs.Admits.{ArePrepared, IsReady, IsPut, ArePassing, asked_for, from_end, has_action};
ghost use Rattle.engine_parts.specs.Kept.{Sees};
ghost use Rattle.ha_engine.specs.Knows.{IsKnown};
ghost use Rattle.engine_parts.specs.Owners.{attempts_by, is_attempt};
ghost use Rattle.ha_engine.specs.Begun.{IsBegun};
ghost use Rattle.ha_engine.specs.declared.admit.Prepared.{Prepared as Made};

use crate::admit::Prepared;
use engine_entry::names::number_named;
use engine_parts::attempts::hold_all;
use engine_parts::parts::{FIRST_WAIT, Parts};
use ha_config::{Action, Automation, Cmd, Config, Mode, Script};
use ha_journal::{Entry, Firing};
use ha_sight::{Answers, Env, Item, TriggerData};
use ha_value::{Many, Value, Word, copy_pairs};
use script_calls::Seeing;
use script_step::Frames;
use segment_view::{Behind, Segment};
use std::alloc::{AllocError, Global};
use unit_book::UnitBook;

/// Whether an attempt of an automation passes: its conditions are skipped, or all hold.
fn passes<A: Answers>(
    alloc: Global,
    rule: &Automation,
    answers: &A,
    env: &Env,
    skip: bool,
) -> Result<bool, AllocError>
    ensures { IfOk result (λ b. b ≡ (skip || hold_all (A.sight answers.now) rule.now.tests env.now)) }
{
    if skip {
        return Ok(true);
    }
    hold_all(alloc, &rule.tests, env, answers)
}

/// Whether a script has an action.
fn has_action(actions: &Many<Action>) -> bool
    ensures { result ≡ has_action actions.now }
{
    actions.len() > 0
}

/// The frames of an automation's script at its begin, in a box. Their run has no serial yet.
fn begin_frames(
    alloc: Global,
    automation: u32,
    actions: &Many<Action>,
    env: &Env,
) -> Result<Box<Frames>, AllocError>
    requires { has_few_lists actions.now ≡ true }
    ensures automation { IfOk result (λ held. held.value.automation ≡ automation) }
    ensures stands { IfOk result (λ held. Stands held.value actions.now env.now []) }
    ensures first { IfOk result (λ held. fronts held.value [] ≡ first_fronts actions.now) }
{
    let frames = Frames::start(alloc, 0, automation, actions, env)?;
    let held = Box::new(alloc, frames)?;
    Ok(held)
}

/// An attempt of a script is put behind those that are prepared.
fn put_script(
    alloc: Global,
    stack: &mut Vec<Prepared>,
    actions: &Many<Action>,
    mode: Mode,
    max: u32,
    automation: u32,
    order: u64,
    env: Env,
) -> Result<(), AllocError>
    requires { has_few_lists actions.now ≡ true }
    ensures { OnOk result ((p : Made) × (stack.new.items ≡ stack.old.items ++ p ∷ []) × IsReady automation order env mode max actions.now p) }
{
    let frames = begin_frames(alloc, automation, actions, &env)?;
    let acts = has_action(actions);
    // the record of a run keeps it for good
    let env = env.fitted();
    stack.push(Prepared {
        automation,
        mode,
        max,
        order,
        env,
        frames,
        acts,
    })?;
    Ok(())
}

/// An attempt of an automation is put there.
fn put(
    alloc: Global,
    stack: &mut Vec<Prepared>,
    rule: &Automation,
    automation: u32,
    order: u64,
    env: Env,
) -> Result<(), AllocError>
    requires { are_sound_actions rule.now.actions ≡ true }
    ensures { OnOk result ((p : Made) × (stack.new.items ≡ stack.old.items ++ p ∷ [])
        × IsReady automation order env rule.now.mode rule.now.max rule.now.actions p) }
{
    put_script(
        alloc,
        stack,
        &rule.actions,
        rule.mode,
        rule.max,
        automation,
        order,
        env,
    )
}

/// What is known of the units where attempts are made.
#[derive(Drop)]
pub(crate) struct Known<'a> {
    /// All entries.
    journal: &'a [Entry],
    /// Where the units stand among them.
    book: &'a UnitBook,
    /// The configuration in force, and the numbers of its units, automations first.
    config: &'a Config,
    numbers: &'a Many<u32>,
}

/// An attempt of a script is put there, where there is one: a script has no conditions.
fn put_called(
    alloc: Global,
    stack: &mut Vec<Prepared>,
    script: Option<&Script>,
    unit: u32,
    order: u64,
    env: Env,
) -> Result<(), AllocError>
    requires { option_map_or (λ s. are_sound_actions s.actions) (option_copied script) true ≡ true }
    ensures there { (s : Called) → option_copied script.entry ≡ Some s → OnOk result ((p : Made) × (stack.new.items ≡ stack.old.items ++ p ∷ []) × IsReady unit order env s.mode s.max s.actions p) }
    ensures none { option_copied script.entry ≡ None → OnOk result (stack.new.items ≡ stack.old.items) }
{
    match script {
        Some(script) => put_script(
            alloc,
            stack,
            &script.actions,
            script.mode,
            script.max,
            unit,
            order,
            env,
        ),
        None => Ok(()),
    }
}

/// An attempt of an automation that is there is put there where it passes.
fn prepare_rule<A: Answers>(
    alloc: Global,
    stack: &mut Vec<Prepared>,
    rule: &Automation,
    answers: &A,
    automation: u32,
    order: u64,
    env: Env,
    skip: bool,
) -> Result<(), AllocError>
    requires { are_sound_actions rule.now.actions ≡ true }
    ensures { OnOk result ((k : Journal) → A.sight answers.now ≡ sight k (suc (last_place k)) → unit_of (units k) automation ≡ Some rule.now
        → IsPut (passes_lem k (last_place k) (asked_for automation env skip)) k (order, asked_for automation env skip) stack.old.items stack.new.items) }
{
    let holds = passes(alloc, rule, answers, &env, skip)?;
    if holds {
        put(alloc, stack, rule, automation, order, env)?;
    }
    Ok(())
}

/// An attempt is put there where it passes.
fn prepare_one<A: Answers>(
    alloc: Global,
    stack: &mut Vec<Prepared>,
    known: &Known<'_>,
    answers: &A,
    unit: u32,
    order: u64,
    env: Env,
    skip: bool,
) -> Result<(), AllocError>
    requires { (j : Journal) × IsKnown j known.now }
    ensures { OnOk result ((k : Journal) → A.sight answers.now ≡ sight k (suc (last_place k)) → IsKnown k known.now
        → IsPut (passes_lem k (last_place k) (asked_for unit env skip)) k (order, asked_for unit env skip) stack.old.items stack.new.items) }
{
    let found = known.book.unit(known.journal, unit);
    match found.0 {
        Some(rule) => prepare_rule(alloc, stack, rule, answers, unit, order, env, skip),
        None => put_called(alloc, stack, found.1, unit, order, env),
    }
}

/// Whether a firing is of an automation.
fn is_attempt(firing: &Firing) -> bool
    ensures { result ≡ is_attempt firing.now }
{
    firing.owner < FIRST_WAIT
}

/// One where the firing is an attempt.
fn weight(firing: &Firing) -> usize
    ensures { result ≡ (if is_attempt firing.now then 1 else 0) }
{
    if is_attempt(firing) { 1 } else { 0 }
}

/// How many of the firings are attempts.
fn count_attempts(fired: &[Firing]) -> usize
    ensures { result ≡ length (attempts_by fired.now) }
{
    let mut count = 0;
    'firings: for firing in fired {
        count += weight(firing);
    }
    count
}

/// A firing, where it is an attempt that passes. The answer is how many attempts stand before it, where so many stood up to it.
fn prepare_firing<A: Answers>(
    alloc: Global,
    stack: &mut Vec<Prepared>,
    known: &Known<'_>,
    answers: &A,
    left: u64,
    firing: Firing,
) -> Result<u64, AllocError>
    requires known { (j : Journal) × IsKnown j known.now }
    requires left { (if is_attempt firing then 1 else 0) ≤ left }
    ensures order { IfOk result (λ order. order + (if is_attempt firing then 1 else 0) ≡ left) }
    ensures done { IfOk result (λ order. (k : Journal) (fs : List Fire) → A.sight answers.now ≡ sight k (suc (last_place k)) → IsKnown k known.now
        → ArePassing k left (attempts_by fs) stack.old.items → ArePassing k order (attempts_by (firing ∷ fs)) stack.new.items) }
{
    if !is_attempt(&firing) {
        return Ok(left);
    }
    let Firing { owner, env, .. } = firing;
    let order = left - 1;
    prepare_one(
        alloc,
        stack,
        known,
        answers,
        owner as u32,
        order,
        env,
        false,
    )?;
    Ok(order)
}

/// The attempts by triggers, of which the firings of automations tell, from the last on.
fn prepare_fired<A: Answers>(
    alloc: Global,
    known: &Known<'_>,
    answers: &A,
    fired: Many<Firing>,
) -> Result<Vec<Prepared>, AllocError>
    requires { (j : Journal) × IsKnown j known.now }
    ensures { IfOk result (λ stack. (k : Journal) → A.sight answers.now ≡ sight k (suc (last_place k)) → IsKnown k known.now
        → ArePassing k 0 (attempts_by fired) stack.items) }
{
    let mut fired = fired;
    let mut order = count_attempts(fired.as_slice()) as u64;
    let mut stack = Vec::new(alloc);
    'firings: while let Some(firing) = fired.pop() {
        order = prepare_firing(alloc, &mut stack, known, answers, order, firing)?;
    }
    Ok(stack)
}

/// The variable `trigger` of a run that was asked for.
fn trigger_by_hand(alloc: Global) -> Result<TriggerData, AllocError>
    ensures { IfOk result (λ trigger. (codes "trigger", trigger) ∷ [] ≡ by_hand) }
{
    let mut pairs = Many::with_room(alloc, 1)?;
    pairs.push((Word::from_str(alloc, "platform")?, Value::Null))?;
    TriggerData::whole(alloc, Value::Pairs(pairs))
}

/// The variables of a run that was asked for.
fn env_by_hand(alloc: Global) -> Result<Env, AllocError>
    ensures { IfOk result (λ env. env ≡ by_hand) }
{
    let trigger = trigger_by_hand(alloc)?;
    Ok(Env::of_trigger(alloc, trigger))
}

/// The attempt that a line asks for by name.
fn prepare_named<A: Answers>(
    alloc: Global,
    known: &Known<'_>,
    answers: &A,
    name: &Word,
    skip: bool,
) -> Result<Vec<Prepared>, AllocError>
    requires { (j : Journal) × IsKnown j known.now }
    ensures { IfOk result (λ stack. (k : Journal) → A.sight answers.now ≡ sight k (suc (last_place k)) → IsKnown k known.now
        → ArePassing k 0 (option_map_or (λ a. asked_for a by_hand skip ∷ []) (named_among (in_force k) name.now) []) stack.items) }
{
    let mut stack = Vec::new(alloc);
    match number_named(known.config, known.numbers, name) {
        Some(automation) => {
            let env = env_by_hand(alloc)?;
            prepare_one(alloc, &mut stack, known, answers, automation, 0, env, skip)?;
            Ok(stack)
        }
        None => Ok(stack),
    }
}

/// The attempts that a step asks for by number, from the last on.
fn prepare_chosen<A: Answers>(
    alloc: Global,
    known: &Known<'_>,
    answers: &A,
    chosen: &[u32],
    skip: bool,
) -> Result<Vec<Prepared>, AllocError>
    requires { (j : Journal) × IsKnown j known.now }
    ensures { IfOk result (λ stack. (k : Journal) → A.sight answers.now ≡ sight k (suc (last_place k)) → IsKnown k known.now
        → ArePassing k 0 (map (λ a. asked_for a by_hand skip) chosen.now) stack.items) }
{
    let mut stack = Vec::new(alloc);
    let mut left = chosen.len();
    'chosen: while 0 < left {
        left -= 1;
        let env = env_by_hand(alloc)?;
        prepare_one(
            alloc,
            &mut stack,
            known,
            answers,
            chosen[left],
            left as u64,
            env,
            skip,
        )?;
    }
    Ok(stack)
}

/// The variables of a run that a step asked a script for: behind those of one that was asked for by hand, the ones that it hands over.
fn env_called(alloc: Global, fields: &[(Word, Value)]) -> Result<Env, AllocError>
    ensures { IfOk result (λ env. env ≡ by_hand ++ fields.now) }
{
    let trigger = trigger_by_hand(alloc)?;
    let pairs = copy_pairs(alloc, fields)?;
    Ok(Env::of_trigger_with(trigger, pairs))
}

/// The attempts that a step asks scripts for, from the last on.
fn prepare_called<A: Answers>(
    alloc: Global,
    known: &Known<'_>,
    answers: &A,
    chosen: &[u32],
    fields: &[(Word, Value)],
) -> Result<Vec<Prepared>, AllocError>
    requires { (j : Journal) × IsKnown j known.now }
    ensures { IfOk result (λ stack. (k : Journal) → A.sight answers.now ≡ sight k (suc (last_place k)) → IsKnown k known.now
        → ArePassing k 0 (map (λ a. asked_for a (by_hand ++ fields.now) true) chosen.now) stack.items) }
{
    let mut stack = Vec::new(alloc);
    let mut left = chosen.len();
    'chosen: while 0 < left {
        left -= 1;
        let env = env_called(alloc, fields)?;
        prepare_one(
            alloc,
            &mut stack,
            known,
            answers,
            chosen[left],
            left as u64,
            env,
            true,
        )?;
    }
    Ok(stack)
}

/// Those of an entry: what it asks for itself, else those by triggers.
fn prepare_asked<A: Answers>(
    alloc: Global,
    known: &Known<'_>,
    answers: &A,
    entry: &Entry,
    fired: Many<Firing>,
) -> Result<Vec<Prepared>, AllocError>
    requires { (j : Journal) × IsKnown j known.now }
    ensures { IfOk result (λ stack. (k : Journal) → A.sight answers.now ≡ sight k (suc (last_place k)) → IsKnown k known.now
        → slice_get k (last_place k) ≡ Some entry.now → attempts_by fired ≡ fired_lem k (last_place k) → ArePassing k 0 (attempts k (last_place k)) stack.items) }
{
    match entry {
        Entry::Line {
            cmd: Cmd::Trigger { name, skip },
            ..
        } => prepare_named(alloc, known, answers, name, *skip),
        Entry::Step {
            item: Item::Triggered { automations, skip },
            ..
        } => prepare_chosen(alloc, known, answers, automations.as_slice(), *skip),
        Entry::Step {
            item: Item::Started {
                scripts,
                fields,
                ..
            },
            ..
        } => prepare_called(alloc, known, answers, scripts.as_slice(), fields.as_slice()),
        _ => prepare_fired(alloc, known, answers, fired),
    }
}

/// The attempts of the last entry that pass, the first of them last. `fired` has what fired at it.
pub(crate) fn prepare<'a>(
    alloc: Global,
    journal: &'a Segment<'_>,
    parts: &'a Parts,
    fired: Many<Firing>,
) -> Result<Vec<Prepared>, AllocError>
    requires journal { IsJournal journal.now }
    requires sees { Sees journal.now parts.now }
    requires fired { attempts_by fired ≡ fired_lem journal.now (last_place journal.now) }
    ensures { IfOk result (λ stack. ArePrepared journal.entry.now (passing journal.entry.now) (from_end stack.items)) }
{
    let config = journal.configuration();
    let (list, book) = journal.known();
    let known = Known {
        journal: list,
        book,
        config,
        numbers: &parts.numbers,
    };
    let view = Seeing::make(
        &parts.states,
        config,
        &parts.numbers,
        &parts.zone,
        parts.at,
        &parts.helpers,
    );
    // The borrow checker builds its plan only where a place has the type that the view holds.
    let _ = &view.view;
    prepare_asked(alloc, &known, &view, journal.last_entry(), fired)
}

/// Those of an opening.
pub(crate) fn prepare_opening<'a>(
    alloc: Global,
    journal: &'a Behind<'_>,
    parts: &'a Parts,
    fired: Many<Firing>,
) -> Result<Vec<Prepared>, AllocError>
    requires begun { IsBegun journal.now }
    requires sees { Sees journal.now parts.now }
    requires fired { attempts_by fired ≡ fired_lem journal.now (last_place journal.now) }
    ensures { IfOk result (λ stack. ArePrepared journal.entry.now (passing journal.entry.now) (from_end stack.items)) }
{
    let config = journal.configuration();
    let (list, book) = journal.known();
    let known = Known {
        journal: list,
        book,
        config,
        numbers: &parts.numbers,
    };
    let view = Seeing::make(
        &parts.states,
        config,
        &parts.numbers,
        &parts.zone,
        parts.at,
        &parts.helpers,
    );
    // The borrow checker builds its plan only where a place has the type that the view holds.
    let _ = &view.view;
    prepare_fired(alloc, &known, &view, fired)
}
