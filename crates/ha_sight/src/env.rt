//! The variables that a script sees. That of the run's own trigger is the first, and its pairs are made only where a script reads them.
ghost use Rattle.std.specs.Prelude.{◌≡◌, ◌∷◌, ◌++◌, ◌≤◌, [], codes, insert, length, option_map, slice_get, take, None, false, IfOk, OnOk, OnErr};
ghost use Rattle.std.specs.Option.{option_copied, option_map_or};
ghost use Rattle.ha_sight.specs.Seen.{seen_value};
ghost use Rattle.ha_sight.specs.TriggerValues.{trigger_pairs};
ghost use Rattle.ha_sight.specs.Values.{field_of, text_of};
ghost use Rattle.ha_config.specs.Words.{first_of_list, last_pair, same};

use crate::trigger_data::TriggerData;
use crate::trigger_pairs::id_in;
use ha_config::{last_pair, same_text};
use ha_value::{Many, Plain, Value, Word, copy_pairs};
use std::alloc::{AllocError, Global};
use std::marker::Model;

/// Of several variables of one name the last is seen.
#[derive(Drop)]
pub struct Env {
    /// The first variable, `trigger`, where it is not among the pairs.
    trigger: Option<TriggerData>,
    pairs: Vec<(Word, Value)>,
}

impl Model for Env {
    ghost use Rattle.std.specs.Prelude.{◌++◌};
    ghost use Rattle.std.specs.Coded.{codes};
    ghost use Rattle.ha_value.specs.contracts.value.Value as v;
    ghost use Rattle.ha_sight.specs.TriggerValues.{trigger_pairs};
    ghost use Rattle.ha_config.specs.Words.{Pairs};

    ghost Value = { Pairs };

    ghost coded = { Prim.hlevel (codes, v.the_row.coded) };

    ghost view = { λ e. trigger_pairs e.trigger ++ e.pairs.items };
}

/// The value of a variable: one that is kept, or the data of the trigger.
#[derive(Drop)]
pub enum Seen<'a> {
    Value(&'a Value),
    Trigger(&'a TriggerData),
}

impl<'a> Seen<'a> {
    /// The value, copied or made.
    pub fn value(&self, alloc: Global) -> Result<Value, AllocError>
        ensures { IfOk result (λ v. v ≡ seen_value self.now) }
    {
        match self {
            Seen::Value(value) => value.copy(alloc),
            Seen::Trigger(data) => data.value(alloc),
        }
    }

    /// Its field `id`, where that is a text.
    pub fn id(&self) -> Option<&Word>
        ensures { option_copied result ≡ text_of (field_of (seen_value self.now) (codes "id")) }
    {
        match self {
            Seen::Value(value) => id_in(value),
            Seen::Trigger(data) => data.id(),
        }
    }
}

/// How many variables the trigger is.
fn kept(trigger: &Option<TriggerData>) -> usize
    ensures value { result ≡ length (trigger_pairs trigger.now) }
    ensures small { result ≤ 1 }
{
    match trigger {
        Some(_) => 1,
        None => 0,
    }
}

fn is_trigger(name: &Word) -> bool
    ensures { result ≡ same (codes "trigger") name.now }
{
    name.bytes() == b"trigger".as_slice()
}

fn shared(trigger: &Option<TriggerData>) -> Result<Option<TriggerData>, AllocError>
    ensures { IfOk result (λ made. made ≡ trigger.now) }
{
    match trigger {
        Some(data) => Ok(Some(data.share()?)),
        None => Ok(None),
    }
}

/// How the variables begin.
impl Env {
    pub fn none(alloc: Global) -> Env
        ensures { result ≡ [] }
    {
        Env {
            trigger: None,
            pairs: Vec::new(alloc),
        }
    }

    pub fn of_pairs(pairs: Many<(Word, Value)>) -> Env
        ensures { result ≡ pairs }
    {
        Env {
            trigger: None,
            pairs: pairs.into_vec(),
        }
    }

    /// The variable `trigger`, alone.
    pub fn of_trigger(alloc: Global, trigger: TriggerData) -> Env
        ensures { result ≡ (codes "trigger", trigger) ∷ [] }
    {
        Env {
            trigger: Some(trigger),
            pairs: Vec::new(alloc),
        }
    }

    /// The variable `trigger`, and others behind it.
    pub fn of_trigger_with(trigger: TriggerData, pairs: Many<(Word, Value)>) -> Env
        ensures { result ≡ (codes "trigger", trigger) ∷ pairs }
    {
        Env {
            trigger: Some(trigger),
            pairs: pairs.into_vec(),
        }
    }

    pub fn copy(&self, alloc: Global) -> Result<Env, AllocError>
        ensures { IfOk result (λ made. made ≡ self.now) }
    {
        let trigger = shared(&self.trigger)?;
        let pairs = copy_pairs(alloc, &self.pairs)?;
        Ok(Env {
            trigger,
            pairs: pairs.into_vec(),
        })
    }

    /// The same variables, in no more memory than they need.
    pub fn fitted(self) -> Env
        ensures { result ≡ self }
    {
        let Env { trigger, pairs } = self;
        let mut pairs = pairs;
        pairs.shrink_to_fit();
        Env { trigger, pairs }
    }
}

/// What the variables are asked.
impl Env {
    pub fn len(&self) -> usize
        ensures { result ≡ length self.now }
    {
        kept(&self.trigger) + self.pairs.len()
    }

    /// The value of the first variable.
    pub fn first(&self) -> Option<Seen<'_>>
        ensures { option_map seen_value result ≡ option_map (λ p. p.1) (first_of_list self.now) }
    {
        match &self.trigger {
            Some(data) => Some(Seen::Trigger(data)),
            None => match self.pairs.get(0) {
                Some(pair) => Some(Seen::Value(&pair.1)),
                None => None,
            },
        }
    }

    /// The value of the last variable of that name.
    pub fn last(&self, name: &Word) -> Option<Seen<'_>>
        ensures { option_map seen_value result ≡ last_pair name.now self.now }
    {
        match last_pair(name, &self.pairs) {
            Some(value) => Some(Seen::Value(value)),
            None => match &self.trigger {
                Some(data) => {
                    if is_trigger(name) {
                        Some(Seen::Trigger(data))
                    } else {
                        None
                    }
                }
                None => None,
            },
        }
    }

    /// Whether the variable at a place, counted from 0, has that name.
    pub fn is_named(&self, at: usize, name: &Word) -> bool
        ensures { result ≡ option_map_or (λ p. same p.0 name.now) (slice_get self.now at) false }
    {
        let front = kept(&self.trigger);
        if at < front {
            return is_trigger(name);
        }
        match self.pairs.get(at - front) {
            Some(pair) => same_text(&pair.0, name),
            None => false,
        }
    }
}

/// Makes the trigger a pair before the others, where its data is kept.
fn lay_out(
    alloc: Global,
    trigger: &mut Option<TriggerData>,
    pairs: &mut Vec<(Word, Value)>,
) -> Result<(), AllocError>
    ensures trigger { OnOk result (trigger.new ≡ None) }
    ensures pairs { OnOk result (pairs.new.items ≡ trigger_pairs trigger.old ++ pairs.old.items) }
    ensures err { OnErr result ((trigger.new ≡ trigger.old) × (pairs.new.items ≡ pairs.old.items)) }
{
    let pair = match trigger {
        Some(data) => named_value(alloc, data)?,
        None => return Ok(()),
    };
    pairs.insert(0, pair)?;
    *trigger = None;
    Ok(())
}

/// The variable `trigger`, made.
fn named_value(alloc: Global, trigger: &TriggerData) -> Result<(Word, Value), AllocError>
    ensures { IfOk result (λ pair. pair ≡ (codes "trigger", trigger.now)) }
{
    let name = Word::from_str(alloc, "trigger")?;
    let value = trigger.value(alloc)?;
    Ok((name, value))
}

/// What changes the variables; places are counted from 0.
impl Env {
    /// Puts a variable at a place, and moves those from there on back by one.
    pub fn insert(
        &mut self,
        alloc: Global,
        at: usize,
        name: Word,
        value: Value,
    ) -> Result<(), AllocError>
        requires { at ≤ length self.old }
        ensures ok { OnOk result (self.new ≡ insert self.old at (name, value)) }
        ensures err { OnErr result (self.new ≡ self.old) }
    {
        if at == 0 {
            lay_out(alloc, &mut self.trigger, &mut self.pairs)?;
        }
        let place = at - kept(&self.trigger);
        self.pairs.insert(place, (name, value))?;
        Ok(())
    }

    /// Drops the variables from that place on.
    pub fn truncate(&mut self, len: usize)
        ensures { self.new ≡ take len self.old }
    {
        let front = kept(&self.trigger);
        if len < front {
            self.trigger = None;
            self.pairs.clear();
        } else {
            self.pairs.truncate(len - front);
        }
    }
}
