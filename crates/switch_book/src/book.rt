//! Which automations are on.
ghost use Rattle.std.specs.Prelude.{◌≡◌, ◌<◌, ◌≤◌, ℕ, Bool, false, true, [], ◌∷◌, not, IfOk, IsSome, IsTrue, Ok, get_or, length, option_map, None, Some, nat_eq, nat_lt, slice_get, slice_index_or, slice_set, unwrap_or, zip, if◌then◌else◌};
ghost use Rattle.std.specs.Option.{option_copied};
ghost use Rattle.ha_config.specs.declared.config.Automation.{Automation as Rule};
ghost use Rattle.ha_config.specs.declared.command.Cmd.{Cmd};
ghost use Rattle.ha_config.specs.declared.config.Config.{Config as Settings};
ghost use Rattle.ha_journal.specs.declared.carry.Carry.{Carry};
ghost use Rattle.ha_journal.specs.declared.entry.Entry.{Entry};
ghost use Rattle.ha_journal.specs.declared.entry.Entry.TheVariants.{Boot, Line};
ghost use Rattle.ha_config.specs.Words.{Text};
ghost use Rattle.ha_config.specs.Equal.{same_flag};
ghost use Rattle.ha_journal.specs.Entries.{reload_in};
ghost use Rattle.ha_journal.specs.Journal.{HasEntry, Journal, automations, in_force, more, units};
ghost use Rattle.ha_journal.specs.Sights.{switch_of};
ghost use Rattle.ha_config.specs.Sound.{are_sound_automations};
ghost use Rattle.ha_config.specs.Names.{initial_of, stored_switch, unit_of};
ghost use Rattle.ha_config.specs.StoreText.{in_name_order, store_of};
ghost use Rattle.ha_journal.specs.States.{switches_of};
ghost use Rattle.ha_sight.specs.Sight.{switch_at};
ghost use Rattle.store_text.specs.Store.{AreMoments, by_names, stored_in};
ghost use Rattle.switch_book.specs.Book.{StandsFor, Switch, are_placed as are_placed_lem, goes_on, is_place as is_place_lem, on_there as on_there_lem, opening, reloaded, reset, restarted, restored, turned, with_switch};

use ha_clock::Moment;
use ha_config::{Automation, Config, same_text};
use ha_value::{Many, Plain, Word};
use std::alloc::{AllocError, Global};
use std::marker::Model;
use store_text::write_store;

/// The switches of the automations in force, each under its automation's number and name, in the configuration's order.
#[derive(Drop)]
pub struct Switches {
    switches: Vec<(u32, Word, bool)>,
    /// By the number of an automation in force the place of its switch.
    places: Vec<usize>,
}

impl Model for Switches {
    ghost use Rattle.std.specs.Coded.{codes};
    ghost use Rattle.ha_sight.specs.Sight.{Automations};

    ghost Value = { Automations };

    ghost coded = { Prim.hlevel (codes) };

    ghost view = { λ s. s.switches.items };

    ghost use Rattle.switch_book.specs.Book.{AreKept};

    ghost invariant = { λ s. AreKept s.switches.items s.places.items };
}

impl Switches {
    /// The switches at the Boot: the initial state of an automation, else the stored one of its
    /// name, else on. The automations' numbers are their places.
    pub fn restore(
        alloc: Global,
        config: &Config,
        stored: Option<&Many<(Word, bool)>>,
    ) -> Result<Switches, AllocError>
        requires { IsTrue (are_sound_automations config.now.automations) }
        ensures switches { IfOk result (λ s. s ≡ restored (option_copied stored.entry) config.now.automations) }
        ensures stands { IfOk result (λ s. (text : Text) (start : ℕ) (zone : Text) (carry : Carry) → StandsFor s (Boot text config.now (option_copied stored.entry) start zone carry ∷ [])) }
    {
        let switches = opened_all(alloc, config.automations.as_slice(), stored)?;
        let places = places_of(alloc, switches.as_slice())?;
        Ok(Switches { switches, places })
    }

    /// Sets the switch of a number, and says whether it changed. That is all that a switch command
    /// does which names the automation; the targets of an item are set in turn.
    pub fn set(&mut self, automation: u32, on: bool) -> bool
        requires { IsSome (switch_at self.old automation) }
        ensures switches { self.new ≡ with_switch automation on self.old }
        ensures changed { switch_at self.old automation ≡ Some (same_flag on (not result)) }
        ensures stands { (j : Journal) (x : Rule) (source number : ℕ) (stop : Bool) → HasEntry j → unit_of (units j) automation ≡ Some x → StandsFor self.old j
            → StandsFor self.new (more j (Line source number (Cmd.Switch x.name on stop))) }
    {
        let places = self.places.as_slice();
        let before = on_at(self.switches.as_slice(), places, automation);
        turn(&mut self.switches, places, automation, on);
        differs(before, on)
    }

    /// Whether the automation of a number is on; none exactly where no such one is in force.
    pub fn is_on(&self, automation: u32) -> Option<bool>
        ensures value { result ≡ switch_at self.now automation }
        ensures stands { (j : Journal) → StandsFor self.now j → result ≡ switch_of j automation }
    {
        on_at(self.switches.as_slice(), self.places.as_slice(), automation)
    }

    /// The switch of the automation at a place of the configuration.
    pub fn at(&self, place: usize) -> Option<bool>
        ensures { result ≡ option_map (λ p. p.2) (slice_get self.now place) }
    {
        flag_at(self.switches.as_slice(), place)
    }

    /// The switches at a Restart: the initial state of an automation, else the switch before.
    pub fn restart(&mut self, config: &Config)
        ensures switches { self.new ≡ restarted config.now.automations self.old }
        ensures stands { (j : Journal) (source number : ℕ) → HasEntry j → automations j ≡ config.now.automations → StandsFor self.old j → StandsFor self.new (more j (Line source number Cmd.Restart)) }
    {
        reset_all(&mut self.switches, config.automations.as_slice());
    }

    /// The switches behind a Reload with which this configuration comes into force; the numbers are those of its units, automations first.
    /// An automation that keeps its number keeps its switch, and a new one has its initial state, else the switch of its name before,
    /// else it is on.
    pub fn reload(
        &self,
        alloc: Global,
        config: &Config,
        numbers: &[u32],
    ) -> Result<Switches, AllocError>
        requires sound { IsTrue (are_sound_automations config.now.automations) }
        requires numbered { length config.now.automations ≤ length numbers.now }
        ensures switches { IfOk result (λ s. s ≡ reloaded self.now (zip numbers.now config.now.automations)) }
        ensures stands { IfOk result (λ s. (j : Journal) (x : Entry) (c : Settings) → HasEntry j → reload_in x ≡ Some c → zip numbers.now config.now.automations ≡ in_force (more j x)
            → StandsFor self.now j → StandsFor s (more j x)) }
    {
        let switches = entered_all(
            alloc,
            self.switches.as_slice(),
            self.places.as_slice(),
            config.automations.as_slice(),
            numbers,
        )?;
        let places = places_of(alloc, switches.as_slice())?;
        Ok(Switches { switches, places })
    }

    /// The store text: the switches in the byte order of their automations' names, and when automations last triggered, whose names stand in
    /// that order. What is read from it are these.
    pub fn store_text(&self, alloc: Global, last: &Many<(Word, Moment)>) -> Result<Word, AllocError>
        requires { AreMoments last.now }
        ensures text { IfOk result (λ w. w ≡ store_of (by_names self.now) last.now) }
        ensures stands { IfOk result (λ w. (j : Journal) → StandsFor self.now j → w ≡ store_of (switches_of j) last.now) }
        ensures reads_back { IfOk result (λ w. stored_in w ≡ Ok (record { switches = in_name_order (by_names self.now); last = last.now })) }
    {
        write_store(alloc, self.switches.as_slice(), last.as_slice())
    }
}

/// The switch of an automation at the Boot.
fn opened(automation: &Automation, stored: Option<&Many<(Word, bool)>>) -> bool
    ensures { result ≡ opening (option_copied stored.entry) automation.now }
{
    if let Some(on) = automation.initial {
        return on;
    }
    match stored {
        None => true,
        Some(stored) => stored_switch(stored.as_slice(), &automation.name).unwrap_or(true),
    }
}

/// The switches of all automations at the Boot.
fn opened_all(
    alloc: Global,
    automations: &[Automation],
    stored: Option<&Many<(Word, bool)>>,
) -> Result<Vec<(u32, Word, bool)>, AllocError>
    requires { length automations.now ≤ 1_024 }
    ensures { IfOk result (λ s. s.items ≡ restored (option_copied stored.entry) automations.now) }
{
    let mut switches = Vec::with_capacity(alloc, automations.len())?;
    'automations: for at in 0..automations.len() {
        let automation = &automations[at];
        let on = opened(automation, stored);
        let name = automation.name.copy(alloc)?;
        switches.push((at as u32, name, on))?;
    }
    Ok(switches)
}

/// The stored switch of a name.
fn stored_switch(stored: &[(Word, bool)], name: &Word) -> Option<bool>
    ensures { result ≡ stored_switch name.now stored.now }
{
    for pair in stored {
        if same_text(&pair.0, name) {
            return Some(pair.1);
        }
    }
    None
}

/// Whether two numbers are the same.
fn is_number(one: u32, number: u32) -> bool
    ensures { result ≡ nat_eq one number }
{
    one == number
}

/// The place that a table has for a number, if it has one.
fn place_at(places: &[usize], number: u32) -> Option<usize>
    ensures { result ≡ slice_get places.now number }
{
    match places.get(number as usize) {
        Some(place) => Some(*place),
        None => None,
    }
}

/// A switch, where it has this number.
fn flag_of(switch: &(u32, Word, bool), number: u32) -> Option<bool>
    ensures { result ≡ if nat_eq switch.now.0 number then Some switch.now.2 else None }
{
    if is_number(switch.0, number) {
        Some(switch.2)
    } else {
        None
    }
}

/// The switch at a place, where it has this number.
fn on_there(switches: &[(u32, Word, bool)], place: usize, number: u32) -> Option<bool>
    ensures { result ≡ on_there_lem switches.now number place }
{
    match switches.get(place) {
        Some(switch) => flag_of(switch, number),
        None => None,
    }
}

/// The switch of a number, if there is one.
fn on_at(switches: &[(u32, Word, bool)], places: &[usize], number: u32) -> Option<bool>
    requires { are_placed_lem places.now 0 switches.now ≡ true }
    ensures { result ≡ switch_at switches.now number }
{
    match place_at(places, number) {
        Some(place) => on_there(switches, place, number),
        None => None,
    }
}

/// Whether two places are the same.
fn is_place(one: usize, place: usize) -> bool
    ensures { result ≡ nat_eq one place }
{
    one == place
}

/// Whether a place stands in a table under a number.
fn stands_at(places: &[usize], number: u32, at: usize) -> bool
    ensures { result ≡ is_place_lem at (slice_get places.now number) }
{
    match place_at(places, number) {
        Some(place) => is_place(at, place),
        None => false,
    }
}

/// Whether each switch has its place in a table, under its number.
fn are_placed(switches: &[(u32, Word, bool)], places: &[usize]) -> bool
    ensures { result ≡ are_placed_lem places.now 0 switches.now }
{
    'switches: for at in 0..switches.len() {
        let switch = &switches[at];
        if !stands_at(places, switch.0, at) {
            return false;
        }
    }
    true
}

/// A place stands in a table under a number.
fn put_place(places: &mut Vec<usize>, number: usize, at: usize) -> Result<(), AllocError> {
    for _ in places.len()..number {
        places.push(0)?;
    }
    if number < places.len() {
        places[number] = at;
    } else {
        places.push(at)?;
    }
    Ok(())
}

/// The table of the switches' places, by their numbers. Where two had one number it would be refused as want of memory.
fn places_of(alloc: Global, switches: &[(u32, Word, bool)]) -> Result<Vec<usize>, AllocError>
    ensures { IfOk result (λ made. are_placed_lem made.items 0 switches.now ≡ true) }
{
    let mut places = Vec::new(alloc);
    for at in 0..switches.len() {
        let switch = &switches[at];
        put_place(&mut places, switch.0 as usize, at)?;
    }
    if !are_placed(switches, places.as_slice()) {
        return Err(AllocError);
    }
    Ok(places)
}

/// The switch at a place, if there is one.
fn flag_at(switches: &[(u32, Word, bool)], place: usize) -> Option<bool>
    ensures { result ≡ option_map (λ p. p.2) (slice_get switches.now place) }
{
    match switches.get(place) {
        Some(switch) => Some(switch.2),
        None => None,
    }
}

/// The switch of a name, if there is one.
fn on_named(switches: &[(u32, Word, bool)], name: &Word) -> Option<bool>
    ensures { result ≡ stored_switch name.now (by_names switches.now) }
{
    for switch in switches {
        if same_text(&switch.1, name) {
            return Some(switch.2);
        }
    }
    None
}

/// Whether a switch that was there is another one now.
fn differs(before: Option<bool>, on: bool) -> bool
    requires { IsSome before }
    ensures { before ≡ Some (same_flag on (not result)) }
{
    match before {
        Some(before) => before != on,
        None => unreachable!(),
    }
}

/// The switch is so, where it has this number.
fn turn_one(switch: &mut (u32, Word, bool), number: u32, on: bool)
    ensures { switch.new ≡ turned number on switch.old }
{
    if is_number(switch.0, number) {
        switch.2 = on;
    }
}

/// The one at that place is so, where it has this number.
fn turn_at(switches: &mut Vec<(u32, Word, bool)>, at: usize, number: u32, on: bool)
    requires { at < length switches.old.items }
    ensures { (p : Switch) → p ≡ slice_index_or switches.old.items at p → switches.new.items ≡ slice_set switches.old.items at (turned number on p) }
{
    let switch = &mut switches[at];
    turn_one(switch, number, on);
}

/// Whether there is a switch at a place.
fn has_place(switches: &[(u32, Word, bool)], place: usize) -> bool
    ensures { result ≡ nat_lt place (length switches.now) }
{
    place < switches.len()
}

/// The one at that place, if there is one, is so, where it has this number.
fn turn_there(switches: &mut Vec<(u32, Word, bool)>, place: usize, number: u32, on: bool)
    ensures past { nat_lt place (length switches.old.items) ≡ false → switches.new.items ≡ switches.old.items }
    ensures within { nat_lt place (length switches.old.items) ≡ true → (p : Switch) → p ≡ slice_index_or switches.old.items place p → switches.new.items ≡ slice_set switches.old.items place (turned number on p) }
{
    if !has_place(switches.as_slice(), place) {
        return;
    }
    turn_at(switches, place, number, on);
}

/// The switch of a number is so, and all others are as they were.
fn turn(switches: &mut Vec<(u32, Word, bool)>, places: &[usize], number: u32, on: bool)
    requires { are_placed_lem places.now 0 switches.old.items ≡ true }
    ensures { switches.new.items ≡ with_switch number on switches.old.items }
{
    match place_at(places, number) {
        Some(place) => turn_there(switches, place, number, on),
        None => {}
    }
}

/// The initial state of the automation at a place, if it has one.
fn initial_at(automations: &[Automation], at: usize) -> Option<bool>
    ensures { result ≡ initial_of automations.now at }
{
    match automations.get(at) {
        Some(automation) => automation.initial,
        None => None,
    }
}

/// The switch is set to an initial state, if there is one.
fn reset_one(switch: &mut (u32, Word, bool), initial: Option<bool>)
    ensures { switch.new ≡ (switch.old.0, switch.old.1, unwrap_or initial switch.old.2) }
{
    if let Some(state) = initial {
        switch.2 = state;
    }
}

/// So is the one at that place.
fn reset_at(switches: &mut Vec<(u32, Word, bool)>, at: usize, automations: &[Automation])
    requires { at < length switches.old.items }
    ensures { (p : Switch) → p ≡ slice_index_or switches.old.items at p → switches.new.items ≡ slice_set switches.old.items at (reset automations.now at p) }
{
    let initial = initial_at(automations, at);
    let switch = &mut switches[at];
    reset_one(switch, initial);
}

/// Sets each switch to its automation's initial state, if it has one.
fn reset_all(switches: &mut Vec<(u32, Word, bool)>, automations: &[Automation])
    ensures { switches.new.items ≡ restarted automations.now switches.old.items }
{
    'switches: for at in 0..switches.len() {
        reset_at(switches, at, automations);
    }
}

/// The switch with which an automation comes into force behind another configuration.
fn entered(
    switches: &[(u32, Word, bool)],
    places: &[usize],
    automation: &Automation,
    number: u32,
) -> bool
    requires { are_placed_lem places.now 0 switches.now ≡ true }
    ensures { result ≡ goes_on switches.now (number, automation.now) }
{
    if let Some(on) = on_at(switches, places, number) {
        return on;
    }
    match automation.initial {
        Some(on) => on,
        None => on_named(switches, &automation.name).unwrap_or(true),
    }
}

/// The number at a place.
fn number_at(numbers: &[u32], at: usize) -> u32
    requires { at < length numbers.now }
    ensures { result ≡ get_or numbers.now at 0 }
{
    numbers[at]
}

/// The switches of all automations that come into force, each with its number.
fn entered_all(
    alloc: Global,
    switches: &[(u32, Word, bool)],
    places: &[usize],
    automations: &[Automation],
    numbers: &[u32],
) -> Result<Vec<(u32, Word, bool)>, AllocError>
    requires numbered { length automations.now ≤ length numbers.now }
    requires placed { are_placed_lem places.now 0 switches.now ≡ true }
    ensures { IfOk result (λ s. s.items ≡ reloaded switches.now (zip numbers.now automations.now)) }
{
    let mut made = Vec::with_capacity(alloc, automations.len())?;
    'automations: for at in 0..automations.len() {
        let automation = &automations[at];
        let number = number_at(numbers, at);
        let on = entered(switches, places, automation, number);
        let name = automation.name.copy(alloc)?;
        made.push((number, name, on))?;
    }
    Ok(made)
}
