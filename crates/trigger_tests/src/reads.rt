//! Triggers on a template, which are asked where the state of an entity that it reads changes.
ghost use Rattle.std.specs.Prelude.{IfOk, IsTrue};
ghost use Rattle.ha_config.specs.Sound.{is_sound_expr, is_sound_rule, may_hold};

use crate::home::Step::{Clock, Gone, Has, Says};
use crate::home::{goes_again, goes_at_eight, goes_from, row};
use crate::triggers::{held, one};
use ha_config::{Expr, Op, Piece, Template, TriggerRule};
use ha_value::{Boxed, Many, Num, Value, Word};
use std::alloc::{AllocError, Global};

const DOOR: &str = "binary_sensor.d";

const GATE: &str = "binary_sensor.g";

const WINDOW: &str = "binary_sensor.w";

const LIGHT: &str = "light.x";

/// `'..'`.
fn quoted(alloc: Global, text: &str) -> Result<Expr, AllocError>
    ensures { IfOk result (λ e. IsTrue (is_sound_expr e)) }
{
    Ok(Expr::Plain(Value::Text(Word::from_str(alloc, text)?)))
}

/// `is_state(id, 'on')`.
fn is_on(alloc: Global, id: &str) -> Result<Expr, AllocError>
    ensures { IfOk result (λ e. IsTrue (is_sound_expr e)) }
{
    let mut args = Many::make(alloc);
    args.push(quoted(alloc, id)?)?;
    args.push(quoted(alloc, "on")?)?;
    Ok(Expr::Function { name: 3, args })
}

/// `is_state(first ~ rest, 'on')`.
fn joined_is_on(alloc: Global, first: &str, rest: &str) -> Result<Expr, AllocError>
    ensures { IfOk result (λ e. IsTrue (is_sound_expr e)) }
{
    let left = Boxed::new(alloc, quoted(alloc, first)?)?;
    let right = Boxed::new(alloc, quoted(alloc, rest)?)?;
    let mut args = Many::make(alloc);
    args.push(Expr::Pair {
        op: Op::Join,
        left,
        right,
    })?;
    args.push(quoted(alloc, "on")?)?;
    Ok(Expr::Function { name: 3, args })
}

/// `is_state_attr(id, 'b', 1)`.
fn has_one(alloc: Global, id: &str) -> Result<Expr, AllocError>
    ensures { IfOk result (λ e. IsTrue (is_sound_expr e)) }
{
    let mut args = Many::make(alloc);
    args.push(quoted(alloc, id)?)?;
    args.push(quoted(alloc, "b")?)?;
    args.push(Expr::Plain(Value::Number(Num::Whole(1))))?;
    Ok(Expr::Function { name: 4, args })
}

/// `is_state(first, 'on') and is_state(second, 'on')`.
fn both_on(alloc: Global, first: &str, second: &str) -> Result<Expr, AllocError>
    ensures { IfOk result (λ e. IsTrue (is_sound_expr e)) }
{
    let left = Boxed::new(alloc, is_on(alloc, first)?)?;
    let right = Boxed::new(alloc, is_on(alloc, second)?)?;
    Ok(Expr::Pair {
        op: Op::And,
        left,
        right,
    })
}

/// `is_state(yes, 'on') if is_state(test, 'on') else is_state(no, 'on')`.
fn one_on(alloc: Global, test: &str, yes: &str, no: &str) -> Result<Expr, AllocError>
    ensures { IfOk result (λ e. IsTrue (is_sound_expr e)) }
{
    let test = Boxed::new(alloc, is_on(alloc, test)?)?;
    let yes = Boxed::new(alloc, is_on(alloc, yes)?)?;
    let no = Boxed::new(alloc, is_on(alloc, no)?)?;
    Ok(Expr::Pick {
        test,
        yes,
        no: Some(no),
    })
}

/// `{{ .. }}`.
fn shown(alloc: Global, expr: Expr) -> Result<TriggerRule, AllocError>
    requires { IsTrue (is_sound_expr expr) }
    ensures sound { IfOk result (λ rule. IsTrue (is_sound_rule rule)) }
    ensures may { IfOk result (λ rule. IsTrue (may_hold rule)) }
{
    let mut pieces = Many::make(alloc);
    pieces.push(Piece::Show(expr))?;
    Ok(TriggerRule::Template(Template { pieces }))
}

fn each_is_asked(alloc: Global) -> Result<bool, AllocError> {
    let triggers = one(alloc, shown(alloc, both_on(alloc, DOOR, WINDOW)?)?)?;
    let rows = [
        row(Says(DOOR, "on"), &[]),
        row(Says(GATE, "on"), &[]),
        row(Says(WINDOW, "on"), &[0]),
        row(Says(WINDOW, "off"), &[]),
        row(Says(DOOR, "off"), &[]),
        row(Says(WINDOW, "on"), &[]),
        row(Says(DOOR, "on"), &[0]),
        row(Gone(WINDOW), &[]),
        row(Says(WINDOW, "on"), &[0]),
    ];
    goes_at_eight(alloc, &triggers, &rows)
}

#[test]
fn each_of_two_entities_is_asked_for(rt: HostRuntime) {
    assert!(rt; each_is_asked(rt.alloc()).unwrap_or(false));
}

fn other_arm(alloc: Global) -> Result<bool, AllocError> {
    let triggers = one(alloc, shown(alloc, one_on(alloc, DOOR, WINDOW, GATE)?)?)?;
    let rows = [
        row(Says(GATE, "on"), &[0]),
        row(Says(DOOR, "on"), &[]),
        row(Says(GATE, "off"), &[]),
        row(Says(WINDOW, "on"), &[0]),
        row(Says(DOOR, "off"), &[]),
        row(Says(GATE, "on"), &[0]),
    ];
    goes_at_eight(alloc, &triggers, &rows)
}

#[test]
fn an_entity_of_the_other_arm_is_asked_for(rt: HostRuntime) {
    assert!(rt; other_arm(rt.alloc()).unwrap_or(false));
}

fn attribute(alloc: Global) -> Result<bool, AllocError> {
    let triggers = one(alloc, shown(alloc, has_one(alloc, LIGHT)?)?)?;
    let rows = [
        row(Has(LIGHT, "on", 0), &[]),
        row(Says(DOOR, "on"), &[]),
        row(Has(LIGHT, "on", 1), &[0]),
        row(Has(LIGHT, "off", 1), &[]),
        row(Says(LIGHT, "off"), &[]),
        row(Has(LIGHT, "off", 1), &[0]),
    ];
    goes_at_eight(alloc, &triggers, &rows)
}

#[test]
fn the_entity_of_an_attribute_is_asked_for(rt: HostRuntime) {
    assert!(rt; attribute(rt.alloc()).unwrap_or(false));
}

fn computed(alloc: Global) -> Result<bool, AllocError> {
    let triggers = one(
        alloc,
        shown(alloc, joined_is_on(alloc, "binary_sensor.", "d")?)?,
    )?;
    let rows = [
        row(Says(GATE, "on"), &[]),
        row(Says(DOOR, "on"), &[0]),
        row(Says(DOOR, "off"), &[]),
        row(Says(WINDOW, "on"), &[]),
        row(Says(DOOR, "on"), &[0]),
    ];
    goes_at_eight(alloc, &triggers, &rows)
}

#[test]
fn a_computed_id_is_asked_for_at_each_entry(rt: HostRuntime) {
    assert!(rt; computed(rt.alloc()).unwrap_or(false));
}

fn holds(alloc: Global) -> Result<bool, AllocError> {
    let triggers = held(alloc, shown(alloc, both_on(alloc, DOOR, WINDOW)?)?)?;
    let rows = [
        row(Says(DOOR, "on"), &[]),
        row(Says(WINDOW, "on"), &[]),
        row(Clock(1_000), &[]),
        row(Says(GATE, "on"), &[]),
        row(Clock(5_000), &[0]),
        row(Says(WINDOW, "off"), &[]),
        row(Says(WINDOW, "on"), &[]),
        row(Clock(6_000), &[]),
        row(Says(DOOR, "off"), &[]),
        row(Clock(12_000), &[]),
    ];
    goes_at_eight(alloc, &triggers, &rows)
}

#[test]
fn a_hold_goes_on_where_nothing_is_read_and_is_cut_where_one_changes(rt: HostRuntime) {
    assert!(rt; holds(rt.alloc()).unwrap_or(false));
}

/// `not is_state(id, 'on')`.
fn is_not_on(alloc: Global, id: &str) -> Result<Expr, AllocError>
    ensures { IfOk result (λ e. IsTrue (is_sound_expr e)) }
{
    let inner = Boxed::new(alloc, is_on(alloc, id)?)?;
    Ok(Expr::Not(inner))
}

fn true_at_boot(alloc: Global) -> Result<bool, AllocError> {
    let triggers = one(alloc, shown(alloc, is_not_on(alloc, DOOR)?)?)?;
    let rows = [
        row(Says(GATE, "on"), &[]),
        row(Says(DOOR, "off"), &[]),
        row(Says(DOOR, "on"), &[]),
        row(Says(DOOR, "off"), &[0]),
    ];
    goes_at_eight(alloc, &triggers, &rows)
}

#[test]
fn what_is_true_at_the_boot_has_not_turned_true(rt: HostRuntime) {
    assert!(rt; true_at_boot(rt.alloc()).unwrap_or(false));
}

fn from_later(alloc: Global) -> Result<bool, AllocError> {
    let triggers = one(alloc, shown(alloc, is_on(alloc, DOOR)?)?)?;
    let rows = [
        row(Says(DOOR, "on"), &[]),
        row(Says(GATE, "on"), &[]),
        row(Has(DOOR, "on", 1), &[]),
        row(Says(DOOR, "off"), &[]),
        row(Says(DOOR, "on"), &[0]),
    ];
    goes_from(alloc, &triggers, 2, &rows)
}

#[test]
fn one_that_was_attached_later_is_asked_at_that_place(rt: HostRuntime) {
    assert!(rt; from_later(rt.alloc()).unwrap_or(false));
}

fn again(alloc: Global) -> Result<bool, AllocError> {
    let triggers = one(alloc, shown(alloc, is_on(alloc, DOOR)?)?)?;
    let rows = [row(Says(DOOR, "on"), &[0]), row(Says(GATE, "on"), &[])];
    let later = [
        row(Says(GATE, "off"), &[]),
        row(Has(DOOR, "on", 1), &[]),
        row(Says(DOOR, "off"), &[]),
        row(Says(DOOR, "on"), &[0]),
    ];
    goes_again(alloc, &triggers, &rows, &later)
}

#[test]
fn one_that_is_attached_again_is_asked_at_the_next_entry(rt: HostRuntime) {
    assert!(rt; again(rt.alloc()).unwrap_or(false));
}
