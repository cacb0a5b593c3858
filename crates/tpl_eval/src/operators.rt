//! The operators of templates, on operands that are computed.
ghost use Rattle.std.specs.Prelude.{◌≡◌, ◌++◌, not, option_and_then, option_map};
ghost use Rattle.ha_value.specs.declared.value.Value.TheViews.{out-Value};
ghost use Rattle.ha_config.specs.Numbers.{given as given_number, less as less_lem};
ghost use Rattle.ha_sight.specs.Values as values;
ghost use Rattle.ha_config.specs.Words.{comes_before as comes_before_lem};
ghost use Rattle.tpl_eval.specs.Operators as operators;
ghost use Rattle.tpl_fns.specs.Outcome.{Gives};

use crate::equal::equal;
use crate::within::within;
use ha_config::Op;
use ha_sight::TplFault;
use ha_value::{Num, NumFault, Value, Word};
use std::alloc::Global;
use std::cmp::Ordering;
use tpl_fns::{chosen, given, joined, printed};

/// The arithmetic that takes numbers alone.
#[derive(Clone, Copy, Debug, PartialEq, Eq)]
pub enum Work {
    Minus,
    Times,
    Over,
    Floor,
    Modulo,
}

/// What an operator gives. Fault comes exactly where it gives nothing: on kinds that it does not
/// take, on a number out of range, a divisor that is zero, and a text that would be too long.
pub fn operate(alloc: Global, op: Op, left: &Value, right: &Value) -> Result<Value, TplFault>
    ensures { Gives result (values.operate op left.now right.now) }
{
    match op {
        Op::Or => chosen(alloc, left, left, right),
        Op::And => chosen(alloc, left, right, left),
        Op::Equal => Ok(Value::Flag(equal(left, right))),
        Op::Unequal => Ok(Value::Flag(!equal(left, right))),
        Op::Less => so(before(left, right)),
        Op::AtMost => not_so(before(right, left)),
        Op::More => so(before(right, left)),
        Op::AtLeast => not_so(before(left, right)),
        Op::Within => so(within(left, right)),
        Op::Outside => not_so(within(left, right)),
        Op::Plus => sum(alloc, left, right),
        Op::Join => joined_prints(alloc, left, right),
        Op::Minus => arithmetic(Work::Minus, left, right),
        Op::Times => arithmetic(Work::Times, left, right),
        Op::Over => arithmetic(Work::Over, left, right),
        Op::Floor => arithmetic(Work::Floor, left, right),
        Op::Modulo => arithmetic(Work::Modulo, left, right),
    }
}

/// `-` before a number.
pub fn negation(value: &Value) -> Result<Value, TplFault>
    ensures { Gives result (values.negation value.now) }
{
    match value {
        Value::Number(number) => given(number_of(number.negate())),
        _ => Err(TplFault::Fault),
    }
}

fn number_of(answer: Result<Num, NumFault>) -> Option<Num>
    ensures { result ≡ given_number answer }
{
    match answer {
        Ok(number) => Some(number),
        Err(_) => None,
    }
}

/// The answer as a flag.
fn so(answer: Option<bool>) -> Result<Value, TplFault>
    ensures { Gives result (option_and_then values.flag answer) }
{
    match answer {
        Some(answer) => Ok(Value::Flag(answer)),
        None => Err(TplFault::Fault),
    }
}

/// The other answer as a flag.
fn not_so(answer: Option<bool>) -> Result<Value, TplFault>
    ensures { Gives result (option_and_then (λ found. values.flag (not found)) answer) }
{
    match answer {
        Some(answer) => Ok(Value::Flag(!answer)),
        None => Err(TplFault::Fault),
    }
}

fn less(left: &Num, right: &Num) -> bool
    ensures { result ≡ less_lem left.now right.now }
{
    left.compare(right) == Ordering::Less
}

fn comes_before(left: &Word, right: &Word) -> bool
    ensures { result ≡ comes_before_lem left.now right.now }
{
    left.bytes() < right.bytes()
}

/// Whether the first of two numbers or two texts stands before the second.
fn before(left: &Value, right: &Value) -> Option<bool>
    ensures { result ≡ operators.before (out-Value left.now) (out-Value right.now) }
{
    match (left, right) {
        (Value::Number(left), Value::Number(right)) => Some(less(left, right)),
        (Value::Text(left), Value::Text(right)) => Some(comes_before(left, right)),
        _ => None,
    }
}

/// `+`: two numbers, or two texts, which are joined.
fn sum(alloc: Global, left: &Value, right: &Value) -> Result<Value, TplFault>
    ensures { Gives result (values.summed (out-Value left.now) (out-Value right.now)) }
{
    match (left, right) {
        (Value::Number(left), Value::Number(right)) => given(number_of(left.add(right))),
        (Value::Text(left), Value::Text(right)) => joined(alloc, left.as_str(), right.as_str()),
        _ => Err(TplFault::Fault),
    }
}

fn worked_out(work: Work, left: &Num, right: &Num) -> Option<Num>
    ensures { result ≡ operators.worked_out work left.now right.now }
{
    number_of(match work {
        Work::Minus => left.sub(right),
        Work::Times => left.mul(right),
        Work::Over => left.div(right),
        Work::Floor => left.floor_div(right),
        Work::Modulo => left.modulo(right),
    })
}

fn arithmetic(work: Work, left: &Value, right: &Value) -> Result<Value, TplFault>
    ensures { Gives result (values.on_numbers (operators.worked_out work) left.now right.now) }
{
    match (left, right) {
        (Value::Number(left), Value::Number(right)) => given(worked_out(work, left, right)),
        _ => Err(TplFault::Fault),
    }
}

/// `~`: the printed texts, joined.
fn joined_prints(alloc: Global, left: &Value, right: &Value) -> Result<Value, TplFault>
    ensures { Gives result (values.join_printed left.now right.now) }
{
    match left {
        Value::Text(text) => joined_print(alloc, text.as_str(), right),
        _ => match printed(alloc, left) {
            Ok(text) => joined_print(alloc, text.as_str(), right),
            Err(fault) => Err(fault),
        },
    }
}

/// The text, and behind it the print of the value.
fn joined_print(alloc: Global, text: &str, value: &Value) -> Result<Value, TplFault>
    ensures { Gives result (option_and_then (λ y. values.made_text (text.now ++ y)) (values.printed value.now)) }
{
    match value {
        Value::Text(more) => joined(alloc, text, more.as_str()),
        _ => match printed(alloc, value) {
            Ok(more) => joined(alloc, text, more.as_str()),
            Err(fault) => Err(fault),
        },
    }
}
