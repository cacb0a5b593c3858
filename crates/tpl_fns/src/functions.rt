//! The functions that ask no state, by their numbers.
ghost use Rattle.std.specs.Prelude.{◌≡◌, ◌≤◌, Some, if◌then◌else◌};
ghost use Rattle.ha_value.specs.Truth.{truth};
ghost use Rattle.ha_sight.specs.Sight.{Sight};
ghost use Rattle.ha_sight.specs.Filters.{applied, by_count, function_one, function_two, function_three};
ghost use Rattle.tpl_fns.specs.Outcome.{Gives};

use crate::lists::{Side, extreme};
use crate::numbers::{is_number, to_float, to_int};
use crate::outcome::copied;
use ha_sight::TplFault;
use ha_value::Value;
use std::alloc::Global;

/// What a function that asks no state gives: 6 `int`, 7 `float`, 8 `min`, 9 `max`, 10 `iif` and
/// 11 `is_number`. Those below 6 ask the states. Fault comes exactly where the function gives
/// nothing: on another number, on a number of arguments that it has not, and on kinds that it does
/// not take.
pub fn function_of_values(alloc: Global, name: u8, args: &[Value]) -> Result<Value, TplFault>
    requires { 6 ≤ name }
    ensures { (sight : Sight) → Gives result (applied sight name args.now) }
{
    match name {
        8 => extreme(Side::Least, args),
        9 => extreme(Side::Greatest, args),
        _ => counted(alloc, name, args),
    }
}

/// By the number of arguments.
fn counted(alloc: Global, name: u8, args: &[Value]) -> Result<Value, TplFault>
    requires { 6 ≤ name }
    ensures { (sight : Sight) → Gives result (by_count sight name args.now) }
{
    match args {
        [x] => of_one(alloc, name, x),
        [x, y] => of_two(alloc, name, x, y),
        [x, y, z] => of_three(alloc, name, x, y, z),
        _ => Err(TplFault::Fault),
    }
}

fn of_one(alloc: Global, name: u8, x: &Value) -> Result<Value, TplFault>
    requires { 6 ≤ name }
    ensures { (sight : Sight) → Gives result (function_one sight name x.now) }
{
    match name {
        6 => to_int(alloc, x, None),
        7 => to_float(alloc, x, None),
        11 => Ok(Value::Flag(is_number(x))),
        _ => Err(TplFault::Fault),
    }
}

fn of_two(alloc: Global, name: u8, x: &Value, y: &Value) -> Result<Value, TplFault>
    requires { 6 ≤ name }
    ensures { (sight : Sight) → Gives result (function_two sight name x.now y.now) }
{
    match name {
        6 => to_int(alloc, x, Some(y)),
        7 => to_float(alloc, x, Some(y)),
        _ => Err(TplFault::Fault),
    }
}

fn of_three(alloc: Global, name: u8, x: &Value, y: &Value, z: &Value) -> Result<Value, TplFault>
    requires { 6 ≤ name }
    ensures { (sight : Sight) → Gives result (function_three sight name x.now y.now z.now) }
{
    match name {
        10 => chosen(alloc, x, y, z),
        _ => Err(TplFault::Fault),
    }
}

/// `iif`: the second where the first is true, else the third.
pub fn chosen(alloc: Global, test: &Value, yes: &Value, no: &Value) -> Result<Value, TplFault>
    ensures { Gives result (Some (if truth test.now then yes.now else no.now)) }
{
    if test.truth() {
        copied(alloc, yes)
    } else {
        copied(alloc, no)
    }
}
