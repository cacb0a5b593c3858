//! The last numbers of runs by their names.
ghost use Rattle.std.specs.Prelude.{◌≡◌, ◌+◌, ◌<◌, ◌≤◌, ◌++◌, ◌∷◌, [], ℕ, List, IfOk, OnOk, true, false, drop, length, nat_eq, nat_le, slice_get, take};
ghost use Rattle.std.specs.Option.{option_map_or};
ghost use Rattle.ha_config.specs.Words.{Text, comes_before, same};
ghost use Rattle.segment_carry.specs.ByName.{Ascends, back_of, front_of, numbers_with, past, put_all, with_some};
ghost use Rattle.segment_carry.specs.Closing.{number_in};

use crate::order::is_less;
use ha_config::same_text;
use ha_value::{Many, Plain, Word};
use std::alloc::{AllocError, Global};

/// Whether the name of a pair stands before this one.
fn is_before(pair: &(Word, u64), name: &Word) -> bool
    ensures { result ≡ comes_before pair.now.0 name.now }
{
    is_less(pair.0.bytes(), name.bytes())
}

/// Whether the pair at a place has this name.
fn is_at(pairs: &[(Word, u64)], place: usize, name: &Word) -> bool
    ensures { result ≡ option_map_or (λ p. same p.0 name.now) (slice_get pairs.now place) false }
{
    match pairs.get(place) {
        Some(pair) => same_text(&pair.0, name),
        None => false,
    }
}

/// Puts a copy of a pair behind.
fn put_copy(
    alloc: Global,
    made: &mut Many<(Word, u64)>,
    pair: &(Word, u64),
) -> Result<(), AllocError>
    ensures { OnOk result (made.new ≡ made.old ++ (pair.now ∷ [])) }
{
    let name = pair.0.copy(alloc)?;
    made.push((name, pair.1))?;
    Ok(())
}

/// Puts behind what stands from a place on before a name, and tells the place of the first that does not.
fn put_front(
    alloc: Global,
    made: &mut Many<(Word, u64)>,
    left: &[(Word, u64)],
    at: usize,
    name: &Word,
) -> Result<usize, AllocError>
    ensures made { OnOk result (made.new ≡ made.old ++ front_of name.now (drop at left.now)) }
    ensures next { IfOk result (λ next. drop next left.now ≡ back_of name.now (drop at left.now)) }
{
    'left: for to in at..left.len() {
        let pair = &left[to];
        if !is_before(pair, name) {
            return Ok(to);
        }
        put_copy(alloc, made, pair)?;
    }
    Ok(left.len())
}

/// The place behind one that has this name, else the place itself.
fn behind(left: &[(Word, u64)], at: usize, name: &Word) -> usize
    ensures { drop result left.now ≡ past name.now (drop at left.now) }
{
    let _count = left.len();
    if is_at(left, at, name) {
        return at + 1;
    }
    at
}

/// Puts behind all from a place on.
fn put_rest(
    alloc: Global,
    made: &mut Many<(Word, u64)>,
    left: &[(Word, u64)],
    at: usize,
) -> Result<(), AllocError>
    ensures { OnOk result (made.new ≡ made.old ++ drop at left.now) }
{
    'left: for to in at..left.len() {
        put_copy(alloc, made, &left[to])?;
    }
    Ok(())
}

/// These numbers under their names, where others stand already, in one pass over both.
fn joined(
    alloc: Global,
    left: &[(Word, u64)],
    right: &[(Word, u64)],
) -> Result<Many<(Word, u64)>, AllocError>
    requires { Ascends right.now }
    ensures { IfOk result (λ made. made ≡ put_all right.now left.now) }
{
    let mut made = Many::make(alloc);
    let mut at = 0;
    'right: for to in 0..right.len() {
        let pair = &right[to];
        let next = put_front(alloc, &mut made, left, at, &pair.0)?;
        put_copy(alloc, &mut made, pair)?;
        at = behind(left, next, &pair.0);
    }
    put_rest(alloc, &mut made, left, at)?;
    Ok(made)
}

/// What stands at a place, else 0.
fn number_at(numbers: &[u64], at: usize) -> u64
    ensures { result ≡ number_in numbers.now at }
{
    match numbers.get(at) {
        Some(number) => *number,
        None => 0,
    }
}

/// Whether a number is 0.
fn is_none(number: u64) -> bool
    ensures { result ≡ nat_eq number 0 }
{
    number == 0
}

/// The number of a name, where it is not 0.
fn one_number(alloc: Global, name: &Word, number: u64) -> Result<Many<(Word, u64)>, AllocError>
    ensures ascends { IfOk result (λ made. Ascends made) }
    ensures put { IfOk result (λ made. (ps : List (Text × ℕ)) → put_all made ps ≡ with_some name.now number ps) }
{
    let mut made = Many::make(alloc);
    if is_none(number) {
        return Ok(made);
    }
    let name = name.copy(alloc)?;
    made.push((name, number))?;
    Ok(made)
}

/// The number of a single unit, if there is one.
fn first_number(
    alloc: Global,
    names: &[Word],
    last: &[u64],
) -> Result<Many<(Word, u64)>, AllocError>
    requires { length names.now ≤ 1 }
    ensures ascends { IfOk result (λ made. Ascends made) }
    ensures put { IfOk result (λ made. (ps : List (Text × ℕ)) → put_all made ps ≡ numbers_with (number_in last.now) 0 names.now ps) }
{
    match names.get(0) {
        Some(name) => one_number(alloc, name, number_at(last, 0)),
        None => Ok(Many::make(alloc)),
    }
}

/// The half of a count: 0 where that is at most 1.
fn half_of(count: usize) -> usize
    ensures none { result ≡ 0 → count ≤ 1 }
    ensures some { 0 < result → result < count }
    ensures most { result ≤ count }
{
    count / 2
}

/// The first names.
fn first_names(names: &[Word], count: usize) -> &[Word]
    requires { count ≤ length names.now }
    ensures names { result.now ≡ take count names.now }
    ensures len { length result.now ≡ count }
{
    &names[..count]
}

/// The names behind these.
fn other_names(names: &[Word], count: usize) -> &[Word]
    requires { count ≤ length names.now }
    ensures names { result.now ≡ drop count names.now }
    ensures len { length result.now + count ≡ length names.now }
{
    &names[count..]
}

/// Whether there are no more than so many numbers.
fn is_short(last: &[u64], count: usize) -> bool
    ensures { result ≡ nat_le (length last.now) count }
{
    last.len() <= count
}

/// The numbers behind so many.
fn other_numbers(last: &[u64], count: usize) -> &[u64]
    ensures { result.now ≡ drop count last.now }
{
    if is_short(last, count) {
        return &[];
    }
    &last[count..]
}

/// The last number of each name of a unit that has a run, in the order of the names. Of two units of one name the last counts. It takes
/// steps as a sort does.
fn gathered(alloc: Global, names: &[Word], last: &[u64]) -> Result<Many<(Word, u64)>, AllocError>
    ensures ascends { IfOk result (λ made. Ascends made) }
    ensures put { IfOk result (λ made. (ps : List (Text × ℕ)) → put_all made ps ≡ numbers_with (number_in last.now) 0 names.now ps) }
{
    let half = half_of(names.len());
    if half == 0 {
        return first_number(alloc, names, last);
    }
    let left = gathered(alloc, first_names(names, half), last)?;
    let right = gathered(alloc, other_names(names, half), other_numbers(last, half))?;
    let made = joined(alloc, left.as_slice(), right.as_slice())?;
    Ok(made)
}

/// The last number of each name that has a run: those that were taken over, and those of units by these names, in the order of the names.
pub fn numbers(
    alloc: Global,
    before: &Many<(Word, u64)>,
    names: &[Word],
    last: &[u64],
) -> Result<Many<(Word, u64)>, AllocError>
    ensures { IfOk result (λ made. made ≡ numbers_with (number_in last.now) 0 names.now before.now) }
{
    let own = gathered(alloc, names, last)?;
    let made = joined(alloc, before.as_slice(), own.as_slice())?;
    Ok(made)
}
