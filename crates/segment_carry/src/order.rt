//! Numbers in the order of the names that have them.
ghost use Rattle.std.specs.Prelude.{◌≡◌, ◌≤◌, IfOk, OnOk, length, position, unwrap_or};
ghost use Rattle.ha_config.specs.Words.{comes_before as comes_lem};
ghost use Rattle.segment_carry.specs.ByName.{by_name, put_by_name};
ghost use Rattle.ha_config.specs.Names.{name_in};

use ha_value::{Many, Word};
use std::alloc::{AllocError, Global};

/// The name at a place; where there is none it is empty.
pub fn name_at(names: &[Word], at: u32) -> &[u8]
    ensures { result.now ≡ name_in names.now at }
{
    match names.get(at as usize) {
        Some(name) => name.bytes(),
        None => &[],
    }
}

/// Whether the first of two numbers stands before the second by their names.
fn comes_before(names: &[Word], first: u32, second: u32) -> bool
    ensures { result ≡ comes_lem (name_in names.now first) (name_in names.now second) }
{
    is_less(name_at(names, first), name_at(names, second))
}

/// Whether a text stands before another in byte order.
pub fn is_less(left: &[u8], right: &[u8]) -> bool
    ensures { result ≡ comes_lem left.now right.now }
{
    left < right
}

/// The first place among others at which one stands before which the number belongs.
fn found(names: &[Word], order: &[u32], at: u32) -> Option<usize>
    ensures { result ≡ position (λ b. comes_lem (name_in names.now at) (name_in names.now b)) order.now }
{
    order
        .iter()
        .position(|other| comes_before(names, at, *other))
}

/// The place among others, which stand in order, at which the number belongs.
fn place_of(names: &[Word], order: &[u32], at: u32) -> usize
    ensures { result ≡ unwrap_or (position (λ b. comes_lem (name_in names.now at) (name_in names.now b)) order.now) (length order.now) }
{
    match found(names, order, at) {
        Some(place) => place,
        None => order.len(),
    }
}

/// Puts a number among others, which stand in order.
fn put(order: &mut Many<u32>, names: &[Word], at: u32) -> Result<(), AllocError>
    ensures { OnOk result (order.new ≡ put_by_name names.now at order.old) }
{
    let place = place_of(names, order.as_slice(), at);
    order.insert(place, at)?;
    Ok(())
}

/// All of them, in the byte order of their names.
pub fn by_name(alloc: Global, names: &[Word]) -> Result<Many<u32>, AllocError>
    requires { length names.now ≤ 2_048 }
    ensures { IfOk result (λ order. order ≡ by_name names.now) }
{
    let mut left = names.len();
    let mut order = Many::with_room(alloc, left)?;
    'all: while 0 < left {
        left -= 1;
        put(&mut order, names, left as u32)?;
    }
    Ok(order)
}
