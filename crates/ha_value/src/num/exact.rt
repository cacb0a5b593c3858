//! Division of exact integers: to the nearest whole number, and down to the one below.
ghost use Rattle.std.specs.Prelude.{◌≡◌, ◌<◌, ◌≤◌, ◌^◌, ◌-ℤ◌, ◌*ℤ◌, pos, unsigned_abs};
ghost use Rattle.ha_value.specs.Numbers.{nearest, rounded};
ghost use Rattle.ha_value.specs.Arithmetic.{floor_of};

/// To the nearest whole number, and to the even one of two that are equally near.
pub fn nearest(over: u128, under: u128) -> u128
    requires divisor { 0 < under }
    requires room { under < 2 ^ 127 }
    ensures { result ≡ nearest over under }
{
    let quotient = over / under;
    let twice = 2 * (over % under);
    if twice < under {
        quotient
    } else if under < twice {
        quotient + 1
    } else {
        quotient + quotient % 2
    }
}

/// The same with signs.
pub fn rounded(over: i128, under: i128) -> i128
    requires divisor { 0 < unsigned_abs under }
    requires over_room { unsigned_abs over ≤ 2 ^ 126 }
    requires under_room { unsigned_abs under < 2 ^ 126 }
    ensures { result ≡ rounded over under }
{
    let size = nearest(over.unsigned_abs(), under.unsigned_abs()) as i128;
    if (over < 0) == (under < 0) {
        size
    } else {
        -size
    }
}

/// The greatest whole number that is not above the quotient.
pub fn floor(over: i128, under: i128) -> i128
    requires divisor { 0 < unsigned_abs under }
    requires over_room { unsigned_abs over ≤ 2 ^ 126 }
    requires under_room { unsigned_abs under < 2 ^ 126 }
    ensures value { result ≡ floor_of over under }
    ensures size { unsigned_abs result ≤ unsigned_abs over }
{
    if under < 0 {
        (-over).div_euclid(-under)
    } else {
        over.div_euclid(under)
    }
}

/// What is left above that multiple of the divisor.
pub fn remainder(over: i128, under: i128) -> i128
    requires divisor { 0 < unsigned_abs under }
    requires over_room { unsigned_abs over ≤ 2 ^ 126 }
    requires under_room { unsigned_abs under < 2 ^ 126 }
    ensures { result ≡ over -ℤ under *ℤ floor_of over under }
{
    if under < 0 {
        -(-over).rem_euclid(-under)
    } else {
        over.rem_euclid(under)
    }
}
