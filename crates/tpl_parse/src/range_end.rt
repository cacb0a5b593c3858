//! Where the digits of a number leave the range of numbers.

ghost use Rattle.std.specs.Prelude.{◌≡◌, ◌≤◌, ◌<◌, ◌==◌, ◌&&◌, ◌||◌, suc, length, drop, take, not, true, false, get_or, is_none};
ghost use Rattle.ha_value.specs.Numbers.{read_number};
ghost use Rattle.tpl_parse.specs.Literal.{before_range_end, has_dot, idle_zero};

use crate::literal::is_digit;
use ha_value::Num;

fn is_idle(placed: bool, b: u8) -> bool
    ensures { result ≡ (placed && b == 48) }
{
    placed && b == b'0'
}

/// Whether the next digit takes the number out of range. A zero behind the dot and other places changes no number, so the
/// zeros of a number are not read again and again.
fn leaves_range(digits: &[u8], count: usize, placed: bool) -> bool
    requires within { count < length digits.now }
    requires dot { placed ≡ true → has_dot (take count digits.now) ≡ true }
    requires number { placed ≡ true → is_none (read_number (take count digits.now)) ≡ false }
    ensures { result ≡ (not (get_or digits.now count 0 == 46) && is_none (read_number (take (suc count) digits.now))) }
{
    let b = digits[count];
    if b == b'.' {
        return false;
    }
    if is_idle(placed, b) {
        return false;
    }
    Num::read(&digits[..count + 1]).is_none()
}

fn is_placed(dotted: bool, b: u8) -> bool
    ensures { result ≡ (dotted && not (b == 46)) }
{
    dotted && b != b'.'
}

fn is_dotted(dotted: bool, b: u8) -> bool
    ensures { result ≡ (dotted || b == 46) }
{
    dotted || b == b'.'
}

/// The place of the first digit with which the number is out of range. Without zeros that change nothing, few are tried.
fn tried_range_end(digits: &[u8]) -> usize
    ensures exact { result ≡ before_range_end 0 digits.now digits.now }
    ensures within { result ≤ length digits.now }
{
    let mut count = 0;
    let mut dotted = false;
    let mut placed = false;
    'digits: while count < digits.len() {
        if leaves_range(digits, count, placed) {
            return count;
        }
        let b = digits[count];
        placed = is_placed(dotted, b);
        dotted = is_dotted(dotted, b);
        count += 1;
    }
    count
}

/// Whether a zero with a digit behind it begins the digits. It changes no number.
fn idle_zero(digits: &[u8]) -> bool
    ensures exact { result ≡ idle_zero digits.now }
    ensures some { result ≡ true → 0 < length digits.now }
{
    match digits.first() {
        Some(b'0') => is_digit(digits[1..].first().copied()),
        _ => false,
    }
}

fn behind_first(digits: &[u8]) -> &[u8]
    requires { 0 < length digits.now }
    ensures { result.now ≡ drop 1 digits.now }
{
    &digits[1..]
}

/// How many bytes stand before the first digit with which the number is out of range. Only a text that is refused comes here.
pub(crate) fn before_range_end(digits: &[u8]) -> usize
    ensures { result ≡ before_range_end 0 digits.now digits.now }
{
    let mut left = digits;
    let mut zeros = 0;
    'zeros: while idle_zero(left) {
        left = behind_first(left);
        zeros += 1;
    }
    zeros + tried_range_end(left)
}
