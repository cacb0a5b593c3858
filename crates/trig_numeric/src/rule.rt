//! The bounds of numeric triggers.
ghost use Rattle.std.specs.Prelude.{◌≡◌, true};
ghost use Rattle.std.specs.Option.{option_copied};
ghost use Rattle.ha_config.specs.Numbers as numbers;
ghost use Rattle.trig_numeric.specs.Bounds.{rule_in};
ghost use Rattle.ha_sight.specs.Rules.{is_numeric};

use crate::numbers::number_in;
use ha_config::TriggerRule;
use ha_sight::StateObject;
use ha_value::Num;
use std::cmp::Ordering;

fn is_less(left: &Num, right: &Num) -> bool
    ensures { result ≡ numbers.less left.now right.now }
{
    matches!(left.compare(right), Ordering::Less)
}

/// Whether the number is strictly between the bounds that are given.
pub fn in_bounds(above: Option<Num>, below: Option<Num>, number: &Num) -> bool
    ensures { result ≡ numbers.in_bounds above below number.now }
{
    let over = match above {
        None => true,
        Some(above) => is_less(&above, number),
    };
    let under = match below {
        None => true,
        Some(below) => is_less(number, &below),
    };
    over && under
}

/// Whether the state's number, or that of the named attribute, is in the bounds of a numeric trigger; none exactly where there is no
/// number.
pub fn numeric_in(rule: &TriggerRule, state: Option<&StateObject>) -> Option<bool>
    requires { is_numeric rule.now ≡ true }
    ensures { result ≡ rule_in rule.now (option_copied state.entry) }
{
    let TriggerRule::Numeric {
        attribute,
        above,
        below,
        ..
    } = rule
    else {
        unreachable!()
    };
    let Some(state) = state else {
        return None;
    };
    match number_in(attribute.as_ref(), &state.text, state.attributes.as_slice()) {
        Some(number) => Some(in_bounds(*above, *below, &number)),
        None => None,
    }
}
