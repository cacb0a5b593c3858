//! The kinds of units.
ghost use Rattle.std.specs.Prelude.{◌≡◌, Bool};
ghost use Rattle.ha_config.specs.Equality.{same_automation, same_script};

use ha_config::{Automation, Script};
use ha_value::Plain;

/// A kind of units.
pub trait Kind {
    /// Whether two are equal in every field.
    ghost equal: { Self → Self → Bool };

    /// Whether the two are equal in every field.
    fn is_same(&self, other: &Self) -> bool
        ensures { result ≡ equal self.now other.now };
}

/// Whether two automations are equal in every field.
fn same_rules(left: &Automation, right: &Automation) -> bool
    ensures { result ≡ same_automation left.now right.now }
{
    left.same(right)
}

impl Kind for Automation {
    ghost equal = { same_automation };

    fn is_same(&self, other: &Automation) -> bool {
        same_rules(self, other)
    }
}

/// Whether two scripts are equal in every field.
fn same_scripts(one: &Script, other: &Script) -> bool
    ensures { result ≡ same_script one.now other.now }
{
    one.same(other)
}

impl Kind for Script {
    ghost equal = { same_script };

    fn is_same(&self, other: &Script) -> bool {
        same_scripts(self, other)
    }
}
