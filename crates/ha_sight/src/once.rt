//! Numbers that are listed once each, in the order in which they come.
ghost use Rattle.std.specs.Prelude.{◌≡◌, OnOk};
ghost use Rattle.ha_sight.specs.Once.{has_number, with_number};

use ha_value::Many;
use std::alloc::AllocError;

/// Whether the number is in the list.
fn has_number(number: u32, found: &[u32]) -> bool
    ensures { result ≡ has_number number found.now }
{
    for i in 0..found.len() {
        if number == found[i] {
            return true;
        }
    }
    false
}

/// Appends a number, if there is one, that is not in the list yet.
pub fn add_once(found: &mut Many<u32>, number: Option<u32>) -> Result<(), AllocError>
    ensures { OnOk result (found.new ≡ with_number number found.old) }
{
    match number {
        Some(number) => {
            if has_number(number, found.as_slice()) {
                Ok(())
            } else {
                found.push(number)?;
                Ok(())
            }
        }
        None => Ok(()),
    }
}
