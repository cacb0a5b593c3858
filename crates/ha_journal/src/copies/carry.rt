//! Copies and comparisons of what a segment takes over.
ghost use Rattle.std.specs.Prelude.{◌≡◌, ◌↔◌, IsTrue, IfOk, length};

use crate::carry::Carry;
use ha_clock::Moment;
use ha_value::{Many, Plain, Word};
use std::alloc::{AllocError, Global};

/// A copy of moments by their names.
pub fn copy_moments(
    alloc: Global,
    moments: &[(Word, Moment)],
) -> Result<Many<(Word, Moment)>, AllocError>
    ensures { IfOk result (λ made. made ≡ moments.now) }
{
    let mut all = Many::with_room(alloc, moments.len())?;
    for pair in moments {
        all.push((pair.0.copy(alloc)?, pair.1))?;
    }
    Ok(all)
}

/// Whether two moments under names are the same.
fn same_moment(left: &(Word, Moment), right: &(Word, Moment)) -> bool
    ensures { IsTrue result ↔ (left.now ≡ right.now) }
{
    left.0.same(&right.0) && left.1 == right.1
}

/// Whether two lists of one length have the same at each place.
fn begin_alike(left: &[(Word, Moment)], right: &[(Word, Moment)]) -> bool
    requires { length left.now ≡ length right.now }
    ensures { IsTrue result ↔ (left.now ≡ right.now) }
{
    for i in 0..left.len() {
        if !same_moment(&left[i], &right[i]) {
            return false;
        }
    }
    true
}

fn same_moments(left: &[(Word, Moment)], right: &[(Word, Moment)]) -> bool
    ensures { IsTrue result ↔ (left.now ≡ right.now) }
{
    left.len() == right.len() && begin_alike(left, right)
}

impl Plain for Carry {
    fn copy(&self, alloc: Global) -> Result<Carry, AllocError> {
        Ok(Carry {
            serials: self.serials,
            numbers: self.numbers.copy(alloc)?,
            lines: self.lines.copy(alloc)?,
            shut: self.shut.copy(alloc)?,
            last: copy_moments(alloc, self.last.as_slice())?,
        })
    }

    fn same(&self, other: &Carry) -> bool {
        self.serials == other.serials
            && self.numbers.same(&other.numbers)
            && self.lines.same(&other.lines)
            && self.shut.same(&other.shut)
            && same_moments(self.last.as_slice(), other.last.as_slice())
    }
}
