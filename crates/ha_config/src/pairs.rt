//! The first and the last pair of a name.
ghost use Rattle.std.specs.Prelude.{◌≡◌};
ghost use Rattle.std.specs.Option.{option_copied};
ghost use Rattle.ha_config.specs.Words as words;

use crate::sameness::same_text;
use ha_value::{Value, Word};

/// The value of the first pair of that name.
pub fn first_pair<'a>(name: &Word, pairs: &'a [(Word, Value)]) -> Option<&'a Value>
    ensures { option_copied result ≡ words.first_pair name.now pairs.now }
{
    for pair in pairs {
        if same_text(&pair.0, name) {
            return Some(&pair.1);
        }
    }
    None
}

/// The value of the last pair of that name.
pub fn last_pair<'a>(name: &Word, pairs: &'a [(Word, Value)]) -> Option<&'a Value>
    ensures { option_copied result ≡ words.last_pair name.now pairs.now }
{
    let mut left = pairs.len();
    while 0 < left {
        left -= 1;
        let pair = &pairs[left];
        if same_text(&pair.0, name) {
            return Some(&pair.1);
        }
    }
    None
}
