//! Whether two texts, ids or lists of pairs are the same, as the definitions test it.
ghost use Rattle.std.specs.Prelude.{◌≡◌};
ghost use Rattle.ha_config.specs.Words.{same, same_entity};
ghost use Rattle.ha_config.specs.Equal.{same_pairs as same_pairs_lem};

use ha_value::{EntityId, Many, Plain, Value, Word};

/// Whether two texts are the same, as the definitions test it.
pub fn same_text(left: &Word, right: &Word) -> bool
    ensures { result ≡ same left.now right.now }
{
    left.same(right)
}

/// Whether two lists of pairs are the same, as the definitions test it.
pub fn same_data(left: &Many<(Word, Value)>, right: &Many<(Word, Value)>) -> bool
    ensures { result ≡ same_pairs_lem left.now right.now }
{
    left.same(right)
}

/// Whether two entity ids are the same, as the definitions test it.
pub fn same_id(left: &EntityId, right: &EntityId) -> bool
    ensures { result ≡ same_entity left.now right.now }
{
    left.same(right)
}
