//! Whether an entry is an event that a trigger names.
ghost use Rattle.std.specs.Prelude.{◌≡◌, ◌&&◌, option_map};
ghost use Rattle.std.specs.Option.{option_copied};
ghost use Rattle.std.specs.List.{list_all};
ghost use Rattle.ha_journal.specs.Entries.{event_in};
ghost use Rattle.ha_sight.specs.Rules as triggers;
ghost use Rattle.ha_config.specs.Words as words;

use crate::equal::equal;
use ha_config::{Cmd, first_pair, same_text};
use ha_journal::Entry;
use ha_sight::Item;
use ha_value::{Many, Value, Word};

/// The kind of the event, if the entry is one.
pub fn kind_in(entry: &Entry) -> Option<&Word>
    ensures { option_copied result ≡ option_map (λ v. v.0) (event_in entry.now) }
{
    match entry {
        Entry::Line {
            cmd: Cmd::Event { kind, .. },
            ..
        } => Some(kind),
        Entry::Step {
            item: Item::Fired { kind, .. },
            ..
        } => Some(kind),
        _ => None,
    }
}

/// The data of the event, if the entry is one.
pub fn data_in(entry: &Entry) -> Option<&Many<(Word, Value)>>
    ensures { option_copied result ≡ option_map (λ v. v.1) (event_in entry.now) }
{
    match entry {
        Entry::Line {
            cmd: Cmd::Event { pairs, .. },
            ..
        } => Some(pairs),
        Entry::Step {
            item: Item::Fired { pairs, .. },
            ..
        } => Some(pairs),
        _ => None,
    }
}

/// Whether the data has the pair.
fn has_pair(fields: &[(Word, Value)], pair: &(Word, Value)) -> bool
    ensures { result ≡ triggers.pair_holds fields.now pair.now }
{
    match first_pair(&pair.0, fields) {
        Some(value) => equal(&pair.1, value),
        None => false,
    }
}

fn has_pairs(fields: &[(Word, Value)], pairs: &[(Word, Value)]) -> bool
    ensures { result ≡ list_all (triggers.pair_holds fields.now) pairs.now }
{
    pairs.iter().all(|pair| has_pair(fields, pair))
}

fn is_one_of(kind: &Word, kinds: &[Word]) -> bool
    ensures { result ≡ words.one_of kind.now kinds.now }
{
    kinds.iter().any(|one| same_text(kind, one))
}

/// Whether an event is of one of the kinds, and has each of the pairs.
pub fn is_named(
    kinds: &[Word],
    pairs: &[(Word, Value)],
    kind: &Word,
    fields: &[(Word, Value)],
) -> bool
    ensures { result ≡ (words.one_of kind.now kinds.now && list_all (triggers.pair_holds fields.now) pairs.now) }
{
    is_one_of(kind, kinds) && has_pairs(fields, pairs)
}
