//! Tables of keys, and the fields of maps by them.

ghost use Rattle.std.specs.Prelude.{◌≡◌, ◌||◌, ◌++◌, ℕ, None, Some, [], ◌<◌, IfSome, is_some, length, option_and_then, option_map, slice_get};
ghost use Rattle.std.specs.List.{find, list_any};
ghost use Rattle.std.specs.Option.{option_copied};
ghost use Rattle.yaml_scan.specs.Answers.{Gives};
ghost use Rattle.conf_field.specs.Fields as fields;

use crate::key::Key;
use crate::kinds::Kind;
use crate::parts::{bad, unless};
use ha_value::Word;
use std::alloc::Global;
use yaml_scan::{Code, Fault, YamlFault, least};
use yaml_tree::Node;

/// A key, perhaps with a second word for it.
#[derive(Clone, Copy, Debug, PartialEq, Eq)]
pub struct Row {
    pub key: Key,
    pub also: Option<Key>,
}

/// A key of a map, its line, and its value.
pub type Pair = (Word, u32, Node);

impl Row {
    /// A key that has one word.
    pub const fn of(key: Key) -> Row
        ensures { result ≡ fields.row key }
    {
        Row { key, also: None }
    }

    /// Whether this is the word, or one of the two.
    pub fn names(self, key: &[u8]) -> bool
        ensures { result ≡ fields.names self key.now }
    {
        if self.key.text() == key {
            return true;
        }
        match self.also {
            Some(other) => other.text() == key,
            None => false,
        }
    }
}

/// The first key of the row, if there is one.
pub fn field(pairs: &[Pair], row: Row) -> Option<&Pair>
    ensures { option_copied result ≡ fields.field row pairs.now }
{
    pairs.iter().find(|pair| row.names(pair.0.bytes()))
}

/// The place of the first key of the row in the map.
pub fn field_at(pairs: &[Pair], row: Row) -> Option<usize>
    ensures value { fields.field row pairs.now ≡ option_and_then (λ i. slice_get pairs.now i) result }
    ensures within { IfSome result (λ i. i < length pairs.now) }
{
    'pairs: for i in 0..pairs.len() {
        let pair = &pairs[i];
        if row.names(pair.0.bytes()) {
            return Some(i);
        }
    }
    None
}

/// The row of one of the two tables that has the key.
#[tactic(auto, using(crate::proofs::Finds::find_append))]
fn row_among(common: &[Row], own: &[Row], key: &[u8]) -> Option<Row>
    ensures { result ≡ find (λ r. fields.names r key.now) (common.now ++ own.now) }
{
    match row_of(common, key) {
        Some(row) => Some(row),
        None => row_of(own, key),
    }
}

/// The row that has the key.
fn row_of(rows: &[Row], key: &[u8]) -> Option<Row>
    ensures { result ≡ find (λ r. fields.names r key.now) rows.now }
{
    rows.iter().copied().find(|row| row.names(key))
}

/// Whether one of the keys is of the row.
fn stands(before: &[Pair], row: Row) -> bool
    ensures { result ≡ list_any (λ p. fields.names row p.0) before.now }
{
    before.iter().any(|pair| row.names(pair.0.bytes()))
}

/// The fault of a key on this line, whose row is given, behind others.
fn by_row(row: Option<Row>, before: &[Pair], line: u32) -> Option<Fault>
    ensures { result ≡ fields.by_row row before.now line }
{
    match row {
        None => Some(Fault {
            line,
            code: Code::UnknownKey,
        }),
        Some(row) => {
            if stands(before, row) {
                return Some(Fault {
                    line,
                    code: Code::RepeatedKey,
                });
            }
            None
        }
    }
}

/// The fault of a key behind others.
fn key_fault(common: &[Row], own: &[Row], before: &[Pair], pair: &Pair) -> Option<Fault>
    ensures { result ≡ fields.key_fault (common.now ++ own.now) before.now pair.now }
{
    by_row(row_among(common, own, pair.0.bytes()), before, pair.1)
}

/// The keys are those of the tables, each at most once.
#[tactic(auto, unfolding(crate::specs::Fields::keys_fault))]
fn keys_fault(common: &[Row], own: &[Row], pairs: &[Pair]) -> Option<Fault>
    ensures { result ≡ fields.keys_fault (common.now ++ own.now) None [] pairs.now }
{
    let mut found = None;
    'pairs: for i in 0..pairs.len() {
        found = least(found, key_fault(common, own, &pairs[..i], &pairs[i]));
    }
    found
}

/// The keys are those of the tables, each at most once.
pub fn keys(common: &[Row], own: &[Row], pairs: &[Pair]) -> Result<(), YamlFault>
    ensures { Gives (fields.keys (common.now ++ own.now) pairs.now) result }
{
    unless(keys_fault(common, own, pairs))
}

/// Where a fault of a value stands: at its own line, but of null at its key's.
pub fn place(pair: &Pair) -> u32
    ensures { result ≡ fields.place pair.now }
{
    if pair.2.is_null() {
        pair.1
    } else {
        pair.2.line
    }
}

/// A field's value.
pub fn value<K: Kind>(alloc: Global, pair: &Pair) -> Result<K::Made, YamlFault>
    ensures { Gives (fields.value K.meaning pair.now) result }
{
    K::read(alloc, place(pair), &pair.2)
}

/// A field that has to be there. Where it is not, this fault stands at the map's line.
pub fn wanted<K: Kind>(
    alloc: Global,
    code: Code,
    line: u32,
    pairs: &[Pair],
    row: Row,
) -> Result<K::Made, YamlFault>
    ensures { Gives (fields.wanted code K.meaning line (fields.field row pairs.now)) result }
{
    match field(pairs, row) {
        Some(pair) => value::<K>(alloc, pair),
        None => bad(line, code),
    }
}

/// A field that has to be there.
pub fn needed<K: Kind>(
    alloc: Global,
    line: u32,
    pairs: &[Pair],
    row: Row,
) -> Result<K::Made, YamlFault>
    ensures { Gives (fields.needed K.meaning line (fields.field row pairs.now)) result }
{
    wanted::<K>(alloc, Code::MissingKey, line, pairs, row)
}

/// A field that may be there.
pub fn optional<K: Kind>(
    alloc: Global,
    pairs: &[Pair],
    row: Row,
) -> Result<Option<K::Made>, YamlFault>
    ensures { Gives (fields.optional K.meaning (fields.field row pairs.now)) result }
{
    match field(pairs, row) {
        Some(pair) => match value::<K>(alloc, pair) {
            Ok(made) => Ok(Some(made)),
            Err(fault) => Err(fault),
        },
        None => Ok(None),
    }
}

fn has(pairs: &[Pair], row: Row) -> bool
    ensures { result ≡ is_some (fields.field row pairs.now) }
{
    field(pairs, row).is_some()
}

fn any_of(rows: &[Row], pairs: &[Pair]) -> bool
    ensures { result ≡ list_any (λ r. is_some (fields.field r pairs.now)) rows.now }
{
    rows.iter().any(|row| has(pairs, *row))
}

/// At least one of these keys is there.
pub fn one_of(line: u32, rows: &[Row], pairs: &[Pair]) -> Option<Fault>
    ensures { result ≡ fields.one_of line rows.now pairs.now }
{
    if any_of(rows, pairs) {
        return None;
    }
    Some(Fault {
        line,
        code: Code::MissingKey,
    })
}
