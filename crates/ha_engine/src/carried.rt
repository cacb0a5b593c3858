//! What a segment takes over, by the names of its units.
ghost use Rattle.std.specs.Prelude.{◌≡◌, IfOk, Some, map, slice_get, unwrap_or};
ghost use Rattle.std.specs.Option.{option_copied};
ghost use Rattle.ha_journal.specs.declared.entry.Entry.{Entry as Item};
ghost use Rattle.ha_journal.specs.Entries.{BeginsSegment};
ghost use Rattle.ha_whole.specs.Named.{named};
ghost use Rattle.segment_carry.specs.Sources.{carry_in};

use ha_config::same_text;
use ha_journal::{Carry, Entry};
use ha_value::{Many, Word};
use std::alloc::{AllocError, Global};

/// What an opening took over.
fn carry_of(opening: &Entry) -> &Carry
    requires { BeginsSegment opening.now }
    ensures { result.now ≡ carry_in opening.now }
{
    match opening {
        Entry::Boot { carry, .. } => carry.get(),
        Entry::Again { carry, .. } => carry.get(),
        Entry::Line { .. } | Entry::Step { .. } => unreachable!(),
    }
}

/// The entry at a place, if there is one.
fn entry_at(journal: &[Entry], at: usize) -> Option<&Entry>
    ensures { option_copied result ≡ slice_get journal.now at }
{
    journal.get(at)
}

/// What the opening at a place took over.
pub(crate) fn carry_at(journal: &[Entry], front: usize) -> &Carry
    requires { (e : Item) × (slice_get journal.now front ≡ Some e) × BeginsSegment e }
    ensures { (e : Item) → slice_get journal.now front ≡ Some e → result.now ≡ carry_in e }
{
    match entry_at(journal, front) {
        Some(opening) => carry_of(opening),
        None => unreachable!(),
    }
}

/// The number under a name, and 0 where there is none.
fn number_of(numbers: &[(Word, u64)], name: &Word) -> u64
    ensures { result ≡ unwrap_or (named name.now numbers.now) 0 }
{
    'numbers: for pair in numbers {
        if same_text(&pair.0, name) {
            return pair.1;
        }
    }
    0
}

/// For each name the number that was carried for it.
pub(crate) fn numbers_by_name(
    alloc: Global,
    names: &[Word],
    carried: &[(Word, u64)],
) -> Result<Many<u64>, AllocError>
    ensures { IfOk result (λ made. made ≡ map (λ name. unwrap_or (named name carried.now) 0) names.now) }
{
    let mut made = Many::with_room(alloc, names.len())?;
    'names: for at in 0..names.len() {
        let number = number_of(carried, &names[at]);
        made.push(number)?;
    }
    Ok(made)
}
