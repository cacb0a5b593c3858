//! The last entry of a journal.
ghost use Rattle.std.specs.Prelude.{◌≡◌, ◌-◌, length, take};

use ha_journal::Entry;

/// Drops the last entry.
pub fn drop_last(journal: &mut Vec<Entry>)
    ensures { journal.new.items ≡ take (length journal.old.items - 1) journal.old.items }
{
    let _last = journal.pop();
}
