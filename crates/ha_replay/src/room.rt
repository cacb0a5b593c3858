//! Whether a journal is full.
ghost use Rattle.std.specs.Prelude.{◌≡◌, ◌↔◌, length, IsTrue};
ghost use Rattle.ha_journal.specs.Entries.{is_again as is_again_lem};
ghost use Rattle.ha_whole.specs.Segments.{segment};
ghost use Rattle.ha_whole.specs.Whole.{AreEntries, IsFull};

use ha_journal::Entry;

/// The entries that a segment may have.
const MOST_IN_SEGMENT: usize = 1_048_576;

/// The entries that a journal may have.
const MOST_ENTRIES: usize = 4_194_304;

/// Whether the entry opens a segment behind a Restart.
fn is_again(entry: &Entry) -> bool
    ensures { result ≡ is_again_lem entry.now }
{
    matches!(entry, Entry::Again { .. })
}

/// How many entries the last segment has: those from the last Again on, or all.
fn in_segment(journal: &[Entry]) -> usize
    requires { AreEntries journal.now }
    ensures { result ≡ length (segment journal.now) }
{
    for i in 0..journal.len() {
        if is_again(&journal[journal.len() - 1 - i]) {
            return i + 1;
        }
    }
    journal.len()
}

/// Whether the last segment or the journal is full.
pub fn is_full(journal: &[Entry]) -> bool
    requires { AreEntries journal.now }
    ensures { IsTrue result ↔ IsFull journal.now }
{
    if journal.len() == MOST_ENTRIES {
        return true;
    }
    in_segment(journal) == MOST_IN_SEGMENT
}
