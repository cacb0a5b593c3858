//! Where the last segment stands in the list of all entries, and how far it may go on.
ghost use Rattle.std.specs.Prelude.{◌≡◌, ◌+◌, ◌<◌, ◌≤◌, ◌⊎◌, true, false};
ghost use Rattle.ha_engine.specs.Lies.{Follows, IsLeast};

/// How many entries a segment has at most.
const MOST_IN_SEGMENT: usize = 1_048_576;

/// How many entries a journal has at most.
const MOST_ENTRIES: usize = 4_194_304;

/// How many segments a journal has at most.
const MOST_SEGMENTS: u32 = 1_024;

/// Where the last segment stands.
#[derive(Clone, Copy)]
pub struct Bounds {
    /// How many entries stand before it.
    pub(crate) front: usize,
    /// How many runs there were before it.
    pub(crate) base: u64,
    /// How many segments there are, it among them.
    pub(crate) segments: u32,
    /// How many entries the journal may have while this is its last segment.
    pub(crate) limit: usize,
}

/// The lesser limit: that of the segment behind so many entries, or that of the journal.
fn limit_behind(front: usize) -> usize
    requires { front ≤ 4194304 }
    ensures { IsLeast result front }
{
    let own = front + MOST_IN_SEGMENT;
    let short = own < MOST_ENTRIES;
    if short { own } else { MOST_ENTRIES }
}

impl Bounds {
    /// Those of the first segment.
    pub(crate) fn first() -> Bounds
        ensures { Follows result 0 0 1 }
    {
        Bounds {
            front: 0,
            base: 0,
            segments: 1,
            limit: MOST_IN_SEGMENT,
        }
    }

    /// Those of the next segment, which stands behind so many entries and runs.
    pub(crate) fn next(&self, front: usize, base: u64) -> Bounds
        requires front { front ≤ 4194304 }
        requires segments { self.now.segments < 1024 }
        ensures { Follows result front base (self.now.segments + 1) }
    {
        Bounds {
            front,
            base,
            segments: self.segments + 1,
            limit: limit_behind(front),
        }
    }

    /// Whether a restart and the opening behind it have room among so many entries, where one entry has.
    pub(crate) fn lets_restart(&self, entries: usize) -> bool
        requires { entries < 4194304 }
        ensures some { result ≡ true → (entries + 1 < 4194304) × (self.now.segments < 1024) }
        ensures none { result ≡ false → (4194304 ≤ entries + 1) ⊎ (1024 ≤ self.now.segments) }
    {
        let full = MOST_ENTRIES <= entries + 1;
        if full {
            return false;
        }
        self.segments < MOST_SEGMENTS
    }
}
