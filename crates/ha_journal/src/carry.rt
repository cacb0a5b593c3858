//! What a segment takes over from those before it.
ghost use Rattle.std.specs.Prelude.{◌≡◌, IfOk, replicate};
ghost use Rattle.ha_journal.specs.Entries.{first_carry};

use ha_clock::Moment;
use ha_value::{Boxed, Many, Word};
use std::alloc::{AllocError, Global};

/// What a segment takes over from those before it. Names stand in byte order, each once.
#[derive(Drop)]
pub struct Carry {
    /// How many runs there were.
    pub serials: u64,
    /// By unit, under the name of its runs, how many of these there were; none where it had none.
    pub numbers: Many<(Word, u64)>,
    /// By source, from 0 to 15, how many lines it gave.
    pub lines: Many<u64>,
    /// The sources that have no further line, ascending.
    pub shut: Many<u32>,
    /// By automation, when its last run was admitted, where that is known.
    pub last: Many<(Word, Moment)>,
}

/// No line of any source.
fn no_lines(alloc: Global) -> Result<Many<u64>, AllocError>
    ensures { IfOk result (λ made. made ≡ replicate 16 0) }
{
    let mut lines = Many::make(alloc);
    'sources: for _at in 0..16u32 {
        lines.push(0)?;
    }
    Ok(lines)
}

impl Carry {
    /// What the first segment takes over: nothing but when automations last triggered.
    pub fn first(alloc: Global, last: Many<(Word, Moment)>) -> Result<Boxed<Carry>, AllocError>
        ensures { IfOk result (λ made. made ≡ first_carry last) }
    {
        let lines = no_lines(alloc)?;
        let carry = Carry {
            serials: 0,
            numbers: Many::make(alloc),
            lines,
            shut: Many::make(alloc),
            last,
        };
        Boxed::new(alloc, carry)
    }
}
