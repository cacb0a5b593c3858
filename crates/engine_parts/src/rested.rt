//! The flags that say who is rested.
ghost use Rattle.std.specs.Prelude.{◌≡◌, ◌≤◌, length, replicate, true, vec_len};
ghost use Rattle.ha_ready.specs.RestedFlags.{flag_after, flags_from};

fn flag_after(source: Option<u32>, quiet: bool, of: u32, flag: bool) -> bool
    ensures { result ≡ flag_after source quiet of flag }
{
    let own = match source {
        Some(line) => line == of,
        None => false,
    };
    (!own && flag) || quiet
}

/// All sources are rested.
const ALL: [bool; 16] = [true; 16];

/// The same of fewer than sixteen. It is a call of its own, since else both are compiled to one copy of any length.
#[inline(never)]
fn set_fewer(flags: &mut [bool])
    requires { length flags.old ≤ 16 }
    ensures { flags.new ≡ replicate (length flags.old) true }
{
    let count = flags.len();
    flags.copy_from_slice(&ALL[..count]);
}

/// Behind a quiet journal all are rested. This is done at each line, so the flags are written at once and not one by one: all sixteen, as
/// an engine has them, in one word.
fn set_all(flags: &mut [bool])
    requires { length flags.old ≤ 16 }
    ensures { flags.new ≡ replicate (length flags.old) true }
{
    if flags.len() == 16 {
        flags.copy_from_slice(&ALL);
    } else {
        set_fewer(flags);
    }
}

/// After an entry that is a line of this source, or of none, one after the other.
fn note_each(flags: &mut [bool], source: Option<u32>, quiet: bool)
    requires { length flags.old ≤ 16 }
    ensures { flags.new ≡ flags_from source quiet 0 flags.old }
{
    'sources: for i in 0..flags.len() {
        flags[i] = flag_after(source, quiet, i as u32, flags[i]);
    }
}

/// After an entry that is a line of this source, or of none.
fn note_rested(flags: &mut [bool], source: Option<u32>, quiet: bool)
    requires { length flags.old ≤ 16 }
    ensures { flags.new ≡ flags_from source quiet 0 flags.old }
{
    if quiet {
        set_all(flags);
    } else {
        note_each(flags, source, quiet);
    }
}

/// The same, of flags that are kept in a list.
pub fn note_flags(flags: &mut Vec<bool>, source: Option<u32>, quiet: bool)
    requires { vec_len flags.old ≤ 16 }
    ensures { flags.new.items ≡ flags_from source quiet 0 flags.old.items }
{
    note_rested(flags.as_mut_slice(), source, quiet);
}
