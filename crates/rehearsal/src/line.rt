//! The lines of a rehearsal.
ghost use Rattle.std.specs.Prelude.{◌≡◌, ◌≤◌, ◌<◌, IfOk};
ghost use Rattle.ha_clock.specs.Local.{last_moment};
ghost use Rattle.rehearsal.specs.Generated.{line_text, moment_line, next_x, report_line};

use ha_clock::{Moment, print_moment};
use ha_value::Word;
use std::alloc::{AllocError, Global};

/// The start of a rehearsal, 2024-01-01T00:00:00Z, in milliseconds since 1970.
pub const START: u64 = 1_704_067_200_000;

/// The number that follows x, from 0 to 100.
pub fn next_x(x: u32) -> u32
    ensures { result ≡ next_x x }
{
    ((37 * u64::from(x) + 11) % 101) as u32
}

/// The line of a moment.
fn moment_line(alloc: Global, at: Moment) -> Result<Word, AllocError>
    requires { at ≤ last_moment }
    ensures { IfOk result (λ line. line ≡ moment_line at) }
{
    let shown = match print_moment(alloc, at) {
        Ok(shown) => shown,
        Err(_) => return Err(AllocError),
    };
    let text = Word::from_bytes(alloc, shown.as_slice())?;
    let mut line = Word::from_str(alloc, "{\"moment\":\"")?;
    line.push_str(text.as_str())?;
    line.push_str("\"}")?;
    Ok(line)
}

/// The line of a report: the sensor's number is 0 or 1.
fn report_line(alloc: Global, sensor: u32, x: u32) -> Result<Word, AllocError>
    ensures { IfOk result (λ line. line ≡ report_line sensor x) }
{
    let text = format!(in alloc; "{{\"report\":\"sensor.s{sensor}\",\"state\":\"{x}\"}}")?;
    let line = Word::from_string(alloc, text)?;
    Ok(line)
}

/// Line `i`, counted from 0, where `x` is the number at place `i + 1`: the moment `30 * (i + 1)` seconds after the start where `i` is 4
/// more than a multiple of 5, else the report of `x` by the sensor of `i`'s parity.
pub fn rehearse_line(alloc: Global, i: u32, x: u32) -> Result<Word, AllocError>
    requires { i < 100_000 }
    ensures { IfOk result (λ line. line ≡ line_text i x) }
{
    if i % 5 == 4 {
        return moment_line(alloc, Moment::at(START + 30_000 * (u64::from(i) + 1)));
    }
    report_line(alloc, i % 2, x)
}
