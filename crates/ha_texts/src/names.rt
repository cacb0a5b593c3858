//! Further parts of a trace's lines: switches, moments, names, and lists and maps of them.
ghost use Rattle.std.specs.Prelude.{◌≡◌, ◌≤◌, ◌++◌, decimal, flat_map, map, nat_le, true, OnOk};
ghost use Rattle.std.specs.List.{list_all};
ghost use Rattle.std.specs.Str.{IsAscii};
ghost use Rattle.ha_clock.specs.Local.{last_moment};
ghost use Rattle.ha_clock.specs.Print.{moment_text};
ghost use Rattle.ha_config.specs.CommandText.{automation_text, line_code};
ghost use Rattle.ha_sight.specs.ItemText.{failure_code, script_name, script_text};
ghost use Rattle.ha_config.specs.Names.{name_in};
ghost use Rattle.ha_config.specs.StoreText.{switches_text, moments_text};
ghost use Rattle.ha_config.specs.ValueText.{escaped_byte, flag_text, list_text, quoted};

use crate::parts::push_number;
use flow_line::{push_chars, push_comma, push_quoted};
use ha_clock::{Moment, print_moment};
use ha_value::{Many, Word};
use std::alloc::{AllocError, Global};

/// Appends a switch.
pub(crate) fn push_flag(text: &mut Word, flag: bool) -> Result<(), AllocError>
    ensures { OnOk result (text.new ≡ text.old ++ flag_text flag) }
{
    if flag {
        text.push_str("true")
    } else {
        text.push_str("false")
    }
}

/// Appends the entity of an automation in double quotes.
pub(crate) fn push_automation(text: &mut Word, name: &Word) -> Result<(), AllocError>
    ensures { OnOk result (text.new ≡ text.old ++ automation_text name.now) }
{
    text.push_str("\"automation.")?;
    push_chars(text, name.as_str())?;
    text.push_byte(b'"')?;
    Ok(())
}

/// Appends the name of the unit of a number in double quotes.
pub(crate) fn push_name(text: &mut Word, units: &Many<Word>, at: u32) -> Result<(), AllocError>
    ensures { OnOk result (text.new ≡ text.old ++ quoted (name_in units.now at)) }
{
    match units.get(at as usize) {
        Some(name) => push_quoted(text, name.as_str()),
        None => text.push_str("\"\""),
    }
}

/// The name of a script, where this is that of its runs.
fn without_script(name: &str) -> &str
    ensures { result.now ≡ script_name name.now }
{
    match name.strip_prefix("script.") {
        Some(rest) => rest,
        None => name,
    }
}

/// Appends the name of the script of a number in double quotes.
pub(crate) fn push_script(text: &mut Word, units: &Many<Word>, at: u32) -> Result<(), AllocError>
    ensures { OnOk result (text.new ≡ text.old ++ script_text units.now at) }
{
    match units.get(at as usize) {
        Some(name) => push_quoted(text, without_script(name.as_str())),
        None => text.push_str("\"\""),
    }
}

/// Appends the characters of an ASCII text.
fn push_bytes(text: &mut Word, bytes: &[u8]) -> Result<(), AllocError>
    requires { IsAscii bytes.now }
    ensures { OnOk result (text.new ≡ text.old ++ flat_map escaped_byte bytes.now) }
{
    match str::from_utf8(bytes) {
        Ok(shown) => push_chars(text, shown),
        Err(_) => unreachable!(),
    }
}

/// Appends a moment in double quotes.
pub(crate) fn push_moment(alloc: Global, text: &mut Word, at: Moment) -> Result<(), AllocError>
    requires { at ≤ last_moment }
    ensures { OnOk result (text.new ≡ text.old ++ quoted (moment_text at)) }
{
    let shown = match print_moment(alloc, at) {
        Ok(shown) => shown,
        Err(_) => return Err(AllocError),
    };
    text.push_byte(b'"')?;
    push_bytes(text, shown.as_slice())?;
    text.push_byte(b'"')?;
    Ok(())
}

/// Appends the code of a refused line in double quotes.
pub(crate) fn push_line_code(alloc: Global, text: &mut Word, code: u8) -> Result<(), AllocError>
    ensures { OnOk result (text.new ≡ text.old ++ quoted (line_code code)) }
{
    let shown = format!(in alloc; "L{code}")?;
    push_quoted(text, shown.as_str())
}

/// Appends the code of a failed step in double quotes.
pub(crate) fn push_failure_code(alloc: Global, text: &mut Word, code: u8) -> Result<(), AllocError>
    ensures { OnOk result (text.new ≡ text.old ++ quoted (failure_code code)) }
{
    let shown = format!(in alloc; "F{code}")?;
    push_quoted(text, shown.as_str())
}

/// Appends a list of numbers.
pub(crate) fn push_numbers(text: &mut Word, numbers: &[u32]) -> Result<(), AllocError>
    ensures { OnOk result (text.new ≡ text.old ++ list_text (map decimal numbers.now)) }
{
    text.push_byte(b'[')?;
    for i in 0..numbers.len() {
        push_comma(text, i)?;
        let number = &numbers[i];
        push_number(text, u64::from(*number))?;
    }
    text.push_byte(b']')
}

/// Appends a map of names and switches.
pub(crate) fn push_switches(text: &mut Word, switches: &[(Word, bool)]) -> Result<(), AllocError>
    ensures { OnOk result (text.new ≡ text.old ++ switches_text switches.now) }
{
    text.push_byte(b'{')?;
    for i in 0..switches.len() {
        push_comma(text, i)?;
        let pair = &switches[i];
        push_quoted(text, pair.0.as_str())?;
        text.push_byte(b':')?;
        push_flag(text, pair.1)?;
    }
    text.push_byte(b'}')
}

/// Appends a map of names and moments.
pub(crate) fn push_moments(
    alloc: Global,
    text: &mut Word,
    moments: &[(Word, Moment)],
) -> Result<(), AllocError>
    requires { list_all (λ p. nat_le p.1 last_moment) moments.now ≡ true }
    ensures { OnOk result (text.new ≡ text.old ++ moments_text moments.now) }
{
    text.push_byte(b'{')?;
    for i in 0..moments.len() {
        push_comma(text, i)?;
        let pair = &moments[i];
        push_quoted(text, pair.0.as_str())?;
        text.push_byte(b':')?;
        push_moment(alloc, text, pair.1)?;
    }
    text.push_byte(b'}')
}
