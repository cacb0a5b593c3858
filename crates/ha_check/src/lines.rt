//! The lines that `check` writes.
ghost use Rattle.std.specs.Prelude.{◌≡◌, ◌++◌, IfOk, OnOk, map, string_bytes};
ghost use Rattle.std.specs.List.{concat};
ghost use Rattle.ha_config.specs.CheckText.{check_line, check_text, mode_text};
ghost use Rattle.ha_check.specs.Lines.{line_counts, line_head};

use ha_config::{Automation, Config, Mode};
use std::alloc::{AllocError, Global};

/// The word of a mode.
fn mode_text(mode: Mode) -> &'static str
    ensures { result.now ≡ mode_text mode }
{
    match mode {
        Mode::Single => "single",
        Mode::Restart => "restart",
        Mode::Queued => "queued",
        Mode::Parallel => "parallel",
    }
}

/// What stands before the counts in the line of an automation.
fn line_head(alloc: Global, automation: &Automation) -> Result<String, AllocError>
    ensures { IfOk result (λ text. string_bytes text ≡ line_head automation.now) }
{
    let name = automation.name.as_str();
    let mode = mode_text(automation.mode);
    let max = automation.max;
    format!(in alloc; "automation.{name} {mode} {max}")
}

/// The counts of an automation's parts, at the top level, and the line's end.
fn line_counts(alloc: Global, automation: &Automation) -> Result<String, AllocError>
    ensures { IfOk result (λ text. string_bytes text ≡ line_counts automation.now) }
{
    let triggers = automation.triggers.len();
    let tests = automation.tests.len();
    let actions = automation.actions.len();
    format!(in alloc; " triggers {triggers} conditions {tests} actions {actions}\n")
}

/// Appends the line of an automation.
fn push_line(alloc: Global, lines: &mut Vec<u8>, automation: &Automation) -> Result<(), AllocError>
    ensures { OnOk result (lines.new.items ≡ lines.old.items ++ check_line automation.now) }
{
    let head = line_head(alloc, automation)?;
    lines.extend_from_slice(head.as_bytes())?;
    let counts = line_counts(alloc, automation)?;
    lines.extend_from_slice(counts.as_bytes())?;
    Ok(())
}

/// A line for each automation.
fn automation_lines(alloc: Global, automations: &[Automation]) -> Result<Vec<u8>, AllocError>
    ensures { IfOk result (λ lines. lines.items ≡ concat (map check_line automations.now)) }
{
    let mut lines = Vec::new(alloc);
    for automation in automations {
        push_line(alloc, &mut lines, automation)?;
    }
    Ok(lines)
}

/// A line for each automation, and the line of their count.
pub(crate) fn check_text(alloc: Global, config: &Config) -> Result<Vec<u8>, AllocError>
    ensures { IfOk result (λ lines. lines.items ≡ check_text config.now) }
{
    let mut lines = automation_lines(alloc, config.automations.as_slice())?;
    let count = config.automations.len();
    let last = format!(in alloc; "ok {count}\n")?;
    lines.extend_from_slice(last.as_bytes())?;
    Ok(lines)
}
