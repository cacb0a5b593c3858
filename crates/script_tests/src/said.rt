//! What a step of a test's run is said to have done, in short words.
ghost use Rattle.std.specs.Prelude.{◌≡◌, true};
ghost use Rattle.ha_sight.specs.Items as lem;

use ha_sight::{Branch, Item};
use ha_texts::{call_line, empty_line};
use ha_value::Word;
use std::alloc::{AllocError, Global};

/// The call line of an item, from a short form: a service, perhaps with its data behind it; or what stands behind the number of the call.
fn push_call(text: &mut String, said: &str) -> Result<(), AllocError> {
    text.push_str("{\"run\":\"a\",\"number\":1,\"call\":1,")?;
    if said.starts_with('"') {
        text.push_str(said)?;
        return text.push_str("}\n");
    }
    text.push_str("\"service\":\"")?;
    match said.split_once(' ') {
        Some((service, data)) => push_with(text, service, data),
        None => push_with(text, said, "{}"),
    }
}

/// A service without a target, with this data.
fn push_with(text: &mut String, service: &str, data: &str) -> Result<(), AllocError> {
    text.push_str(service)?;
    text.push_str("\",\"target\":[],\"data\":")?;
    text.push_str(data)?;
    text.push_str("}\n")
}

/// Whether a call is the one that is said.
fn is_call(alloc: Global, item: &Item, said: &str) -> Result<bool, AllocError>
    requires { lem.is_call item.now ≡ true }
{
    let mut wanted = String::new(alloc);
    push_call(&mut wanted, said)?;
    let name = Word::from_str(alloc, "a")?;
    let mut line = empty_line(alloc)?;
    call_line(alloc, &mut line, &name, 1, 1, item)?;
    Ok(line.as_str() == wanted.as_str())
}

/// The code of a failure, 0 where none is said.
fn code(said: &str) -> u8 {
    match said.as_bytes() {
        [b'F', digit] => digit.wrapping_sub(b'0'),
        _ => 0,
    }
}

/// What is said where one switch is set to this value, and its runs are stopped or not.
fn switch_said(on: bool, stop: bool) -> &'static str {
    if on {
        return "switches on";
    }
    if stop {
        "switches off and stops"
    } else {
        "switches off"
    }
}

/// Whether the switches are none, or the one of the first automation, as it is said.
fn are_switches(switches: &[(u32, bool, bool)], said: &str) -> bool {
    match switches.first() {
        Some((automation, on, stop)) => {
            switches.len() == 1 && *automation == 0 && said == switch_said(*on, *stop)
        }
        None => said == "switches none",
    }
}

/// Whether the item is the one that is said: `nothing`, a code such as `F1`, switches, `asks` or `tests and asks` for one automation,
/// `fires` and a type of events, `starts`, `starts and waits` or `halts` for one script, or a call.
fn is_item(alloc: Global, item: &Item, said: &str) -> Result<bool, AllocError> {
    match item {
        Item::Nothing => Ok(said == "nothing"),
        Item::Failed(number) => Ok(*number == code(said)),
        Item::Switched(switches) => Ok(are_switches(switches.as_slice(), said)),
        Item::Triggered { automations, skip } => {
            let wanted = if *skip { "asks" } else { "tests and asks" };
            Ok(automations.len() == 1 && said == wanted)
        }
        Item::Fired { kind, .. } => Ok(said.strip_prefix("fires ") == Some(kind.as_str())),
        Item::Call { .. } => is_call(alloc, item, said),
        Item::Started { scripts, waits, .. } => {
            let wanted = if *waits { "starts and waits" } else { "starts" };
            Ok(scripts.len() == 1 && said == wanted)
        }
        Item::Halted(scripts) => Ok(scripts.len() == 1 && said == "halts"),
        Item::Helped(_) => Ok(false),
    }
}

/// Appends the numbers of a branch, each of one digit, with commas between.
fn push_branch(text: &mut String, branch: &[u32]) -> Result<(), AllocError> {
    text.push('[')?;
    for i in 0..branch.len() {
        if 0 < i {
            text.push(',')?;
        }
        text.push_str(digit(branch[i]))?;
    }
    text.push(']')
}

fn digit(number: u32) -> &'static str {
    match number {
        0 => "0",
        1 => "1",
        2 => "2",
        _ => "more",
    }
}

/// Whether the branch is the one that is said.
fn is_branch(alloc: Global, branch: &[u32], said: &str) -> Result<bool, AllocError> {
    let mut text = String::new(alloc);
    push_branch(&mut text, branch)?;
    Ok(text.as_str() == said)
}

/// Whether a step in this branch with this item is the one that is said.
pub fn is_said(
    alloc: Global,
    branch: &Branch,
    item: &Item,
    said: &str,
) -> Result<bool, AllocError> {
    match said.split_once(' ') {
        Some((of, what)) => {
            let good = is_item(alloc, item, what)?;
            Ok(good && is_branch(alloc, branch.as_slice(), of)?)
        }
        None => Ok(false),
    }
}
