//! The plan of the words.
ghost use Rattle.std.specs.Prelude.{◌≡◌, ◌≤◌, IfErr, IfOk, IsSome, IsUtf8, None, Some, codes, map, string_bytes, unwrap_or};
ghost use Rattle.ha_clock.specs.Zone.{zone_of};
ghost use Rattle.ha_words.specs.Texts.{HasFew, texts_of};
ghost use Rattle.ha_words.specs.Counts.{most_lines};
ghost use Rattle.ha_words.specs.PlanOf.{IsRunnable, IsSound, one_count, one_word, plan_by, plan_of, run_of, run_read};

use crate::commands::{run_matches, word_matches};
use crate::counts::count_of;
use crate::plan::{Plan, RunWords, WordsFault};
use crate::texts::{RunTexts, run_texts, text_of};
use crate::values::{checked, is_value};
use ha_clock::{ClockFault, Zone, read_moment};
use ha_value::Word;
use std::alloc::Global;

/// The texts of the words after `run`.
fn read_texts(alloc: Global, words: &[String]) -> Result<RunTexts, WordsFault>
    ensures texts { IfOk result (λ t. texts_of (map string_bytes words.now) ≡ Some t) }
    ensures usage { IfErr result (λ e. e ≡ WordsFault.Usage → texts_of (map string_bytes words.now) ≡ None) }
    ensures few { IfOk result (λ t. HasFew t.sources) }
{
    let matches = match run_matches(alloc, words) {
        Ok(matches) => matches,
        Err(fault) => return Err(fault),
    };
    let Ok(texts) = run_texts(alloc, &matches) else {
        return Err(WordsFault::Memory);
    };
    checked(texts)
}

/// The zone, which is UTC where none is given.
fn read_zone(alloc: Global, text: &Option<Word>) -> Result<Zone, WordsFault>
    ensures zone { IfOk result (λ z. (z ≡ unwrap_or text.now (codes "UTC")) × IsSome (zone_of (unwrap_or text.now (codes "UTC")))) }
    ensures utf8 { IfOk result (λ z. IsUtf8 z) }
    ensures usage { IfErr result (λ e. e ≡ WordsFault.Usage → zone_of (unwrap_or text.now (codes "UTC")) ≡ None) }
{
    let read = match text {
        Some(text) => Zone::read(alloc, text.bytes()),
        None => Zone::read(alloc, b"UTC"),
    };
    match read {
        Ok(zone) => Ok(zone),
        Err(ClockFault::Text) => Err(WordsFault::Usage),
        Err(ClockFault::Memory) => Err(WordsFault::Memory),
    }
}

/// The plan of the texts, whose moment and zone are read.
fn read_parts(alloc: Global, texts: RunTexts) -> Result<RunWords, WordsFault>
    requires few { HasFew texts.sources }
    ensures plan { IfOk result (λ w. run_read texts ≡ Some w) }
    ensures usage { IfErr result (λ e. e ≡ WordsFault.Usage → run_read texts ≡ None) }
    ensures runnable { IfOk result IsRunnable }
{
    let Some(start) = read_moment(texts.start.bytes()) else {
        return Err(WordsFault::Usage);
    };
    let zone = match read_zone(alloc, &texts.zone) {
        Ok(zone) => zone,
        Err(fault) => return Err(fault),
    };
    let RunTexts {
        config,
        start: _,
        zone: _,
        trace,
        sources,
    } = texts;
    Ok(RunWords {
        config,
        start,
        zone,
        trace,
        sources,
    })
}

/// The plan of the words after `run`.
fn read_run(alloc: Global, words: &[String]) -> Result<RunWords, WordsFault>
    ensures plan { IfOk result (λ w. run_of (map string_bytes words.now) ≡ Some w) }
    ensures usage { IfErr result (λ e. e ≡ WordsFault.Usage → run_of (map string_bytes words.now) ≡ None) }
    ensures runnable { IfOk result IsRunnable }
{
    match read_texts(alloc, words) {
        Ok(texts) => read_parts(alloc, texts),
        Err(fault) => Err(fault),
    }
}

/// The word of a command that takes one.
fn read_word(alloc: Global, name: &str, words: &[String]) -> Result<Word, WordsFault>
    ensures word { IfOk result (λ w. one_word name.now (map string_bytes words.now) ≡ Some w) }
    ensures usage { IfErr result (λ e. e ≡ WordsFault.Usage → one_word name.now (map string_bytes words.now) ≡ None) }
{
    let matches = match word_matches(alloc, name, words) {
        Ok(matches) => matches,
        Err(fault) => return Err(fault),
    };
    let word = match text_of(&matches, "word") {
        Some(word) => word,
        None => return Err(WordsFault::Usage),
    };
    if !is_value(word) {
        return Err(WordsFault::Usage);
    }
    match Word::from_str(alloc, word) {
        Ok(word) => Ok(word),
        Err(_) => Err(WordsFault::Memory),
    }
}

/// The number of lines of a command that takes one.
fn read_count(alloc: Global, name: &str, words: &[String]) -> Result<u32, WordsFault>
    ensures count { IfOk result (λ n. one_count name.now (map string_bytes words.now) ≡ Some n) }
    ensures usage { IfErr result (λ e. e ≡ WordsFault.Usage → one_count name.now (map string_bytes words.now) ≡ None) }
    ensures most { IfOk result (λ n. n ≤ most_lines) }
{
    let word = match read_word(alloc, name, words) {
        Ok(word) => word,
        Err(fault) => return Err(fault),
    };
    match count_of(word.as_str()) {
        Some(count) => Ok(count),
        None => Err(WordsFault::Usage),
    }
}

/// The plan of the words after the command's name.
fn plan_by(alloc: Global, name: &str, words: &[String]) -> Result<Plan, WordsFault>
    ensures plan { IfOk result (λ p. plan_by name.now (map string_bytes words.now) ≡ Some p) }
    ensures usage { IfErr result (λ e. e ≡ WordsFault.Usage → plan_by name.now (map string_bytes words.now) ≡ None) }
    ensures sound { IfOk result IsSound }
{
    if name == "run" {
        return match read_run(alloc, words) {
            Ok(plan) => Ok(Plan::Run(plan)),
            Err(fault) => Err(fault),
        };
    }
    if name == "check" {
        return match read_word(alloc, "check", words) {
            Ok(name) => Ok(Plan::Check(name)),
            Err(fault) => Err(fault),
        };
    }
    if name == "replay" {
        return match read_word(alloc, "replay", words) {
            Ok(name) => Ok(Plan::Replay(name)),
            Err(fault) => Err(fault),
        };
    }
    if name == "rehearse" {
        return match read_count(alloc, "rehearse", words) {
            Ok(lines) => Ok(Plan::Rehearse(lines)),
            Err(fault) => Err(fault),
        };
    }
    Err(WordsFault::Usage)
}

/// Reads the words of the program, of which the first names the command: `run --config F --start MOMENT [--zone Z] [--trace F] SOURCE..`
/// with 1 to 16 sources and the options in any place, `check F`, `replay F`, or `rehearse N` with N from 0 to 100,000 in digits. No value
/// begins with a hyphen, and each option stands once. Every other list of words is refused.
pub fn read_words(alloc: Global, words: &[String]) -> Result<Plan, WordsFault>
    ensures plan { IfOk result (λ p. plan_of (map string_bytes words.now) ≡ Some p) }
    ensures usage { IfErr result (λ e. e ≡ WordsFault.Usage → plan_of (map string_bytes words.now) ≡ None) }
    ensures sound { IfOk result IsSound }
{
    match words {
        [name, rest @ ..] => plan_by(alloc, name.as_str(), rest),
        [] => Err(WordsFault::Usage),
    }
}
