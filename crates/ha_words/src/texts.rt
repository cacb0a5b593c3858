//! The texts that `clap` found in the words.
ghost use Rattle.std.specs.Prelude.{◌≡◌, [], IfErr, IfOk, None, Some, codes, map, option_map, string_bytes, unwrap_or};
ghost use Rattle.clap.specs.Words.{all_of, first_of, found_of, rows_of};
ghost use Rattle.ha_words.specs.Texts.{run_texts};

use clap::ArgMatches;
use ha_value::{Many, Word};
use std::alloc::{AllocError, Global};

/// What `run` was given, each part as written.
#[derive(Drop)]
pub(crate) struct RunTexts {
    pub(crate) config: Word,
    pub(crate) start: Word,
    pub(crate) zone: Option<Word>,
    pub(crate) trace: Option<Word>,
    pub(crate) sources: Many<Word>,
}

/// The first value of an option, as `clap` found it.
pub(crate) fn text_of<'a>(matches: &ArgMatches<'a>, name: &str) -> Option<&'a str>
    ensures { option_map (λ s. s.now) result ≡ first_of name.now (rows_of (found_of matches.now)) }
{
    matches.get_str(name)
}

/// A copy of the texts.
fn copied(alloc: Global, texts: &[&str]) -> Result<Many<Word>, AllocError>
    ensures { IfOk result (λ words. words ≡ map (λ s. s.now) texts.now) }
{
    let mut found = Many::make(alloc);
    for text in texts {
        found.push(Word::from_str(alloc, text)?)?;
    }
    Ok(found)
}

fn copied_or_none(alloc: Global, text: Option<&str>) -> Result<Option<Word>, AllocError>
    ensures { IfOk result (λ word. word ≡ option_map (λ s. s.now) text.entry) }
{
    match text {
        Some(text) => Ok(Some(Word::from_str(alloc, text)?)),
        None => Ok(None),
    }
}

fn copied_or_empty(alloc: Global, text: Option<&str>) -> Result<Word, AllocError>
    ensures { IfOk result (λ word. word ≡ unwrap_or (option_map (λ s. s.now) text.entry) []) }
{
    match text {
        Some(text) => Word::from_str(alloc, text),
        None => Ok(Word::new(alloc)),
    }
}

fn sources_of(alloc: Global, matches: &ArgMatches<'_>) -> Result<Many<Word>, AllocError>
    ensures { IfOk result (λ words. words ≡ unwrap_or (all_of (codes "source") (rows_of (found_of matches.now))) []) }
{
    match matches.get_raw("source") {
        Some(texts) => copied(alloc, texts),
        None => Ok(Many::make(alloc)),
    }
}

/// What `clap` found in the words after `run`.
pub(crate) fn run_texts(alloc: Global, matches: &ArgMatches<'_>) -> Result<RunTexts, AllocError>
    ensures { IfOk result (λ texts. texts ≡ run_texts (rows_of (found_of matches.now))) }
{
    let config = copied_or_empty(alloc, text_of(matches, "config"))?;
    let start = copied_or_empty(alloc, text_of(matches, "start"))?;
    let zone = copied_or_none(alloc, text_of(matches, "zone"))?;
    let trace = copied_or_none(alloc, text_of(matches, "trace"))?;
    let sources = sources_of(alloc, matches)?;
    Ok(RunTexts {
        config,
        start,
        zone,
        trace,
        sources,
    })
}
