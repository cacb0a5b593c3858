//! Which texts may stand as values.
ghost use Rattle.std.specs.Prelude.{◌≡◌, IfErr, IfOk, None, Some, true};
ghost use Rattle.std.specs.List.{list_all};
ghost use Rattle.std.specs.Option.{option_map_or};
ghost use Rattle.ha_words.specs.Texts.{HasFew, are_values, checked, has_few_sources, is_value};

use crate::plan::WordsFault;
use crate::texts::RunTexts;
use ha_value::Word;

/// How many sources `run` takes.
const MOST_SOURCES: usize = 16;

/// Whether the text may be a value: it begins with no hyphen.
pub(crate) fn is_value(text: &str) -> bool
    ensures { result ≡ is_value text.now }
{
    match text.as_bytes().first() {
        Some(byte) => *byte != b'-',
        None => true,
    }
}

fn is_value_or_none(text: &Option<Word>) -> bool
    ensures { result ≡ option_map_or is_value text.now true }
{
    match text {
        Some(text) => is_value(text.as_str()),
        None => true,
    }
}

fn are_all_values(texts: &[Word]) -> bool
    ensures { result ≡ list_all is_value texts.now }
{
    texts.iter().all(|text| is_value(text.as_str()))
}

/// Whether all that was given may be values.
fn are_values(texts: &RunTexts) -> bool
    ensures { result ≡ are_values texts.now }
{
    is_value(texts.config.as_str())
        && (is_value(texts.start.as_str())
            && (is_value_or_none(&texts.zone)
                && (is_value_or_none(&texts.trace) && are_all_values(texts.sources.as_slice()))))
}

/// Whether there are as many sources as `run` takes.
fn has_few_sources(texts: &RunTexts) -> bool
    ensures { result ≡ has_few_sources texts.now }
{
    1 <= texts.sources.len() && texts.sources.len() <= MOST_SOURCES
}

/// The texts, where they may stand.
pub(crate) fn checked(texts: RunTexts) -> Result<RunTexts, WordsFault>
    ensures texts { IfOk result (λ t. checked texts ≡ Some t) }
    ensures usage { IfErr result (λ e. checked texts ≡ None) }
    ensures few { IfOk result (λ t. HasFew t.sources) }
{
    if !are_values(&texts) || !has_few_sources(&texts) {
        return Err(WordsFault::Usage);
    }
    Ok(texts)
}
