//! Entity ids as texts, read without a copy.
ghost use Rattle.std.specs.Prelude.{◌≡◌, None, Some, MatchOption};
ghost use Rattle.ha_value.specs.Ids as ids;
ghost use Rattle.ha_value.specs.Lists.{after_first, before_first};

fn is_name_byte(byte: u8) -> bool
    ensures { result ≡ ids.is_name_byte byte }
{
    byte.is_ascii_lowercase() || (byte.is_ascii_digit() || byte == b'_')
}

/// Whether the text has the form of a domain and of an object id.
#[tactic(auto, using(ha_value::proofs::CutLemmas::alls))]
fn is_name(text: &[u8]) -> bool
    ensures { result ≡ ids.is_name text.now }
{
    if text.is_empty() {
        return false;
    }
    for i in 0..text.len() {
        if !is_name_byte(text[i]) {
            return false;
        }
    }
    true
}

/// The text before its first dot, and what follows that dot.
fn cut(text: &str) -> Option<(&str, &str)>
    ensures { MatchOption result (after_first 46 text.now ≡ None) (λ parts. (before_first 46 text.now ≡ parts.0.now) × (after_first 46 text.now ≡ Some parts.1.now)) }
{
    text.split_once('.')
}

/// The domain and the object id, where the text is an id.
#[tactic(auto, unfolding(ha_value::specs::Ids::read_entity))]
pub fn parts_of(text: &str) -> Option<(&str, &str)>
    ensures { MatchOption result (ids.read_entity text.now ≡ None) (λ parts. ids.IsParts text.now parts.0.now parts.1.now) }
{
    match cut(text) {
        Some((domain, object)) => {
            if is_name(domain.as_bytes()) && is_name(object.as_bytes()) {
                Some((domain, object))
            } else {
                None
            }
        }
        None => None,
    }
}
