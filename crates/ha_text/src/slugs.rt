//! Slugs of names.

ghost use Rattle.std.specs.Prelude.{◌≡◌, ◌<◌, ◌++◌, ◌∷◌, [], ◌&&◌, ◌==◌, not, true, if◌then◌else◌, string_bytes, string_len, IfOk, OnOk};
ghost use Rattle.ha_text.specs.Slug.{lower, named, slug, stays};

use ha_value::Word;
use std::alloc::{AllocError, Global};

/// A letter or digit, which stays.
fn stays(b: u8) -> bool
    ensures { result ≡ stays b }
{
    (b'0' <= b && b <= b'9') || (b'A' <= b && b <= b'Z') || (b'a' <= b && b <= b'z')
}

fn lower(b: u8) -> u8
    ensures { result ≡ lower b }
{
    if b'A' <= b && b <= b'Z' { b + 32 } else { b }
}

/// Writes a letter or digit, behind an underscore where other bytes were passed since the last one.
fn put(slug: &mut String, apart: bool, b: u8) -> Result<(), AllocError>
    requires { stays b ≡ true }
    ensures bytes { OnOk result (string_bytes slug.new ≡ string_bytes slug.old ++ (if apart && not (string_len slug.old == 0) then 95 ∷ lower b ∷ [] else lower b ∷ [])) }
    ensures some { OnOk result (0 < string_len slug.new) }
{
    if apart && !slug.is_empty() {
        slug.push('_')?;
    }
    slug.push(char::from(lower(b)))
}

/// The text, or `unnamed` where it is empty.
fn named(alloc: Global, text: String) -> Result<String, AllocError>
    ensures { IfOk result (λ name. string_bytes name ≡ named (string_bytes text)) }
{
    if text.is_empty() {
        return String::from_str(alloc, "unnamed");
    }
    Ok(text)
}

/// The slug of a text: ASCII letters in lower case and digits stay, every other run of bytes becomes one `_`, and `_` at both
/// ends is dropped. The slug of a text without letters and digits is `unnamed`.
pub fn slug(alloc: Global, text: &[u8]) -> Result<Word, AllocError>
    ensures { IfOk result (λ word. word ≡ slug text.now) }
{
    let mut slug = String::new(alloc);
    let mut apart = false;
    'bytes: for b in text {
        if stays(*b) {
            put(&mut slug, apart, *b)?;
            apart = false;
        } else {
            apart = true;
        }
    }
    let word = Word::from_string(alloc, named(alloc, slug)?)?;
    Ok(word)
}
