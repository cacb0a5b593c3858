//! Values as they are written, without templates.

ghost use Rattle.std.specs.Prelude.{◌≡◌, ◌<◌, ◌&&◌, ℕ, List, Result, Ok};
ghost use Rattle.std.specs.List.{list_all};
ghost use Rattle.std.specs.Char.{is_ascii_digit};
ghost use Rattle.yaml_tree.specs.Readers.{is_letter, is_null_word};
ghost use Rattle.yaml_scan.specs.Answers.{Gives};
ghost use Rattle.yaml_scan.specs.declared.fault.Fault.{Fault};
ghost use Rattle.yaml_tree.specs.declared.node.Node.{Node};
ghost use Rattle.ha_value.specs.declared.value.Value.TheVariants as made_of;
ghost use Rattle.conf_field.specs.Values as values;
ghost use Rattle.conf_field.specs.Kinds as kinds;

use crate::kinds::{Kind, flag_of};
use crate::parts::bad;
use crate::times::cut_at;
use crate::trees::{Build, data_of};
use ha_value::{Many, Num, Plain, Value, Word};
use std::alloc::Global;
use yaml_scan::{Code, YamlFault};
use yaml_tree::Node;

/// Whether the text has a sign that opens a template.
#[tactic(auto, unfolding(crate::specs::Kinds::holds_template))]
pub fn holds_template(text: &[u8]) -> bool
    ensures { result ≡ kinds.holds_template text.now }
{
    'text: for i in 0..text.len() {
        if i + 1 < text.len() && opens(text[i], text[i + 1]) {
            return true;
        }
    }
    false
}

fn opens(first: u8, second: u8) -> bool
    ensures { result ≡ kinds.opens first second }
{
    first == b'{' && (second == b'{' || (second == b'%' || second == b'#'))
}

/// Whether the text is one digit or more.
pub fn are_digits(text: &[u8]) -> bool
    ensures { result ≡ values.are_digits text.now }
{
    match text {
        [] => false,
        _ => all_digits(text),
    }
}

fn all_digits(text: &[u8]) -> bool
    ensures { result ≡ list_all is_ascii_digit text.now }
{
    text.iter().all(|byte| byte.is_ascii_digit())
}

/// `0`, or digits that do not begin with it.
fn is_whole_form(text: &[u8]) -> bool
    ensures { result ≡ values.is_whole_form text.now }
{
    match text {
        [] => false,
        [digit] => digit.is_ascii_digit(),
        [first, ..] => *first != b'0' && are_digits(text),
    }
}

fn is_unsigned_form(text: &[u8]) -> bool
    ensures { result ≡ values.is_unsigned_form text.now }
{
    let (whole, places) = cut_at(text, b'.');
    if !is_whole_form(whole) {
        return false;
    }
    match places {
        Some(digits) => are_digits(digits),
        None => true,
    }
}

/// `-` or nothing, a whole number without leading zeros, and perhaps places.
fn is_number_form(text: &[u8]) -> bool
    ensures { result ≡ values.is_number_form text.now }
{
    if !text.is_empty() && text[0] == b'-' {
        return is_unsigned_form(&text[1..]);
    }
    is_unsigned_form(text)
}

fn text_value(alloc: Global, text: &Word) -> Result<Value, YamlFault>
    ensures { Gives (Ok (made_of.Text text.now)) result }
{
    Ok(Value::Text(text.copy(alloc)?))
}

/// A number where it has a number's form, or a text.
fn number_or_text(alloc: Global, line: u32, text: &Word) -> Result<Value, YamlFault>
    ensures { Gives (values.number_or_text line text.now) result }
{
    if !is_number_form(text.bytes()) {
        return text_value(alloc, text);
    }
    match Num::read(text.bytes()) {
        Some(number) => Ok(Value::Number(number)),
        None => bad(line, Code::Number),
    }
}

/// A plain scalar: a flag, null, a number or a text.
pub fn plain_value(alloc: Global, line: u32, text: &Word) -> Result<Value, YamlFault>
    ensures { Gives (values.plain_value line text.now) result }
{
    match flag_of(text.bytes()) {
        Some(flag) => Ok(Value::Flag(flag)),
        None => {
            if is_null_word(text.bytes()) {
                return Ok(Value::Null);
            }
            number_or_text(alloc, line, text)
        }
    }
}

/// A scalar that holds no template.
pub fn bare_value(alloc: Global, line: u32, text: &Word, plain: bool) -> Result<Value, YamlFault>
    ensures { Gives (values.bare_value line text.now plain) result }
{
    if plain {
        return plain_value(alloc, line, text);
    }
    text_value(alloc, text)
}

/// Values without templates.
struct Plainly;

impl Build for Plainly {
    type Made = Value;

    ghost leaf = { values.scalar_value };

    ghost listed = { made_of.Items };

    ghost mapped = { made_of.Pairs };

    fn scalar(alloc: Global, line: u32, text: &Word, plain: bool) -> Result<Value, YamlFault> {
        if holds_template(text.bytes()) {
            return bad(line, Code::Template);
        }
        bare_value(alloc, line, text, plain)
    }

    fn list(items: Many<Value>) -> Value
        ensures { result ≡ made_of.Items items }
    {
        Value::Items(items)
    }

    fn map(pairs: Many<(Word, Value)>) -> Value
        ensures { result ≡ made_of.Pairs pairs }
    {
        Value::Pairs(pairs)
    }
}

/// A map of values without templates, or null for none.
pub struct Data;

impl Kind for Data {
    type Made = Many<(Word, Value)>;

    ghost meaning = { values.data_without_templates };

    fn read(alloc: Global, line: u32, node: &Node) -> Result<Many<(Word, Value)>, YamlFault> {
        data_of::<Plainly>(alloc, line, node)
    }
}

/// Whether a scalar is null: a plain one that is nothing, `~`, or `null` in any case of its letters.
pub fn is_null_scalar(text: &[u8], plain: bool) -> bool
    ensures { result ≡ (plain && is_null_word text.now) }
{
    plain && is_null_word(text)
}

fn is_null_word(text: &[u8]) -> bool
    ensures { result ≡ is_null_word text.now }
{
    if text.len() == 4 {
        return is_letter(b'n', text[0])
            && is_letter(b'u', text[1])
            && is_letter(b'l', text[2])
            && is_letter(b'l', text[3]);
    }
    text.is_empty() || (text.len() == 1 && text[0] == b'~')
}

/// This letter, small or capital.
fn is_letter(small: u8, b: u8) -> bool
    requires { small < 128 }
    ensures { result ≡ is_letter small b }
{
    b == small || u16::from(b) + 32 == u16::from(small)
}
