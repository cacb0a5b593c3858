//! What a node is read as by the fields of a configuration.

ghost use Rattle.std.specs.Prelude.{◌≡◌, ◌<◌, []};
ghost use Rattle.yaml_scan.specs.Answers.{Gives};
ghost use Rattle.yaml_scan.specs.declared.fault.Code.TheVariants.{Kind};
ghost use Rattle.yaml_scan.specs.declared.fault.YamlFault.{YamlFault};
ghost use Rattle.yaml_tree.specs.Readers.{is_letter, is_null_word, is_null, text, texts, texts_from};

use crate::node::{Node, NodeKind};
use ha_value::{Many, Plain, Word};
use std::alloc::Global;
use yaml_scan::{Code, YamlFault};

impl Node {
    /// Whether it is null: a plain scalar that is empty, `~`, or `null` in any case of its letters.
    pub fn is_null(&self) -> bool
        ensures { result ≡ is_null self.now }
    {
        match &self.kind {
            NodeKind::Scalar { text, plain } => *plain && is_null_word(text.bytes()),
            NodeKind::List(_) => false,
            NodeKind::Map(_) => false,
        }
    }

    /// A text, as written. Anything else, null too, is C7 at its own line.
    pub fn text(&self, alloc: Global) -> Result<Word, YamlFault>
        ensures { Gives (text self.now) result }
    {
        match &self.kind {
            NodeKind::Scalar { text, plain } => {
                if *plain && is_null_word(text.bytes()) {
                    return Err(no_text(self.line));
                }
                Ok(text.copy(alloc)?)
            }
            NodeKind::List(_) => Err(no_text(self.line)),
            NodeKind::Map(_) => Err(no_text(self.line)),
        }
    }

    /// The texts of a text or a list of texts. Anything else is C7, at its own line.
    pub fn texts(&self, alloc: Global) -> Result<Many<Word>, YamlFault>
        ensures { Gives (texts self.now) result }
    {
        match &self.kind {
            NodeKind::Scalar { .. } => {
                let text = match self.text(alloc) {
                    Ok(text) => text,
                    Err(fault) => return Err(fault),
                };
                let mut found = Many::make(alloc);
                found.push(text)?;
                Ok(found)
            }
            NodeKind::List(items) => texts_of(alloc, items.as_slice()),
            NodeKind::Map(_) => Err(no_text(self.line)),
        }
    }
}

/// The texts of a list's items.
#[tactic(auto, unfolding(crate::specs::Readers::texts_from))]
fn texts_of(alloc: Global, items: &[Node]) -> Result<Many<Word>, YamlFault>
    ensures { Gives (texts_from [] items.now) result }
{
    let mut found = Many::make(alloc);
    'items: for i in 0..items.len() {
        match items[i].text(alloc) {
            Ok(text) => found.push(text)?,
            Err(fault) => return Err(fault),
        }
    }
    Ok(found)
}

fn no_text(line: u32) -> YamlFault
    ensures { result ≡ YamlFault.Bad line Kind }
{
    YamlFault::Bad {
        line,
        code: Code::Kind,
    }
}

/// This letter, small or capital.
fn is_letter(small: u8, b: u8) -> bool
    requires { small < 128 }
    ensures { result ≡ is_letter small b }
{
    b == small || u16::from(b) + 32 == u16::from(small)
}

fn is_null_word(text: &[u8]) -> bool
    ensures { result ≡ is_null_word text.now }
{
    if text.len() == 4 {
        return is_letter(b'n', text[0])
            && is_letter(b'u', text[1])
            && is_letter(b'l', text[2])
            && is_letter(b'l', text[3]);
    }
    text.is_empty() || (text.len() == 1 && text[0] == b'~')
}
