//! The lines that are still to be read, and the scalars that go on over several of them.

ghost use Rattle.std.specs.Prelude.{◌≡◌, ◌≤◌, ◌<◌, ◌+◌, ◌^◌, ℕ, [], length, drop, false};
ghost use Rattle.std.specs.Option.{option_copied};
ghost use Rattle.yaml_scan.specs.Answers.{Reads, front_line};
ghost use Rattle.yaml_scan.specs.Plain.{further, plain};
ghost use Rattle.yaml_scan.specs.Quoted.{further as quoted_further, finished, quoted};
ghost use Rattle.yaml_scan.specs.Block.{body, opening, headed, block};
ghost use Rattle.yaml_scan.specs.declared.fault.YamlFault.{YamlFault};
ghost use Rattle.yaml_scan.specs.declared.fault.Code.TheVariants.{Structure};

use crate::block::{Block, indented};
use crate::fault::{Code, YamlFault};
use crate::line::{RawLine, RawText};
use crate::quoted::Quoted;
use crate::words::{
    blanks, colon_at, comment_at, nothing_left, only_blanks, push_folded, sees, text_of,
};
use std::alloc::Global;
use std::marker::Model;

/// Clauses see the lines that are still to be read.
#[derive(Drop)]
pub struct Lines<'a> {
    rest: &'a [RawLine],
}

impl<'a> Model for Lines<'a> {
    ghost use Rattle.std.specs.Prelude.{List};
    ghost use Rattle.yaml_scan.specs.declared.line.RawLine.{RawLine};

    ghost Value = { List RawLine };

    ghost view = { λ l. l.rest.now };
}

fn bad(line: u32, code: Code) -> YamlFault
    ensures { result ≡ YamlFault.Bad line code }
{
    YamlFault::Bad { line, code }
}

impl<'a> Lines<'a> {
    pub fn new(lines: &'a [RawLine]) -> Lines<'a>
        ensures { result ≡ lines.now }
    {
        Lines { rest: lines }
    }

    pub fn peek(&self) -> Option<&'a RawLine>
        ensures { option_copied result ≡ front_line self.now }
    {
        self.rest.first()
    }

    pub fn bump(&mut self)
        requires { 0 < length self.old }
        ensures { self.new ≡ drop 1 self.old }
    {
        self.rest = &self.rest[1..];
    }

    /// A plain scalar that begins with these bytes of a line. Its further lines stand at this column or right of it.
    #[tactic(auto, unfolding(crate::specs::Plain::plain))]
    pub fn plain(
        &mut self,
        alloc: Global,
        floor: u128,
        number: u32,
        bytes: &[u8],
    ) -> Result<RawText, YamlFault>
        requires few { length self.old < 2 ^ 63 }
        ensures exact { Reads (plain floor number bytes.now self.old) result self.new }
        ensures shorter { length self.new ≤ length self.old }
    {
        if colon_at(bytes).is_some() {
            return Err(bad(number, Code::Structure));
        }
        let text = Vec::from_slice(alloc, text_of(bytes))?;
        if comment_at(bytes) < bytes.len() {
            return Ok(RawText::of(text));
        }
        self.plain_further(floor, text)
    }

    #[tactic(auto, unfolding(crate::specs::Plain::further))]
    fn plain_further(&mut self, floor: u128, text: Vec<u8>) -> Result<RawText, YamlFault>
        requires few { length self.old < 2 ^ 63 }
        ensures exact { Reads (further floor text.items 0 self.old) result self.new }
        ensures shorter { length self.new ≤ length self.old }
    {
        let mut text = text;
        let mut blanks: usize = 0;
        'lines: while let Some(line) = self.peek() {
            let content = line.content.bytes();
            if content.is_empty() {
                blanks += 1;
                self.bump();
                continue;
            }
            if content[0] == b'#' || u128::from(line.indent) < floor {
                return Ok(RawText::of(text));
            }
            if colon_at(content).is_some() {
                return Err(bad(line.line, Code::Structure));
            }
            push_folded(&mut text, blanks)?;
            text.extend_from_slice(text_of(content))?;
            self.bump();
            if comment_at(content) < content.len() {
                return Ok(RawText::of(text));
            }
            blanks = 0;
        }
        Ok(RawText::of(text))
    }

    /// A scalar in these quotes, behind its opening quote. Its further lines stand at this column or right of it.
    #[tactic(auto, unfolding(crate::specs::Quoted::quoted))]
    pub fn quoted(
        &mut self,
        alloc: Global,
        floor: u128,
        number: u32,
        quote: u8,
        bytes: &[u8],
    ) -> Result<RawText, YamlFault>
        requires few { length self.old < 2 ^ 63 }
        ensures exact { Reads (quoted floor number quote bytes.now self.old) result self.new }
        ensures shorter { length self.new ≤ length self.old }
    {
        let mut quoted = Quoted::new(alloc, quote, number);
        if let Some(at) = quoted.run(bytes)? {
            return self.finished(quoted, &bytes[at..]);
        }
        self.quoted_further(floor, number, quoted)
    }

    #[tactic(auto, unfolding(crate::specs::Quoted::further))]
    fn quoted_further(
        &mut self,
        floor: u128,
        first: u32,
        quoted: Quoted,
    ) -> Result<RawText, YamlFault>
        requires few { length self.old < 2 ^ 63 }
        ensures exact { Reads (quoted_further floor first 0 quoted self.old) result self.new }
        ensures shorter { length self.new ≤ length self.old }
    {
        let mut quoted = quoted;
        let mut count: usize = 0;
        'lines: while let Some(line) = self.peek() {
            let content = line.content.bytes();
            if only_blanks(content) {
                count += 1;
                self.bump();
                continue;
            }
            if u128::from(line.indent) < floor {
                return Err(bad(first, Code::Structure));
            }
            quoted.next_line(count, line.line)?;
            self.bump();
            let rest = &content[blanks(content)..];
            if let Some(at) = quoted.run(rest)? {
                return self.finished(quoted, &rest[at..]);
            }
            count = 0;
        }
        Err(bad(first, Code::Structure))
    }

    /// What is behind a closing quote.
    fn finished(&mut self, quoted: Quoted, rest: &[u8]) -> Result<RawText, YamlFault>
        ensures exact { Reads (finished quoted rest.now self.old) result self.new }
        ensures shorter { length self.new ≤ length self.old }
    {
        if let Some(line) = quoted.bad() {
            return Err(bad(line, Code::Structure));
        }
        if !nothing_left(false, rest) {
            return Err(bad(quoted.line(), Code::Structure));
        }
        Ok(RawText::of(quoted.into_text()))
    }

    /// A block scalar, behind its `|` or `>` (which folds). Its lines stand at this column or right of it.
    #[tactic(auto, unfolding(crate::specs::Block::block))]
    pub fn block(
        &mut self,
        alloc: Global,
        floor: u128,
        number: u32,
        fold: bool,
        head: &[u8],
    ) -> Result<RawText, YamlFault>
        requires few { length self.old < 2 ^ 63 }
        ensures exact { Reads (block floor number fold head.now self.old) result self.new }
        ensures shorter { length self.new ≤ length self.old }
    {
        if sees(b'-', head) {
            self.headed(alloc, fold, true, floor, number, &head[1..])
        } else {
            self.headed(alloc, fold, false, floor, number, head)
        }
    }

    fn headed(
        &mut self,
        alloc: Global,
        fold: bool,
        strip: bool,
        floor: u128,
        number: u32,
        head: &[u8],
    ) -> Result<RawText, YamlFault>
        requires few { length self.old < 2 ^ 63 }
        ensures exact { Reads (headed fold strip floor number head.now self.old) result self.new }
        ensures shorter { length self.new ≤ length self.old }
    {
        if !nothing_left(false, head) {
            return Err(bad(number, Code::LeftOut));
        }
        self.opening(alloc, fold, strip, floor)
    }

    /// Blank lines, and then the first line that is not blank, which gives the content's indent.
    #[tactic(auto, unfolding(crate::specs::Block::opening))]
    fn opening(
        &mut self,
        alloc: Global,
        fold: bool,
        strip: bool,
        floor: u128,
    ) -> Result<RawText, YamlFault>
        requires few { length self.old < 2 ^ 63 }
        ensures exact { Reads (opening fold strip floor 0 self.old) result self.new }
        ensures shorter { length self.new ≤ length self.old }
    {
        let mut empties: usize = 0;
        'lines: while let Some(line) = self.peek() {
            if !line.content.bytes().is_empty() {
                if u128::from(line.indent) < floor {
                    return Ok(RawText::of(Vec::new(alloc)));
                }
                let indent = line.indent;
                return self.body(alloc, strip, indent, Block::new(alloc, fold, empties));
            }
            empties += 1;
            self.bump();
        }
        Ok(RawText::of(Vec::new(alloc)))
    }

    /// Lines at the content's indent.
    #[tactic(auto, unfolding(crate::specs::Block::body))]
    fn body(
        &mut self,
        alloc: Global,
        strip: bool,
        indent: u32,
        block: Block,
    ) -> Result<RawText, YamlFault>
        requires few { block.empties + length self.old < 2 ^ 63 }
        ensures exact { Reads (body strip indent block self.old) result self.new }
        ensures shorter { length self.new ≤ length self.old }
    {
        let mut block = block;
        'lines: while let Some(line) = self.peek() {
            let content = line.content.bytes();
            if !content.is_empty() && line.indent < indent {
                return Ok(block.ended(strip)?);
            }
            let spaces = line.indent.saturating_sub(indent) as usize;
            block.add(indented(alloc, spaces, content)?.as_slice())?;
            self.bump();
        }
        Ok(block.ended(strip)?)
    }
}
