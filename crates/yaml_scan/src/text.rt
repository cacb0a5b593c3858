//! Lines, and the faults that are seen on one alone.

ghost use Rattle.std.specs.Prelude.{◌≡◌, ◌<◌, ◌≤◌, ◌^◌, ℕ, length, drop, true, false, map, IfOk};
ghost use Rattle.std.specs.Str.{is_utf8};
ghost use Rattle.yaml_scan.specs.Lines.{spaces, line_of, without_mark, lines, fault, tab_fault, utf8_fault, mark_fault, one_fault, line_fault, fault_from, least, is_blank_line, is_three, is_mark, is_start, is_directive, without_start, seen, scan};
ghost use Rattle.yaml_scan.specs.Answers.{Gives};

use crate::fault::{Code, Fault, YamlFault};
use crate::line::{RawLine, RawText, YamlLine};
use crate::words::{nothing_left, sees};
use ha_value::{Many, Word, without_cr};
use reading::is_utf8;
use std::alloc::{AllocError, Global};

/// How many spaces a line begins with.
#[tactic(auto, unfolding(crate::specs::Lines::spaces))]
fn spaces(raw: &[u8]) -> usize
    ensures value { result ≡ spaces raw.now }
    ensures within { result ≤ length raw.now }
{
    let mut count = 0;
    'raw: for b in raw {
        if *b != b' ' {
            return count;
        }
        count += 1;
    }
    count
}

fn line_of(alloc: Global, number: u32, raw: &[u8]) -> Result<RawLine, AllocError>
    requires { length raw.now < 2 ^ 32 }
    ensures { IfOk result (λ l. l ≡ line_of number raw.now) }
{
    let indent = spaces(raw);
    Ok(RawLine {
        line: number,
        indent: indent as u32,
        content: RawText::of(Vec::from_slice(alloc, &raw[indent..])?),
    })
}

fn without_mark(text: &[u8]) -> &[u8]
    ensures value { result.now ≡ without_mark text.now }
    ensures within { length result.now ≤ length text.now }
{
    if text.len() >= 3 && text[0] == 0xEF && text[1] == 0xBB && text[2] == 0xBF {
        &text[3..]
    } else {
        text
    }
}

/// The lines of a text, without a byte order mark at its front and without the line breaks (LF, or CR and LF).
#[tactic(auto, unfolding(crate::specs::Lines::lines_from))]
pub fn lines(alloc: Global, text: &[u8]) -> Result<Many<RawLine>, AllocError>
    requires { length text.now < 2 ^ 32 }
    ensures { IfOk result (λ ls. ls ≡ lines text.now) }
{
    let text = without_mark(text);
    let mut lines = Many::make(alloc);
    let mut number: usize = 1;
    let mut start = 0;
    'text: for i in 0..text.len() {
        if text[i] == b'\n' {
            let line = line_of(alloc, number as u32, without_cr(&text[start..i]))?;
            lines.push(line)?;
            number += 1;
            start = i + 1;
        }
    }
    if start < text.len() {
        let line = line_of(alloc, number as u32, &text[start..])?;
        lines.push(line)?;
    }
    Ok(lines)
}

/// The fault with the lesser line, and of one line with the lesser code.
pub fn least(left: Option<Fault>, right: Option<Fault>) -> Option<Fault>
    ensures { result ≡ least left right }
{
    match (left, right) {
        (None, _) => right,
        (Some(_), None) => left,
        (Some(f), Some(g)) => {
            if g.line < f.line || (g.line == f.line && g.code.number() < f.code.number()) {
                right
            } else {
                left
            }
        }
    }
}

fn fault(line: u32, code: Code) -> Fault
    ensures { result ≡ fault line code }
{
    Fault { line, code }
}

fn tab_fault(line: &RawLine) -> Option<Fault>
    ensures { result ≡ tab_fault line.now }
{
    if sees(b'\t', line.content.bytes()) {
        Some(fault(line.line, Code::Tab))
    } else {
        None
    }
}

fn utf8_fault(line: &RawLine) -> Option<Fault>
    ensures { result ≡ utf8_fault line.now }
{
    if is_utf8(line.content.bytes()) {
        None
    } else {
        Some(fault(line.line, Code::NotUtf8))
    }
}

/// Whether a line has only spaces, or spaces and a comment.
pub fn is_blank_line(line: &RawLine) -> bool
    ensures { result ≡ is_blank_line line.now }
{
    let content = line.content.bytes();
    content.is_empty() || sees(b'#', content)
}

/// Three of this byte, and nothing more but blanks and a comment.
fn is_three(b: u8, bytes: &[u8]) -> bool
    ensures { result ≡ is_three b bytes.now }
{
    bytes.len() >= 3
        && bytes[0] == b
        && bytes[1] == b
        && bytes[2] == b
        && nothing_left(false, &bytes[3..])
}

/// `---` or `...` at column 0, with nothing more but blanks and a comment.
pub fn is_mark(line: &RawLine) -> bool
    ensures { result ≡ is_mark line.now }
{
    line.indent == 0
        && (is_three(b'-', line.content.bytes()) || is_three(b'.', line.content.bytes()))
}

fn is_start(line: &RawLine) -> bool
    ensures { result ≡ is_start line.now }
{
    line.indent == 0 && is_three(b'-', line.content.bytes())
}

/// A line that begins with `%` at column 0.
pub fn is_directive(line: &RawLine) -> bool
    ensures { result ≡ is_directive line.now }
{
    line.indent == 0 && sees(b'%', line.content.bytes())
}

fn mark_fault(begun: bool, line: &RawLine) -> Option<Fault>
    ensures { result ≡ mark_fault begun line.now }
{
    if is_directive(line) || (begun && is_mark(line)) {
        Some(fault(line.line, Code::LeftOut))
    } else {
        None
    }
}

fn one_fault(begun: bool, line: &RawLine) -> Option<Fault>
    ensures { result ≡ one_fault begun line.now }
{
    least(
        tab_fault(line),
        least(mark_fault(begun, line), utf8_fault(line)),
    )
}

/// The first fault that is seen on a line alone: a tab among its leading blanks (C1), a directive or a mark behind the
/// first line that is not blank (C3), bytes that are not UTF-8 (C13).
#[tactic(auto, unfolding(crate::specs::Lines::fault_from))]
pub fn line_fault(lines: &[RawLine]) -> Option<Fault>
    ensures { result ≡ line_fault lines.now }
{
    let mut begun = false;
    'lines: for line in lines {
        let found = one_fault(begun, line);
        if found.is_some() {
            return found;
        }
        begun = begun || !is_blank_line(line);
    }
    None
}

/// The lines behind a first `---`.
#[tactic(auto, unfolding(crate::specs::Lines::without_start))]
pub fn without_start(lines: &[RawLine]) -> &[RawLine]
    ensures value { result.now ≡ without_start lines.now }
    ensures within { length result.now ≤ length lines.now }
{
    'lines: for i in 0..lines.len() {
        if !is_blank_line(&lines[i]) {
            return if is_start(&lines[i]) {
                &lines[i + 1..]
            } else {
                &lines[i..]
            };
        }
    }
    &lines[lines.len()..]
}

/// A line whose content is UTF-8.
fn seen(alloc: Global, line: &RawLine) -> Result<YamlLine, AllocError>
    requires { is_utf8 line.now.content ≡ true }
    ensures { IfOk result (λ l. l ≡ seen line.now) }
{
    Ok(YamlLine {
        line: line.line,
        indent: line.indent,
        content: Word::from_bytes(alloc, line.content.bytes())?,
    })
}

/// The lines of a text that has no fault on a line alone.
pub fn scan(alloc: Global, text: &[u8]) -> Result<Many<YamlLine>, YamlFault>
    requires { length text.now < 2 ^ 32 }
    ensures { Gives (scan text.now) result }
{
    let raw = lines(alloc, text)?;
    if let Some(fault) = line_fault(raw.as_slice()) {
        return Err(YamlFault::Bad {
            line: fault.line,
            code: fault.code,
        });
    }
    let mut found = Many::make(alloc);
    'lines: for line in raw.as_slice() {
        found.push(seen(alloc, line)?)?;
    }
    Ok(found)
}
