//! The lines of a stream that comes in pieces.

ghost use Rattle.std.specs.Prelude.{◌≡◌, ◌≤◌, ◌<◌, ◌^◌, ◌+◌, ◌++◌, ◌∷◌, [], take, false, length, drop, true, vec_len, ◌==◌, MatchResult, MatchOption, IfOk, OnOk, OnErr, option_to_list, IsTrue};
ghost use Rattle.std.specs.List.{list_all, position};
ghost use Rattle.ha_text.specs.Lines.{IsFront, IsNone, NoBreak, IsTaken, SameLines, counted, is_blank, is_open, kept_of, lines_of, longest, whole_lines};

use ha_value::{is_blank, without_cr};
use memchr::{memchr, memrchr};
use std::alloc::{AllocError, Global};
use std::marker::Model;

/// How many bytes of a line are kept: one more than a line may have. It is a function so that proofs do not compute with it.
#[tactic(auto, unfolding(crate::specs::Lines::longest))]
fn longest() -> usize
    ensures value { result ≡ longest }
    ensures few { result < 2 ^ 20 }
{
    65_537
}

/// Cuts a stream into lines. A line ends by LF, and one CR before it is dropped. A line of only spaces and tabs is no line. Of
/// a longer line 65,537 bytes are kept. Clauses see the bytes that were pushed and not taken yet, or others that give the same
/// lines; so a stream gives the same lines however it is cut into pieces. Beside whole lines, a few bytes more than those that
/// are kept of a line are held.
#[derive(Debug, Drop)]
pub struct LineCut {
    alloc: Global,
    held: Vec<u8>,
    /// The place of the first byte that was not taken.
    start: usize,
    /// The place of the line that no LF ends yet.
    begun: usize,
}

impl Model for LineCut {
    ghost use Rattle.std.specs.Prelude.{◌≡◌, ◌≤◌, List, ℕ, drop, true, vec_len};
    ghost use Rattle.ha_text.specs.Lines.{is_open};

    ghost Value = { List ℕ };

    ghost view = { λ c. drop c.start c.held.items };

    ghost invariant = { λ c. (c.start ≤ c.begun) × (c.begun ≤ vec_len c.held) × (is_open (drop c.begun c.held.items) ≡ true) };
}

fn is_no_line(line: &[u8]) -> bool
    ensures { result ≡ list_all is_blank line.now }
{
    line.iter().all(|b| is_blank(*b))
}

/// What is kept of a line, where it is one.
fn counted(alloc: Global, line: &[u8]) -> Result<Option<Vec<u8>>, AllocError>
    ensures { IfOk result (λ kept. kept_of kept ≡ counted line.now) }
{
    if is_no_line(line) {
        return Ok(None);
    }
    let kept = line.len().min(longest());
    Ok(Some(Vec::from_slice(alloc, &line[..kept])?))
}

fn first_break(bytes: &[u8]) -> Option<usize>
    ensures { result ≡ position (λ b. b == 10) bytes.now }
{
    memchr(b'\n', bytes)
}

/// A byte that stands for others: blank where all are, and no LF.
fn mark_of(line: &[u8]) -> u8
    ensures blank { is_blank result ≡ list_all is_blank line.now }
    ensures no_break { (result == 10) ≡ false }
{
    if is_no_line(line) { b' ' } else { b'x' }
}

/// Puts two bytes at a place, and drops all that stands behind them.
fn end_with(bytes: &mut Vec<u8>, at: usize, first: u8, second: u8)
    requires { at + 2 ≤ vec_len bytes.old }
    ensures { bytes.new.items ≡ take at bytes.old.items ++ first ∷ second ∷ [] }
{
    bytes[at] = first;
    bytes[at + 1] = second;
    bytes.truncate(at + 2);
}

/// The place behind the last LF, 0 where there is none.
#[tactic(auto, using(crate::proofs::LastPlace::none_open, crate::proofs::LastPlace::behind_open))]
fn behind_last_break(piece: &[u8]) -> usize
    ensures bound { result ≤ length piece.now }
    ensures open { is_open (drop result piece.now) ≡ true }
{
    match memrchr(b'\n', piece) {
        Some(at) => at + 1,
        None => 0,
    }
}

impl LineCut {
    pub fn make(alloc: Global) -> LineCut
        ensures { result ≡ [] }
    {
        LineCut {
            alloc,
            held: Vec::new(alloc),
            start: 0,
            begun: 0,
        }
    }

    /// The next piece of the stream.
    pub fn push(&mut self, piece: &[u8]) -> Result<(), AllocError>
        ensures ok { OnOk result (SameLines self.new (self.old ++ piece.now)) }
        ensures err { OnErr result (self.new ≡ self.old) }
    {
        self.forget_taken();
        self.append(piece)?;
        self.shorten();
        Ok(())
    }

    /// Lets go of the bytes that were taken. Where none were, nothing is moved: so a line in many pieces is moved once.
    fn forget_taken(&mut self)
        ensures { self.new ≡ self.old }
    {
        if self.start == 0 {
            return;
        }
        let left = self.held.len() - self.start;
        self.held.copy_within(self.start.., 0);
        self.held.truncate(left);
        self.begun -= self.start;
        self.start = 0;
    }

    fn append(&mut self, piece: &[u8]) -> Result<(), AllocError>
        ensures ok { OnOk result (self.new ≡ self.old ++ piece.now) }
        ensures err { OnErr result (self.new ≡ self.old) }
    {
        let behind = behind_last_break(piece);
        let before = self.held.len();
        self.held.extend_from_slice(piece)?;
        if behind > 0 {
            self.begun = before + behind;
        }
        Ok(())
    }

    /// Of a line that no LF ends yet, drops the bytes in the middle that are not kept: its first bytes, its last one, and one
    /// that tells whether those between are blank, give the same lines.
    fn shorten(&mut self)
        ensures { SameLines self.new self.old }
    {
        let front = self.begun + longest();
        if self.held.len() <= front + 2 {
            return;
        }
        let last = self.held.len() - 1;
        let mark = mark_of(&self.held[front..last]);
        let end = self.held[last];
        end_with(&mut self.held, front, mark, end);
    }
}

/// The first line that an LF ends, as far as it is kept, and how many bytes it takes with its end.
fn front_line(alloc: Global, text: &[u8]) -> Result<Option<(Option<Vec<u8>>, usize)>, AllocError>
    ensures { IfOk result (λ found. MatchOption found (NoBreak text.now) (λ p. IsFront text.now (kept_of p.0) p.1)) }
{
    let Some(at) = first_break(text) else {
        return Ok(None);
    };
    let line = counted(alloc, without_cr(&text[..at]))?;
    Ok(Some((line, at + 1)))
}

impl LineCut {
    /// The next whole line without its end, or `None` where no whole line is held.
    pub fn take(&mut self) -> Result<Option<Vec<u8>>, AllocError>
        ensures some { IfOk result (λ taken. MatchOption taken (IsNone self.old self.new) (λ line. IsTaken self.old line.items self.new)) }
        ensures err { OnErr result (self.new ≡ self.old) }
    {
        let mut start = self.start;
        'lines: loop {
            if start == self.begun {
                self.start = start;
                return Ok(None);
            }
            match front_line(self.alloc, &self.held[start..self.begun])? {
                None => {
                    self.start = start;
                    return Ok(None);
                }
                Some((line, long)) => {
                    start += long;
                    if line.is_some() {
                        self.start = start;
                        return Ok(line);
                    }
                }
            }
        }
    }

    /// The last line, which no LF ends, where there is one. Afterwards the value is as made.
    pub fn finish(&mut self) -> Result<Option<Vec<u8>>, AllocError>
        requires { whole_lines self.old ≡ [] }
        ensures last { IfOk result (λ last. lines_of self.old ≡ kept_of last) }
        ensures made { OnOk result (self.new ≡ []) }
        ensures err { OnErr result (self.new ≡ self.old) }
    {
        let mut start = self.start;
        'blank: while let Some((_, long)) = front_line(self.alloc, &self.held[start..])? {
            start += long;
        }
        let last = counted(self.alloc, &self.held[start..])?;
        self.held.clear();
        self.start = 0;
        self.begun = 0;
        Ok(last)
    }
}
