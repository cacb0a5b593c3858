//! The pieces of lines.

ghost use Rattle.std.specs.Prelude.{◌≡◌, ◌≤◌, ◌<◌, ◌+◌, ◌^◌, ◌∷◌, ◌++◌, ℕ, List, Result, suc, [], length, drop, true, false, OnOk};
ghost use Rattle.yaml_scan.specs.Words.{colon_at};
ghost use Rattle.yaml_scan.specs.declared.fault.Code.{Code};
ghost use Rattle.yaml_tree.specs.Leaves.{ReadsLeaf, leaf_of, flow_by, colon_behind};
ghost use Rattle.yaml_scan.specs.declared.line.RawLine.{RawLine};
ghost use Rattle.yaml_tree.specs.Flow.{Ended, IsEnded, flow};
ghost use Rattle.yaml_tree.specs.Pieces.{IsFound, AllFound, floor, leaf_at, spoiled, spoiled_key, value_at, keyed, plain_key, quoted_at, node_of, heads, is_spaced, line_heads, pieces, is_over};

use crate::flow::Flow;
use crate::key::Key;
use crate::leaf::{Trouble, Wrong, refused, scalar_leaf, wrong_of};
use crate::node::{Node, null};
use crate::piece::{Piece, What};
use crate::starts::{Start, is_merge, starts};
use ha_value::is_blank;
use std::alloc::{AllocError, Global};
use yaml_scan::{
    Code, Fault, Lines, Quoted, RawLine, blanks, breaks, colon_at, is_directive, is_mark,
    nothing_left, sees, trimmed,
};

/// The pieces so far, and the lines that are left.
#[derive(Drop)]
pub struct Pieces<'a> {
    pub found: Vec<Piece>,
    pub lines: Lines<'a>,
}

impl<'a> Pieces<'a> {
    /// The column right of the last piece.
    fn floor(&self) -> u128
        ensures { result ≡ floor self.now.found.items }
    {
        match self.found.as_slice().last() {
            Some(piece) => right_of(piece.column),
            None => 0,
        }
    }

    fn put(&mut self, line: u32, column: u64, what: What) -> Result<(), AllocError>
        ensures found { OnOk result (self.new.found.items ≡ self.old.found.items ++ record { line = line; column = column; what = what } ∷ []) }
        ensures lines { self.new.lines ≡ self.old.lines }
    {
        self.found.push(Piece { line, column, what })?;
        Ok(())
    }

    /// A scalar or flow that begins with these bytes.
    fn read_leaf(
        &mut self,
        alloc: Global,
        floor: u128,
        fresh: bool,
        number: u32,
        bytes: &[u8],
    ) -> Result<(Node, u32), Trouble>
        requires some { 0 < length bytes.now }
        requires few { length self.old.lines < 2 ^ 63 }
        ensures exact { ReadsLeaf (leaf_of floor fresh number bytes.now self.old.lines) result self.new.lines }
        ensures found { self.new.found ≡ self.old.found }
        ensures shorter { length self.new.lines ≤ length self.old.lines }
    {
        let b = bytes[0];
        let rest = &bytes[1..];
        match starts(b, rest) {
            Start::LeftOut => Err(refused(number, Code::LeftOut, true)),
            Start::Refused => Err(refused(number, Code::Structure, false)),
            Start::Plain => {
                let text = self.lines.plain(alloc, floor, number, bytes);
                scalar_leaf(alloc, number, true, text)
            }
            Start::InQuotes => {
                let text = self.lines.quoted(alloc, floor, number, b, rest);
                scalar_leaf(alloc, number, false, text)
            }
            Start::InLines => {
                let text = self.lines.block(alloc, floor, number, b == b'>', rest);
                scalar_leaf(alloc, number, false, text)
            }
            Start::InBrackets => self.flow_leaf(alloc, fresh, number, b == b'{', rest),
        }
    }

    /// Flow behind its opening bracket.
    #[tactic(auto, unfolding(crate::specs::Flow::flow))]
    fn flow_leaf(
        &mut self,
        alloc: Global,
        fresh: bool,
        number: u32,
        is_map: bool,
        bytes: &[u8],
    ) -> Result<(Node, u32), Trouble>
        ensures exact { ReadsLeaf (flow_by fresh number (flow number is_map bytes.now) self.old.lines) result self.new.lines }
        ensures same { self.new ≡ self.old }
    {
        let mut flow = Flow::new(alloc, number, is_map, bytes);
        let node = flow.read(alloc)?;
        ended_flow(
            fresh,
            number,
            node,
            flow.rest(),
            flow.is_repeated(),
            flow.height(),
        )
    }

    /// The scalar or flow at this column.
    fn leaf(
        &mut self,
        alloc: Global,
        number: u32,
        fresh: bool,
        column: u64,
        bytes: &[u8],
    ) -> Result<Option<Fault>, AllocError>
        requires few { length self.old.lines < 2 ^ 63 }
        ensures exact { IsFound (leaf_at self.old.found.items number fresh column bytes.now self.old.lines) result self.new.found.items self.new.lines }
        ensures shorter { length self.new.lines ≤ length self.old.lines }
    {
        if bytes.is_empty() {
            return Ok(None);
        }
        let floor = self.floor();
        match self.read_leaf(alloc, floor, fresh, number, bytes) {
            Ok((node, height)) => {
                self.put(
                    number,
                    column,
                    What::Leaf {
                        node,
                        height,
                        left_out: false,
                    },
                )?;
                Ok(None)
            }
            Err(Trouble::Memory) => Err(AllocError),
            Err(Trouble::Bad(wrong)) => self.spoil(alloc, number, column, wrong),
        }
    }

    /// What cannot be read stands as a null.
    fn spoil(
        &mut self,
        alloc: Global,
        number: u32,
        column: u64,
        wrong: Wrong,
    ) -> Result<Option<Fault>, AllocError>
        ensures exact { IsFound (spoiled self.old.found.items number column wrong self.old.lines) result self.new.found.items self.new.lines }
        ensures lines { self.new.lines ≡ self.old.lines }
    {
        let left_out = wrong.left_out;
        self.put(
            number,
            column,
            What::Leaf {
                node: null(alloc, number),
                height: 1,
                left_out,
            },
        )?;
        Ok(Some(wrong.fault))
    }

    fn spoil_key(
        &mut self,
        alloc: Global,
        number: u32,
        column: u64,
        code: Code,
        left_out: bool,
    ) -> Result<Option<Fault>, AllocError>
        ensures exact { IsFound (spoiled_key self.old.found.items number column code left_out self.old.lines) result self.new.found.items self.new.lines }
        ensures lines { self.new.lines ≡ self.old.lines }
    {
        self.spoil(alloc, number, column, wrong_of(number, code, left_out))
    }

    /// What is behind a key's colon, from this column on.
    fn value(
        &mut self,
        alloc: Global,
        number: u32,
        column: u64,
        bytes: &[u8],
    ) -> Result<Option<Fault>, AllocError>
        requires short { column + length bytes.now < 2 ^ 64 }
        requires few { length self.old.lines < 2 ^ 63 }
        ensures exact { IsFound (value_at self.old.found.items number column bytes.now self.old.lines) result self.new.found.items self.new.lines }
        ensures shorter { length self.new.lines ≤ length self.old.lines }
    {
        if nothing_left(false, bytes) {
            return Ok(None);
        }
        let at = blanks(bytes);
        self.leaf(alloc, number, false, column + at as u64, &bytes[at..])
    }

    /// A key of this text at this column, and what is behind its colon.
    fn keyed(
        &mut self,
        alloc: Global,
        number: u32,
        column: u64,
        text: &[u8],
        behind: u64,
        bytes: &[u8],
    ) -> Result<Option<Fault>, AllocError>
        requires short { behind + length bytes.now < 2 ^ 64 }
        requires few { length self.old.lines < 2 ^ 63 }
        ensures exact { IsFound (keyed self.old.found.items number column text.now behind bytes.now self.old.lines) result self.new.found.items self.new.lines }
        ensures shorter { length self.new.lines ≤ length self.old.lines }
    {
        if text.is_empty() {
            return self.spoil_key(alloc, number, column, Code::Structure, false);
        }
        let key = Key::of(alloc, text)?;
        self.put(number, column, What::Key(key))?;
        self.value(alloc, number, behind, bytes)
    }

    /// A plain scalar, or a key and what is behind its colon.
    fn plain_key(
        &mut self,
        alloc: Global,
        number: u32,
        column: u64,
        bytes: &[u8],
    ) -> Result<Option<Fault>, AllocError>
        requires short { column + length bytes.now < 2 ^ 64 }
        requires few { length self.old.lines < 2 ^ 63 }
        ensures exact { IsFound (plain_key self.old.found.items number column bytes.now (colon_at false 0 bytes.now) self.old.lines) result self.new.found.items self.new.lines }
        ensures shorter { length self.new.lines ≤ length self.old.lines }
    {
        let Some(at) = colon_at(bytes) else {
            return self.leaf(alloc, number, true, column, bytes);
        };
        let text = trimmed(&bytes[..at]);
        if is_merge(text) {
            return self.spoil_key(alloc, number, column, Code::LeftOut, true);
        }
        self.keyed(
            alloc,
            number,
            column,
            text,
            column + at as u64 + 1,
            &bytes[at + 1..],
        )
    }

    /// A quoted scalar, or a quoted key and what is behind its colon; these bytes begin with the quote.
    fn quoted_key(
        &mut self,
        alloc: Global,
        number: u32,
        column: u64,
        bytes: &[u8],
    ) -> Result<Option<Fault>, AllocError>
        requires some { 0 < length bytes.now }
        requires short { column + length bytes.now < 2 ^ 64 }
        requires few { length self.old.lines < 2 ^ 63 }
        ensures exact { IsFound (quoted_at self.old.found.items number column bytes.now self.old.lines) result self.new.found.items self.new.lines }
        ensures shorter { length self.new.lines ≤ length self.old.lines }
    {
        let mut quoted = Quoted::new(alloc, bytes[0], number);
        let inner = &bytes[1..];
        let Some(at) = quoted.run(inner)? else {
            return self.leaf(alloc, number, true, column, bytes);
        };
        let rest = &inner[at..];
        if !colon_behind(rest) {
            return self.leaf(alloc, number, true, column, bytes);
        }
        if quoted.bad().is_some() {
            return self.spoil_key(alloc, number, column, Code::Structure, false);
        }
        self.keyed(
            alloc,
            number,
            column,
            quoted.text(),
            column + (bytes.len() - rest.len()) as u64 + 1,
            &rest[1..],
        )
    }

    /// What begins at this column and is no dash.
    fn node(
        &mut self,
        alloc: Global,
        number: u32,
        column: u64,
        bytes: &[u8],
    ) -> Result<Option<Fault>, AllocError>
        requires some { 0 < length bytes.now }
        requires short { column + length bytes.now < 2 ^ 64 }
        requires few { length self.old.lines < 2 ^ 63 }
        ensures exact { IsFound (node_of self.old.found.items number column bytes.now self.old.lines) result self.new.found.items self.new.lines }
        ensures shorter { length self.new.lines ≤ length self.old.lines }
    {
        match starts(bytes[0], &bytes[1..]) {
            Start::Plain => self.plain_key(alloc, number, column, bytes),
            Start::InQuotes => self.quoted_key(alloc, number, column, bytes),
            _ => self.leaf(alloc, number, true, column, bytes),
        }
    }

    /// What a line holds, from its indent on. Behind a tab, which is a fault of its own, the indent is still the number of
    /// leading spaces.
    #[tactic(auto, unfolding(crate::specs::Pieces::line_heads))]
    fn line_heads(&mut self, alloc: Global, line: &RawLine) -> Result<Option<Fault>, AllocError>
        requires few { length self.old.lines < 2 ^ 63 }
        ensures exact { IsFound (line_heads self.old.found.items line.now self.old.lines) result self.new.found.items self.new.lines }
        ensures shorter { length self.new.lines ≤ length self.old.lines }
    {
        let bytes = line.content.bytes();
        if sees(b'\t', bytes) {
            let at = blanks(bytes);
            return self.heads(
                alloc,
                line.line,
                is_spaced(bytes),
                line.indent,
                &bytes[at..],
            );
        }
        self.heads(alloc, line.line, true, line.indent, bytes)
    }

    /// What is left of a line from this column on, and whether a space stands before it.
    #[tactic(auto, unfolding(crate::specs::Pieces::heads))]
    fn heads(
        &mut self,
        alloc: Global,
        number: u32,
        before: bool,
        indent: u32,
        bytes: &[u8],
    ) -> Result<Option<Fault>, AllocError>
        requires few { length self.old.lines < 2 ^ 63 }
        ensures exact { IsFound (heads self.old.found.items number before indent bytes.now self.old.lines) result self.new.found.items self.new.lines }
        ensures shorter { length self.new.lines ≤ length self.old.lines }
    {
        let mut spaced = before;
        let mut at: usize = 0;
        'bytes: while at < bytes.len() {
            let b = bytes[at];
            let column = u64::from(indent) + at as u64;
            if b == b'#' && spaced {
                return Ok(None);
            }
            if !is_blank(b) {
                if b != b'-' || !breaks(&bytes[at + 1..]) {
                    return self.node(alloc, number, column, &bytes[at..]);
                }
                self.put(number, column, What::Dash)?;
            }
            spaced = b == b' ';
            at += 1;
        }
        Ok(None)
    }

    /// Whether the pieces end at this line.
    fn is_over(&self, line: &RawLine) -> bool
        ensures { result ≡ is_over self.now.found.items line.now }
    {
        !self.found.is_empty() && (is_mark(line) || is_directive(line))
    }

    /// The pieces of all lines up to a mark or directive, or up to the first fault.
    #[tactic(auto, unfolding(crate::specs::Pieces::pieces))]
    pub fn read(&mut self, alloc: Global) -> Result<Option<Fault>, AllocError>
        requires few { length self.old.lines < 2 ^ 63 }
        ensures { AllFound (pieces (suc (length self.old.lines)) self.old.found.items self.old.lines) result self.new.found.items }
    {
        'lines: while let Some(line) = self.lines.peek() {
            if self.is_over(line) {
                return Ok(None);
            }
            self.lines.bump();
            let fault = self.line_heads(alloc, line)?;
            if fault.is_some() {
                return Ok(fault);
            }
        }
        Ok(None)
    }
}

/// Whether a space stands last among the blanks at the front, or the line begins with what is no blank.
#[tactic(auto, unfolding(crate::specs::Pieces::is_spaced))]
fn is_spaced(bytes: &[u8]) -> bool
    ensures { result ≡ is_spaced true bytes.now }
{
    let mut spaced = true;
    'bytes: for b in bytes {
        if !is_blank(*b) {
            return spaced;
        }
        spaced = *b == b' ';
    }
    spaced
}

/// The leaf of flow that was read, with what is behind it.
fn ended_flow(
    fresh: bool,
    number: u32,
    node: Result<Node, Code>,
    rest: &[u8],
    repeated: bool,
    height: u32,
) -> Result<(Node, u32), Trouble>
    ensures { (meant : Result Ended Code) (behind : List RawLine) → IsEnded meant node rest.now repeated height → ReadsLeaf (flow_by fresh number meant behind) result behind }
{
    let node = match node {
        Ok(node) => node,
        Err(code) => return Err(refused(number, code, false)),
    };
    if fresh && colon_behind(&rest[blanks(rest)..]) {
        return Err(refused(number, Code::LeftOut, true));
    }
    if !nothing_left(false, rest) {
        return Err(refused(number, Code::Structure, false));
    }
    if repeated {
        return Err(refused(number, Code::RepeatedKey, false));
    }
    Ok((node, height))
}

fn right_of(column: u64) -> u128
    ensures { result ≡ column + 1 }
{
    u128::from(column) + 1
}

fn colon_behind(rest: &[u8]) -> bool
    ensures { result ≡ colon_behind rest.now }
{
    !rest.is_empty() && rest[0] == b':' && breaks(&rest[1..])
}
