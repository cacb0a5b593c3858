//! Flow on one line, token by token.

ghost use Rattle.std.specs.Prelude.{◌≡◌, ◌<◌, ◌≤◌, ◌+◌, ◌∷◌, ℕ, suc, length, drop, take, true, false, OnOk, IfOk};
ghost use Rattle.yaml_tree.specs.Flow.{fresh, held, node_of, closing, wants_key, kept, holding, opens, closes, behind, awaiting, keyed, alone, colon_behind, quoted_here, quoted, word_end, plain_key, plain_by, plain, scalar, after_step, item_step, token, step, start, run, raised, IsTurn, IsStep, IsRan};
ghost use Rattle.yaml_tree.specs.Brackets.{ends_key, is_stop, is_word_end};
ghost use Rattle.yaml_scan.specs.Words.{colon_at};

use crate::key::Key;
use crate::node::{Node, NodeKind, null, scalar_node};
use crate::outer::Outer;
use crate::pairs::Pairs;
use crate::starts::{is_merge, left_out, no_plain};
use ha_value::{Many, is_blank};
use std::alloc::{AllocError, Global};
use std::marker::Model;
use std::mem;
use yaml_scan::{Code, Quoted, colon_at, trimmed};

/// An open bracket with what it holds so far; in a map a key may wait for its value.
#[derive(Drop)]
pub struct Frame {
    pub is_map: bool,
    pub items: Many<Node>,
    pub pairs: Pairs,
    pub key: Option<Key>,
}

impl Frame {
    pub(crate) fn new(alloc: Global, is_map: bool) -> Frame
        ensures { result ≡ fresh is_map }
    {
        Frame {
            is_map,
            items: Many::make(alloc),
            pairs: Pairs::new(alloc),
            key: None,
        }
    }

    fn hold(&mut self, alloc: Global, line: u32, node: Node) -> Result<(), AllocError>
        ensures { OnOk result (self.new ≡ held self.old line node) }
    {
        if !self.is_map {
            self.items.push(node)?;
            return Ok(());
        }
        let Some(key) = self.key.take() else {
            return Ok(());
        };
        let pairs = mem::replace(&mut self.pairs, Pairs::new(alloc));
        self.pairs = pairs.push(alloc, (key, line, node))?;
        Ok(())
    }

    fn into_node(self, alloc: Global, line: u32) -> Result<Node, AllocError>
        ensures { IfOk result (λ node. node ≡ node_of self line) }
    {
        let Frame {
            is_map,
            items,
            pairs,
            key: _,
        } = self;
        if is_map {
            Ok(Node {
                line,
                kind: NodeKind::Map(pairs.into_list(alloc)?),
            })
        } else {
            Ok(Node {
                line,
                kind: NodeKind::List(items),
            })
        }
    }

    /// Whether nothing stands in it yet.
    pub(crate) fn is_fresh(&self) -> bool
        ensures { result ≡ true → self.now ≡ fresh self.now.is_map }
    {
        self.items.is_empty() && self.pairs.is_empty() && self.key.is_none()
    }

    fn closing(&self) -> u8
        ensures { result ≡ closing self.now }
    {
        if self.is_map { b'}' } else { b']' }
    }

    fn wants_key(&self) -> bool
        ensures { result ≡ wants_key self.now }
    {
        self.is_map && self.key.is_none()
    }
}

/// What a token leads to: more of the flow, its node, or a code.
#[derive(Drop)]
pub enum Turn {
    On,
    Ended(Node),
    Fails(Code),
}

/// Flow that is being read: the innermost open bracket, those around it, and the bytes that are left.
#[derive(Drop)]
pub struct Flow<'a> {
    line: u32,
    frame: Frame,
    frames: Vec<Outer>,
    after: bool,
    height: u32,
    repeated: bool,
    spaced: bool,
    rest: &'a [u8],
}

impl<'a> Model for Flow<'a> {
    ghost use Rattle.std.specs.Prelude.{reverse};
    ghost use Rattle.yaml_tree.specs.Flow.{Machine};
    ghost use Rattle.std.specs.Coded.{codes};
    ghost use Rattle.yaml_tree.specs.contracts.node.NodeKind as e;

    ghost Value = { Machine };

    ghost coded = { Prim.hlevel (codes, e.the_row.coded) };

    ghost view = { λ m. record { line = m.line; frame = m.frame; frames = reverse m.frames.items; after = m.after; height = m.height; repeated = m.repeated; spaced = m.spaced; rest = m.rest.now } };
}

impl<'a> Flow<'a> {
    /// Behind an opening bracket on this line.
    pub fn new(alloc: Global, line: u32, is_map: bool, bytes: &'a [u8]) -> Flow<'a>
        ensures { result ≡ start line is_map bytes.now }
    {
        Flow {
            line,
            frame: Frame::new(alloc, is_map),
            frames: Vec::new(alloc),
            after: false,
            height: 1,
            repeated: false,
            spaced: false,
            rest: bytes,
        }
    }

    pub fn height(&self) -> u32
        ensures { result ≡ self.now.height }
    {
        self.height
    }

    pub fn is_repeated(&self) -> bool
        ensures { result ≡ self.now.repeated }
    {
        self.repeated
    }

    /// The bytes that are left.
    pub fn rest(&self) -> &'a [u8]
        ensures { result.now ≡ self.now.rest }
    {
        self.rest
    }

    /// Something stands in the innermost bracket.
    fn raise(&mut self)
        ensures { self.new ≡ record self.old { height = raised self.old.height (length self.old.frames) } }
    {
        let inner = self.frames.len().min(63) as u32 + 2;
        self.height = self.height.max(inner);
    }

    fn hold(&mut self, alloc: Global, node: Node) -> Result<(), AllocError>
        ensures exact { OnOk result (self.new ≡ holding self.old node) }
        ensures shorter { length self.new.rest ≤ length self.old.rest }
    {
        self.frame.hold(alloc, self.line, node)?;
        self.after = true;
        self.raise();
        Ok(())
    }

    fn open(&mut self, alloc: Global, is_map: bool) -> Result<(), AllocError>
        ensures exact { OnOk result (self.new ≡ opens self.old is_map) }
        ensures shorter { length self.new.rest ≤ length self.old.rest }
    {
        self.raise();
        let outer = mem::replace(&mut self.frame, Frame::new(alloc, is_map));
        self.frames.push(Outer::of(alloc, outer)?)?;
        self.after = false;
        Ok(())
    }

    fn kept(&self, alloc: Global, node: Node) -> Node
        ensures { result ≡ kept (length self.now.frames) self.now.line node }
    {
        if self.frames.len() < 64 {
            node
        } else {
            null(alloc, self.line)
        }
    }

    fn close(&mut self, alloc: Global) -> Result<Turn, AllocError>
        ensures exact { IsStep (closes self.old) result self.new }
        ensures shorter { length self.new.rest ≤ length self.old.rest }
    {
        let inner = mem::replace(&mut self.frame, Frame::new(alloc, false));
        let node = inner.into_node(alloc, self.line)?;
        let node = self.kept(alloc, node);
        let Some(outer) = self.frames.pop() else {
            return Ok(Turn::Ended(node));
        };
        self.frame = outer.into_frame(alloc);
        self.frame.hold(alloc, self.line, node)?;
        self.after = true;
        Ok(Turn::On)
    }

    fn skip(&mut self, spaced: bool, count: usize)
        requires { count ≤ length self.old.rest }
        ensures { self.new ≡ behind self.old spaced (drop count self.old.rest) }
    {
        self.spaced = spaced;
        self.rest = &self.rest[count..];
    }

    /// A key waits for its value.
    fn wait(&mut self, key: Key)
        ensures { self.new ≡ awaiting self.old key }
    {
        if self.frame.pairs.has(&key) {
            self.repeated = true;
        }
        self.frame.key = Some(key);
        self.after = false;
    }

    /// A key with a colon behind it.
    fn keyed(&mut self, key: Key) -> Turn
        ensures exact { IsTurn (keyed self.old key) result self.new }
        ensures shorter { length self.new.rest ≤ length self.old.rest }
    {
        if key.bytes().is_empty() {
            return Turn::Fails(Code::Structure);
        }
        self.wait(key);
        Turn::On
    }

    /// A key alone, whose value is null.
    fn alone(&mut self, alloc: Global, key: Key) -> Result<Turn, AllocError>
        ensures exact { IsStep (alone self.old key) result self.new }
        ensures shorter { length self.new.rest ≤ length self.old.rest }
    {
        if key.bytes().is_empty() {
            return Ok(Turn::Fails(Code::Structure));
        }
        self.wait(key);
        self.hold(alloc, null(alloc, self.line))?;
        Ok(Turn::On)
    }

    fn quoted_here(&mut self, alloc: Global, text: &[u8]) -> Result<Turn, AllocError>
        ensures exact { IsStep (quoted_here self.old text.now) result self.new }
        ensures shorter { length self.new.rest ≤ length self.old.rest }
    {
        if !self.frame.wants_key() {
            let node = scalar_node(alloc, self.line, text, false)?;
            self.hold(alloc, node)?;
            return Ok(Turn::On);
        }
        let key = Key::of(alloc, text)?;
        if colon_behind(self.rest) {
            self.skip(false, 1);
            return Ok(self.keyed(key));
        }
        self.alone(alloc, key)
    }

    /// A scalar or key behind its opening quote.
    fn quoted(&mut self, alloc: Global, quote: u8) -> Result<Turn, AllocError>
        ensures exact { IsStep (quoted self.old quote) result self.new }
        ensures shorter { length self.new.rest ≤ length self.old.rest }
    {
        let mut quoted = Quoted::new(alloc, quote, self.line);
        let Some(at) = quoted.run(self.rest)? else {
            return Ok(Turn::Fails(Code::Structure));
        };
        if quoted.bad().is_some() {
            return Ok(Turn::Fails(Code::Structure));
        }
        self.skip(false, at);
        self.quoted_here(alloc, quoted.text())
    }

    /// A key of these bytes, behind whose first one so many more belong to it.
    fn plain_key(&mut self, alloc: Global, key: &[u8], count: usize) -> Result<Turn, AllocError>
        requires within { count ≤ length self.old.rest }
        requires long { length key.now ≤ count + 1 }
        ensures exact { IsStep (plain_key self.old key.now count (colon_at false 0 key.now)) result self.new }
        ensures shorter { length self.new.rest ≤ length self.old.rest }
    {
        let Some(at) = colon_at(key) else {
            let text = trimmed(key);
            if is_merge(text) {
                return Ok(Turn::Fails(Code::LeftOut));
            }
            self.skip(true, count);
            let text = Key::of(alloc, text)?;
            return self.alone(alloc, text);
        };
        let text = trimmed(&key[..at]);
        if is_merge(text) {
            return Ok(Turn::Fails(Code::LeftOut));
        }
        self.skip(false, at);
        let text = Key::of(alloc, text)?;
        Ok(self.keyed(text))
    }

    /// A plain scalar or key; these are its first byte and all that are left.
    fn plain(&mut self, alloc: Global, b: u8, bytes: &[u8]) -> Result<Turn, AllocError>
        requires { bytes.now ≡ b ∷ self.old.rest }
        ensures exact { IsStep (plain self.old b) result self.new }
        ensures shorter { length self.new.rest ≤ length self.old.rest }
    {
        let count = word_end(self.rest);
        let all = &bytes[..count + 1];
        if self.frame.wants_key() {
            return self.plain_key(alloc, all, count);
        }
        if colon_at(all).is_some() {
            return Ok(Turn::Fails(Code::Structure));
        }
        let node = scalar_node(alloc, self.line, trimmed(all), true)?;
        self.skip(true, count);
        self.hold(alloc, node)?;
        Ok(Turn::On)
    }

    fn scalar(&mut self, alloc: Global, b: u8, bytes: &[u8]) -> Result<Turn, AllocError>
        requires { bytes.now ≡ b ∷ self.old.rest }
        ensures exact { IsStep (scalar self.old b) result self.new }
        ensures shorter { length self.new.rest ≤ length self.old.rest }
    {
        if b == b'"' || b == b'\'' {
            return self.quoted(alloc, b);
        }
        if left_out(b, self.rest) {
            return Ok(Turn::Fails(Code::LeftOut));
        }
        if no_plain(b, self.rest) {
            return Ok(Turn::Fails(Code::Structure));
        }
        self.plain(alloc, b, bytes)
    }

    /// Where a comma or the end may come.
    fn after_step(&mut self, alloc: Global, b: u8) -> Result<Turn, AllocError>
        ensures exact { IsStep (after_step self.old b) result self.new }
        ensures shorter { length self.new.rest ≤ length self.old.rest }
    {
        if b == b',' {
            self.after = false;
            return Ok(Turn::On);
        }
        if b == self.frame.closing() {
            return self.close(alloc);
        }
        Ok(Turn::Fails(Code::Structure))
    }

    /// Where an item, a key, a key's value or the end may come.
    fn item_step(&mut self, alloc: Global, b: u8, bytes: &[u8]) -> Result<Turn, AllocError>
        requires { bytes.now ≡ b ∷ self.old.rest }
        ensures exact { IsStep (item_step self.old b) result self.new }
        ensures shorter { length self.new.rest ≤ length self.old.rest }
    {
        if self.frame.key.is_some() && (b == b',' || b == b'}') {
            self.hold(alloc, null(alloc, self.line))?;
            return self.after_step(alloc, b);
        }
        if b == self.frame.closing() {
            return self.close(alloc);
        }
        if b == b'[' || b == b'{' {
            if self.frame.wants_key() {
                return Ok(Turn::Fails(Code::Structure));
            }
            self.open(alloc, b == b'{')?;
            return Ok(Turn::On);
        }
        self.scalar(alloc, b, bytes)
    }

    fn token(
        &mut self,
        alloc: Global,
        spaced: bool,
        b: u8,
        bytes: &[u8],
    ) -> Result<Turn, AllocError>
        requires { bytes.now ≡ b ∷ self.old.rest }
        ensures exact { IsStep (token self.old spaced b) result self.new }
        ensures shorter { length self.new.rest ≤ length self.old.rest }
    {
        if is_blank(b) {
            return Ok(Turn::On);
        }
        if b == b'#' && spaced {
            return Ok(Turn::Fails(Code::LeftOut));
        }
        if self.after {
            self.after_step(alloc, b)
        } else {
            self.item_step(alloc, b, bytes)
        }
    }

    fn step(&mut self, alloc: Global) -> Result<Turn, AllocError>
        requires { 0 < length self.old.rest }
        ensures exact { IsStep (step self.old) result self.new }
        ensures shorter { length self.new.rest < length self.old.rest }
    {
        let bytes = self.rest;
        let b = bytes[0];
        let spaced = self.spaced;
        self.skip(b == b' ', 1);
        self.token(alloc, spaced, b, bytes)
    }

    /// The node of the outermost bracket, or the first code.
    pub fn read(&mut self, alloc: Global) -> Result<Result<Node, Code>, AllocError>
        ensures { IsRan (run (suc (length self.old.rest)) self.old) result self.new }
    {
        'tokens: while !self.rest.is_empty() {
            match self.step(alloc)? {
                Turn::On => {}
                Turn::Ended(node) => return Ok(Ok(node)),
                Turn::Fails(code) => return Ok(Err(code)),
            }
        }
        Ok(Err(Code::LeftOut))
    }
}

fn ends_key(rest: &[u8]) -> bool
    ensures { result ≡ ends_key rest.now }
{
    let Some(b) = rest.first().copied() else {
        return true;
    };
    is_blank(b) || is_stop(b)
}

fn colon_behind(rest: &[u8]) -> bool
    ensures { result ≡ colon_behind rest.now }
{
    !rest.is_empty() && rest[0] == b':' && ends_key(&rest[1..])
}

/// Where a plain scalar ends: before a comma, a bracket or a comment.
#[tactic(auto, unfolding(crate::specs::Flow::word_end))]
fn word_end(bytes: &[u8]) -> usize
    ensures value { result ≡ word_end false 0 bytes.now }
    ensures within { result ≤ length bytes.now }
{
    let mut spaced = false;
    let mut at = 0;
    'bytes: for b in bytes {
        if is_word_end(*b, spaced) {
            return at;
        }
        spaced = *b == b' ';
        at += 1;
    }
    at
}

fn is_word_end(b: u8, spaced: bool) -> bool
    ensures { result ≡ is_word_end b spaced }
{
    is_stop(b) || (b == b'#' && spaced)
}

fn is_stop(b: u8) -> bool
    ensures { result ≡ is_stop b }
{
    matches!(b, b',' | b'[' | b']' | b'{' | b'}')
}
