//! The reader of a value, a method for each rule of the grammar.

ghost use Rattle.std.specs.Prelude.{◌≡◌, ◌<◌, length, drop, if◌then◌else◌};
ghost use Rattle.reading.specs.Answer.{Gives, front, made};
ghost use Rattle.reading.specs.Bytes.{expect, sees, skip};
ghost use Rattle.reading.specs.declared.fault.Stop.{Stop};
ghost use Rattle.flow_line.specs.declared.fault.Code.TheVariants.{Syntax};
ghost use Rattle.flow_line.specs.Reading.{document, items, key, number, pair, pairs, value};

use crate::fault::Code;
use crate::found_pairs::FoundPairs;
use ha_value::{Many, Plain, Value, Word, begins_number};
use reading::{Bad, Reader, Stop};
use std::alloc::Global;
use std::marker::Model;

/// Why a method stops.
pub type Stopped = Stop<Bad<Code>>;

/// How many brackets may be open at a place.
const DEPTH: usize = 32;

/// Clauses see the bytes that are still to be read.
#[derive(Drop)]
pub struct FlowReader<'a> {
    pub bytes: Reader<'a>,
}

impl<'a> Model for FlowReader<'a> {
    ghost use Rattle.std.specs.Prelude.{List, ℕ};

    ghost Value = { List ℕ };

    ghost view = { λ r. r.bytes };
}

impl<'a> FlowReader<'a> {
    pub fn new(text: &'a [u8]) -> FlowReader<'a>
        ensures { result ≡ text.now }
    {
        FlowReader {
            bytes: Reader::new(text),
        }
    }

    /// The next byte, which stays.
    pub fn peek(&self) -> Option<u8>
        ensures { result ≡ front self.now }
    {
        self.bytes.peek()
    }

    /// Takes the next byte.
    pub fn bump(&mut self)
        requires { 0 < length self.old }
        ensures { self.new ≡ drop 1 self.old }
    {
        self.bytes.bump();
    }

    /// A fault of the syntax at the next byte.
    pub fn wrong(&self) -> Stopped
        ensures { result ≡ Stop.Fault (record { left = length self.now; code = Syntax }) }
    {
        self.bytes.stop(Code::Syntax)
    }

    /// Takes the next byte where it is this one.
    pub fn eat(&mut self, b: u8) -> bool
        ensures found { result ≡ sees b self.old }
        ensures rest { self.new ≡ (if sees b self.old then drop 1 self.old else self.old) }
    {
        self.bytes.eat(b)
    }

    pub fn expect(&mut self, word: &[u8]) -> Result<(), Stopped>
        ensures { Gives (expect Syntax word.now self.old) result self.new }
    {
        self.bytes.expect(word, Code::Syntax)
    }

    fn skip_blanks(&mut self)
        ensures { self.new ≡ skip self.old }
    {
        self.bytes.skip_blanks();
    }

    /// The value that the whole text is.
    #[tactic(auto, unfolding(crate::specs::Reading::document))]
    pub fn document(&mut self, alloc: Global) -> Result<Value, Stopped>
        ensures { Gives (document self.old) result self.new }
    {
        let value = self.value(alloc, DEPTH)?;
        if self.peek().is_some() {
            return Err(self.wrong());
        }
        Ok(value)
    }

    #[cycle(read)]
    #[tactic(auto, unfolding(crate::specs::Reading::value))]
    fn value(&mut self, alloc: Global, depth: usize) -> Result<Value, Stopped>
        ensures { Gives (value depth self.old) result self.new }
    {
        match self.peek() {
            Some(b'n') => {
                self.expect(b"null")?;
                Ok(Value::Null)
            }
            Some(b't') => {
                self.expect(b"true")?;
                Ok(Value::Flag(true))
            }
            Some(b'f') => {
                self.expect(b"false")?;
                Ok(Value::Flag(false))
            }
            Some(b'"') => {
                self.bump();
                Ok(Value::Text(self.text(alloc)?))
            }
            Some(b'[') => {
                if depth == 0 {
                    return Err(self.bytes.stop(Code::Depth));
                }
                self.bump();
                Ok(Value::Items(self.items(alloc, depth - 1)?))
            }
            Some(b'{') => {
                if depth == 0 {
                    return Err(self.bytes.stop(Code::Depth));
                }
                self.bump();
                Ok(Value::Pairs(self.pairs(alloc, depth - 1)?))
            }
            Some(b) if begins_number(b) => self.number_value(),
            _ => Err(self.wrong()),
        }
    }

    fn number_value(&mut self) -> Result<Value, Stopped>
        ensures { Gives (made Value.Number (number self.old)) result self.new }
    {
        Ok(Value::Number(self.number()?))
    }

    /// Values with commas between them, behind the opening bracket. The list begins with room for one value, so that lists in one another
    /// take no more than they hold.
    #[cycle(read)]
    #[tactic(auto, unfolding(crate::specs::Reading::items, reading::specs::Rows::closed_by))]
    fn items(&mut self, alloc: Global, depth: usize) -> Result<Many<Value>, Stopped>
        ensures { Gives (items (value depth) self.old) result self.new }
    {
        self.skip_blanks();
        if self.eat(b']') {
            return Ok(Many::make(alloc));
        }
        let mut items = Many::with_room(alloc, 1)?;
        'items: loop {
            let item = self.value(alloc, depth)?;
            items.push(item)?;
            self.skip_blanks();
            if self.eat(b']') {
                return Ok(items);
            }
            self.expect(b",")?;
            self.skip_blanks();
        }
    }

    /// Pairs with commas between them, behind the opening brace.
    #[cycle(read)]
    #[tactic(auto, unfolding(crate::specs::Reading::pairs, reading::specs::Rows::closed_by))]
    fn pairs(&mut self, alloc: Global, depth: usize) -> Result<Many<(Word, Value)>, Stopped>
        ensures { Gives (pairs (value depth) self.old) result self.new }
    {
        self.skip_blanks();
        if self.eat(b'}') {
            return Ok(Many::make(alloc));
        }
        let mut pairs = FoundPairs::with_room(alloc)?;
        'pairs: loop {
            let pair = self.pair(alloc, depth, &pairs)?;
            pairs = pairs.push(pair)?;
            self.skip_blanks();
            if self.eat(b'}') {
                return Ok(pairs.into_list());
            }
            self.expect(b",")?;
            self.skip_blanks();
        }
    }

    /// A key that is not among those that were found, a colon and a value.
    #[cycle(read)]
    #[tactic(auto, unfolding(crate::specs::Reading::pair))]
    fn pair(
        &mut self,
        alloc: Global,
        depth: usize,
        found: &FoundPairs,
    ) -> Result<(Word, Value), Stopped>
        ensures { Gives (pair (value depth) found.now self.old) result self.new }
    {
        let key = self.key(alloc, found)?;
        self.skip_blanks();
        self.expect(b":")?;
        self.skip_blanks();
        let value = self.value(alloc, depth)?;
        Ok((key, value))
    }

    #[tactic(auto, unfolding(crate::specs::Reading::key))]
    fn key(&mut self, alloc: Global, found: &FoundPairs) -> Result<Word, Stopped>
        ensures { Gives (key found.now self.old) result self.new }
    {
        let repeated = self.bytes.stop(Code::RepeatedKey);
        let key = self.string(alloc)?;
        if found.has(&key) {
            return Err(repeated);
        }
        Ok(key)
    }
}
