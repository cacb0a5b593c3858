//! Operands: atoms, with what is asked of them, signs and filters.

ghost use Rattle.std.specs.Prelude.{◌≡◌, ◌&&◌, ◌||◌, ◌==◌, Some, is_some, IfOk, IsUtf8, if◌then◌else◌};
ghost use Rattle.ha_config.specs.declared.template.Expr.{Expr};
ghost use Rattle.reading.specs.Answer.{Gives};
ghost use Rattle.tpl_parse.specs.Token.{next_is, past, spaces};
ghost use Rattle.tpl_parse.specs.Reading.{arguments, atom, call_or_name, constant, enclosed, inside, filter_arguments, filtered, not_called, opened, reached, signed, word_atom};

use crate::expression::Open;
use crate::parser::{Parser, Stopped};
use crate::table::{Counts, Function, function_named};
use crate::token::{Token, begins_name, is_reserved};
use crate::tree::{Tree, Trees, call_of, field, filter_of, list, named, negative, part_at, plain};
use ha_value::{Value, Word};
use std::alloc::{AllocError, Global};

/// The value of a word that stands for one.
fn constant(word: &[u8]) -> Option<Value>
    ensures { result ≡ constant word.now }
{
    if word == b"true".as_slice() || word == b"True".as_slice() {
        Some(Value::Flag(true))
    } else if word == b"false".as_slice() || word == b"False".as_slice() {
        Some(Value::Flag(false))
    } else if word == b"none".as_slice() || word == b"None".as_slice() {
        Some(Value::Null)
    } else {
        None
    }
}

fn name_of(alloc: Global, word: &[u8]) -> Result<Tree, AllocError>
    requires { IsUtf8 word.now }
    ensures { IfOk result (λ made. made ≡ Expr.Name word.now) }
{
    let name = Word::from_bytes(alloc, word)?;
    named(alloc, name)
}

/// Whether an expression may be opened.
#[tactic(auto, unfolding(crate::specs::Reading::opened))]
fn may_open(depth: usize) -> bool
    ensures { result ≡ is_some (opened depth) }
{
    0 < depth
}

/// Whether a bracket may stand behind the name of a filter: also where no expression may be opened, one with nothing in it.
fn may_have_arguments(depth: usize, counts: Counts) -> bool
    ensures { result ≡ (counts.least == 0 || is_some (opened depth)) }
{
    counts.least == 0 || may_open(depth)
}

impl<'a> Parser<'a> {
    /// Takes the blanks and breaks at the front, and the token where it is allowed and stands behind them.
    fn take_allowed(&mut self, token: Token, allowed: bool) -> bool
        ensures found { result ≡ (allowed && next_is token self.old) }
        ensures rest { self.new ≡ (if allowed && next_is token self.old then past token self.old else spaces self.old) }
    {
        if allowed {
            self.take(token)
        } else {
            self.skip_spaces();
            false
        }
    }

    /// An operand with filters behind it, which apply in order.
    #[cycle(read)]
    #[tactic(auto, unfolding(crate::specs::Reading::filtered))]
    pub fn filtered(&mut self, alloc: Global, depth: usize) -> Result<Tree, Stopped>
        ensures { Gives (filtered (opened depth) self.old) result self.new }
    {
        let mut base = self.signed(alloc, depth)?;
        'filters: while self.take(Token::Bar) {
            let filter = self.filter_name(may_open(depth))?;
            let args = self.filter_arguments(alloc, depth, filter.counts())?;
            base = filter_of(alloc, filter.number(), base, args)?;
        }
        Ok(base)
    }

    /// The arguments of a filter, which has no brackets where it has none.
    #[cycle(read)]
    #[tactic(auto, unfolding(crate::specs::Reading::filter_arguments, crate::specs::Reading::opened))]
    fn filter_arguments(
        &mut self,
        alloc: Global,
        depth: usize,
        counts: Counts,
    ) -> Result<Trees, Stopped>
        ensures { Gives (filter_arguments (opened depth) counts self.old) result self.new }
    {
        if self.take_allowed(Token::OpenGroup, may_have_arguments(depth, counts)) {
            return self.arguments(alloc, depth, Token::CloseGroup, counts);
        }
        if counts.least == 0 {
            return Ok(Trees::make(alloc));
        }
        Err(self.wrong())
    }

    /// A `-` and an operand, or an operand with no sign.
    #[cycle(read)]
    #[tactic(auto, unfolding(crate::specs::Reading::signed, crate::specs::Reading::opened))]
    fn signed(&mut self, alloc: Global, depth: usize) -> Result<Tree, Stopped>
        ensures { Gives (signed (opened depth) self.old) result self.new }
    {
        self.skip_spaces();
        if depth == 0 || self.peek() != Some(b'-') {
            return self.reached(alloc, depth);
        }
        self.bump();
        let inner = self.signed(alloc, depth - 1)?;
        Ok(negative(alloc, inner)?)
    }

    /// An atom, with keys and places that are asked of it.
    #[cycle(read)]
    #[tactic(auto, unfolding(crate::specs::Reading::reached, crate::specs::Reading::opened))]
    fn reached(&mut self, alloc: Global, depth: usize) -> Result<Tree, Stopped>
        ensures { Gives (reached (opened depth) self.old) result self.new }
    {
        let mut base = self.atom(alloc, depth)?;
        'parts: loop {
            if self.take(Token::Dot) {
                let name = self.name(alloc)?;
                base = field(alloc, base, name)?;
            } else if self.take_allowed(Token::OpenList, 0 < depth) {
                let index = self.enclosed(alloc, depth - 1, Token::CloseList)?;
                base = part_at(alloc, base, index)?;
            } else {
                return Ok(base);
            }
        }
    }

    /// An expression and its closing bracket.
    #[cycle(read)]
    #[tactic(auto, unfolding(crate::specs::Reading::enclosed))]
    fn enclosed(&mut self, alloc: Global, depth: usize, close: Token) -> Result<Tree, Stopped>
        ensures { Gives (enclosed (inside (opened depth)) close self.old) result self.new }
    {
        let part = self.expression(alloc, depth)?;
        if !self.take(close) {
            return Err(self.no_end(Open::of(&part), &[close]));
        }
        Ok(part.expr)
    }

    /// A number, a string, a word, a list or an expression in brackets.
    #[cycle(read)]
    #[tactic(auto, unfolding(crate::specs::Reading::atom, crate::specs::Reading::opened))]
    fn atom(&mut self, alloc: Global, depth: usize) -> Result<Tree, Stopped>
        ensures { Gives (atom (opened depth) self.old) result self.new }
    {
        self.skip_spaces();
        match self.peek() {
            Some(b'0'..=b'9') => {
                let number = self.number()?;
                Ok(plain(alloc, Value::Number(number))?)
            }
            Some(quote) if quote == b'"' || quote == b'\'' => {
                self.bump();
                let text = self.string(alloc, quote)?;
                Ok(plain(alloc, Value::Text(text))?)
            }
            Some(b'[') => {
                self.bump();
                let items = self.arguments(alloc, depth, Token::CloseList, Counts::any_from(0))?;
                Ok(list(alloc, items)?)
            }
            Some(b'(') if 0 < depth => {
                self.bump();
                self.enclosed(alloc, depth - 1, Token::CloseGroup)
            }
            Some(b) if begins_name(b) => self.word_atom(alloc, depth),
            _ => Err(self.wrong()),
        }
    }

    /// A constant, a call or a name.
    #[cycle(read)]
    #[tactic(auto, unfolding(crate::specs::Reading::word_atom, crate::specs::Reading::opened))]
    fn word_atom(&mut self, alloc: Global, depth: usize) -> Result<Tree, Stopped>
        ensures { Gives (word_atom (opened depth) self.old) result self.new }
    {
        let word = self.word();
        if let Some(value) = constant(word) {
            return Ok(plain(alloc, value)?);
        }
        if is_reserved(word) {
            return Err(self.wrong());
        }
        match function_named(word) {
            Some(function) => self.called(alloc, depth, function, word),
            None => Ok(name_of(alloc, word)?),
        }
    }

    /// Behind the name of a function: a call, or the name stands for a variable.
    #[cycle(read)]
    #[tactic(auto, unfolding(crate::specs::Reading::opened))]
    fn called(
        &mut self,
        alloc: Global,
        depth: usize,
        function: Function,
        name: &[u8],
    ) -> Result<Tree, Stopped>
        requires { IsUtf8 name.now }
        ensures { Gives (call_or_name (Some function) (opened depth) name.now self.old) result self.new }
    {
        if depth == 0 || !self.take(Token::OpenGroup) {
            return self.not_called(alloc, function, name);
        }
        let args = self.arguments(alloc, depth, Token::CloseGroup, function.counts())?;
        Ok(call_of(alloc, function.number(), args)?)
    }

    /// The name of a function where no call stands. `states` is no name of a variable.
    fn not_called(
        &mut self,
        alloc: Global,
        function: Function,
        name: &[u8],
    ) -> Result<Tree, Stopped>
        requires { IsUtf8 name.now }
        ensures { Gives (not_called function name.now self.old) result self.new }
    {
        if function == Function::States {
            return Err(self.wrong());
        }
        Ok(name_of(alloc, name)?)
    }

    /// Expressions with commas between them and the closing bracket behind them, as many as may stand there.
    #[cycle(read)]
    #[tactic(auto, unfolding(crate::specs::Reading::arguments, crate::specs::Reading::opened))]
    fn arguments(
        &mut self,
        alloc: Global,
        depth: usize,
        close: Token,
        counts: Counts,
    ) -> Result<Trees, Stopped>
        ensures { Gives (arguments (opened depth) close counts self.old) result self.new }
    {
        let mut items = Trees::make(alloc);
        if self.take_allowed(close, counts.least == 0) {
            return Ok(items);
        }
        if depth == 0 || !counts.takes_behind(0) {
            return Err(self.wrong());
        }
        'items: loop {
            let part = self.expression(alloc, depth - 1)?;
            let open = Open::of(&part);
            items.push(part.expr.into_inner())?;
            if self.take_allowed(close, counts.least <= items.len()) {
                return Ok(items);
            }
            if !self.take_allowed(Token::Comma, counts.takes_behind(items.len())) {
                return Err(self.no_end(open, &[]));
            }
        }
    }
}
