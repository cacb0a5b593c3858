//! Expressions, from the weakest operators to the strongest.

ghost use Rattle.std.specs.Prelude.{◌≡◌, ◌≤◌, Some, IfSome, length, drop, max};
ghost use Rattle.reading.specs.Answer.{Gives, made};
ghost use Rattle.ha_config.specs.declared.template.Op.{Op};
ghost use Rattle.tpl_parse.specs.declared.token.Token.{Token};
ghost use Rattle.reading.specs.declared.fault.Stop.{Stop};
ghost use Rattle.std.specs.List.{find};
ghost use Rattle.tpl_parse.specs.Token.{reach, stands, text_of, want};
ghost use Rattle.tpl_parse.specs.Reading.{behind_operator, chain, comparator, comparison, comparisons, ending, expression, negation, open_reach, opened, operand, operator, operator_of, operators, part_of, none_test, test_tokens, tested, tokens_behind, with_else};

use crate::parser::{Parser, Stopped};
use crate::token::{Token, reach, stands};
use crate::tree::{Tree, none_test_of, pair, pick, turned};
use ha_config::Op;
use std::alloc::Global;

/// The levels of operators that group from the left, the weakest first. `not` and the comparisons stand between `And` and `Sum`.
#[derive(Clone, Copy, Debug, PartialEq, Eq)]
pub enum Level {
    Or,
    And,
    Sum,
    Join,
    Product,
}

impl Level {
    fn operators(self) -> &'static [(Token, Op)]
        ensures { result.now ≡ operators self }
    {
        match self {
            Level::Or => &[(Token::Or, Op::Or)],
            Level::And => &[(Token::And, Op::And)],
            Level::Sum => &[(Token::Plus, Op::Plus), (Token::Minus, Op::Minus)],
            Level::Join => &[(Token::Join, Op::Join)],
            Level::Product => &[
                (Token::Times, Op::Times),
                (Token::Over, Op::Over),
                (Token::Floor, Op::Floor),
                (Token::Modulo, Op::Modulo),
            ],
        }
    }
}

fn comparisons() -> &'static [(Token, Op)]
    ensures { result.now ≡ comparisons }
{
    &[
        (Token::Equal, Op::Equal),
        (Token::Unequal, Op::Unequal),
        (Token::Less, Op::Less),
        (Token::AtMost, Op::AtMost),
        (Token::More, Op::More),
        (Token::AtLeast, Op::AtLeast),
        (Token::In, Op::Within),
    ]
}

fn test_tokens(turned: bool) -> &'static [Token]
    ensures { result.now ≡ test_tokens turned }
{
    if turned {
        &[Token::None, Token::PrintedNone, Token::Defined]
    } else {
        &[Token::None, Token::PrintedNone, Token::Defined, Token::Not]
    }
}

/// What stands last in an expression: an operand that a comparison may follow, one that was compared, or `none` or `defined`
/// behind `is`, which only `and`, `or` and `if` may follow.
#[derive(Clone, Copy, Debug, PartialEq, Eq)]
pub enum Last {
    Operand,
    Compared,
    Tested,
}

impl Last {
    /// The tokens that go on behind it.
    fn tokens(self) -> &'static [Token]
        ensures { result.now ≡ tokens_behind self }
    {
        match self {
            Last::Operand => &[
                Token::Or,
                Token::And,
                Token::Minus,
                Token::Modulo,
                Token::Equal,
                Token::Unequal,
                Token::Is,
                Token::In,
                Token::Not,
            ],
            Last::Compared => &[Token::Or, Token::And, Token::Minus, Token::Modulo],
            Last::Tested => &[Token::Or, Token::And],
        }
    }
}

/// An expression that was read, and what may go on behind it: by its last part, and perhaps an `if` or an `else`.
#[derive(Drop)]
pub struct Part {
    pub expr: Tree,
    pub last: Last,
    pub choice: Option<Token>,
}

impl Part {
    pub fn ending(expr: Tree, last: Last) -> Part
        ensures { result ≡ ending expr last }
    {
        Part {
            expr,
            last,
            choice: None,
        }
    }

    fn with_choice(self, choice: Token) -> Part
        ensures { result ≡ part_of self.expr self.last (Some choice) }
    {
        Part {
            expr: self.expr,
            last: self.last,
            choice: Some(choice),
        }
    }
}

/// What may go on behind an expression.
#[derive(Clone, Copy, Debug, PartialEq, Eq)]
pub struct Open {
    pub last: Last,
    pub choice: Option<Token>,
}

impl Open {
    pub fn of(part: &Part) -> Open
        ensures last { result.last ≡ part.now.last }
        ensures choice { result.choice ≡ part.now.choice }
    {
        Open {
            last: part.last,
            choice: part.choice,
        }
    }

    /// How far the text goes on as a token that may stand here.
    fn reach(self, rest: &[u8]) -> usize
        ensures { result ≡ open_reach self.last self.choice rest.now }
    {
        let far = reach(self.last.tokens(), rest);
        match self.choice {
            Some(token) => far.max(reach(&[token], rest)),
            None => far,
        }
    }
}

/// The first of the operators that stands at the front of the text.
fn standing(operators: &[(Token, Op)], rest: &[u8]) -> Option<(Token, Op)>
    ensures exact { result ≡ find (λ row. stands row.0 rest.now) operators.now }
    ensures within { IfSome result (λ row. length (text_of row.0) ≤ length rest.now) }
{
    operators.iter().copied().find(|row| stands(row.0, rest))
}

impl<'a> Parser<'a> {
    /// The fault where none of the tokens stands behind the expression, which doesn't go on either.
    pub fn no_end(&self, open: Open, tokens: &[Token]) -> Stopped
        ensures { result ≡ Stop.Fault (record { left = length (drop (max (open_reach open.last open.choice self.now) (reach tokens.now self.now)) self.now); code = tt }) }
    {
        let rest = self.rest();
        self.wrong_behind(open.reach(rest).max(reach(tokens, rest)))
    }

    /// Takes the first of these operators that stands next.
    fn operator(&mut self, operators: &[(Token, Op)]) -> Option<Op>
        ensures op { result ≡ operator_of (operator operators.now self.old) }
        ensures rest { self.new ≡ behind_operator (operator operators.now self.old) self.old }
    {
        self.skip_spaces();
        match standing(operators, self.rest()) {
            Some(row) => {
                self.take_bytes(row.0.text().len());
                Some(row.1)
            }
            None => None,
        }
    }

    /// An operand, or `a if test` or `a if test else b`. So many expressions, `not`s and signs may be opened in it.
    #[cycle(read)]
    #[tactic(auto, unfolding(crate::specs::Reading::expression, crate::specs::Reading::disjunction))]
    pub fn expression(&mut self, alloc: Global, depth: usize) -> Result<Part, Stopped>
        ensures { Gives (expression (opened depth) self.old) result self.new }
    {
        let value = self.chain(alloc, Level::Or, depth)?;
        if !self.take(Token::If) {
            return Ok(value.with_choice(Token::If));
        }
        let test = self.chain(alloc, Level::Or, depth)?;
        self.otherwise(alloc, depth, value, test)
    }

    /// Behind `value if test`: perhaps `else` and an expression.
    #[cycle(read)]
    #[tactic(auto, unfolding(crate::specs::Reading::opened))]
    fn otherwise(
        &mut self,
        alloc: Global,
        depth: usize,
        value: Part,
        test: Part,
    ) -> Result<Part, Stopped>
        ensures { Gives (with_else (opened depth) value test self.old) result self.new }
    {
        let last = test.last;
        if depth == 0 {
            let expr = pick(alloc, test.expr, value.expr, None)?;
            return Ok(Part::ending(expr, last));
        }
        if !self.take(Token::Else) {
            let expr = pick(alloc, test.expr, value.expr, None)?;
            return Ok(Part::ending(expr, last).with_choice(Token::Else));
        }
        let other = self.expression(alloc, depth - 1)?;
        let open = Open::of(&other);
        let expr = pick(alloc, test.expr, value.expr, Some(other.expr))?;
        Ok(Part {
            expr,
            last: open.last,
            choice: open.choice,
        })
    }

    /// Operands with operators of one level between them.
    #[cycle(read)]
    #[tactic(auto, unfolding(crate::specs::Reading::chain))]
    fn chain(&mut self, alloc: Global, level: Level, depth: usize) -> Result<Part, Stopped>
        ensures { Gives (chain (operators level) (operand level (opened depth)) self.old) result self.new }
    {
        let mut part = self.operand(alloc, level, depth)?;
        'operators: while let Some(op) = self.operator(level.operators()) {
            let right = self.operand(alloc, level, depth)?;
            let last = right.last;
            part = Part::ending(pair(alloc, op, part.expr, right.expr)?, last);
        }
        Ok(part)
    }

    /// An operand of a level.
    #[cycle(read)]
    #[tactic(auto, unfolding(crate::specs::Reading::conjunction, crate::specs::Reading::joined, crate::specs::Reading::product))]
    fn operand(&mut self, alloc: Global, level: Level, depth: usize) -> Result<Part, Stopped>
        ensures { Gives (operand level (opened depth) self.old) result self.new }
    {
        match level {
            Level::Or => self.chain(alloc, Level::And, depth),
            Level::And => self.negation(alloc, depth),
            Level::Sum => self.chain(alloc, Level::Join, depth),
            Level::Join => self.chain(alloc, Level::Product, depth),
            Level::Product => Ok(Part::ending(self.filtered(alloc, depth)?, Last::Operand)),
        }
    }

    /// `not` and an operand, or a comparison.
    #[cycle(read)]
    #[tactic(auto, unfolding(crate::specs::Reading::negation, crate::specs::Reading::opened))]
    fn negation(&mut self, alloc: Global, depth: usize) -> Result<Part, Stopped>
        ensures { Gives (negation (opened depth) self.old) result self.new }
    {
        if depth == 0 || !self.take(Token::Not) {
            return self.comparison(alloc, depth);
        }
        let inner = self.negation(alloc, depth - 1)?;
        let last = inner.last;
        Ok(Part::ending(turned(alloc, inner.expr)?, last))
    }

    /// A sum, two that are compared, or one with a test behind `is`.
    #[cycle(read)]
    #[tactic(auto, unfolding(crate::specs::Reading::comparison, crate::specs::Reading::sum))]
    fn comparison(&mut self, alloc: Global, depth: usize) -> Result<Part, Stopped>
        ensures { Gives (comparison (opened depth) self.old) result self.new }
    {
        let left = self.chain(alloc, Level::Sum, depth)?;
        if self.take(Token::Is) {
            let holds = self.test()?;
            let expr = none_test_of(alloc, left.expr, holds)?;
            return Ok(Part::ending(expr, Last::Tested));
        }
        let Some(op) = self.comparator()? else {
            return Ok(left);
        };
        let right = self.chain(alloc, Level::Sum, depth)?;
        Ok(Part::ending(pair(alloc, op, left.expr, right.expr)?, Last::Compared))
    }

    /// An operator of a comparison, if one stands next.
    #[tactic(auto, unfolding(crate::specs::Reading::comparator))]
    fn comparator(&mut self) -> Result<Option<Op>, Stopped>
        ensures { Gives (comparator self.old) result self.new }
    {
        if self.take(Token::Not) {
            return self.outside();
        }
        Ok(self.operator(comparisons()))
    }

    /// `in` behind `not`.
    fn outside(&mut self) -> Result<Option<Op>, Stopped>
        ensures { Gives (made (λ _. Some Op.Outside) (want Token.In self.old)) result self.new }
    {
        self.want(Token::In)?;
        Ok(Some(Op::Outside))
    }

    /// Behind `is`: whether what is none passes the test.
    #[tactic(auto, unfolding(crate::specs::Reading::none_test))]
    fn test(&mut self) -> Result<bool, Stopped>
        ensures { Gives (none_test self.old) result self.new }
    {
        if self.take(Token::Not) {
            self.tested(true)
        } else {
            self.tested(false)
        }
    }

    /// `none` or `defined`, behind `not` where it is turned.
    fn tested(&mut self, turned: bool) -> Result<bool, Stopped>
        ensures { Gives (tested turned self.old) result self.new }
    {
        if self.take(Token::None) {
            return Ok(!turned);
        }
        if self.take(Token::PrintedNone) {
            return Ok(!turned);
        }
        if self.take(Token::Defined) {
            return Ok(turned);
        }
        Err(self.none_of(test_tokens(turned)))
    }
}
