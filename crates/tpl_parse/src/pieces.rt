//! The pieces of a template: texts and the tags between them.

ghost use Rattle.std.specs.Prelude.{◌≡◌, ◌≢◌, ◌≤◌, ◌&&◌, drop, length, true, None, IfOk, IfSome, IsUtf8};
ghost use Rattle.std.specs.List.{find};
ghost use Rattle.tpl_parse.specs.Token.{stands, text_of};
ghost use Rattle.reading.specs.Answer.{Gives};
ghost use Rattle.reading.specs.Bytes.{sees};
ghost use Rattle.tpl_parse.specs.Leaves.{Leaves};
ghost use Rattle.tpl_parse.specs.Literal.{before};
ghost use Rattle.tpl_parse.specs.Pieces.{behind_sign, comment, comment_ends, end_of, finished, last_expression, one_of, open_choice, set_name, sign_of, statement, statement_by, tag_at, tag_by, tag_expression, tag_of, template, text, with_text};

use crate::expression::Open;
use crate::found::Found;
use crate::parser::{Parser, Stopped};
use crate::token::{Token, stands};
use crate::tree::Tree;
use ha_config::{Piece, Template};
use std::alloc::Global;

/// How many expressions, `not`s and signs may be opened in a tag's expression: 64 with itself.
const DEPTH: usize = 63;

/// The kinds of tags.
#[derive(Clone, Copy, Debug, PartialEq, Eq)]
enum Tag {
    Show,
    Statement,
    Comment,
}

fn tag_of(b: Option<u8>) -> Option<Tag>
    ensures exact { result ≡ tag_of b }
    ensures some { IfSome result (λ tag. b ≢ None) }
{
    match b {
        Some(b'{') => Some(Tag::Show),
        Some(b'%') => Some(Tag::Statement),
        Some(b'#') => Some(Tag::Comment),
        _ => None,
    }
}

/// The tag that begins at the front of the text.
fn tag_at(rest: &[u8]) -> Option<Tag>
    ensures exact { result ≡ tag_at rest.now }
    ensures within { IfSome result (λ tag. 2 ≤ length rest.now) }
{
    match rest.first() {
        Some(b'{') => tag_of(rest[1..].first().copied()),
        _ => None,
    }
}

/// Whether the byte is the first of the text.
fn sees(b: u8, rest: &[u8]) -> bool
    ensures exact { result ≡ sees b rest.now }
    ensures within { result ≡ true → 1 ≤ length rest.now }
{
    match rest.first() {
        Some(first) => *first == b,
        None => false,
    }
}

/// Whether a comment ends at the front of the text.
fn comment_ends(rest: &[u8]) -> bool
    ensures exact { result ≡ comment_ends rest.now }
    ensures within { result ≡ true → 2 ≤ length rest.now }
{
    sees(b'#', rest) && sees(b'}', &rest[1..])
}

/// Whether a comment ends there that takes the blanks and breaks behind it.
fn trimming_ends(rest: &[u8]) -> bool
    ensures exact { result ≡ sees 45 rest.now && comment_ends (drop 1 rest.now) }
    ensures within { result ≡ true → 3 ≤ length rest.now }
{
    sees(b'-', rest) && comment_ends(&rest[1..])
}

/// The first of the tokens that stands at the front of the text.
fn standing(tokens: &[Token], rest: &[u8]) -> Option<Token>
    ensures exact { result ≡ find (λ token. stands token rest.now) tokens.now }
    ensures within { IfSome result (λ token. length (text_of token) ≤ length rest.now) }
{
    tokens.iter().copied().find(|token| stands(*token, rest))
}

impl<'a> Parser<'a> {
    /// The whole text.
    #[tactic(auto, unfolding(crate::specs::Pieces::template))]
    pub fn template(&mut self, alloc: Global) -> Result<Template, Stopped>
        ensures { Gives (template self.old) result self.new }
    {
        let mut found = Found::make(alloc);
        'pieces: loop {
            let rest = self.rest();
            let tag = self.text()?;
            let text = self.before(rest);
            let Some(tag) = tag else {
                return self.finished(alloc, found, text);
            };
            self.piece(alloc, tag, text, &mut found)?;
        }
    }

    /// The end of the whole text, behind a last text.
    fn finished(&self, alloc: Global, found: Found, text: &[u8]) -> Result<Template, Stopped>
        requires { IsUtf8 text.now }
        ensures { Gives (finished found text.now self.now) result self.now }
    {
        if !found.none_open() {
            return Err(self.wrong());
        }
        let mut found = found;
        found.push_text(alloc, text, false)?;
        Ok(found.into_template())
    }

    /// A text and the tag behind it.
    fn piece(
        &mut self,
        alloc: Global,
        tag: Tag,
        text: &[u8],
        found: &mut Found,
    ) -> Result<(), Stopped>
        requires utf8 { IsUtf8 text.now }
        requires within { 2 ≤ length self.old }
        ensures { Leaves (tag_by tag (with_text found.old (sign_of self.old) text.now) (behind_sign self.old)) result found.new self.new }
    {
        self.take_bytes(2);
        let sign = self.eat(b'-');
        found.push_text(alloc, text, sign)?;
        self.tag(alloc, tag, found)
    }

    /// The text up to the next tag, or to the end.
    #[tactic(auto, unfolding(crate::specs::Pieces::text))]
    fn text(&mut self) -> Result<Option<Tag>, Stopped>
        ensures exact { Gives (text self.old) result self.new }
        ensures utf8 { IfOk result (λ tag. IsUtf8 (before self.old self.new)) }
        ensures within { IfOk result (λ tag. IfSome tag (λ kind. 2 ≤ length self.new)) }
    {
        'characters: loop {
            if let Some(tag) = tag_at(self.rest()) {
                return Ok(Some(tag));
            }
            match self.peek() {
                None => return Ok(None),
                Some(_) => {
                    self.character()?;
                }
            }
        }
    }

    /// A comment behind its opening bytes and sign: whether it takes the blanks and breaks behind it.
    #[tactic(auto, unfolding(crate::specs::Pieces::comment))]
    fn comment(&mut self) -> Result<bool, Stopped>
        ensures { Gives (comment self.old) result self.new }
    {
        'characters: loop {
            if comment_ends(self.rest()) {
                self.take_bytes(2);
                return Ok(false);
            }
            if trimming_ends(self.rest()) {
                self.take_bytes(3);
                return Ok(true);
            }
            self.character()?;
        }
    }

    /// A tag behind its opening bytes and sign.
    fn tag(&mut self, alloc: Global, tag: Tag, found: &mut Found) -> Result<(), Stopped>
        ensures { Leaves (tag_by tag found.old self.old) result found.new self.new }
    {
        match tag {
            Tag::Show => self.show(alloc, found),
            Tag::Statement => self.statement(alloc, found),
            Tag::Comment => {
                found.set_trims(self.comment()?);
                Ok(())
            }
        }
    }

    fn show(&mut self, alloc: Global, found: &mut Found) -> Result<(), Stopped>
        ensures { Leaves (tag_by Tag.Show found.old self.old) result found.new self.new }
    {
        let (expr, trims) = self.last_expression(alloc, Token::ShowEnd, Token::TrimShowEnd)?;
        found.push(Piece::Show(expr.into_inner()), trims)?;
        Ok(())
    }

    /// The statement of a tag.
    #[tactic(auto, unfolding(crate::specs::Pieces::statement))]
    fn statement(&mut self, alloc: Global, found: &mut Found) -> Result<(), Stopped>
        ensures { Leaves (statement found.old self.old) result found.new self.new }
    {
        match self.one_of(found.statements())? {
            Token::Set => self.set_name(alloc, found),
            Token::If => self.begin_choice(alloc, found),
            token => self.in_choice(alloc, token, found),
        }
    }

    #[tactic(auto, unfolding(crate::specs::Pieces::set_name))]
    fn set_name(&mut self, alloc: Global, found: &mut Found) -> Result<(), Stopped>
        ensures { Leaves (set_name found.old self.old) result found.new self.new }
    {
        let name = self.name(alloc)?;
        self.want(Token::Assign)?;
        let (value, trims) = self.tag_expression(alloc)?;
        let value = value.into_inner();
        found.push(Piece::Assign { name, value }, trims)?;
        Ok(())
    }

    fn begin_choice(&mut self, alloc: Global, found: &mut Found) -> Result<(), Stopped>
        ensures { Leaves (statement_by Token.If found.old self.old) result found.new self.new }
    {
        let (test, trims) = self.tag_expression(alloc)?;
        found.begin_choice(alloc, test.into_boxed(), trims)?;
        Ok(())
    }

    /// `elif`, `else` or `endif`, where a choice is open.
    fn in_choice(&mut self, alloc: Global, token: Token, found: &mut Found) -> Result<(), Stopped>
        ensures { Leaves (open_choice found.old.open' token found.old self.old) result found.new self.new }
    {
        if found.none_open() {
            return Err(self.wrong());
        }
        match token {
            Token::Elif => {
                let (test, trims) = self.tag_expression(alloc)?;
                found.next_arm(alloc, Some(test.into_boxed()), trims)?;
            }
            Token::Else => {
                let trims = self.end(Token::TagEnd, Token::TrimTagEnd)?;
                found.next_arm(alloc, None, trims)?;
            }
            _ => {
                let trims = self.end(Token::TagEnd, Token::TrimTagEnd)?;
                found.end_choice(alloc, trims)?;
            }
        }
        Ok(())
    }

    /// Takes the one of these tokens that stands next.
    fn one_of(&mut self, tokens: &[Token]) -> Result<Token, Stopped>
        ensures { Gives (one_of tokens.now tokens.now self.old) result self.new }
    {
        self.skip_spaces();
        match standing(tokens, self.rest()) {
            Some(token) => {
                self.take_bytes(token.text().len());
                Ok(token)
            }
            None => Err(self.none_of(tokens)),
        }
    }

    /// The end of a tag with no expression before it: whether it takes the blanks and breaks behind it.
    fn end(&mut self, end: Token, trimming: Token) -> Result<bool, Stopped>
        ensures { Gives (end_of end trimming self.old) result self.new }
    {
        if self.take(trimming) {
            return Ok(true);
        }
        if self.take(end) {
            return Ok(false);
        }
        Err(self.none_of(&[end, trimming]))
    }

    fn tag_expression(&mut self, alloc: Global) -> Result<(Tree, bool), Stopped>
        ensures { Gives (tag_expression self.old) result self.new }
    {
        self.last_expression(alloc, Token::TagEnd, Token::TrimTagEnd)
    }

    /// An expression and the end of its tag.
    #[tactic(auto, unfolding(crate::specs::Pieces::last_expression))]
    fn last_expression(
        &mut self,
        alloc: Global,
        end: Token,
        trimming: Token,
    ) -> Result<(Tree, bool), Stopped>
        ensures { Gives (last_expression end trimming self.old) result self.new }
    {
        let part = self.expression(alloc, DEPTH)?;
        if self.take(trimming) {
            return Ok((part.expr, true));
        }
        if self.take(end) {
            return Ok((part.expr, false));
        }
        Err(self.no_end(Open::of(&part), &[end, trimming]))
    }
}
