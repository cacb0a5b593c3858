//! What has been read of a template: its pieces, and the choices that are still open.

ghost use Rattle.std.specs.Prelude.{◌≡◌, ◌++◌, [], ◌∷◌, false, None, List, reverse, OnOk, IfOk, IsUtf8};
ghost use Rattle.ha_config.specs.declared.template.Piece.{Piece};
ghost use Rattle.tpl_parse.specs.Pieces.{Choosing, arms_with, begun, closed, fallback_of, next_arm, none_open, statements, template_of, trimmed, with_piece, with_text};
ghost use Rattle.tpl_parse.specs.Token.{spaces};

use crate::parser::Parser;
use crate::token::Token;
use crate::tree::{discard, discard_arms, discard_pieces};
use ha_config::{Expr, Piece, Template};
use ha_value::{Boxed, Many, Word, is_blank_or_break};
use std::alloc::{AllocError, Global};
use std::marker::Model;

/// A choice that is still open: the pieces before it, its arms, and the test of the arm that is being read, which the
/// fallback has not.
#[derive(Drop)]
pub struct Choosing {
    before: Many<Piece>,
    arms: Many<(Expr, Template)>,
    test: Option<Boxed<Expr>>,
}

impl Model for Choosing {
    ghost use Rattle.tpl_parse.specs.Pieces.{Choosing as Known};
    ghost use Rattle.std.specs.Coded.{codes};
    ghost use Rattle.ha_config.specs.contracts.template.Expr as e;
    ghost use Rattle.ha_config.specs.contracts.template.Piece as p;
    ghost use Rattle.ha_config.specs.contracts.template.Template as t;

    ghost Value = { Known };

    ghost coded = { Prim.hlevel (codes, e.the_row.coded, p.the_row.coded, t.the_row.coded) };

    ghost view = { λ c. record { before = c.before; arms = c.arms; test = c.test } };
}

/// What has been read: the choices that are open, the pieces of the innermost arm, and whether the last tag takes the blanks
/// and breaks behind it.
pub struct Found {
    open: Many<Choosing>,
    pieces: Many<Piece>,
    trims: bool,
}

impl Model for Found {
    ghost use Rattle.std.specs.Prelude.{reverse};
    ghost use Rattle.tpl_parse.specs.Pieces.{Found as Known};
    ghost use Rattle.std.specs.Coded.{codes};
    ghost use Rattle.ha_config.specs.contracts.template.Expr as e;
    ghost use Rattle.ha_config.specs.contracts.template.Piece as p;
    ghost use Rattle.ha_config.specs.contracts.template.Template as t;

    ghost Value = { Known };

    ghost coded = { Prim.hlevel (codes, e.the_row.coded, p.the_row.coded, t.the_row.coded) };

    ghost view = { λ f. record { open' = reverse f.«open»; pieces = f.pieces; trims = f.trims } };
}

impl Drop for Found {
    fn drop(self) {
        let Found {
            open,
            pieces,
            trims: _,
        } = self;
        discard_pieces(pieces);
        let mut open = open;
        for _turn in 0..u64::MAX {
            let Some(choosing) = open.pop() else {
                return;
            };
            choosing.let_go();
        }
    }
}

impl Choosing {
    /// Lets go of what was read of a choice.
    fn let_go(self) {
        discard_pieces(self.before);
        discard_arms(self.arms);
        if let Some(test) = self.test {
            discard(test.into_inner());
        }
    }

    /// The words that may begin a statement in the arm that is being read.
    fn statements(&self) -> &'static [Token]
        ensures { (outer : List Choosing) → result.now ≡ statements (self.now ∷ outer) }
    {
        match self.test {
            None => &[Token::Set, Token::If, Token::Endif],
            Some(_) => &[
                Token::Set,
                Token::If,
                Token::Elif,
                Token::Else,
                Token::Endif,
            ],
        }
    }

    /// Ends the arm that is being read. Its pieces are handed back where it is the fallback.
    fn end_arm(&mut self, alloc: Global, pieces: Many<Piece>) -> Result<Many<Piece>, AllocError>
        ensures fallback { IfOk result (λ left. template_of left ≡ fallback_of self.old.test pieces) }
        ensures arms { OnOk result (self.new ≡ record { before = self.old.before; arms = arms_with self.old pieces; test = None }) }
    {
        match self.test.take() {
            Some(test) => {
                self.arms.push((test.into_inner(), Template { pieces }))?;
                Ok(Many::make(alloc))
            }
            None => Ok(pieces),
        }
    }

    /// The pieces with the choice behind them.
    fn close(self, fallback: Many<Piece>) -> Result<Many<Piece>, AllocError>
        ensures { IfOk result (λ pieces. pieces ≡ self.before ++ Piece.Choice self.arms (template_of fallback) ∷ []) }
    {
        let mut pieces = self.before;
        pieces.push(Piece::Choice {
            arms: self.arms,
            fallback: Template { pieces: fallback },
        })?;
        Ok(pieces)
    }
}

impl Found {
    pub fn make(alloc: Global) -> Found
        ensures { result ≡ record { open' = []; pieces = []; trims = false } }
    {
        Found {
            open: Many::make(alloc),
            pieces: Many::make(alloc),
            trims: false,
        }
    }

    /// Whether the last tag takes the blanks and breaks behind it.
    pub fn set_trims(&mut self, trims: bool)
        ensures { self.new ≡ record { open' = self.old.open'; pieces = self.old.pieces; trims = trims } }
    {
        self.trims = trims;
    }

    pub fn none_open(&self) -> bool
        ensures { result ≡ none_open self.now.open' }
    {
        self.open.len() == 0
    }

    /// The words that may begin a statement here.
    pub fn statements(&self) -> &'static [Token]
        ensures { result.now ≡ statements self.now.open' }
    {
        match self.open.as_slice().last() {
            None => &[Token::Set, Token::If],
            Some(choosing) => choosing.statements(),
        }
    }

    fn take_pieces(&mut self, alloc: Global) -> Many<Piece>
        ensures pieces { result ≡ self.old.pieces }
        ensures rest { self.new ≡ record { open' = self.old.open'; pieces = []; trims = self.old.trims } }
    {
        std::mem::replace(&mut self.pieces, Many::make(alloc))
    }

    /// The text before a tag with a sign or none. An empty text is no piece.
    pub fn push_text(&mut self, alloc: Global, text: &[u8], sign: bool) -> Result<(), AllocError>
        requires { IsUtf8 text.now }
        ensures { OnOk result (self.new ≡ with_text self.old sign text.now) }
    {
        let text = trimmed(text, self.trims, sign);
        if text.len() > 0 {
            self.pieces
                .push(Piece::Text(Word::from_bytes(alloc, text)?))?;
        }
        Ok(())
    }

    /// The piece of a tag.
    pub fn push(&mut self, piece: Piece, trims: bool) -> Result<(), AllocError>
        ensures { OnOk result (self.new ≡ with_piece self.old piece trims) }
    {
        self.pieces.push(piece)?;
        self.trims = trims;
        Ok(())
    }

    pub fn begin_choice(
        &mut self,
        alloc: Global,
        test: Boxed<Expr>,
        trims: bool,
    ) -> Result<(), AllocError>
        ensures { OnOk result (self.new ≡ begun self.old test trims) }
    {
        let before = self.take_pieces(alloc);
        self.open.push(Choosing {
            before,
            arms: Many::make(alloc),
            test: Some(test),
        })?;
        self.trims = trims;
        Ok(())
    }

    /// Ends the arm that is being read, and begins the next, or the fallback where it has no test.
    pub fn next_arm(
        &mut self,
        alloc: Global,
        test: Option<Boxed<Expr>>,
        trims: bool,
    ) -> Result<(), AllocError>
        ensures { (choosing : Choosing) (outer : List Choosing) → self.old.open' ≡ choosing ∷ outer → OnOk result (self.new ≡ next_arm self.old choosing outer test trims) }
    {
        let pieces = self.take_pieces(alloc);
        if let Some(mut choosing) = self.open.pop() {
            choosing.end_arm(alloc, pieces)?;
            choosing.test = test;
            self.open.push(choosing)?;
        }
        self.trims = trims;
        Ok(())
    }

    pub fn end_choice(&mut self, alloc: Global, trims: bool) -> Result<(), AllocError>
        ensures { (choosing : Choosing) (outer : List Choosing) → self.old.open' ≡ choosing ∷ outer → OnOk result (self.new ≡ closed self.old choosing outer trims) }
    {
        let pieces = self.take_pieces(alloc);
        if let Some(mut choosing) = self.open.pop() {
            let fallback = choosing.end_arm(alloc, pieces)?;
            self.pieces = choosing.close(fallback)?;
        }
        self.trims = trims;
        Ok(())
    }

    pub fn into_template(self) -> Template
        ensures { result ≡ template_of self.pieces }
    {
        let Found {
            open: _,
            pieces,
            trims: _,
        } = self;
        Template { pieces }
    }
}

/// Without the blanks and breaks at the front.
fn without_front(text: &[u8]) -> &[u8]
    ensures { result.now ≡ spaces text.now }
{
    let mut parser = Parser::new(text);
    parser.skip_spaces();
    parser.rest()
}

/// Without the blanks and breaks at the end.
fn without_end(text: &[u8]) -> &[u8]
    ensures { result.now ≡ reverse (spaces (reverse text.now)) }
{
    let mut to = text.len();
    'bytes: while 0 < to && is_blank_or_break(text[to - 1]) {
        to -= 1;
    }
    &text[..to]
}

/// The text between two tags, as their signs leave it.
fn trimmed(text: &[u8], front: bool, end: bool) -> &[u8]
    ensures { result.now ≡ trimmed front end text.now }
{
    let text = if front { without_front(text) } else { text };
    if end { without_end(text) } else { text }
}
