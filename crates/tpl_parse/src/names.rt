//! Names, of variables, keys, filters and functions.

ghost use Rattle.std.specs.Prelude.{◌≡◌, ◌≤◌, length, IsUtf8};
ghost use Rattle.reading.specs.Answer.{Gives};
ghost use Rattle.tpl_parse.specs.Literal.{filter_name, name, skip_word, unreserved, word};

use crate::parser::{Parser, Stopped};
use crate::table::{Filter, filter_named, filters_reach};
use crate::token::{begins_name, in_name, is_reserved};
use ha_value::Word;
use std::alloc::Global;

impl<'a> Parser<'a> {
    #[tactic(auto, unfolding(crate::specs::Literal::skip_word))]
    fn skip_word(&mut self)
        ensures exact { self.new ≡ skip_word self.old }
        ensures shorter { length self.new ≤ length self.old }
    {
        while let Some(b) = self.peek()
            && in_name(b)
        {
            self.bump();
        }
    }

    /// The longest run of letters, digits and `_` at the front.
    pub fn word(&mut self) -> &'a [u8]
        ensures text { result.now ≡ word self.old }
        ensures rest { self.new ≡ skip_word self.old }
        ensures utf8 { IsUtf8 result.now }
    {
        let text = self.rest();
        self.skip_word();
        self.before(text)
    }

    /// A name behind blanks. The words of the grammar are no names.
    #[tactic(auto, unfolding(crate::specs::Literal::name))]
    pub fn name(&mut self, alloc: Global) -> Result<Word, Stopped>
        ensures { Gives (name self.old) result self.new }
    {
        self.skip_spaces();
        match self.peek() {
            Some(b) if begins_name(b) => self.unreserved(alloc),
            _ => Err(self.wrong()),
        }
    }

    /// The longest word, where it is none of the grammar.
    #[tactic(auto, unfolding(crate::specs::Literal::unreserved))]
    fn unreserved(&mut self, alloc: Global) -> Result<Word, Stopped>
        ensures { Gives (unreserved self.old) result self.new }
    {
        let name = self.word();
        if is_reserved(name) {
            return Err(self.wrong());
        }
        Ok(Word::from_bytes(alloc, name)?)
    }

    /// The name of a filter, behind blanks; whether an expression may be opened in it.
    #[tactic(auto, unfolding(crate::specs::Literal::filter_name))]
    pub fn filter_name(&mut self, opens: bool) -> Result<Filter, Stopped>
        ensures { Gives (filter_name opens self.old) result self.new }
    {
        self.skip_spaces();
        let far = self.wrong_behind(filters_reach(opens, self.rest()));
        match filter_named(self.word()) {
            Some(filter) => {
                if filter.may_stand(opens) {
                    Ok(filter)
                } else {
                    Err(far)
                }
            }
            None => Err(far),
        }
    }
}
