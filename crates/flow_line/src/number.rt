//! Numbers.

ghost use Rattle.std.specs.Prelude.{◌≡◌, ◌≤◌, length, OnOk};
ghost use Rattle.reading.specs.Answer.{Gives};
ghost use Rattle.flow_line.specs.Reading.{digits, number, numeral, skip_sign};

use crate::fault::Code;
use crate::value::{FlowReader, Stopped};
use ha_value::Num;

impl<'a> FlowReader<'a> {
    fn skip_sign(&mut self)
        ensures exact { self.new ≡ skip_sign self.old }
        ensures shorter { length self.new ≤ length self.old }
    {
        if !self.eat(b'-') {
            self.eat(b'+');
        }
    }

    /// One digit or more.
    #[tactic(auto, unfolding(crate::specs::Reading::digits))]
    fn digits(&mut self) -> Result<(), Stopped>
        ensures exact { Gives (digits self.old) result self.new }
        ensures shorter { OnOk result (length self.new ≤ length self.old) }
    {
        self.byte_in(b'0', b'9')?;
        self.bytes.skip_digits();
        Ok(())
    }

    /// Perhaps a sign, digits, and perhaps a dot with digits.
    #[tactic(auto, unfolding(crate::specs::Reading::numeral))]
    fn numeral(&mut self) -> Result<(), Stopped>
        ensures exact { Gives (numeral self.old) result self.new }
        ensures shorter { OnOk result (length self.new ≤ length self.old) }
    {
        self.skip_sign();
        self.digits()?;
        if self.eat(b'.') {
            self.digits()?;
        }
        Ok(())
    }

    #[tactic(auto, unfolding(crate::specs::Reading::number))]
    pub fn number(&mut self) -> Result<Num, Stopped>
        ensures { Gives (number self.old) result self.new }
    {
        let range = self.bytes.stop(Code::Range);
        let text = self.bytes.rest();
        self.numeral()?;
        let long = text.len() - self.bytes.left();
        match Num::read(&text[..long]) {
            Some(number) => Ok(number),
            None => Err(range),
        }
    }
}
