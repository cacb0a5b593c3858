//! Block scalars, line by line.

ghost use Rattle.std.specs.Prelude.{◌≡◌, ◌≤◌, ◌<◌, ◌+◌, ◌-◌, ◌++◌, ◌∷◌, ◌^◌, ℕ, [], length, OnOk, IfOk};
ghost use Rattle.yaml_scan.specs.Words.{times, is_empty};
ghost use Rattle.yaml_scan.specs.Block.{State, between, added, ended, begun};

use crate::line::RawText;
use crate::words::{push_folded, push_times, sees};
use std::alloc::{AllocError, Global};
use std::marker::Model;

/// What was read of a block scalar.
#[derive(Drop)]
pub struct Block {
    fold: bool,
    text: Vec<u8>,
    /// Whether the last line that is not empty began with a space.
    last: Option<bool>,
    /// How many empty lines were read behind it.
    empties: usize,
}

impl Model for Block {
    ghost use Rattle.yaml_scan.specs.Block.{State};

    ghost Value = { State };

    ghost view = { λ s. record { fold = s.fold; text = s.text.items; last = s.last; empties = s.empties } };
}

impl Block {
    pub(crate) fn new(alloc: Global, fold: bool, empties: usize) -> Block
        ensures { result ≡ begun fold empties }
    {
        Block {
            fold,
            text: Vec::new(alloc),
            last: None,
            empties,
        }
    }

    /// What stands between the last line and one that is not empty.
    fn push_between(&mut self, spaced: bool) -> Result<(), AllocError>
        requires { self.old.empties + 1 < 2 ^ 64 }
        ensures { OnOk result (self.new ≡ record self.old { text = self.old.text ++ between self.old.fold self.old.last spaced self.old.empties }) }
    {
        match self.last {
            None => push_times(&mut self.text, self.empties, b'\n'),
            Some(before) => {
                if self.fold && !before && !spaced {
                    push_folded(&mut self.text, self.empties)
                } else {
                    push_times(&mut self.text, self.empties + 1, b'\n')
                }
            }
        }
    }

    /// One more line, without the content's indent.
    pub(crate) fn add(&mut self, line: &[u8]) -> Result<(), AllocError>
        requires { self.old.empties + 1 < 2 ^ 64 }
        ensures added { OnOk result (self.new ≡ added self.old line.now) }
        ensures few { OnOk result (self.new.empties ≤ self.old.empties + 1) }
    {
        if line.is_empty() {
            self.empties += 1;
            return Ok(());
        }
        let spaced = sees(b' ', line);
        self.push_between(spaced)?;
        self.text.extend_from_slice(line)?;
        self.last = Some(spaced);
        self.empties = 0;
        Ok(())
    }

    /// The whole text, which `-` leaves without a line feed at its end.
    pub(crate) fn ended(self, strip: bool) -> Result<RawText, AllocError>
        ensures { IfOk result (λ t. t ≡ ended strip self) }
    {
        let Block {
            mut text,
            fold: _,
            last: _,
            empties: _,
        } = self;
        if !strip && !text.is_empty() {
            text.push(b'\n')?;
        }
        Ok(RawText::of(text))
    }
}

/// A line's bytes behind so many spaces.
pub(crate) fn indented(alloc: Global, spaces: usize, content: &[u8]) -> Result<Vec<u8>, AllocError>
    ensures { IfOk result (λ x. x.items ≡ times spaces 32 ++ content.now) }
{
    let mut line = Vec::new(alloc);
    push_times(&mut line, spaces, b' ')?;
    line.extend_from_slice(content)?;
    Ok(line)
}
