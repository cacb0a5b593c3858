//! What is wrong with a scalar, flow or key.

ghost use Rattle.std.specs.Prelude.{◌≡◌, ℕ, List, false};
ghost use Rattle.yaml_scan.specs.Answers.{Reads, Reading};
ghost use Rattle.yaml_scan.specs.declared.line.RawLine.{RawLine};
ghost use Rattle.yaml_tree.specs.Leaves.{ReadsLeaf, scalar};
ghost use Rattle.yaml_tree.specs.declared.leaf.Trouble.TheVariants.{Memory};
ghost use Rattle.yaml_tree.specs.declared.leaf.Trouble.{Trouble};

use crate::node::{Node, scalar_node};
use std::alloc::{AllocError, AllocFailed, Global};
use yaml_scan::{Code, Fault, RawText, YamlFault};

/// A fault, and whether what it is begins as what the profile leaves out.
#[derive(Clone, Copy, Debug, PartialEq, Eq)]
pub struct Wrong {
    pub fault: Fault,
    pub left_out: bool,
}

/// Something wrong, or no memory.
#[derive(Debug, Drop)]
pub enum Trouble {
    Memory,
    Bad(Wrong),
}

impl From<AllocError> for Trouble {
    ghost from_gives = { λ _ e. e ≡ Memory };

    fn from(_e: AllocError) -> Trouble {
        Trouble::Memory
    }
}

impl<T: Drop> From<AllocFailed<T>> for Trouble {
    ghost from_gives = { λ _ e. e ≡ Memory };

    fn from(_e: AllocFailed<T>) -> Trouble {
        Trouble::Memory
    }
}

pub(crate) fn wrong_of(line: u32, code: Code, left_out: bool) -> Wrong
    ensures { result ≡ record { fault = record { line = line; code = code }; left_out = left_out } }
{
    Wrong {
        fault: Fault { line, code },
        left_out,
    }
}

pub(crate) fn refused(line: u32, code: Code, left_out: bool) -> Trouble
    ensures { result ≡ Trouble.Bad (record { fault = record { line = line; code = code }; left_out = left_out }) }
{
    Trouble::Bad(wrong_of(line, code, left_out))
}

/// The leaf of a scalar's text that was read.
pub(crate) fn scalar_leaf(
    alloc: Global,
    line: u32,
    plain: bool,
    text: Result<RawText, YamlFault>,
) -> Result<(Node, u32), Trouble>
    ensures { (meant : Reading (List ℕ)) → (behind : List RawLine) → Reads meant text behind → ReadsLeaf (scalar line plain meant) result behind }
{
    match text {
        Err(YamlFault::Memory) => Err(Trouble::Memory),
        Err(YamlFault::Bad { line, code }) => Err(refused(line, code, false)),
        Ok(text) => {
            let node = scalar_node(alloc, line, text.bytes(), plain)?;
            Ok((node, 1))
        }
    }
}
