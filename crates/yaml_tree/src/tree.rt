//! The tree of a text.

ghost use Rattle.std.specs.Prelude.{◌≡◌, ◌<◌, ◌^◌, length, IfOk};
ghost use Rattle.yaml_scan.specs.Answers.{Gives};
ghost use Rattle.std.specs.Prelude.{List};
ghost use Rattle.yaml_scan.specs.declared.fault.YamlFault.{YamlFault};
ghost use Rattle.yaml_tree.specs.declared.node.Node.{Node};
ghost use Rattle.yaml_tree.specs.declared.piece.Piece.{Piece};
ghost use Rattle.yaml_tree.specs.Layout.{Answer, Gives as Laid};
ghost use Rattle.yaml_tree.specs.Spelling.{IsText, IsRead};
ghost use Rattle.yaml_tree.specs.Tree.{tree, faults, judged};

use crate::layout::Layout;
use crate::node::Node;
use crate::pieces::Pieces;
use std::alloc::Global;
use std::collections::VecDeque;
use yaml_scan::{Fault, Lines, YamlFault, least, line_fault, lines, without_start};

/// The tree of a text, or its first fault: the one at the least line, and on that line of the least code.
pub fn read_tree(alloc: Global, text: &[u8]) -> Result<Node, YamlFault>
    requires { length text.now < 2 ^ 32 }
    // What is read is in the grammar, what is in the grammar is read, and each fault is the first one.
    ensures found { IfOk result (λ root. IsText text.now root) }
    ensures only { (root : Node) → IsText text.now root → IsRead result root }
    ensures exact { Gives (tree text.now) result }
{
    tree(alloc, text)
}

fn tree(alloc: Global, text: &[u8]) -> Result<Node, YamlFault>
    requires { length text.now < 2 ^ 32 }
    ensures { Gives (tree text.now) result }
{
    let all = lines(alloc, text)?;
    let mut pieces = Pieces {
        found: Vec::new(alloc),
        lines: Lines::new(without_start(all.as_slice())),
    };
    let in_pieces = pieces.read(alloc)?;
    let mut layout = Layout::new(VecDeque::from_vec(pieces.found));
    let tree = layout.document(alloc);
    judge(line_fault(all.as_slice()), in_pieces, tree)
}

/// The tree, or the least fault of the lines, the pieces and the tree.
fn judge(
    in_lines: Option<Fault>,
    in_pieces: Option<Fault>,
    tree: Result<Node, YamlFault>,
) -> Result<Node, YamlFault>
    ensures { (meant : Answer Node) → (rest : List Piece) → Laid meant tree rest → Gives (judged (faults in_lines in_pieces meant) meant) result }
{
    match tree {
        Err(YamlFault::Memory) => Err(YamlFault::Memory),
        Err(YamlFault::Bad { line, code }) => {
            let laid = Some(Fault { line, code });
            let Some(fault) = least(in_lines, least(in_pieces, laid)) else {
                unreachable!();
            };
            Err(bad(fault))
        }
        Ok(root) => {
            if let Some(fault) = least(in_lines, least(in_pieces, None)) {
                return Err(bad(fault));
            }
            Ok(root)
        }
    }
}

fn bad(fault: Fault) -> YamlFault
    ensures { result ≡ YamlFault.Bad fault.line fault.code }
{
    YamlFault::Bad {
        line: fault.line,
        code: fault.code,
    }
}
