//! Laws of the definitions alone. Each is a function that does nothing; its contract is the law.
ghost use Rattle.std.specs.Prelude.{◌≡◌, ◌≢◌, ◌<◌, ◌+◌, ◌⊎◌, ◌↔◌, ℕ, List, Ok, Err, length};
ghost use Rattle.yaml_scan.specs.declared.fault.Code.TheVariants.{NotUtf8, Structure, Tab};
ghost use Rattle.yaml_scan.specs.declared.fault.Code.{Code};
ghost use Rattle.yaml_scan.specs.declared.line.RawLine.{RawLine};
ghost use Rattle.yaml_scan.specs.declared.fault.Fault.{Fault};
ghost use Rattle.yaml_scan.specs.Lines.{fault, lines};
ghost use Rattle.yaml_tree.specs.declared.node.Node.{Node};
ghost use Rattle.yaml_tree.specs.Spelling.{IsText};
ghost use Rattle.yaml_tree.specs.Tree.{tree};
ghost use Rattle.yaml_tree.specs.declared.piece.Piece.{Piece};
ghost use Rattle.yaml_tree.specs.Grammar.{IsTree};
ghost use Rattle.yaml_laws.specs.Indents.{IsRoot, IsTextByIndent};
ghost use Rattle.yaml_laws.specs.Refused.{EndsInQuotes, GoesOn, HasTree, IsBad, IsFirstLine, IsLineOf, IsTooDeep, MayMove, NoLater, SameLines};

/// A text has a tree, as it is read, exactly where the grammar has it. That 64 nodes at most stand in one another is in the grammar; how
/// long a text may be is asked by `config_of` of `conf_auto`, which takes the tree from here.
pub fn a_text_has_the_tree_of_the_grammar()
    ensures { (text : List ℕ) (root : Node) → (tree text ≡ Ok root) ↔ IsText text root }
{}

/// What follows a text tells no fault that stands before the text's own; and where the text has a tree, only one on a line behind it.
pub fn what_follows_tells_no_earlier_fault()
    ensures refused { (text other : List ℕ) (f g : Fault) → GoesOn text other → tree text ≡ Err f → tree other ≡ Err g → NoLater f g }
    ensures read { (text other : List ℕ) (root : Node) (g : Fault) → GoesOn text other → IsText text root → tree other ≡ Err g → length (lines text) < g.line }
{}

/// A refusal stands whatever follows, but for two codes: C2, since a quote that is open at the end may be closed, and C12, since where a
/// null at the end is one node too deep the node itself may follow.
pub fn a_refusal_stands()
    ensures { (text other : List ℕ) (f : Fault) → GoesOn text other → tree text ≡ Err f → (MayMove f.code → ⊥) → tree other ≡ Err f }
{}

/// What a refusal tells is told by the lines up to its own. No text that has these lines is in the grammar, but where the code is C2; and
/// with codes other than C2 and C12 each such text has this refusal, or for one of these two codes one that does not stand behind it.
pub fn a_refusal_is_told_by_its_lines()
    ensures none { (text other : List ℕ) (f : Fault) (root : Node) → SameLines f.line text other → tree text ≡ Err f → f.code ≢ Structure → IsText other root → ⊥ }
    ensures place { (text other : List ℕ) (f g : Fault) → SameLines f.line text other → tree text ≡ Err f → (MayMove f.code → ⊥) → tree other ≡ Err g
        → (g ≡ f) ⊎ (NoLater g f × MayMove g.code) }
{}

/// The line of a refusal is the first with which no text of the grammar goes on: with the lines before it some text does, if on them no
/// node is too deep. With its own some text may go on too where the code is C2; these lines then end inside a quoted scalar, which begins
/// on the refused one.
pub fn a_refused_line_is_the_first()
    ensures before { (text : List ℕ) (f : Fault) (n : ℕ) → tree text ≡ Err f → f.line ≡ n + 1 → HasTree n text ⊎ IsTooDeep n text }
    ensures first { (text : List ℕ) (f : Fault) (n : ℕ) → tree text ≡ Err f → f.line ≡ n + 1 → f.code ≢ Structure → IsFirstLine text n ⊎ IsTooDeep n text }
    ensures in_quotes { (text : List ℕ) (f : Fault) → tree text ≡ Err f → HasTree f.line text → (f.code ≡ Structure) × EndsInQuotes f.line text }
{}

/// A text has one such first line at most.
pub fn one_first_line()
    ensures { (text : List ℕ) (m n : ℕ) → IsFirstLine text m → IsFirstLine text n → m ≡ n }
{}

/// C1 is told at a line with a tab among its leading blanks, and C13 at one that is not UTF-8; and a text with such a line is refused, for
/// a fault that does not come after it.
pub fn a_line_may_be_refused_for_itself()
    ensures told { (text : List ℕ) (f : Fault) → tree text ≡ Err f → (f.code ≡ Tab) ⊎ (f.code ≡ NotUtf8) → (l : RawLine) × IsLineOf text l × (l.line ≡ f.line) × IsBad f.code l }
    ensures refused { (text : List ℕ) (l : RawLine) (code : Code) → IsLineOf text l → IsBad code l → (f : Fault) × (tree text ≡ Err f) × NoLater f (fault l.line code) }
{}

/// The grammar of blocks on the columns of pieces is the one by the indent of what holds a node, with distinct keys in each map.
pub fn blocks_go_by_their_indent()
    ensures trees { (ps : List Piece) (root : Node) → IsTree ps root ↔ IsRoot ps root }
    ensures texts { (text : List ℕ) (root : Node) → IsText text root ↔ IsTextByIndent text root }
{}
