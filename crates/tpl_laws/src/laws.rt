//! Laws of the definitions. Each is the contract of a function that does nothing.

ghost use Rattle.std.specs.Prelude.{◌≡◌, ◌⊎◌, ◌↔◌, ℕ, List, [], Result, Ok};
ghost use Rattle.ha_config.specs.declared.template.Template.{Template};
ghost use Rattle.tpl_parse.specs.declared.fault.ParseFault.{ParseFault};
ghost use Rattle.tpl_parse.specs.Grammar.{IsTemplate};
ghost use Rattle.tpl_parse.specs.Pieces.{template};
ghost use Rattle.tpl_parse.specs.Refused.{IsFirstFault};
ghost use Rattle.tpl_parse.specs.Tells.{Tells};
ghost use Rattle.tpl_laws.specs.Refused.{IsRefusedAt, Refuses};

/// A text has a tree, as it is read, exactly where the grammar has it (`reads`), and what is read of a text is the whole of it (`whole`).
/// The depth of expressions, the range of numbers and the numbers of arguments are in the grammar; that a template of a configuration has
/// at most 16,384 bytes is asked by `conf_field`, whose `template_of` takes the tree from here, whatever is left.
pub fn a_text_has_the_tree_of_the_grammar()
    ensures reads { (text : List ℕ) (tree : Template) → (template text ≡ Ok (tree, [])) ↔ IsTemplate text tree }
    ensures whole { (text rest : List ℕ) (tree : Template) → template text ≡ Ok (tree, rest) → rest ≡ [] }
{}

/// Where `template` refuses a text, it is at the first fault: what stands before the place goes on to a text of the grammar, and
/// with the byte at the place none does. A text that has a first fault is refused there, and each text is one of the grammar or has
/// a first fault.
pub fn refusals(text: &[u8])
    ensures place { (at : ℕ) → IsRefusedAt text.now at → IsFirstFault text.now at }
    ensures told { (at : ℕ) → IsFirstFault text.now at → IsRefusedAt text.now at }
    ensures either { ((tree : Template) × IsTemplate text.now tree) ⊎ ((at : ℕ) × IsFirstFault text.now at) }
{}

/// What `parse` answers tells what `template` gives of the text, by its clause `exact`. So the place of each answer is the first
/// fault, unless memory ran out.
pub fn answers(text: &[u8])
    ensures refused { (result : Result Template ParseFault) → Tells text.now (template text.now) result → Refuses text.now result }
{}
