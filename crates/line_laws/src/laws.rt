//! Laws of the definitions alone. Each is a function that does nothing; its contract is the law.

ghost use Rattle.std.specs.Prelude.{◌≡◌, ◌↔◌, ℕ, List, [], Ok};
ghost use Rattle.ha_value.specs.declared.value.Value.{Value};
ghost use Rattle.ha_config.specs.Words.{Text, Pairs};
ghost use Rattle.flow_line.specs.Command.{pairs_of};
ghost use Rattle.flow_line.specs.Grammar.{IsDocument};
ghost use Rattle.flow_line.specs.Reading.{document};
ghost use Rattle.line_laws.specs.Lines.{IsLine};

/// A text has a value, as it is read, exactly where the grammar has it (`reads`), and what is read of a text is the whole of it (`whole`).
/// That 32 lists and maps at most stand in one another, that numbers are in range and that keys are distinct is in the grammar.
pub fn a_text_has_the_value_of_the_grammar()
    ensures reads { (text : List ℕ) (value : Value) → (document text ≡ Ok (value, [])) ↔ IsDocument text value }
    ensures whole { (text rest : List ℕ) (value : Value) → document text ≡ Ok (value, rest) → rest ≡ [] }
{}

/// The pairs of which the command of a line is made, as `cmd_of` takes them, are those of the map that the line is: at most 65,536 bytes of
/// UTF-8, which the grammar has as that map.
pub fn a_line_is_a_map_of_the_grammar()
    ensures { (line : Text) (pairs : Pairs) → (pairs_of line ≡ Ok pairs) ↔ IsLine line pairs }
{}
