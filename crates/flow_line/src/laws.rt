//! Laws of the definitions. Each is the contract of a function that does nothing.

ghost use Rattle.std.specs.Prelude.{◌≡◌, ◌≤◌, ℕ, [], IsTrue, Ok};
ghost use Rattle.ha_config.specs.ValueFacts.{has_utf8_texts, is_sound_value};
ghost use Rattle.ha_config.specs.ValueText.{depth_of, print_value};
ghost use Rattle.flow_line.specs.Grammar.{IsDocument};
ghost use Rattle.flow_line.specs.Reading.{document};
ghost use Rattle.flow_line.specs.Refused.{IsFirstFault};
ghost use Rattle.flow_line.specs.declared.fault.Code.{Code};

use ha_value::Value;

/// What is printed of a value is read as that value: of a value that is nested at most 32 deep, whose numbers are in range,
/// whose maps have distinct keys, and whose texts are UTF-8.
pub fn printed_value_is_read(value: &Value)
    requires deep { depth_of value.now ≤ 32 }
    requires sound { IsTrue (is_sound_value value.now) }
    requires utf8 { IsTrue (has_utf8_texts value.now) }
    ensures spelled { IsDocument (print_value value.now) value.now }
    ensures read { document (print_value value.now) ≡ Ok (value.now, []) }
{}

/// Two first faults of a text have the same place and the same code.
pub fn one_first_fault(text: &[u8])
    ensures place { (p q : ℕ) (c d : Code) → IsFirstFault text.now p c → IsFirstFault text.now q d → p ≡ q }
    ensures code { (p q : ℕ) (c d : Code) → IsFirstFault text.now p c → IsFirstFault text.now q d → c ≡ d }
{}
