//! The reader of a whole text.

ghost use Rattle.std.specs.Prelude.{◌≡◌, ◌<◌, ◌^◌, length, IfOk};
ghost use Rattle.ha_value.specs.declared.value.Value.{Value};
ghost use Rattle.flow_line.specs.Grammar.{IsDocument};
ghost use Rattle.flow_line.specs.Refused.{Answers, Refuses, Tells};
ghost use Rattle.flow_line.specs.Reading.{document};

use crate::fault::FlowFault;
use crate::value::FlowReader;
use ha_value::Value;
use reading::Stop;
use std::alloc::Global;

/// The value that the whole text is, or the first fault. The text may be any bytes.
pub fn read_value(alloc: Global, text: &[u8]) -> Result<Value, FlowFault>
    requires { length text.now < 2 ^ 32 }
    // What is read is in the grammar.
    ensures found { IfOk result (λ v. IsDocument text.now v) }
    // What is in the grammar is read, unless memory runs out.
    ensures only { (v : Value) → IsDocument text.now v → Answers result v }
    // What is refused has its first fault there.
    ensures refused { Refuses text.now result }
    // Which value or fault it is.
    ensures exact { Tells text.now (document text.now) result }
{
    match FlowReader::new(text).document(alloc) {
        Ok(value) => Ok(value),
        Err(Stop::Memory) => Err(FlowFault::Memory),
        Err(Stop::Fault(bad)) => Err(FlowFault::Bad {
            at: (text.len() - bad.left) as u32,
            code: bad.code,
        }),
    }
}
