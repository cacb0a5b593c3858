//! The reader of a whole template.

ghost use Rattle.std.specs.Prelude.{◌<◌, ◌^◌, length, IfOk};
ghost use Rattle.ha_config.specs.declared.template.Template.{Template};
ghost use Rattle.tpl_parse.specs.Grammar.{Answers, IsTemplate};
ghost use Rattle.tpl_parse.specs.Pieces.{template};
ghost use Rattle.tpl_parse.specs.Refused.{Stops};
ghost use Rattle.tpl_parse.specs.Tells.{Tells};

use crate::fault::ParseFault;
use crate::parser::Parser;
use ha_config::Template;
use reading::Stop;
use std::alloc::Global;

/// The tree of a template's text, or the place of the first byte at which no reading goes on. The text may be any bytes.
pub fn parse(alloc: Global, text: &[u8]) -> Result<Template, ParseFault>
    requires { length text.now < 2 ^ 32 }
    ensures found { IfOk result (λ tree. IsTemplate text.now tree) }
    ensures only { (tree : Template) → IsTemplate text.now tree → Answers result tree }
    // No template begins with what stands up to the place of a refusal and the byte there.
    ensures stops { Stops text.now result }
    ensures exact { Tells text.now (template text.now) result }
{
    match Parser::new(text).template(alloc) {
        Ok(template) => Ok(template),
        Err(Stop::Memory) => Err(ParseFault::Memory),
        Err(Stop::Fault(bad)) => Err(ParseFault::At((text.len() - bad.left) as u32)),
    }
}
