//! What the texts of reloads are read by.
ghost use Rattle.std.specs.Prelude.{◌≡◌, ℕ, List, Option, IfOk, IfSome};
ghost use Rattle.ha_config.specs.declared.config.Config.{Config as Configuration};
ghost use Rattle.ha_config.specs.Sound.{IsSoundConfig};

use ha_config::Config;
use ha_value::Word;
use std::alloc::{AllocError, Global};

/// Reads the text of a configuration. What a text is read as is told by the type, and so shared by all its values.
pub trait Prepare {
    /// The configuration that a text is read as, if it is one.
    ghost reads: { List ℕ → Option Configuration };

    /// The configuration that the text is; none exactly where it is no configuration.
    fn read(&self, alloc: Global, text: &Word) -> Result<Option<Config>, AllocError>
        ensures value { IfOk result (λ made. made ≡ reads text.now) }
        ensures sound { IfOk result (λ made. IfSome made (λ config. IsSoundConfig config)) };
}
