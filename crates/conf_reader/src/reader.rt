//! What the texts of reloads are read by.
ghost use Rattle.conf_auto.specs.Config.{config_in};

use conf_auto::read_config;
use ha_config::Config;
use ha_model::Prepare;
use ha_value::Word;
use sound_laws::laws::what_is_read_is_sound;
use std::alloc::{AllocError, Global};
use yaml_scan::YamlFault;

/// Reads the text of a configuration, and does not tell why one is refused.
#[derive(Drop)]
pub struct Reader;

impl Prepare for Reader {
    ghost reads = { config_in };

    fn read(&self, alloc: Global, text: &Word) -> Result<Option<Config>, AllocError> {
        what_is_read_is_sound();
        match read_config(alloc, text.bytes()) {
            Ok(config) => Ok(Some(config)),
            Err(YamlFault::Bad { .. }) => Ok(None),
            Err(YamlFault::Memory) => Err(AllocError),
        }
    }
}
