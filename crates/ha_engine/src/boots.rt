//! The engine as a core that can be booted.

use crate::engine::Machine;
use crate::reader::Engine;
use ha_boot::Boots;
use ha_clock::Moment;
use ha_config::Config;
use ha_model::Prepare;
use ha_value::{Many, Word};
use std::alloc::{AllocError, Global};

impl<P: Prepare + Drop + Send> Boots for Engine<P> {
    fn boot(
        alloc: Global,
        text: Word,
        config: Config,
        stored: Option<Many<(Word, bool)>>,
        start: Moment,
        zone: Word,
        last: Many<(Word, Moment)>,
        prepare: P,
    ) -> Result<Engine<P>, AllocError> {
        let machine = Machine::boot(alloc, text, config, stored, start, zone, last)?;
        Ok(Engine { machine, prepare })
    }
}
