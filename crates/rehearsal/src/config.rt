//! The configuration of a rehearsal.
ghost use Rattle.std.specs.Prelude.{◌≡◌, IfOk};
ghost use Rattle.rehearsal.specs.Generated.{config_text};

use ha_value::Word;
use std::alloc::{AllocError, Global};

const CONFIG: &str = "automation:
  - alias: Even
    triggers:
      - trigger: numeric_state
        entity_id: sensor.s0
        above: 50
    actions:
      - action: fan.turn_on
        target:
          entity_id: fan.f0
      - delay: 60
      - action: fan.turn_off
        target:
          entity_id: fan.f0
    mode: restart
  - alias: Odd
    triggers:
      - trigger: state
        entity_id: sensor.s1
    actions:
      - repeat:
          count: 2
          sequence:
            - action: notify.log
              data:
                value: \"{{ trigger.to_state.state }}\"
    mode: queued
    max: 3
";

/// The text of the configuration: the automation `Even` in mode restart with a delay of 60 seconds, which runs where `sensor.s0` goes above
/// 50, and the automation `Odd` in mode queued, which calls twice at each report of `sensor.s1`.
#[tactic(auto, unfolding(crate::specs::Generated::config_text))]
pub fn rehearse_config(alloc: Global) -> Result<Word, AllocError>
    ensures { IfOk result (λ text. text ≡ config_text) }
{
    Word::from_str(alloc, CONFIG)
}
