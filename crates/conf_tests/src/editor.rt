//! Texts of homes as the editor of Home Assistant writes them, in the spelling of today and in the one before. Each is taken as it stands;
//! what is wanted was counted in the text.
use crate::automations::reads;
use ha_config::Mode;

/// The editor, in the spelling of today: what it writes for two automations in `automations.yaml`.
const EDITOR: &str = "- id: '1730000000001'
  alias: Hall light by motion
  description: ''
  triggers:
  - trigger: state
    entity_id:
    - binary_sensor.hall_motion
    from:
    to: 'on'
    for:
      hours: 0
      minutes: 0
      seconds: 2
    id: motion
  - trigger: numeric_state
    entity_id:
    - sensor.hall_lux
    below: 10
    id: dark
    enabled: false
  conditions:
  - condition: time
    after: '18:00:00'
    before: 06:00:00
    weekday:
    - mon
    - tue
    - wed
    - thu
    - fri
  - condition: or
    conditions:
    - condition: state
      entity_id: input_boolean.guests
      state: 'off'
      for:
        hours: 0
        minutes: 5
        seconds: 0
    - condition: numeric_state
      entity_id: sensor.hall_lux
      below: 40
  actions:
  - action: light.turn_on
    metadata: {}
    data:
      brightness_pct: 60
    target:
      entity_id:
      - light.hall
      - light.stairs
  - if:
    - condition: trigger
      id:
      - motion
    then:
    - delay:
        hours: 0
        minutes: 2
        seconds: 0
        milliseconds: 0
    else:
    - stop: Nobody is there.
    alias: Wait for a while
  - action: light.turn_off
    metadata: {}
    data: {}
    target:
      entity_id: light.hall
    enabled: false
  mode: restart
- id: '1730000000002'
  alias: 'Boiler: off at night'
  description: The boiler rests at night.
  triggers:
  - trigger: time
    at: '23:00:00'
  conditions: []
  actions:
  - action: switch.turn_off
    metadata: {}
    data: {}
    target:
      entity_id: switch.boiler
  mode: queued
  max: 5
  max_exceeded: silent
  initial_state: true
  trace:
    stored_traces: 10
";

#[test]
fn the_editor_of_today(rt: HostRuntime) {
    let rows = [
        ("hall_light_by_motion", Mode::Restart, 10, (1, 2, 2)),
        ("boiler_off_at_night", Mode::Queued, 5, (1, 0, 1)),
    ];
    assert!(rt; reads(rt.alloc(), EDITOR, &rows));
}

/// The editor before: `trigger`, `condition` and `action` as lists of `platform` and `service`.
const EDITOR_BEFORE: &str = "- id: '1600000000001'
  alias: Door left open
  description: ''
  trigger:
  - platform: state
    entity_id: binary_sensor.door
    from: 'off'
    to: 'on'
    for:
      hours: 0
      minutes: 10
      seconds: 0
      milliseconds: 0
  condition: []
  action:
  - service: notify.mobile_app_phone
    data:
      message: The door is open.
      title: ''
  - wait_for_trigger:
    - platform: state
      entity_id: binary_sensor.door
      to: 'off'
    timeout: 00:30:00
    continue_on_timeout: false
  - service: notify.mobile_app_phone
    data:
      message: The door is closed again.
  mode: single
- id: '1600000000002'
  alias: Door left open
  description: ''
  trigger:
  - platform: time_pattern
    minutes: /5
  condition:
  - condition: state
    entity_id: binary_sensor.door
    state: 'on'
  action:
  - service: light.toggle
    target:
      entity_id: light.porch
    data: {}
  mode: single
";

#[test]
fn the_editor_before(rt: HostRuntime) {
    let rows = [
        ("door_left_open", Mode::Single, 10, (1, 0, 3)),
        ("door_left_open_2", Mode::Single, 10, (1, 1, 1)),
    ];
    assert!(rt; reads(rt.alloc(), EDITOR_BEFORE, &rows));
}
