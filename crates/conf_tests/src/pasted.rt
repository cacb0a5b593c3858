//! Texts of homes as the documentation of Home Assistant shows them, in the spelling of today and in the one before. Each is taken as it
//! stands; what is wanted was counted in the text.
use crate::automations::{are_refused, reads};
use ha_config::Mode;

/// The page on triggers: each kind that is taken, most with comments and keys as the page has them.
const TRIGGERS: &str = "# Automation triggers
automation:
  - alias: \"Triggers\"
    triggers:
      # State trigger
      - trigger: state
        entity_id:
          - device_tracker.paulus
          - device_tracker.anne_therese
        # Optional
        from: \"not_home\"
        # Optional
        to: \"home\"
        # If given, will trigger when the condition has been true for X time
        for: \"01:10:05\"
      - trigger: state
        entity_id: climate.kitchen
        attribute: hvac_action
      - trigger: state
        entity_id: vacuum.test
        not_to:
          - \"unknown\"
          - \"unavailable\"
      # Numeric state trigger
      - trigger: numeric_state
        entity_id:
          - sensor.temperature
          - sensor.outside
        # At least one of the following required
        above: 17
        below: 25
        for:
          minutes: 10
      # Event trigger
      - trigger: event
        event_type: \"MY_CUSTOM_EVENT\"
        # optional
        event_data:
          mood: happy
          count: 2
      - trigger: event
        event_type:
          - automation_reloaded
          - scene_reloaded
      # Home Assistant trigger
      - trigger: homeassistant
        event: start
      # Template trigger
      - trigger: template
        value_template: \"{% if is_state('device_tracker.paulus', 'home') %}true{% endif %}\"
        for: \"00:00:30\"
      # Time trigger
      - trigger: time
        at:
          - \"15:32:00\"
          - \"20:30\"
      # Time pattern trigger
      - trigger: time_pattern
        # Matches every 5 minutes
        minutes: \"/5\"
        id: \"every_five\"
        enabled: false
    actions:
      - action: light.turn_on
        target:
          entity_id: light.living_room
";

/// The same kinds before: `platform`, and `trigger` with one trigger that is no list.
const TRIGGERS_BEFORE: &str = "automation:
  alias: Exterior humidity
  trigger:
    platform: numeric_state
    entity_id: sensor.temperature
    above: 17
  condition:
    condition: template
    value_template: '{{ trigger.to_state.state | float(0) < 30 }}'
  action:
    service: homeassistant.turn_on
    entity_id: switch.fan, switch.vent
";

#[test]
fn the_page_on_triggers(rt: HostRuntime) {
    let alloc = rt.alloc();
    assert!(rt;
        reads(
            alloc,
            TRIGGERS,
            &[("triggers", Mode::Single, 10, (9, 0, 1))]
        ) && reads(
            alloc,
            TRIGGERS_BEFORE,
            &[("exterior_humidity", Mode::Single, 10, (1, 1, 1))]
        )
    );
}

/// The page on conditions: each kind that is taken, and the short forms.
const CONDITIONS: &str = "# Automation conditions
automation:
  - alias: \"Turn on office lights\"
    triggers:
      - trigger: state
        entity_id: sensor.office_motion_sensor
        to: \"on\"
        id: event_trigger
    conditions:
      - alias: \"Paulus not home AND temperature below 20\"
        and:
          - condition: state
            entity_id: device_tracker.paulus
            state: \"not_home\"
          - condition: numeric_state
            entity_id: sensor.temperature
            below: 20
      - or:
          - condition: numeric_state
            entity_id: sensor.office_lux_sensor
            above: 17
            below: 25
          - condition: state
            entity_id:
              - light.kitchen
              - light.living_room
            state:
              - \"on\"
              - \"standby\"
            for:
              hours: 1
              minutes: 10
              seconds: 5
      - not:
          - condition: state
            entity_id: alarm_control_panel.home_alarm
            state: disarmed
      # At least one of the following is required.
      - condition: time
        after: \"15:00:00\"
        before: \"02:00:00\"
        weekday:
          - mon
          - wed
          - fri
      - condition: trigger
        id: event_trigger
      - \"{{ state_attr('sun.sun', 'elevation') | int(0) < 4 }}\"
      - enabled: false
        condition: state
        entity_id: sun.sun
        state: \"above_horizon\"
    actions:
      - action: scene.turn_on
        target:
          entity_id: scene.office_lights
";

#[test]
fn the_page_on_conditions(rt: HostRuntime) {
    let rows = [("turn_on_office_lights", Mode::Single, 10, (1, 6, 1))];
    assert!(rt; reads(rt.alloc(), CONDITIONS, &rows));
}

/// The page on the syntax of scripts: each kind of action that is taken.
const ACTIONS: &str = "# Script syntax
automation:
  - alias: \"Actions\"
    triggers: []
    mode: parallel
    max: 3
    actions:
      - alias: \"Bedroom lights on\"
        action: light.turn_on
        target:
          entity_id: group.bedroom
        data:
          brightness: 100
      - variables:
          people:
            - device_tracker.paulus
            - device_tracker.anne_therese
          blind_state_message: \"The blind is {{ states('cover.blind') }}.\"
      - delay: \"01:00\"
      - delay: \"00:01:30\"
      - delay:
          minutes: \"{{ states('input_number.minute_delay') | int }}\"
      # Continue script after timeout
      - alias: \"Wait until living room is empty\"
        wait_template: \"{{ is_state('binary_sensor.living_room', 'off') }}\"
        timeout: \"00:01:00\"
        continue_on_timeout: true
      - alias: \"Wait for MY_EVENT or light on\"
        wait_for_trigger:
          - trigger: event
            event_type: MY_EVENT
          - trigger: state
            entity_id: light.light
            to: \"on\"
            for: 10
        timeout:
          minutes: 1
      - if: \"{{ not wait.completed }}\"
        then:
          - action: script.door_did_not_open
        else:
          - action: script.turn_on
            target:
              entity_id:
                - script.door_did_open
                - script.play_fanfare
      - event: LOGBOOK_ENTRY
        event_data:
          name: Paulus
          message: is waking up
          entity_id: device_tracker.paulus
      - repeat:
          count: \"{{ [states('input_number.times') | int(1), 5] | first }}\"
          sequence:
            - action: light.toggle
              target:
                entity_id: light.light
      - repeat:
          for_each:
            - \"living_room\"
            - \"kitchen\"
            - language: English
              message: Hello World
          sequence:
            - action: light.turn_off
              target:
                entity_id: \"light.{{ repeat.item }}\"
      - alias: \"Repeat the sequence AS LONG AS the conditions are true\"
        repeat:
          while:
            - condition: state
              entity_id: input_boolean.do_something
              state: \"on\"
            # Don't do it too many times
            - condition: template
              value_template: \"{{ repeat.index <= 20 }}\"
          sequence:
            - action: script.something
      - repeat:
          sequence:
            # Run command that for some reason doesn't always work
            - action: shell_command.turn_something_on
            # Give it time to complete
            - delay:
                milliseconds: 200
          until:
            # Did it work?
            - condition: state
              entity_id: binary_sensor.something
              state: \"on\"
      - choose:
          # IF morning
          - conditions:
              - condition: template
                value_template: \"{{ states('sensor.part_of_day') == 'morning' }}\"
            sequence:
              - action: script.turn_on
                target:
                  entity_id: script.slow_front_lights
          # ELIF day
          - alias: \"Day\"
            conditions: >
              {{ is_state('sensor.part_of_day', 'day') and
                 is_state('binary_sensor.all_clear', 'on') }}
            sequence:
              - stop: \"Nothing to do\"
        # ELSE
        default:
          - action: light.turn_off
            target:
              entity_id: light.front_lights
      - parallel:
          - action: notify.person1
            data:
              message: \"These messages are sent at the same time!\"
          - sequence:
              - wait_for_trigger:
                  - trigger: state
                    entity_id: binary_sensor.motion
                    to: \"on\"
              - action: notify.person2
                data:
                  message: \"This message awaited the motion trigger\"
      - alias: \"If this one fails...\"
        continue_on_error: true
        action: notify.super_unreliable_service_provider
        data:
          message: \"I'm going to error out...\"
      - enabled: false
        alias: \"This action will not run\"
        action: notify.notify
      - stop: \"Stop running the rest of the sequence\"
        error: true
";

#[test]
fn the_page_on_the_syntax_of_scripts(rt: HostRuntime) {
    assert!(rt;
        reads(
            rt.alloc(),
            ACTIONS,
            &[("actions", Mode::Parallel, 3, (0, 0, 17))]
        )
    );
}

#[test]
fn what_is_pasted_and_not_taken(rt: HostRuntime) {
    let rows = [
        // The editor, with a device's trigger.
        (
            "- alias: A\n  triggers:\n  - type: opened\n    device_id: a1\n    entity_id: b2\n    domain: binary_sensor\n    trigger: device\n  actions: []\n",
            7,
            14,
        ),
        // The editor, with an area as the target.
        (
            "- alias: A\n  triggers: []\n  actions:\n  - action: light.turn_on\n    target:\n      area_id: kitchen\n    data: {}\n",
            6,
            5,
        ),
        // The page on triggers, sunset.
        (
            "- triggers:\n    - trigger: sun\n      event: sunset\n      offset: \"-01:00:00\"\n  actions: []\n",
            2,
            14,
        ),
        // The page on the syntax of scripts, a scene.
        (
            "- triggers: []\n  actions:\n    - scene: scene.morning_living_room\n",
            3,
            14,
        ),
        // The page on secrets.
        (
            "- triggers: []\n  actions:\n    - action: notify.x\n      data:\n        key: !secret api_key\n",
            5,
            3,
        ),
        // The page on templates.
        (
            "- triggers:\n    - trigger: template\n      value_template: \"{{ now().hour > 7 }}\"\n  actions: []\n",
            3,
            11,
        ),
        (
            "- triggers: []\n  conditions: \"{{ states.light.hall.state == 'on' }}\"\n  actions: []\n",
            2,
            11,
        ),
    ];
    assert!(rt; are_refused(rt.alloc(), &rows));
}
