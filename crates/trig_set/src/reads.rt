//! What the templates of triggers read.
ghost use Rattle.std.specs.Prelude.{◌≡◌, IfOk};
ghost use Rattle.std.specs.List.{list_any};
ghost use Rattle.std.specs.Option.{option_copied};
ghost use Rattle.event_bus.specs.Subjects.{read_of};
ghost use Rattle.ha_sight.specs.Rules.{is_template};
ghost use Rattle.trig_set.specs.Reads.{AreRead, read_at as read_at_lem};

use ha_config::{Trigger, TriggerRule};
use ha_value::{EntityId, Many};
use std::alloc::{AllocError, Global};
use tpl_reads::entities_read;

/// Whether a rule has a template.
fn is_template(rule: &TriggerRule) -> bool
    ensures { result ≡ is_template rule.now }
{
    match rule {
        TriggerRule::Template(_) => true,
        TriggerRule::State { .. }
        | TriggerRule::Numeric { .. }
        | TriggerRule::Event { .. }
        | TriggerRule::Time(_)
        | TriggerRule::Pattern { .. }
        | TriggerRule::Start => false,
    }
}

/// Whether one of these triggers has a template.
fn has_template(triggers: &[Trigger]) -> bool
    ensures { result ≡ list_any (λ t. is_template t.rule) triggers.now }
{
    triggers.iter().any(|trigger| is_template(&trigger.rule))
}

/// The entities that the template of a rule reads, where it has one and they are known.
fn read_by(alloc: Global, rule: &TriggerRule) -> Result<Option<Many<EntityId>>, AllocError>
    ensures { IfOk result (λ read. read ≡ read_of rule.now) }
{
    match rule {
        TriggerRule::Template(template) => entities_read(alloc, template),
        _ => Ok(None),
    }
}

/// The same, of each of these triggers.
fn read_each(
    alloc: Global,
    triggers: &[Trigger],
) -> Result<Many<Option<Many<EntityId>>>, AllocError>
    ensures { IfOk result (λ reads. AreRead triggers.now reads) }
{
    let mut reads = Many::make(alloc);
    for place in 0..triggers.len() {
        let read = read_by(alloc, &triggers[place].rule)?;
        reads.push(read)?;
    }
    Ok(reads)
}

/// The same; nothing is kept where no trigger has a template.
pub fn reads_of(
    alloc: Global,
    triggers: &Many<Trigger>,
) -> Result<Many<Option<Many<EntityId>>>, AllocError>
    ensures { IfOk result (λ reads. AreRead triggers.now reads) }
{
    let list = triggers.as_slice();
    if has_template(list) {
        read_each(alloc, list)
    } else {
        Ok(Many::make(alloc))
    }
}

/// What a list has at a place, if it is so long.
pub fn read_at(reads: &Many<Option<Many<EntityId>>>, place: usize) -> Option<&Many<EntityId>>
    ensures { option_copied result ≡ read_at_lem reads.now place }
{
    match reads.get(place) {
        Some(read) => read.as_ref(),
        None => None,
    }
}
