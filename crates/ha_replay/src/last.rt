//! What a source's next line has to be.
ghost use Rattle.std.specs.Prelude.{◌≡◌, ◌<◌, ◌^◌, ◌∷◌, [], None, IfSome, count_by, false, length, true};
ghost use Rattle.std.specs.List.{list_any};
ghost use Rattle.ha_model.specs.Records.{Records};
ghost use Rattle.ha_model.specs.Lawful.{is_line_of, shuts};
ghost use Rattle.ha_whole.specs.Whole.{Lawful};
ghost use Rattle.ha_config.specs.Helpers.{is_helper};
ghost use Rattle.ha_config.specs.Words.{same};
ghost use Rattle.ha_journal.specs.Journal.{helpers};
ghost use Rattle.ha_replay.specs.Steps.{is_named as is_named_lem, line_by as line_by_lem};

use ha_config::{Automation, Cmd, is_helper, same_text};
use ha_journal::Entry;
use ha_value::{EntityId, Word};
use ha_whole::Core;

/// The number of the next line of a source, by its last one; none where that one shuts the source.
pub(crate) fn next_number(journal: &[Entry], source: u32) -> Option<u64>
    requires lawful { (rs : Records) × Lawful journal.now rs }
    requires size { length journal.now < 2 ^ 64 }
    ensures next { IfSome result (λ n. (n ≡ count_by (is_line_of source) journal.now) × (list_any (shuts source) journal.now ≡ false)) }
    ensures shut { result ≡ None → list_any (shuts source) journal.now ≡ true }
{
    for i in 0..journal.len() {
        let entry = &journal[journal.len() - 1 - i];
        if let Some((number, shuts)) = line_by(entry, source) {
            return if shuts { None } else { Some(number + 1) };
        }
    }
    Some(0)
}

/// The number of a source's line, and whether it shuts the source.
fn line_by(entry: &Entry, source: u32) -> Option<(u64, bool)>
    ensures { result ≡ line_by_lem source entry.now }
{
    match entry {
        Entry::Line {
            source: of,
            number,
            cmd,
        } => {
            if *of == source {
                Some((*number, matches!(cmd, Cmd::Lost | Cmd::TooLong)))
            } else {
                None
            }
        }
        Entry::Boot { .. } | Entry::Step { .. } | Entry::Again { .. } => None,
    }
}

fn has_automation(all: &[Automation], name: &Word) -> bool
    ensures { result ≡ list_any (λ a. same a.name name.now) all.now }
{
    all.iter()
        .any(|automation| same_text(&automation.name, name))
}

/// Whether an id is that of a helper that begins with this entry, as the first of a journal.
fn helps_here(entry: &Entry, entity: &EntityId) -> bool
    ensures { result ≡ is_helper (helpers (entry.now ∷ [])) entity.now }
{
    match entry {
        Entry::Boot { config, .. } => is_helper(config.helpers.as_slice(), entity),
        Entry::Line { .. } | Entry::Step { .. } | Entry::Again { .. } => false,
    }
}

/// Whether an id is that of a helper: a reload brings none, those of the boot stay.
fn is_first_helper(journal: &[Entry], entity: &EntityId) -> bool
    ensures { result ≡ is_helper (helpers journal.now) entity.now }
{
    match journal.first() {
        Some(entry) => helps_here(entry, entity),
        None => false,
    }
}

/// The same of a core's.
fn is_of_helper<C: Core>(core: &C, entity: &EntityId) -> bool
    ensures { result ≡ is_helper (helpers (C.entries core.now)) entity.now }
{
    is_first_helper(core.journal(), entity)
}

/// Whether the automation that a command names, if it names one, is there, and the entity that it reports is no helper.
pub(crate) fn is_named<C: Core>(core: &C, cmd: &Cmd) -> bool
    ensures { result ≡ is_named_lem (C.entries core.now) cmd.now }
{
    let all = core.config().automations.as_slice();
    match cmd {
        Cmd::Switch { name, .. } => has_automation(all, name),
        Cmd::Trigger { name, .. } => has_automation(all, name),
        Cmd::Report { entity, .. } => !is_of_helper(core, entity),
        Cmd::Gone { entity } => !is_of_helper(core, entity),
        _ => true,
    }
}
