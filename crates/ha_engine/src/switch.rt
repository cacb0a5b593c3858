//! A line that turns an automation on or off.
ghost use Rattle.std.specs.Prelude.{◌≡◌, ◌&&◌, ◌≤◌, IsTrue, Some, OnOk, OnErr, not, length};
ghost use Rattle.ha_config.specs.declared.command.Cmd as cmd;
ghost use Rattle.ha_journal.specs.Commands.{has_automation};
ghost use Rattle.ha_journal.specs.Journal.{in_force};
ghost use Rattle.ha_model.specs.Lawful.{Right};
ghost use Rattle.ha_config.specs.Names.{named_among};
ghost use Rattle.engine_parts.specs.Kept.{Kept};
ghost use Rattle.engine_parts.specs.Numbers.{numbers_in};
ghost use Rattle.ha_engine.specs.Named.{AreFirsts};
ghost use Rattle.engine_parts.specs.Stages.{PushedAs};

use crate::conclude::{make_room, settle};
use crate::prepare::prepare;
use crate::stop::stop_named_if;
use engine_entry::names::number_named;
use engine_entry::turn::enter_switches;
use engine_parts::attend::attend;
use engine_parts::parts::Parts;
use ha_value::{Many, Word};
use named_runs::NamedRuns;
use segment_view::Segment;
use std::alloc::{AllocError, Global};

/// The number of the automation that a line names.
fn number_of(journal: &Segment<'_>, numbers: &Many<u32>, name: &Word) -> u32
    requires numbers { numbers.now ≡ numbers_in journal.now }
    requires named { IsTrue (has_automation journal.now name.now) }
    ensures { named_among (in_force journal.now) name.now ≡ Some result }
{
    match number_named(journal.configuration(), numbers, name) {
        Some(automation) => automation,
        None => unreachable!(),
    }
}

/// Whether its runs are ended: it is turned off, with stop.
pub(crate) fn ends_runs(on: bool, stop: bool) -> bool
    ensures { result ≡ (not on && stop) }
{
    !on && stop
}

/// A line that turns the automation of this name on or off. After an error the records are as before, and the parts may only be dropped.
pub(crate) fn follow_switch(
    alloc: Global,
    journal: &Segment<'_>,
    runs: &mut NamedRuns,
    parts: &mut Parts,
    name: &Word,
    on: bool,
    stop: bool,
) -> Result<(), AllocError>
    requires pushed { PushedAs (cmd.Cmd.Switch name.now on stop) journal.now runs.old.list parts.old }
    requires named { AreFirsts journal.now runs.old.firsts }
    ensures ok { OnOk result (Right journal.now runs.new.list × Kept journal.now runs.new.list parts.new) }
    ensures err { OnErr result (runs.new.list ≡ runs.old.list) }
    ensures closed { runs.new.closed ≡ runs.old.closed }
    ensures firsts { runs.new.firsts ≡ runs.old.firsts }
{
    let automation = number_of(journal, &parts.numbers, name);
    let before = enter_switches(parts, alloc, journal, &[(automation, on, stop)])?;
    let fired = attend(parts, alloc, journal, before)?;
    let stack = prepare(alloc, &*journal, parts, fired)?;
    make_room(runs, parts, stack.len())?;
    let stops = ends_runs(on, stop);
    stop_named_if(stops, runs, parts, automation, journal.place());
    settle(alloc, journal, runs, parts, stack);
    Ok(())
}
