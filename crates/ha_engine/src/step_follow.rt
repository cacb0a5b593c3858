//! What follows from a step that was pushed: the parts and the records go on to stand for the journal with it.
ghost use Rattle.std.specs.Prelude.{◌≡◌, OnOk, OnErr};
ghost use Rattle.ha_model.specs.Lawful.{Right};
ghost use Rattle.engine_parts.specs.Kept.{Kept};
ghost use Rattle.ha_engine.specs.Named.{AreFirsts};
ghost use Rattle.engine_entry.specs.Stepping.{StepPushed};

use crate::step_conclude::conclude_step;
use engine_entry::step_enter::enter_step;
use engine_entry::step_wake::attend_step;
use engine_parts::parts::Parts;
use ha_clock::Moment;
use ha_sight::{Progress, WaitAsk};
use named_runs::NamedRuns;
use script_step::Held;
use segment_view::Segment;
use std::alloc::{AllocError, Global};

/// A step was pushed. After an error the records are as before, and the parts may only be dropped.
pub(crate) fn follow_step(
    alloc: Global,
    journal: &Segment<'_>,
    runs: &mut NamedRuns,
    parts: &mut Parts,
    progress: Progress,
    wait: Option<Held<WaitAsk>>,
    due: Option<Moment>,
) -> Result<(), AllocError>
    requires pushed { StepPushed journal.now runs.old.list parts.old progress wait due }
    requires named { AreFirsts journal.now runs.old.firsts }
    ensures ok { OnOk result (Right journal.now runs.new.list × Kept journal.now runs.new.list parts.new) }
    ensures err { OnErr result (runs.new.list ≡ runs.old.list) }
    ensures closed { runs.new.closed ≡ runs.old.closed }
    ensures firsts { runs.new.firsts ≡ runs.old.firsts }
{
    let before = enter_step(parts, alloc, journal)?;
    let fired = attend_step(parts, alloc, journal, before, wait, due)?;
    conclude_step(alloc, journal, runs, parts, progress, fired)
}
