//! Laws of the definitions alone. Each is a function that does nothing; its contract is the law.
ghost use Rattle.std.specs.Prelude.{ℕ, ◌≡◌, ◌⊎◌};
ghost use Rattle.ha_config.specs.Words.{Text};
ghost use Rattle.ha_journal.specs.Journal.{Journal};
ghost use Rattle.ha_model.specs.Records.{Records};
ghost use Rattle.ha_journal.specs.EntryText.{error_text};
ghost use Rattle.ha_status.specs.declared.status.Status.{Status};
ghost use Rattle.ha_status.specs.Causes.{OneRose};
ghost use Rattle.ha_words.specs.declared.plan.RunWords.{RunWords};
ghost use Rattle.trace_laws.specs.Tells.{IsTraceOf};
ghost use Rattle.replay_file.specs.Judged.{AreErrorsTaken, IsTaken};
ghost use Rattle.ha_top.specs.Views.{Before, After};
ghost use Rattle.ha_top.specs.Answered.{Answered};
ghost use Rattle.ha_top.specs.Program.{Checked, Rehearsed, Replayed};
ghost use Rattle.top_laws.specs.Traced.{IsHeld, IsPlayedAgain, IsTraced, IsTraceHeld};
ghost use Rattle.top_laws.specs.Unhindered.{IsUnhinderedCheck, IsUnhinderedRehearsal, IsUnhinderedReplay, IsUnhinderedRun, IsWellReplay};
ghost use Rattle.ha_whole.specs.Trace.{call_text};

/// Where nothing hinders a command, it ends well, but for want of memory: a run whose configuration
/// is taken, whose store is none or a store's text, whose place, sinks, keeper and sources did not
/// fail, whose sources keep within their bound and whose journal has room for one put more, a restart
/// too; a check of a file that is a configuration, a replay of a file that is the trace of a finished
/// run, and a rehearsal whose journal has room, where nothing failed.
pub fn what_nothing_hinders_ends_well()
    ensures run { (words : RunWords) (b : Before) (a : After) → Answered words b a → IsUnhinderedRun words b a
        → (a.status ≡ Status.Ok) ⊎ (a.status ≡ Status.Memory) }
    ensures check { (name : Text) (b : Before) (a : After) → Checked name b a → IsUnhinderedCheck name b a
        → (a.status ≡ Status.Ok) ⊎ (a.status ≡ Status.Memory) }
    ensures replay { (name : Text) (b : Before) (a : After) → Replayed name b a → IsUnhinderedReplay name b a
        → (a.status ≡ Status.Ok) ⊎ (a.status ≡ Status.Memory) }
    ensures rehearse { (lines : ℕ) (b : Before) (a : After) → Rehearsed lines b a → IsUnhinderedRehearsal lines b a
        → (a.status ≡ Status.Ok) ⊎ (a.status ≡ Status.Memory) }
{}

/// What `run` writes as its trace, `replay` takes: the trace of a run that came to its end is the
/// whole trace of its journal. A replay of a file that is the trace of a finished run writes, where
/// it ends well, the calls and the errors of that run. So a replay of what a run wrote as its trace,
/// which nothing hinders, ends well, but for want of memory, and writes the calls and the errors that
/// the run wrote.
pub fn a_run_is_replayed()
    ensures traced { (words : RunWords) (b : Before) (a : After) (text : Text) → Answered words b a → IsTraced a text → IsTraceOf text a.journal a.records }
    ensures replayed { (name text : Text) (b : Before) (a : After) (j : Journal) (rs : Records) → Replayed name b a → IsHeld b name text → IsTraceOf text j rs → a.status ≡ Status.Ok
        → IsTaken a.status (call_text j rs) b.out.took a.out.took
        × AreErrorsTaken (OneRose b.err.faults a.err.faults b.err.zeros a.err.zeros) a.status (error_text j) b.err.took a.err.took }
    ensures again { (words : RunWords) (b b' : Before) (a a' : After) (name text : Text) → Answered words b a → IsTraced a text
        → Replayed name b' a' → IsTraceHeld b' name text → IsWellReplay b' a'
        → (a'.status ≡ Status.Memory) ⊎ ((a'.status ≡ Status.Ok) × IsPlayedAgain b a b' a') }
{}
