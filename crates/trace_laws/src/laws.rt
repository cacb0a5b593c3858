//! Laws of the definitions alone. Each is a function that does nothing; its contract is the law.
ghost use Rattle.std.specs.Prelude.{◌≡◌, ◌≢◌, ◌≤◌, ◌++◌, [], Bool, true, length};
ghost use Rattle.ha_config.specs.Words.{Text};
ghost use Rattle.ha_journal.specs.Journal.{HasEntry, Journal};
ghost use Rattle.ha_model.specs.Records.{Records};
ghost use Rattle.ha_whole.specs.Whole.{opened, records_of};
ghost use Rattle.trace_laws.specs.Runs.{Begins, IsRun, line_count};
ghost use Rattle.trace_laws.specs.Tells.{GoesNoFurther, HasNoAgain, HasNoEnd, HasNoRoom, IsFarthest, IsNoTrace, IsTraceOf};

/// The bytes of a trace tell its run: a text is the trace of one finished run at most. Where a text
/// begins with the traces of two runs, finished or not, the one with fewer entries is what the other
/// begins with.
pub fn bytes_tell_the_run()
    ensures finished { (text : Text) (j j' : Journal) (rs rs' : Records) → IsTraceOf text j rs → IsTraceOf text j' rs' → (j ≡ j') × (rs ≡ rs') }
    ensures so_far { (text : Text) (j j' : Journal) (rs rs' : Records) (ended ended' : Bool) (left left' : Text) → Begins text j rs ended left → Begins text j' rs' ended' left'
        → length j ≤ length j' → (behind : Journal) × (j' ≡ j ++ behind) }
{}

/// What a run begins with, up to any of its entries, is a run so far, with its own records; where the entry is a Restart, with those that
/// its Again adds.
pub fn a_run_begins_with_runs()
    ensures { (j behind : Journal) (rs : Records) → HasEntry j → IsRun (j ++ behind) rs → IsRun j (records_of (opened j)) }
{}

/// Where a text begins with the trace of a run, and the line behind it may not stand next, the text
/// begins with the trace of no run that has more lines; likewise where there is no room for what
/// stands next, and the line is neither the end line nor that of an Again that is due. Such a text is
/// the trace of no finished run, unless it is that of the run itself.
pub fn no_trace_goes_further()
    ensures refused { (text : Text) (j : Journal) (rs : Records) (ended : Bool) (left : Text) → Begins text j rs ended left → GoesNoFurther j rs ended left → IsFarthest text (line_count j ended) }
    ensures full { (text : Text) (j : Journal) (rs : Records) (ended : Bool) (left : Text) → Begins text j rs ended left → HasNoRoom j left → HasNoEnd j rs left → HasNoAgain j left → IsFarthest text (line_count j ended) }
    ensures finished { (text : Text) (j : Journal) (rs : Records) (ended : Bool) (left : Text) → Begins text j rs ended left → (ended ≡ true → left ≢ []) → IsFarthest text (line_count j ended) → IsNoTrace text }
{}
