//! Laws of whole journals, which are read segment by segment. Each is a function that does nothing; its contract is the law.
ghost use Rattle.std.specs.Prelude.{◌≡◌, ◌<◌, ◌+◌, ℕ, suc, List, [], ◌∷◌, ◌++◌, length, map, flat_map, Bool, Option, Some, codes, is_some, take, true, false};
ghost use Rattle.ha_config.specs.declared.command.Cmd.{Cmd};
ghost use Rattle.ha_config.specs.declared.config.Config.{Config};
ghost use Rattle.ha_config.specs.declared.config.Trigger.{Trigger};
ghost use Rattle.ha_journal.specs.declared.entry.Entry.{Entry};
ghost use Rattle.ha_journal.specs.declared.entry.Entry.TheVariants.{Boot, Line, Step};
ghost use Rattle.ha_sight.specs.declared.item.Item.{Item};
ghost use Rattle.ha_config.specs.Words.{Text, EachAfter};
ghost use Rattle.ha_config.specs.StoreText.{store_of};
ghost use Rattle.ha_config.specs.Sound.{are_in_name_order};
ghost use Rattle.ha_whole.specs.Named.{in_name_order, named};
ghost use Rattle.whole_laws.specs.Apart.{AreApart};
ghost use Rattle.ha_journal.specs.Journal.{Journal, HasEntry, automations, configured, IsJournal as IsJournalAlone, more, units, now};
ghost use Rattle.ha_journal.specs.Entries.{IsBoot, first_carry, is_again, is_restart};
ghost use Rattle.ha_journal.specs.Commands.{ArePutFrom, lines_of, placed_line};
ghost use Rattle.ha_journal.specs.EntryText.{error_text, error_text_of, trace_line};
ghost use Rattle.ha_whole.specs.Trace.{call_text, call_text_of, names, trace_text};
ghost use Rattle.ha_model.specs.declared.record.Record.{Record};
ghost use Rattle.ha_sight.specs.Items.{call_in};
ghost use Rattle.ha_laws.specs.OneRun.{SameNumbers};
ghost use Rattle.ha_sight.specs.Scripts.{Branch};
ghost use Rattle.ha_config.specs.Names.{name_of, of_automations};
ghost use Rattle.ha_journal.specs.Triggers.{firings};
ghost use Rattle.ha_model.specs.Records.{Records, calls_of, records_of as records_alone};
ghost use Rattle.ha_model.specs.Lawful.{Lawful as LawfulAlone, Right as RightAlone, record_of, is_quiet as is_quiet_alone, is_rested as is_rested_alone, ready as ready_alone};
ghost use Rattle.ha_whole.specs.Segments.{alone, carried, carried_number, front, segment, segments};
ghost use Rattle.ha_whole.specs.Whole.{AreEntries, HasRoom, IsBehind, IsBusy, IsFirst, IsTurn, IsWithin, Lawful, Right, Running, appended, before_put, changes_store, is_quiet, is_rested, opened, own, placed_all, put, ready, records_of, store_text};
ghost use Rattle.segment_view.specs.Views.{HasBoot, seen_at};
ghost use Rattle.ha_laws.specs.Makers.{OfOne, makers, cmds_of};
ghost use Rattle.whole_laws.specs.Puts.{IsPut};
ghost use Rattle.whole_laws.specs.Seen.{LiesIn};
ghost use Rattle.segment_runs.specs.Goes.{moved_all};
ghost use Rattle.whole_laws.specs.Segments.{EachRight, HasNoAgain, HasNoRestart};
ghost use Rattle.ha_laws.specs.WorkedHall as hall;

/// The last segment of a journal is a journal itself, of the same configuration, behind all other entries.
pub fn the_last_segment_is_a_journal()
    ensures journal { (j : Journal) → AreEntries j → IsJournalAlone (segment j) }
    ensures front { (j : Journal) → AreEntries j → front j + length (segment j) ≡ length j }
    ensures automations { (j : Journal) → AreEntries j → automations (segment j) ≡ automations j }
    ensures configured { (j : Journal) → AreEntries j → configured (segment j) ≡ configured j }
{}

/// The last segment alone tells who is ready, whether the journal is quiet and who is rested: its own records are those behind as many as
/// it carries.
pub fn the_last_segment_tells()
    ensures own { (j : Journal) → AreEntries j → own j (records_of j) ≡ records_alone (segment j) }
    ensures quiet { (j : Journal) (rs : Records) → Right j rs → is_quiet rs j ≡ is_quiet_alone (records_alone (segment j)) (segment j) }
    ensures rested { (j : Journal) (rs : Records) (k : ℕ) → Right j rs → is_rested rs k j ≡ is_rested_alone (records_alone (segment j)) k (segment j) }
    ensures ready { (j : Journal) (rs : Records) → Right j rs
        → ready rs j ≡ map {A = ℕ × Branch} {B = ℕ × Branch} (λ p. (carried (segment j) + p.0, p.1)) (ready_alone (records_alone (segment j)) (segment j)) }
{}

/// A right journal is right with one put more where its last segment, read alone, is right with the entry.
pub fn right_by_the_last_segment()
    ensures { (j : Journal) (rs srs : Records) (x : Entry) → IsPut x → Right j rs → RightAlone (more (segment j) (alone (segment j) x)) srs → Right (put j x) (records_of (put j x)) }
{}

/// A lawful journal without closing steps, and right with one put more whose turn it is and whose worker is busy, is so with the new
/// records.
pub fn one_put_more_is_lawful()
    ensures { (j : Journal) (rs rs' : Records) (x : Entry) → Running j rs → IsPut x → Right (put j x) rs' → IsTurn rs j x → IsBusy rs j x → Running (put j x) rs' }
{}

/// Who may step at a place, whether the journal is quiet there and who is rested is told by the entries before it: closed segments stay as
/// they are.
pub fn prefixes_tell()
    ensures ready { (j : Journal) (ys : List Entry) → AreEntries j → EachAfter IsBehind j ys → ready (records_of j) j ≡ ready (records_of (j ++ ys)) j }
    ensures quiet { (j : Journal) (ys : List Entry) → AreEntries j → EachAfter IsBehind j ys → is_quiet (records_of j) j ≡ is_quiet (records_of (j ++ ys)) j }
    ensures rested { (j : Journal) (ys : List Entry) (k : ℕ) → AreEntries j → EachAfter IsBehind j ys → is_rested (records_of j) k j ≡ is_rested (records_of (j ++ ys)) k j }
{}

/// For a given first entry, given lines of each source and a given list of the makers of the entries, at most one journal with its
/// records is lawful, over all its segments; and so it is where the lines are put from given commands that were read.
pub fn one_answer()
    ensures put { (boot : Entry) (xs ys : Journal) (rs rs' : Records) → Lawful (boot ∷ xs) rs → Lawful (boot ∷ ys) rs'
        → makers xs ≡ makers ys → ((q : ℕ) → cmds_of q xs ≡ cmds_of q ys) → (xs ≡ ys) × (rs ≡ rs') }
    ensures read { (boot : Entry) (xs ys : Journal) (rs rs' : Records) → Lawful (boot ∷ xs) rs → Lawful (boot ∷ ys) rs'
        → makers xs ≡ makers ys → (read : ℕ → List Cmd) → ((q : ℕ) → ArePutFrom q (boot ∷ xs) (read q)) → ((q : ℕ) → ArePutFrom q (boot ∷ ys) (read q))
        → (xs ≡ ys) × (rs ≡ rs') }
{}

/// The records of a segment stand among those of the whole journal as a table that goes on behind closed segments has them.
pub fn placed_records_are_moved()
    ensures { (n : ℕ) (s : Journal) (rs : Records) → placed_all n s rs ≡ moved_all n (carried s) (λ a. carried_number s (name_of (units s) a)) rs }
{}

/// Each segment of a right journal is right with its own records, judged from its opening alone.
pub fn each_segment_is_right()
    ensures { (j : Journal) (rs : Records) → Right j rs → EachRight (segments j) }
{}

/// A journal without a Restart is its one segment, and its records are that segment's: it means what it means alone.
pub fn one_segment_means_the_same()
    ensures segment { (j : Journal) → AreEntries j → HasNoAgain j → segment j ≡ j }
    ensures records { (j : Journal) → AreEntries j → HasNoAgain j → records_of j ≡ records_alone j }
{}

/// What is lawful as one segment, and has no Restart, is lawful as a whole journal: so the worked journal of the hall light is.
pub fn one_segment_is_lawful()
    ensures whole { (boot : Entry) (es : Journal) (rs : Records) → IsFirst boot → HasNoRestart es → LawfulAlone (boot ∷ es) rs → Lawful (boot ∷ es) rs }
    ensures hall_light { Lawful hall.journal hall.records }
{}

/// The last segment lies at the end of the flat list, behind as many entries as stand before it.
pub fn the_last_segment_lies_at_the_end()
    ensures { (boot : Entry) (es : Journal) → AreEntries (boot ∷ es) → LiesIn boot (boot ∷ es) }
{}

/// The last segment is what is seen of the flat list behind as many entries as stand before it, where as many runs were before as it
/// carries.
pub fn the_last_segment_is_seen()
    ensures boot { (j : Journal) → AreEntries j → HasBoot j }
    ensures front { (j : Journal) → AreEntries j → front j < length j }
    ensures seen { (j : Journal) → AreEntries j → segment j ≡ seen_at j (front j) (carried (segment j)) }
{}

/// What a lawful journal begins with, up to any of its entries, is lawful with its own records; where it ends with a Restart, with the
/// Again that belongs to it.
pub fn fronts_are_lawful()
    ensures { (j ys : Journal) (rs : Records) → HasEntry j → Lawful (j ++ ys) rs → Lawful (opened j) (records_of (opened j)) }
{}

/// At an opening the same triggers fire, with the same variables, whatever its Boot says else.
pub fn openings_fire_alike()
    ensures { (first again : Entry) → IsBoot first → IsBoot again → (ts : List Trigger) (since : ℕ) → firings (first ∷ []) ts since 0 ≡ firings (again ∷ []) ts since 0 }
{}

/// A lawful journal, and right with one more step of worker 0 whose turn it is, is lawful with the new records, be the step a closing one.
pub fn closing_steps_are_lawful()
    ensures { (j : Journal) (rs rs' : Records) (serial : ℕ) (branch : Branch) (item : Item) → Lawful j rs → Right (more j (Step 0 serial branch item)) rs'
        → IsTurn rs j (Step 0 serial branch item) → Lawful (more j (Step 0 serial branch item)) rs' }
{}

/// With one source alone, at most one journal with that first entry and those lines is lawful and quiet, over all its segments; and so it
/// is with lines that are put from given commands.
pub fn one_source()
    ensures put { (boot : Entry) (xs ys : Journal) (rs rs' : Records) → Lawful (boot ∷ xs) rs → Lawful (boot ∷ ys) rs' → OfOne xs → OfOne ys
        → is_quiet rs (boot ∷ xs) ≡ true → is_quiet rs' (boot ∷ ys) ≡ true → ((q : ℕ) → cmds_of q xs ≡ cmds_of q ys) → (xs ≡ ys) × (rs ≡ rs') }
    ensures read { (boot : Entry) (xs ys : Journal) (rs rs' : Records) → Lawful (boot ∷ xs) rs → Lawful (boot ∷ ys) rs' → OfOne xs → OfOne ys
        → is_quiet rs (boot ∷ xs) ≡ true → is_quiet rs' (boot ∷ ys) ≡ true → (read : ℕ → List Cmd)
        → ((q : ℕ) → ArePutFrom q (boot ∷ xs) (read q)) → ((q : ℕ) → ArePutFrom q (boot ∷ ys) (read q)) → (xs ≡ ys) × (rs ≡ rs') }
{}

/// Pairs whose names differ have the same value for each name where they are put in the order of the names: so the switches, numbers and
/// moments that a segment takes over are found again.
pub fn ordered_pairs_are_found()
    ensures switches { (ps : List (Text × Bool)) (name : Text) → AreApart ps → named name (in_name_order ps) ≡ named name ps }
    ensures numbers { (ps : List (Text × ℕ)) (name : Text) → AreApart ps → named name (in_name_order ps) ≡ named name ps }
{}

/// The first segment takes nothing over but when automations last triggered: of moments that a store gives, those of names that an
/// automation has.
pub fn the_first_segment_takes_moments_over()
    ensures { (text : Text) (config : Config) (stored : Option (List (Text × Bool))) (start : ℕ) (zone : Text) (last : List (Text × ℕ)) → are_in_name_order last ≡ true
        → IsFirst (Boot text config stored start zone (first_carry (of_automations config.automations last))) }
{}

/// Where the journal is quiet each source is rested; behind a line that leaves it busy the line's source is not.
pub fn sources_rest_where_it_is_quiet()
    ensures rested { (j : Journal) (rs : Records) (k : ℕ) → AreEntries j → is_quiet rs j ≡ true → is_rested rs k j ≡ true }
    ensures busy { (before : Journal) (rs : Records) (k number : ℕ) (cmd : Cmd) → is_quiet rs (more before (Line k number cmd)) ≡ false → is_rested rs k (more before (Line k number cmd)) ≡ false }
{}

/// One put appends its entry, and behind a Restart the Again that opens the next segment; with room for it no bound is passed.
pub fn a_put_appends()
    ensures entries { (j : Journal) (x : Entry) → put j x ≡ j ++ appended j x }
    ensures before { (j : Journal) (x : Entry) → is_again x ≡ false → before_put (put j x) ≡ j }
    ensures within { (j : Journal) (x : Entry) → IsPut x → IsWithin j → HasRoom j (is_restart x) → IsWithin (put j x) }
{}

/// The calls, the errors and the trace of a journal with one put more, and the lines of a source: the trace has a line for the Again too,
/// which gives nothing else.
pub fn texts_of_one_put()
    ensures calls { (j : Journal) (x : Entry) (rs : Records) → call_text (put j x) rs ≡ call_text j rs ++ call_text_of rs j x }
    ensures errors { (j : Journal) (x : Entry) → error_text (put j x) ≡ error_text j ++ error_text_of x }
    ensures trace { (j : Journal) (x : Entry) → trace_text (put j x) false ≡ trace_text j false ++ flat_map (trace_line (names (put j x))) (appended j x) }
    ensures lines { (k : ℕ) (j : Journal) (x : Entry) → lines_of k (put j x) ≡ lines_of k j ++ placed_line k j x }
{}

/// The records of a right journal with one put more have the units and numbers that they had, and so its calls' text is the same by
/// them: it tells of a run only its unit and its number.
pub fn calls_of_grown_records()
    ensures numbers { (j : Journal) (x : Entry) (rs rs' : Records) → IsPut x → Right j rs → Right (put j x) rs' → SameNumbers rs rs' }
    ensures calls { (j : Journal) (rs rs' : Records) → Right j rs → SameNumbers rs rs' → call_text j rs ≡ call_text j rs' }
{}

/// The calls of a run of the last segment are those that the segment alone has; so behind a step that calls the record of its run, among
/// those of all segments, has counted the calls of its serial.
pub fn calls_are_counted()
    ensures own { (j : Journal) (rs : Records) → Right j rs → (q : ℕ) → 0 < q → calls_of j (carried (segment j) + q) ≡ calls_of (segment j) q }
    ensures step { (before : Journal) (k serial : ℕ) (branch : Branch) (item : Item) (rs : Records) → Right (more before (Step k serial branch item)) rs
        → (r : Record) → record_of rs serial ≡ Some r → is_some (call_in item) ≡ true → r.calls ≡ suc (calls_of before serial) }
{}

/// Behind the hall light's journal the store keeps that it is on, and when it triggered.
pub fn the_hall_light_is_stored()
    ensures { store_text hall.journal ≡ store_of ((codes "hall_light", true) ∷ []) ((codes "hall_light", now (take 3 hall.journal)) ∷ []) }
{}

/// Where the last put changed nothing that the store keeps, the store's text stays.
pub fn the_store_stays()
    ensures { (j : Journal) (x : Entry) → IsPut x → changes_store (put j x) ≡ false → store_text (put j x) ≡ store_text j }
{}
