//! Laws of what segments hand on. Each is a function that does nothing; its contract is the law.
ghost use Rattle.std.specs.Prelude.{◌≡◌, ◌<◌, ℕ, [], List, Option, true, length, map};
ghost use Rattle.ha_config.specs.Names.{name_of, names_of};
ghost use Rattle.ha_config.specs.ValueFacts.{all_distinct};
ghost use Rattle.ha_config.specs.Words.{Text};
ghost use Rattle.ha_journal.specs.Journal.{Journal, automations, more, units};
ghost use Rattle.ha_model.specs.declared.record.EndCause.{EndCause};
ghost use Rattle.ha_model.specs.Records.{Records, records_of as records_alone};
ghost use Rattle.ha_whole.specs.Lasts.{last_triggered, lasts, lasts_carried};
ghost use Rattle.ha_whole.specs.Named.{in_name_order, named};
ghost use Rattle.ha_whole.specs.Segments.{carried_number, front, segment};
ghost use Rattle.ha_whole.specs.Whole.{AreEntries, again_of, records_of};
ghost use Rattle.run_modes.specs.Table.{stopped};
ghost use Rattle.segment_runs.specs.Segment.{all_of};
ghost use Rattle.segment_carry.specs.Closing.{last_number};
ghost use Rattle.segment_carry.specs.Hands.{Counted, Hands, closed_of};

/// What the opening of the last segment took over, and the entries behind it, tell of the whole journal.
pub fn the_opening_tells()
    ensures { (k : Journal) → AreEntries k → Hands k }
{}

/// A name's runs are numbered on from segment to segment: what is carried for it is the number of its last run. So the records of all
/// segments are those of the table that goes on behind the closed ones.
pub fn numbers_go_on()
    ensures counted { (s : Journal) → Counted s [] (records_alone s) }
    ensures next { (k : Journal) → AreEntries k → (name : Text) → carried_number (segment (more k (again_of k))) name ≡ last_number (segment k) name }
    ensures table { (k : Journal) (numbers : List ℕ) → AreEntries k → numbers ≡ map (carried_number (segment k)) (names_of (units (segment k)))
        → records_of k ≡ all_of (record { records = closed_of k; entries = front k; numbers = numbers }) (records_alone (segment k)) }
{}

/// When an automation last triggered is carried on under its name.
pub fn moments_go_on()
    ensures found { (s : Journal) → all_distinct (names_of (automations s)) ≡ true → (a : ℕ) → a < length (automations s)
        → named (name_of (automations s) a) (in_name_order (lasts s)) ≡ last_triggered s (name_of (automations s) a) }
    ensures carried { (k : Journal) → AreEntries k → lasts_carried (segment (more k (again_of k))) ≡ in_name_order (lasts (segment k)) }
{}

/// A stop leaves as many records.
pub fn stops_keep_counts()
    ensures { (which : Option ℕ) (place : ℕ) (cause : EndCause) (rs : Records) → length rs ≡ length (stopped which place cause rs) }
{}
