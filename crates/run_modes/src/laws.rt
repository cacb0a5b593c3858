//! Laws of the definitions alone. Each is a function that does nothing; its contract is the law.
ghost use Rattle.std.specs.Prelude.{◌≡◌, ℕ, suc, ◌<◌, ◌≤◌, true, Option, Some, length, option_map};
ghost use Rattle.ha_config.specs.declared.config.Mode.{Mode};
ghost use Rattle.ha_model.specs.declared.record.EndCause.{EndCause};
ghost use Rattle.ha_config.specs.Words.{Pairs};
ghost use Rattle.ha_model.specs.Lawful.{record_of};
ghost use Rattle.ha_model.specs.Records.{Records, lets_in, live_count};
ghost use Rattle.run_modes.specs.Changes.{after_attempt, after_call, after_end, after_stop};
ghost use Rattle.run_modes.specs.Fits.{AreNumbered};
ghost use Rattle.run_modes.specs.Table.{attempted, begun_by, called_on, ended_at, new_run, stopped};

/// What each call does to the record with a serial: a call counts for its run alone; an end ends
/// its run, and begins the one that waited for it, if one did; a stop ends live runs; an attempt
/// that is admitted replaces live runs of its automation in mode restart, and has the next serial.
/// All other records are the same.
pub fn calls_change_records()
    ensures called { (serial s : ℕ) (rs : Records) → record_of (called_on serial rs) s ≡ option_map (after_call serial) (record_of rs s) }
    ensures ended { (serial s place : ℕ) (cause : EndCause) (rs : Records) → AreNumbered 0 rs
        → record_of (ended_at serial place cause rs) s ≡ option_map (after_end serial place cause (begun_by serial rs)) (record_of rs s) }
    ensures stopped { (which : Option ℕ) (s place : ℕ) (cause : EndCause) (rs : Records) → record_of (stopped which place cause rs) s ≡ option_map (after_stop which place cause) (record_of rs s) }
    ensures attempted { (a max place order number s : ℕ) (mode : Mode) (env : Pairs) (rs : Records) → lets_in mode max (live_count a rs) ≡ true → 0 < s → s ≤ length rs
        → record_of (attempted a mode max place order number env rs) s ≡ option_map (after_attempt a mode place) (record_of rs s) }
    ensures newest { (a max place order number : ℕ) (mode : Mode) (env : Pairs) (rs : Records) → lets_in mode max (live_count a rs) ≡ true
        → record_of (attempted a mode max place order number env rs) (suc (length rs)) ≡ Some (new_run rs a mode place order number env) }
{}

/// Records that are numbered from 1 stay so with each call.
pub fn calls_keep_the_numbers()
    ensures called { (serial : ℕ) (rs : Records) → AreNumbered 0 rs → AreNumbered 0 (called_on serial rs) }
    ensures ended { (serial place : ℕ) (cause : EndCause) (rs : Records) → AreNumbered 0 rs → AreNumbered 0 (ended_at serial place cause rs) }
    ensures stopped { (which : Option ℕ) (place : ℕ) (cause : EndCause) (rs : Records) → AreNumbered 0 rs → AreNumbered 0 (stopped which place cause rs) }
    ensures attempted { (a max place order number : ℕ) (mode : Mode) (env : Pairs) (rs : Records) → AreNumbered 0 rs → AreNumbered 0 (attempted a mode max place order number env rs) }
{}
