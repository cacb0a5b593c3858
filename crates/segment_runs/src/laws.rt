//! Laws of tables that go on behind the records of closed segments. Each is a function that does nothing; its contract is the law.
ghost use Rattle.std.specs.Prelude.{◌≡◌, ◌<◌, ◌+◌, ℕ, ◌++◌, map, Option};
ghost use Rattle.ha_config.specs.declared.config.Mode.{Mode};
ghost use Rattle.ha_config.specs.Words.{Pairs};
ghost use Rattle.ha_model.specs.declared.record.EndCause.{EndCause};
ghost use Rattle.ha_model.specs.Records.{Records};
ghost use Rattle.run_modes.specs.Table.{attempted, called_on, ended_at, live_of, stopped};
ghost use Rattle.segment_runs.specs.Goes.{AllEnded, GoesOn, SerialsTo, moved_all};

/// A table of runs that goes on behind the records of closed segments, which have all ended, changes by each call as the segment's own
/// table would.
pub fn tables_go_on()
    ensures live { (n base : ℕ) (num : ℕ → ℕ) (a : ℕ) (c rs : Records) → AllEnded c → live_of a (c ++ moved_all n base num rs) ≡ map {A = ℕ} {B = ℕ} (λ q. base + q) (live_of a rs) }
    ensures stopped { (n base : ℕ) (num : ℕ → ℕ) (which : Option ℕ) (place : ℕ) (cause : EndCause) (c rs : Records) → AllEnded c
        → stopped which (n + place) cause (c ++ moved_all n base num rs) ≡ c ++ moved_all n base num (stopped which place cause rs) }
    ensures ended { (n base : ℕ) (num : ℕ → ℕ) (serial place : ℕ) (cause : EndCause) (c rs : Records) → SerialsTo base c → 0 < serial
        → ended_at (base + serial) (n + place) cause (c ++ moved_all n base num rs) ≡ c ++ moved_all n base num (ended_at serial place cause rs) }
    ensures called { (n base : ℕ) (num : ℕ → ℕ) (serial : ℕ) (c rs : Records) → SerialsTo base c → 0 < serial
        → called_on (base + serial) (c ++ moved_all n base num rs) ≡ c ++ moved_all n base num (called_on serial rs) }
    ensures attempted { (n base : ℕ) (num : ℕ → ℕ) (a : ℕ) (mode : Mode) (max place order number : ℕ) (env : Pairs) (c rs : Records) → GoesOn base c
        → attempted a mode max (n + place) order (num a + number) env (c ++ moved_all n base num rs) ≡ c ++ moved_all n base num (attempted a mode max place order number env rs) }
{}
