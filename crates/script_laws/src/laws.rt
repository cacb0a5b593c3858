//! Laws of the definitions alone. Each is a function that does nothing; its contract is the law.
ghost use Rattle.std.specs.Prelude.{◌≡◌, ℕ, List, Option, Some, length, map};
ghost use Rattle.ha_config.specs.declared.config.Action.{Action};
ghost use Rattle.ha_config.specs.Words.{Pairs};
ghost use Rattle.ha_sight.specs.declared.waiting.WaitEnd.{WaitEnd};
ghost use Rattle.ha_sight.specs.Scripts.{Branch, Scopes, Spot, Next, Outcome, exec, is_open, whole};
ghost use Rattle.script_laws.specs.Direct.{Left, left_by, left_by_script};
ghost use Rattle.script_laws.specs.Followed.{followed};
ghost use Rattle.script_laws.specs.Plain.{SeeNone, plain_script, told_of};
ghost use Rattle.script_laws.specs.Stands.{EachStands};
ghost use Rattle.script_laws.specs.Used.{IsUsed};

/// The meaning of a script by what follows each part and the one that says what each part leaves
/// are the same: for every script, whatever its environment and its places are, and for every list
/// of actions in it, in whatever scopes and branch, whatever follows it.
pub fn scripts_said_directly()
    ensures script { (actions : List Action) (env : Pairs) (ps : List Spot) → whole actions env ps ≡ left_by_script actions env ps }
    ensures list { (actions : List Action) (next : Next) (scopes : Scopes) (b : Branch) (ps : List Spot)
        → exec actions next scopes b ps ≡ followed next next (left_by actions scopes b ps) }
{}

/// A list of actions gives an item for each place that it used, in their order; where it is open no
/// place is left; and it leaves as many blocks as it found. So a script gives as many items as it
/// has places.
pub fn each_place_has_an_item()
    ensures list { (actions : List Action) (scopes : Scopes) (b : Branch) (ps : List Spot) (l : Left)
        → left_by actions scopes b ps ≡ Some l → IsUsed scopes ps l }
    ensures script { (actions : List Action) (env : Pairs) (ps : List Spot) (o : Outcome)
        → whole actions env ps ≡ Some o → length o.items ≡ length ps }
{}

/// Behind a call that waits, its branch goes on at a place before which the run that it started has
/// ended, and only an open script may have no such place yet. And where a place sees no script, its
/// item neither starts nor ends runs of scripts; each change of an item is one that a service makes
/// of a helper that its place sees, by what is seen there; and each automation and each script that
/// it switches, triggers, starts or halts is one that its place sees.
pub fn callers_wait_for_their_runs()
    ensures { (actions : List Action) (env : Pairs) (ps : List Spot) (o : Outcome)
        → whole actions env ps ≡ Some o → EachStands (is_open o.status) ps o.items }
{}

/// On places that see no script, whatever is told there of runs that were called, a script means what
/// it means where there are no scripts: each call is one of the services of helpers or of automations,
/// or is written, and none waits.
pub fn scripts_without_calls()
    ensures { (told : ℕ → ℕ → Option WaitEnd) (actions : List Action) (env : Pairs) (ps : List Spot) → SeeNone ps
        → whole actions env (map (told_of told) ps) ≡ plain_script actions env ps }
{}
