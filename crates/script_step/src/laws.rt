//! Laws of frames and scripts.
ghost use Rattle.std.specs.Prelude.{◌≡◌, ℕ, List, [], ◌∷◌, ◌++◌, Option, Some, true, filter, is_some, option_map, option_and_then};
ghost use Rattle.ha_config.specs.declared.config.Action.{Action};
ghost use Rattle.ha_sight.specs.declared.item.Item.{Item};
ghost use Rattle.ha_sight.specs.declared.waiting.WaitEnd.{WaitEnd};
ghost use Rattle.ha_config.specs.Words.{Pairs};
ghost use Rattle.ha_sight.specs.Sight.{Sight};
ghost use Rattle.ha_sight.specs.Scripts.{Ask, Branch, Spot, whole};
ghost use Rattle.script_step.specs.declared.frames.Frames.{Frames};
ghost use Rattle.script_step.specs.Frames.{ask_of, began_by, begins, continues, may, Stands, Steps};
ghost use Rattle.script_step.specs.Continuation.{Began};
ghost use Rattle.ha_sight.specs.Branches.{branches_of};
ghost use Rattle.ha_config.specs.Sound.{are_sound_actions};
ghost use Rattle.script_step.specs.Few.{has_few_lists};
ghost use Rattle.script_step.specs.Gates.{fronts_of, gate_at, lets, open_branches, open_now, wait_of};
ghost use Rattle.script_step.specs.Ready.{Ends, ready_of};

/// Frames that stand for a script after some places stand for it after one more, with its item, behind a step at that place.
pub fn frames_after_one_more_place()
    ensures { (actions : List Action) (env : Pairs) (given : List Spot) (items : List Item) (old new : Frames) (item : Item) (sight : Sight) (end : Option WaitEnd) (s : Spot)
        → Stands old actions env given items → Steps sight s.branch end old item new → s.sight ≡ sight
        → ((ask : Ask) → ask_of old s.branch ≡ Some ask → s.wait_end ask (began_by begins given s.branch) ≡ end)
        → Stands new actions env (given ++ s ∷ []) (items ++ item ∷ []) }
{}

/// A branch may step exactly where one more place of it, which tells that end of its wait, is allowed.
pub fn a_branch_may_step_where_a_place_is_allowed()
    ensures { (f : Frames) (began : Began) (s : Spot) (end : Option WaitEnd)
        → ((ask : Ask) → ask_of f s.branch ≡ Some ask → s.wait_end ask (began s.branch) ≡ end)
        → is_some (continues f began (s ∷ [])) ≡ may f s.branch s.sight.now end }
{}

/// A branch may step, where a place tells that end of its wait, exactly where its gate opens at the place.
pub fn a_branch_may_step_where_its_gate_opens()
    ensures { (f : Frames) (began : Began) (s : Spot) (end : Option WaitEnd)
        → ((ask : Ask) → ask_of f s.branch ≡ Some ask → s.wait_end ask (began s.branch) ≡ end)
        → may f s.branch s.sight.now end ≡ lets (gate_at s.branch (fronts_of f began)) s }
{}

/// Where frames stand for a script, one more place of a branch is allowed exactly where the branch's gate opens at it.
pub fn gates_tell_the_places()
    ensures { (f : Frames) (actions : List Action) (env : Pairs) (given : List Spot) (items : List Item) (s : Spot) → Stands f actions env given items
        → is_some (whole actions env (given ++ s ∷ [])) ≡ lets (gate_at s.branch (fronts_of f (began_by begins given))) s }
{}

/// The branches that may step are those whose gates are open, in order.
pub fn ready_branches_have_open_gates()
    ensures { (f : Frames) (began : Began) (now : ℕ) (ends : Ends) → ready_of f now ends ≡ open_now now ends (fronts_of f began) }
{}

/// The gate behind a wait has what the wait asks, and where it began.
pub fn a_gate_behind_a_wait_tells_it()
    ensures { (f : Frames) (began : Began) (c : Branch) → option_map (λ ask. (ask, began c)) (ask_of f c) ≡ option_and_then wait_of (gate_at c (fronts_of f began)) }
{}

/// Where frames stand for a script, with one place for each branch, the branches of the script at which one more place is allowed are those
/// whose gates open, in order.
pub fn open_gates_tell_the_branches()
    ensures { (f : Frames) (actions : List Action) (env : Pairs) (given : List Spot) (items : List Item) (at : Branch → Spot)
        → ((b : Branch) → (at b).branch ≡ b) → Stands f actions env given items
        → filter (λ b. is_some (whole actions env (given ++ at b ∷ []))) (branches_of actions) ≡ open_branches at (fronts_of f (began_by begins given)) }
{}

/// A sound script has few lists.
pub fn sound_scripts_have_few_lists()
    ensures { (actions : List Action) → are_sound_actions actions ≡ true → has_few_lists actions ≡ true }
{}
