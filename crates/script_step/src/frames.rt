//! The frames of a run: where its script stands.
ghost use Rattle.std.specs.Prelude.{◌≡◌, List, ◌∷◌, [], true, IfOk};
ghost use Rattle.ha_config.specs.declared.config.Action.{Action};
ghost use Rattle.script_step.specs.Few.{has_few_lists};
ghost use Rattle.script_step.specs.Sides.{end_of, first_stage, first_thread, is_settled, progress_by};

use crate::asking::asked;
use crate::gates::{calls_at, due_at, may_step};
use crate::held::Held;
use crate::listing::add_ready;
use crate::scopes::Scopes;
use crate::sides::end_of;
use crate::step::step_here;
use crate::strand::{End, Stage, Strand};
use crate::taken::Taken;
use crate::thread::Thread;
use ha_clock::Moment;
use ha_config::Action;
use ha_sight::{Answers, Branch, Ended, Env, Progress, WaitEnd};
use ha_value::Many;
use std::alloc::{AllocError, Global};
use std::snapshot::Snapshot;

/// Where a run's script stands, from its begin or after some steps. The script is lent to each call, and clauses alone see which one it is.
/// A step copies no variables but those of a parallel block that begins.
#[derive(Drop)]
pub struct Frames {
    serial: u64,
    automation: u32,
    script: Snapshot<Many<Action>>,
    root: Strand,
    pub ghost few: { has_few_lists script.value ≡ true },
    pub ghost settled: { is_settled script.value root ≡ true },
}

/// How far a run is.
fn progress(root: &Strand) -> Progress
    ensures { result ≡ progress_by (end_of root.now) }
{
    match end_of(root) {
        None => Progress::Going,
        Some(End::Done) => Progress::Done,
        Some(End::Stopped) => Progress::Stopped,
        Some(End::Faulted) => Progress::Faulted,
    }
}

/// A strand at the begin of a script.
fn root_of(alloc: Global, actions: &Many<Action>, env: &Env) -> Result<Strand, AllocError>
    ensures { IfOk result (λ made. made ≡ record { thread = first_thread (env.now ∷ []); stage = first_stage actions.now }) }
{
    let scopes = Scopes::start(alloc, env.copy(alloc)?)?;
    let thread = Thread::start(alloc, scopes);
    if actions.len() == 0 {
        Ok(Strand {
            thread,
            stage: Stage::Ended(End::Done),
        })
    } else {
        Ok(Strand {
            thread,
            stage: Stage::Ready,
        })
    }
}

impl Frames {
    ghost use Rattle.std.specs.Prelude.{◌≤◌, ℕ, Option, false, option_and_then, option_map};
    ghost use Rattle.std.specs.Option.{option_map_or};
    ghost use Rattle.ha_clock.specs.Local.{last_moment};
    ghost use Rattle.ha_sight.specs.declared.item.Item.{Item};
    ghost use Rattle.ha_config.specs.Words.{Pairs};
    ghost use Rattle.ha_sight.specs.Scripts.{Spot, whole};
    ghost use Rattle.script_step.specs.Continuation.{Began, asks, placed};
    ghost use Rattle.script_step.specs.Frames.{ask_of, asked_by, continues, may, progress_of, Stands, Steps};
    ghost use Rattle.script_step.specs.Gates.{due_of, first_fronts, fronts_of, gate_at};
    ghost use Rattle.script_step.specs.Ready.{ready_of};
    ghost use Rattle.script_step.specs.Taken.{out_of};
    ghost use Rattle.script_step.specs.Told.{AreTold};

    /// The frames of an automation's script at its begin, in this environment.
    pub fn start(
        alloc: Global,
        serial: u64,
        automation: u32,
        actions: &Many<Action>,
        env: &Env,
    ) -> Result<Frames, AllocError>
        requires { has_few_lists actions.now ≡ true }
        ensures means { IfOk result (λ f. (began : Began) (ps : List Spot) → continues f began ps ≡ whole actions.now env.now ps) }
        ensures stands { IfOk result (λ f. Stands f actions.now env.now [] []) }
        ensures fronts { IfOk result (λ f. (began : Began) → fronts_of f began ≡ first_fronts actions.now) }
        ensures serial { IfOk result (λ f. f.serial ≡ serial) }
        ensures automation { IfOk result (λ f. f.automation ≡ automation) }
    {
        let root = root_of(alloc, actions, env)?;
        Ok(Frames {
            serial,
            automation,
            script: Snapshot::of(actions),
            root,
        })
    }

    /// Whose script it is.
    pub fn automation(&self) -> u32
        ensures { result ≡ self.now.automation }
    {
        self.automation
    }

    /// Gives the run its serial, before its first step.
    pub fn set_serial(&mut self, serial: u64)
        ensures stands { (actions : List Action) (env : Pairs) (given : List Spot) (items : List Item) → Stands self.old actions env given items → Stands self.new actions env given items }
        ensures fronts { (began : Began) → fronts_of self.new began ≡ fronts_of self.old began }
        ensures serial { self.new.serial ≡ serial }
        ensures automation { self.new.automation ≡ self.old.automation }
    {
        self.serial = serial;
    }

    /// Takes one step of the script, in a branch that may step: what it sees is `answers`, and `wait` is how the branch's wait ended. After
    /// an error the frames are spent.
    pub fn step<A: Answers>(
        &mut self,
        alloc: Global,
        actions: &[Action],
        branch: &Branch,
        wait: Option<Held<WaitEnd>>,
        answers: &A,
    ) -> Result<Taken, AllocError>
        requires script { actions.now ≡ self.old.script.value }
        requires may { may self.old branch.now (A.sight answers.now).now wait ≡ true }
        requires moment { (A.sight answers.now).now ≤ last_moment }
        ensures step { IfOk result (λ out. Steps (A.sight answers.now) branch.now wait self.old out.item self.new) }
        ensures told { IfOk result (λ out. (began : Began) (place : ℕ)
            → AreTold self.old.serial place (A.sight answers.now).now branch.now (fronts_of self.old began) (fronts_of self.new (placed branch.now place began)) (out_of out)) }
        ensures progress { IfOk result (λ out. out.progress ≡ progress_of self.new) }
        ensures wait { IfOk result (λ out. out.wait ≡ option_map (asked_by self.old.serial branch.now (A.sight answers.now).now) (asks self.new.root self.old.script.value branch.now)) }
        ensures serial { self.new.serial ≡ self.old.serial }
        ensures automation { self.new.automation ≡ self.old.automation }
        ensures script { self.new.script.value ≡ self.old.script.value }
    {
        let now = answers.now();
        let item = step_here(
            alloc,
            &mut self.root,
            actions,
            branch.as_slice(),
            wait,
            answers,
        )?;
        let ask = asked(
            alloc,
            &self.root,
            actions,
            branch.as_slice(),
            self.serial,
            branch,
            now,
        )?;
        let progress = progress(&self.root);
        Ok(Taken {
            item,
            progress,
            wait: ask,
        })
    }

    /// The branches of the script that may step at this moment, in order.
    pub fn list_ready<E: Ended>(
        &self,
        alloc: Global,
        actions: &[Action],
        now: Moment,
        ended: &E,
    ) -> Result<Many<Branch>, AllocError>
        ensures { IfOk result (λ found. actions.now ≡ self.now.script.value → found ≡ ready_of self.now now (λ c. E.ends ended.now self.now.serial c)) }
    {
        let mut found = Many::make(alloc);
        add_ready(
            alloc,
            &self.root,
            actions,
            &Many::make(alloc),
            self.serial,
            now,
            ended,
            &mut found,
        )?;
        Ok(found)
    }

    /// The due of the branch's delay, if it is in one.
    pub fn due(&self, branch: &Branch) -> Option<Moment>
        ensures { (began : Began) → result ≡ option_and_then due_of (gate_at branch.now (fronts_of self.now began)) }
    {
        due_at(&self.root, branch.as_slice())
    }

    /// Whether the branch waits for the end of a run that it called.
    pub fn calls(&self, actions: &[Action], branch: &Branch) -> bool
        ensures { actions.now ≡ self.now.script.value → result ≡ option_map_or (λ ask. ask.called) (ask_of self.now branch.now) false }
    {
        calls_at(&self.root, actions, branch.as_slice())
    }

    /// Whether the branch of the script may step at this moment.
    pub fn ready<E: Ended>(
        &self,
        actions: &[Action],
        branch: &Branch,
        now: Moment,
        ended: &E,
    ) -> bool
        requires { actions.now ≡ self.now.script.value }
        ensures { result ≡ may self.now branch.now now (E.ends ended.now self.now.serial branch.now) }
    {
        may_step(
            &self.root,
            actions,
            branch.as_slice(),
            now,
            ended.ended(self.serial, branch).is_some(),
        )
    }
}
