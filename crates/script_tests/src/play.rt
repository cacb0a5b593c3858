//! A run of a test takes its steps.
ghost use Rattle.std.specs.Prelude.{◌≡◌, [], IfOk, true};
ghost use Rattle.ha_config.specs.Sound.{IsSoundConfig};
ghost use Rattle.helper_set.specs.Kept.{kept_in};
ghost use Rattle.script_step.specs.Few.{has_few_lists};

use crate::home::{Home, home_with, seeing_of, tell, utc, view_of};
use crate::said::is_said;
use cond_eval::View;
use ha_clock::{Moment, Zone};
use ha_config::{Action, Config};
use ha_journal::Firing;
use ha_sight::{Answers, Branch, Ended, Env, Item, Progress, TriggerData, WaitAsk, WaitEnd};
use ha_value::{Many, Num, Plain, Value, Word};
use helper_set::Helpers;
use script_calls::Seeing;
use script_step::{Frames, Held, Taken};
use std::alloc::{AllocError, Global};
use wait_set::Waits;

/// How a wait ended, in memory of its own.
fn held(alloc: Global, end: Option<WaitEnd>) -> Result<Option<Held<WaitEnd>>, AllocError>
    ensures { IfOk result (λ made. made ≡ end) }
{
    match end {
        Some(end) => {
            let made = Held::make(alloc, end)?;
            Ok(Some(made))
        }
        None => Ok(None),
    }
}

/// Frames with the script that they are lent.
#[derive(Drop)]
pub struct Script {
    pub actions: Many<Action>,
    pub frames: Frames,
    pub ghost lent: { actions ≡ frames.script.value },
}

impl Script {
    /// The first branch that may step.
    fn first(&self, alloc: Global, at: Moment, ends: &Ends) -> Result<Option<Branch>, AllocError> {
        let ready = self
            .frames
            .list_ready(alloc, self.actions.as_slice(), at, ends)?;
        match ready.get(0) {
            Some(branch) => Ok(Some(branch.copy(alloc)?)),
            None => Ok(None),
        }
    }

    /// Takes a step in this branch, where it may.
    fn step(
        &mut self,
        alloc: Global,
        branch: &Branch,
        ends: &Ends,
        seeing: &Seeing<'_>,
    ) -> Result<Option<Taken>, AllocError> {
        let end = ends.end.copy(alloc)?;
        let actions = self.actions.as_slice();
        if !self.frames.ready(actions, branch, seeing.view.at, ends) {
            return Ok(None);
        }
        let end = held(alloc, end)?;
        let out = self.frames.step(alloc, actions, branch, end, seeing)?;
        Ok(Some(out))
    }
}

/// A run at work, and the one wait that it asked for last.
#[derive(Drop)]
pub struct Run {
    pub script: Script,
    pub waits: Waits,
    pub branch: Branch,
    /// The place of the next entry.
    pub place: u64,
    /// The place of the step that began the wait.
    pub owner: u64,
    pub progress: Progress,
}

/// How the wait ended, if it did: every branch that waits is told so.
#[derive(Drop)]
pub struct Ends {
    pub end: Option<WaitEnd>,
}

impl Ended for Ends {
    ghost ends = { λ e serial branch. e.end };

    fn ended(&self, serial: u64, branch: &Branch) -> Option<&WaitEnd> {
        match &self.end {
            Some(end) => Some(end),
            None => None,
        }
    }
}

/// A list of one.
fn one<T: Drop>(alloc: Global, item: T) -> Result<Many<T>, AllocError> {
    let mut all = Many::make(alloc);
    all.push(item)?;
    Ok(all)
}

/// A map of one pair.
fn map(alloc: Global, key: &str, value: Value) -> Result<Value, AllocError> {
    let pairs = one(alloc, (Word::from_str(alloc, key)?, value))?;
    Ok(Value::Pairs(pairs))
}

/// The variables of a run that an event with n 5 began.
fn event_env(alloc: Global) -> Result<Env, AllocError> {
    let data = map(alloc, "n", Value::Number(Num::Whole(5)))?;
    let event = map(alloc, "data", data)?;
    let trigger = map(alloc, "event", event)?;
    Ok(Env::of_trigger(alloc, TriggerData::whole(alloc, trigger)?))
}

/// A script at its begin.
fn start(alloc: Global, actions: &Many<Action>) -> Result<Script, AllocError>
    requires { has_few_lists actions.now ≡ true }
{
    let env = event_env(alloc)?;
    let lent = actions.copy(alloc)?;
    let frames = Frames::start(alloc, 1, 0, actions, &env)?;
    Ok(Script {
        actions: lent,
        frames,
    })
}

/// The script of the first automation at its begin, where there is one.
fn begin(alloc: Global, config: &Config) -> Result<Option<Script>, AllocError>
    requires { IsSoundConfig config.now }
{
    match config.automations.get(0) {
        Some(rule) => Ok(Some(start(alloc, &rule.actions)?)),
        None => Ok(None),
    }
}

/// The first of the scripts that are configured, at its begin, where there is one.
fn begin_called(alloc: Global, config: &Config) -> Result<Option<Script>, AllocError>
    requires { IsSoundConfig config.now }
{
    match config.scripts.get(0) {
        Some(script) => Ok(Some(start(alloc, &script.actions)?)),
        None => Ok(None),
    }
}

/// The one of them that is wanted.
fn begin_wanted(alloc: Global, config: &Config, called: bool) -> Result<Option<Script>, AllocError>
    requires { IsSoundConfig config.now }
{
    if called {
        begin_called(alloc, config)
    } else {
        begin(alloc, config)
    }
}

/// A run at its begin, at the second entry.
fn run_of(alloc: Global, script: Script) -> Run {
    Run {
        script,
        waits: Waits::make(alloc),
        branch: Many::make(alloc),
        place: 1,
        owner: 0,
        progress: Progress::Going,
    }
}

/// How the run's wait has ended, if it has.
fn told(alloc: Global, run: &Run) -> Result<Ends, AllocError> {
    match run.waits.ended(1, &run.branch) {
        Some(end) => Ok(Ends {
            end: Some(end.copy(alloc)?),
        }),
        None => Ok(Ends { end: None }),
    }
}

/// The next entry was seen: the wait is told of it, and its template is tested whatever the entry changes.
fn note(
    alloc: Global,
    run: &mut Run,
    fired: &Many<Firing>,
    view: &View<'_>,
) -> Result<(), AllocError> {
    let tested = run.waits.tested(alloc, 0)?;
    run.waits.note(alloc, run.place, &tested, fired, view)?;
    run.place = run.place.saturating_add(1);
    Ok(())
}

/// The wait that a step asked for, if it did, takes the place of the one before.
fn ask(
    alloc: Global,
    run: &mut Run,
    branch: Branch,
    wait: Option<Held<WaitAsk>>,
) -> Result<(), AllocError> {
    let Some(wait) = wait else {
        return Ok(());
    };
    let mut waits = Waits::make(alloc);
    waits.add(alloc, wait.taken(), run.place, run.place)?;
    run.waits = waits;
    run.branch = branch;
    run.owner = run.place;
    Ok(())
}

/// The same, of an item that is not needed any more.
fn judged(alloc: Global, branch: &Branch, item: Item, said: &str) -> Result<bool, AllocError> {
    is_said(alloc, branch, &item, said)
}

/// Takes a step in this branch; whether it is the one that is said.
fn take(
    alloc: Global,
    run: &mut Run,
    seeing: &Seeing<'_>,
    branch: Branch,
    ends: &Ends,
    said: &str,
) -> Result<bool, AllocError> {
    let Some(
        Taken {
            item,
            progress,
            wait,
        },
    ) = run.script.step(alloc, &branch, ends, seeing)?
    else {
        return Ok(false);
    };
    run.progress = progress;
    let good = judged(alloc, &branch, item, said);
    ask(alloc, run, branch, wait)?;
    note(alloc, run, &Many::make(alloc), &seeing.view)?;
    good
}

/// Takes the first step that may be taken in this zone, without helpers; whether there is one, and it is the one that is said.
fn step_in<'a>(
    alloc: Global,
    home: &'a Home,
    zone: &'a Zone,
    helpers: &'a Helpers,
    run: &mut Run,
    said: &str,
) -> Result<bool, AllocError>
    requires { kept_in helpers.now ≡ [] }
{
    let Some(seeing) = seeing_of(home, zone, helpers) else {
        return Ok(false);
    };
    // The borrow checker builds its plan only where a place has the type that the view holds.
    let _ = &seeing.view;
    let ends = told(alloc, run)?;
    match run.script.first(alloc, seeing.now(), &ends)? {
        Some(branch) => take(alloc, run, &seeing, branch, &ends, said),
        None => Ok(false),
    }
}

/// The same in the zone of the tests.
fn step(alloc: Global, home: &Home, run: &mut Run, said: &str) -> Result<bool, AllocError> {
    let zone = utc(alloc)?;
    let helpers = Helpers::none(alloc);
    step_in(alloc, home, &zone, &helpers, run, said)
}

/// Whether a step may be taken.
fn may_step(alloc: Global, home: &Home, run: &Run) -> Result<bool, AllocError> {
    let Some(at) = Moment::of_millis(home.millis) else {
        return Ok(false);
    };
    let ends = told(alloc, run)?;
    Ok(run.script.first(alloc, at, &ends)?.is_some())
}

/// A trigger of the wait fires, with these variables.
fn firing(alloc: Global, owner: u64, trigger: &str) -> Result<Many<Firing>, AllocError> {
    let value = map(
        alloc,
        "platform",
        Value::Text(Word::from_str(alloc, trigger)?),
    )?;
    let env = Env::of_trigger(alloc, TriggerData::whole(alloc, value)?);
    one(
        alloc,
        Firing {
            owner,
            trigger: 0,
            entity: None,
            env,
        },
    )
}

/// An entry after which the home is as it is, at which this fires.
fn seen(
    alloc: Global,
    home: &Home,
    run: &mut Run,
    fired: &Many<Firing>,
) -> Result<bool, AllocError> {
    let zone = utc(alloc)?;
    match view_of(home, &zone) {
        Some(view) => {
            note(alloc, run, fired, &view)?;
            Ok(true)
        }
        None => Ok(false),
    }
}

/// A trigger of this kind fires for the wait at this entry: a moment line, or a report.
fn fire(
    alloc: Global,
    home: &mut Home,
    run: &mut Run,
    trigger: &str,
    line: &str,
) -> Result<bool, AllocError> {
    if !tell(alloc, home, line)? {
        return Ok(false);
    }
    let fired = firing(alloc, run.owner, trigger)?;
    seen(alloc, home, run, &fired)
}

/// The run that a call waits for ends at the next entry.
fn end_call(run: &mut Run) {
    run.waits.finish(1, &run.branch, run.place);
    run.place = run.place.saturating_add(1);
}

/// What comes next: a step, from its branch; a line; or `fires P` and a line, at which a trigger of the kind P fires for the wait; or
/// `ended`, where the run ended that a call waits for. Whether it can come.
fn next(alloc: Global, home: &mut Home, run: &mut Run, said: &str) -> Result<bool, AllocError> {
    if said.starts_with('[') {
        return step(alloc, home, run, said);
    }
    if said == "ended" {
        end_call(run);
        return Ok(true);
    }
    if let Some(rest) = said.strip_prefix("fires ") {
        return match rest.split_once(' ') {
            Some((trigger, line)) => fire(alloc, home, run, trigger, line),
            None => Ok(false),
        };
    }
    if !tell(alloc, home, said)? {
        return Ok(false);
    }
    seen(alloc, home, run, &Many::make(alloc))
}

/// Whether each of these comes after the other, and then no step may be taken.
fn all_come(
    alloc: Global,
    home: &mut Home,
    run: &mut Run,
    said: &[&str],
) -> Result<bool, AllocError> {
    for said in said {
        if !next(alloc, home, run, said)? {
            return Ok(false);
        }
    }
    Ok(!may_step(alloc, home, run)?)
}

/// Takes so many steps, in each of which nothing is done; whether they can be taken.
fn idle(alloc: Global, home: &Home, run: &mut Run, many: u32) -> Result<bool, AllocError> {
    for _ in 0..many {
        if !step(alloc, home, run, "[] nothing")? {
            return Ok(false);
        }
    }
    Ok(true)
}

/// What the automation's script is to do, or the first of those that are configured: nothing in so many steps, and then what is said, after
/// which no step may be taken, and it is so far.
#[derive(Clone, Copy)]
struct Wanted<'a> {
    called: bool,
    idle: u32,
    said: &'a [&'a str],
    progress: Progress,
}

/// Whether the run does it.
fn does(
    alloc: Global,
    home: &mut Home,
    run: &mut Run,
    wanted: &Wanted<'_>,
) -> Result<bool, AllocError> {
    if !idle(alloc, home, run, wanted.idle)? {
        return Ok(false);
    }
    Ok(all_come(alloc, home, run, wanted.said)? && run.progress == wanted.progress)
}

/// Whether the run of the script does it.
fn played(
    alloc: Global,
    home: &mut Home,
    script: Script,
    wanted: &Wanted<'_>,
) -> Result<bool, AllocError> {
    does(alloc, home, &mut run_of(alloc, script), wanted)
}

/// Whether the script of the home that is wanted does it. No function has both the home and the run where memory may be wanting: each
/// such place is dear to prove.
fn played_in(alloc: Global, home: &mut Home, wanted: &Wanted<'_>) -> Result<bool, AllocError>
    requires { IsSoundConfig home.old.config }
{
    match begin_wanted(alloc, &home.config, wanted.called)? {
        Some(script) => played(alloc, home, script, wanted),
        None => Ok(false),
    }
}

fn went(
    alloc: Global,
    scripts: &str,
    actions: &str,
    wanted: &Wanted<'_>,
) -> Result<bool, AllocError> {
    let Some(mut home) = home_with(alloc, "[]", actions, scripts)? else {
        return Ok(false);
    };
    played_in(alloc, &mut home, wanted)
}

/// Whether a script, in flow on one line, goes as it is said, and is then so far that no step may be taken.
pub fn goes(alloc: Global, actions: &str, said: &[&str], progress: Progress) -> bool {
    idles(alloc, actions, 0, said, progress)
}

/// Whether a script does nothing in so many steps, and then goes as it is said.
pub fn idles(alloc: Global, actions: &str, many: u32, said: &[&str], progress: Progress) -> bool {
    let wanted = Wanted {
        called: false,
        idle: many,
        said,
        progress,
    };
    is_gone(alloc, "{}", actions, &wanted)
}

/// The same of a script that may call these others.
pub fn goes_with(
    alloc: Global,
    scripts: &str,
    actions: &str,
    said: &[&str],
    progress: Progress,
) -> bool {
    let wanted = Wanted {
        called: false,
        idle: 0,
        said,
        progress,
    };
    is_gone(alloc, scripts, actions, &wanted)
}

/// The same of the first of these scripts itself.
pub fn called_goes(alloc: Global, scripts: &str, said: &[&str], progress: Progress) -> bool {
    let wanted = Wanted {
        called: true,
        idle: 0,
        said,
        progress,
    };
    is_gone(alloc, scripts, "[{action: light.x}]", &wanted)
}

/// Whether it does so, where memory suffices.
fn is_gone(alloc: Global, scripts: &str, actions: &str, wanted: &Wanted<'_>) -> bool {
    match went(alloc, scripts, actions, wanted) {
        Ok(is) => is,
        Err(_) => false,
    }
}
