//! The helpers of a configuration: the values of the keys `input_boolean`, `counter` and `timer`.

ghost use Rattle.std.specs.Prelude.{◌≡◌, ℕ, Bool, List, Option, None, Some, Result, codes};
ghost use Rattle.ha_value.specs.Lists.{after_first};
ghost use Rattle.yaml_tree.specs.Readers.{shape_of};
ghost use Rattle.ha_config.specs.declared.helper.Helper.{Helper as One};
ghost use Rattle.ha_config.specs.declared.helper.HelperKind.{HelperKind as Sort};
ghost use Rattle.yaml_scan.specs.Answers.{Gives};
ghost use Rattle.yaml_scan.specs.declared.fault.Fault.{Fault as Place};
ghost use Rattle.conf_field.specs.Fields as fields;
ghost use Rattle.yaml_scan.specs.declared.fault.Code.TheVariants as code;
ghost use Rattle.conf_field.specs.Readings as readings;
ghost use Rattle.conf_field.specs.Readings.{Read, made};
ghost use Rattle.conf_auto.specs.HelperMaps as maps;

use conf_field::rows::{
    COUNTER, DURATION, ICON, INITIAL, INPUT_BOOLEAN, MAXIMUM, MINIMUM, NAME, RESTORE, STEP, TIMER,
};
use conf_field::{
    Duration, Flag, Kind, Pair, Row, bad, behind, both, digits, keys, optional, place, scalar,
    unless,
};
use ha_clock::Span;
use ha_config::{Helper, HelperKind};
use ha_value::{EntityId, Many, is_name};
use std::alloc::Global;
use yaml_scan::{Code, Fault, YamlFault};
use yaml_tree::{Node, NodeKind};

const FLAG_ROWS: [Row; 3] = [INITIAL, NAME, ICON];

const COUNTER_ROWS: [Row; 7] = [INITIAL, STEP, MINIMUM, MAXIMUM, RESTORE, NAME, ICON];

const TIMER_ROWS: [Row; 4] = [DURATION, RESTORE, NAME, ICON];

/// The greatest number.
const MOST: i64 = 1_000_000_000_000;

// ---- whole numbers

/// The number of digits, from `low` on.
fn whole_from(low: u64, text: &[u8]) -> Option<i64>
    ensures { result ≡ maps.whole_from low text.now }
{
    match digits(MOST as u64 + 1, text) {
        Some(number) => {
            if low <= number && number <= MOST as u64 {
                return Some(number as i64);
            }
            None
        }
        None => None,
    }
}

/// The number of digits, perhaps with `-` before them.
fn signed(text: &[u8]) -> Option<i64>
    ensures { result ≡ maps.signed text.now }
{
    match text {
        [] => None,
        [first, rest @ ..] => {
            if *first == b'-' {
                return match whole_from(0, rest) {
                    Some(number) => Some(-number),
                    None => None,
                };
            }
            whole_from(0, text)
        }
    }
}

/// A whole number that a counter begins with.
struct First;

/// A whole number from 1 on.
struct Step;

/// A whole number, perhaps below zero.
struct Bound;

fn or_bad(line: u32, number: Option<i64>) -> Result<i64, YamlFault>
    ensures { Gives (readings.or_bad line code.Number number) result }
{
    match number {
        Some(number) => Ok(number),
        None => bad(line, Code::Number),
    }
}

impl Kind for First {
    type Made = i64;

    ghost meaning = { maps.first_number };

    fn read(_alloc: Global, line: u32, node: &Node) -> Result<i64, YamlFault> {
        match scalar(node) {
            Some(text) => or_bad(line, whole_from(0, text)),
            None => bad(line, Code::Number),
        }
    }
}

impl Kind for Step {
    type Made = i64;

    ghost meaning = { maps.step_number };

    fn read(_alloc: Global, line: u32, node: &Node) -> Result<i64, YamlFault> {
        match scalar(node) {
            Some(text) => or_bad(line, whole_from(1, text)),
            None => bad(line, Code::Number),
        }
    }
}

impl Kind for Bound {
    type Made = i64;

    ghost meaning = { maps.bound };

    fn read(_alloc: Global, line: u32, node: &Node) -> Result<i64, YamlFault> {
        match scalar(node) {
            Some(text) => or_bad(line, signed(text)),
            None => bad(line, Code::Number),
        }
    }
}

// ---- what a helper is, by the map under its key

/// One of the three domains.
trait Domain {
    ghost domain: { List ℕ };

    /// What the pairs of a helper's map are, by the line of the key that names it.
    ghost kind: { ℕ → List fields.Pair → Read Sort };

    fn domain() -> &'static str
        ensures same { result.now ≡ domain }
        ensures plain { after_first 46 result.now ≡ None };

    fn kind(alloc: Global, line: u32, pairs: &[Pair]) -> Result<HelperKind, YamlFault>
        ensures { Gives (kind line pairs.now) result };
}

struct Flags;

struct Counters;

struct Timers;

fn as_flag(read: Result<((), Option<bool>), YamlFault>) -> Result<HelperKind, YamlFault>
    ensures { (m : Read (Prim.Unit {0} × Option Bool)) → Gives m read → Gives (made maps.made_flag m) result }
{
    match read {
        Ok((_, initial)) => Ok(HelperKind::Flag {
            initial: initial.unwrap_or(false),
        }),
        Err(fault) => Err(fault),
    }
}

impl Domain for Flags {
    ghost domain = { codes "input_boolean" };

    ghost kind = { maps.flag_kind };

    fn domain() -> &'static str {
        "input_boolean"
    }

    fn kind(alloc: Global, _line: u32, pairs: &[Pair]) -> Result<HelperKind, YamlFault> {
        let known = keys(&[], &FLAG_ROWS, pairs);
        as_flag(both(known, optional::<Flag>(alloc, pairs, INITIAL)))
    }
}

type Bounds = (Option<i64>, (Option<i64>, (Option<i64>, Option<i64>)));

fn made_counter(bounds: Bounds) -> HelperKind
    ensures { result ≡ maps.made_counter bounds }
{
    let (initial, (step, (least, greatest))) = bounds;
    HelperKind::Counter {
        initial: initial.unwrap_or(0),
        step: step.unwrap_or(1),
        least: least.unwrap_or(-MOST),
        greatest: greatest.unwrap_or(MOST),
    }
}

fn is_apt(kind: &HelperKind) -> bool
    ensures { result ≡ maps.is_apt kind.now }
{
    match kind {
        HelperKind::Counter {
            initial,
            least,
            greatest,
            ..
        } => *least <= *initial && *initial <= *greatest,
        _ => true,
    }
}

/// The numbers of a counter, which fit each other.
fn apt_counter(line: u32, numbers: Result<Bounds, YamlFault>) -> Result<HelperKind, YamlFault>
    ensures { (m : Read maps.Bounds) → Gives m numbers → Gives (maps.passing maps.is_apt (readings.fault line code.Number) (made maps.made_counter m)) result }
{
    match numbers {
        Ok(bounds) => {
            let kind = made_counter(bounds);
            if is_apt(&kind) {
                return Ok(kind);
            }
            bad(line, Code::Number)
        }
        Err(fault) => Err(fault),
    }
}

fn as_counter(read: Result<((), HelperKind), YamlFault>) -> Result<HelperKind, YamlFault>
    ensures { (m : Read (Prim.Unit {0} × Sort)) → Gives m read → Gives (made maps.second_of m) result }
{
    match read {
        Ok((_, kind)) => Ok(kind),
        Err(fault) => Err(fault),
    }
}

impl Domain for Counters {
    ghost domain = { codes "counter" };

    ghost kind = { maps.counter_kind };

    fn domain() -> &'static str {
        "counter"
    }

    fn kind(alloc: Global, line: u32, pairs: &[Pair]) -> Result<HelperKind, YamlFault> {
        let known = keys(&[], &COUNTER_ROWS, pairs);
        let initial = optional::<First>(alloc, pairs, INITIAL);
        let step = optional::<Step>(alloc, pairs, STEP);
        let least = optional::<Bound>(alloc, pairs, MINIMUM);
        let greatest = optional::<Bound>(alloc, pairs, MAXIMUM);
        let numbers = both(initial, both(step, both(least, greatest)));
        as_counter(both(known, apt_counter(line, numbers)))
    }
}

fn no_span() -> Span
    ensures { result ≡ 0 }
{
    match Span::of(0) {
        Some(span) => span,
        None => unreachable!(),
    }
}

fn as_timer(read: Result<((), Option<Span>), YamlFault>) -> Result<HelperKind, YamlFault>
    ensures { (m : Read (Prim.Unit {0} × Option ℕ)) → Gives m read → Gives (made maps.made_timer m) result }
{
    match read {
        Ok((_, span)) => Ok(HelperKind::Timer {
            span: span.unwrap_or(no_span()),
        }),
        Err(fault) => Err(fault),
    }
}

impl Domain for Timers {
    ghost domain = { codes "timer" };

    ghost kind = { maps.timer_kind };

    fn domain() -> &'static str {
        "timer"
    }

    fn kind(alloc: Global, _line: u32, pairs: &[Pair]) -> Result<HelperKind, YamlFault> {
        let known = keys(&[], &TIMER_ROWS, pairs);
        as_timer(both(known, optional::<Duration>(alloc, pairs, DURATION)))
    }
}

// ---- the helpers of one key

/// The key has to be an object id.
fn id_fault(pair: &Pair) -> Option<Fault>
    ensures { result ≡ maps.id_fault pair.now }
{
    if is_name(pair.0.bytes()) {
        return None;
    }
    Some(Fault {
        line: pair.1,
        code: Code::EntityId,
    })
}

/// What stands under the key of a helper: its map, or null for an empty one.
fn kind_of<D: Domain>(alloc: Global, pair: &Pair) -> Result<HelperKind, YamlFault>
    ensures { Gives (maps.in_map (D.kind pair.now.1) (fields.place pair.now) pair.now.2) result }
{
    match &pair.2.kind {
        NodeKind::Scalar { .. } => {
            if pair.2.is_null() {
                return D::kind(alloc, pair.1, &[]);
            }
            bad(place(pair), Code::Kind)
        }
        NodeKind::List(_) => bad(place(pair), Code::Kind),
        NodeKind::Map(pairs) => D::kind(alloc, pair.1, pairs.as_slice()),
    }
}

fn named(
    alloc: Global,
    domain: &str,
    pair: &Pair,
    read: Result<((), HelperKind), YamlFault>,
) -> Result<Helper, YamlFault>
    requires { after_first 46 domain.now ≡ None }
    ensures { (m : Read (Prim.Unit {0} × Sort)) → Gives m read → Gives (made (maps.named domain.now pair.now) m) result }
{
    match read {
        Ok((_, kind)) => match EntityId::of_parts(alloc, domain, pair.0.as_str()) {
            Ok(entity) => Ok(Helper { entity, kind }),
            Err(_) => Err(YamlFault::Memory),
        },
        Err(fault) => Err(fault),
    }
}

fn helper<D: Domain>(alloc: Global, pair: &Pair) -> Result<Helper, YamlFault>
    ensures { Gives (maps.helper D.domain D.kind pair.now) result }
{
    let read = both(unless(id_fault(pair)), kind_of::<D>(alloc, pair));
    named(alloc, D::domain(), pair, read)
}

#[tactic(auto, unfolding(conf_field::specs::Readings::each_behind))]
fn helpers_from<D: Domain>(alloc: Global, pairs: &[Pair]) -> Result<Many<Helper>, YamlFault>
    ensures { Gives (readings.each (maps.helper D.domain D.kind) pairs.now) result }
{
    let mut found = Ok(Many::make(alloc));
    'pairs: for i in 0..pairs.len() {
        found = behind(found, helper::<D>(alloc, &pairs[i]));
    }
    found
}

/// A map of helpers by their object ids, or null for none.
fn helper_map<D: Domain>(alloc: Global, line: u32, node: &Node) -> Result<Many<Helper>, YamlFault>
    ensures { Gives (maps.helpers_of D.domain D.kind line node.now) result }
{
    match &node.kind {
        NodeKind::Scalar { .. } => {
            if node.is_null() {
                return helpers_from::<D>(alloc, &[]);
            }
            bad(line, Code::Kind)
        }
        NodeKind::List(_) => bad(line, Code::Kind),
        NodeKind::Map(pairs) => helpers_from::<D>(alloc, pairs.as_slice()),
    }
}

struct FlagMap;

struct CounterMap;

struct TimerMap;

impl Kind for FlagMap {
    type Made = Many<Helper>;

    ghost meaning = { maps.flags };

    fn read(alloc: Global, line: u32, node: &Node) -> Result<Many<Helper>, YamlFault> {
        helper_map::<Flags>(alloc, line, node)
    }
}

impl Kind for CounterMap {
    type Made = Many<Helper>;

    ghost meaning = { maps.counters };

    fn read(alloc: Global, line: u32, node: &Node) -> Result<Many<Helper>, YamlFault> {
        helper_map::<Counters>(alloc, line, node)
    }
}

impl Kind for TimerMap {
    type Made = Many<Helper>;

    ghost meaning = { maps.timers };

    fn read(alloc: Global, line: u32, node: &Node) -> Result<Many<Helper>, YamlFault> {
        helper_map::<Timers>(alloc, line, node)
    }
}

// ---- all helpers

/// Whether helpers stand under the key.
fn is_helpers(key: &[u8]) -> bool
    ensures { result ≡ maps.is_row maps.helper_rows key.now }
{
    INPUT_BOOLEAN.names(key) || COUNTER.names(key) || TIMER.names(key)
}

fn pairs_of(node: &Node) -> &[Pair]
    ensures { result.now ≡ maps.shape_pairs (shape_of node.now) }
{
    match &node.kind {
        NodeKind::Scalar { .. } => &[],
        NodeKind::List(_) => &[],
        NodeKind::Map(pairs) => pairs.as_slice(),
    }
}

/// The pairs that name helpers under a pair of the root.
fn named_by(pair: &Pair) -> &[Pair]
    ensures { result.now ≡ maps.named_by pair.now }
{
    if is_helpers(pair.0.bytes()) {
        return pairs_of(&pair.2);
    }
    &[]
}

/// The first helper behind 1,024, in the order of the text.
fn too_many(pairs: &[Pair]) -> Option<Fault>
    ensures { result ≡ maps.too_many pairs.now }
{
    let mut left: usize = 1_024;
    'pairs: for i in 0..pairs.len() {
        let named = named_by(&pairs[i]);
        if left < named.len() {
            return Some(Fault {
                line: place(&named[left]),
                code: Code::Limit,
            });
        }
        left -= named.len();
    }
    None
}

type Three = (
    Option<Many<Helper>>,
    (Option<Many<Helper>>, Option<Many<Helper>>),
);

/// Flags, counters and timers, one behind the other.
fn in_order(alloc: Global, parts: Result<((), Three), YamlFault>) -> Result<Many<Helper>, YamlFault>
    ensures { (m : Read maps.Three) → Gives m parts → Gives (made maps.in_order m) result }
{
    match parts {
        Ok((_, (flags, (counters, timers)))) => {
            let mut all = flags.unwrap_or(Many::make(alloc));
            all.append(counters.unwrap_or(Many::make(alloc)))?;
            all.append(timers.unwrap_or(Many::make(alloc)))?;
            Ok(all)
        }
        Err(fault) => Err(fault),
    }
}

/// The helpers of the pairs of the root.
pub(crate) fn helpers_in(alloc: Global, pairs: &[Pair]) -> Result<Many<Helper>, YamlFault>
    ensures { Gives (maps.helpers_in pairs.now) result }
{
    let flags = optional::<FlagMap>(alloc, pairs, INPUT_BOOLEAN);
    let counters = optional::<CounterMap>(alloc, pairs, COUNTER);
    let timers = optional::<TimerMap>(alloc, pairs, TIMER);
    let three = both(flags, both(counters, timers));
    in_order(alloc, both(unless(too_many(pairs)), three))
}
