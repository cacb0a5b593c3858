//! Readings: a value, or the least fault of all parts.

ghost use Rattle.std.specs.Prelude.{◌≡◌, ◌∷◌, [], List, Option, Ok};
ghost use Rattle.yaml_scan.specs.Answers.{Gives};
ghost use Rattle.yaml_scan.specs.declared.fault.Fault.{Fault};
ghost use Rattle.yaml_tree.specs.Readers.{line_of};
ghost use Rattle.conf_field.specs.Kinds as kinds;
ghost use Rattle.conf_field.specs.Readings as readings;

use crate::kinds::Kind;
use ha_value::Many;
use std::alloc::Global;
use yaml_scan::{Code, Fault, YamlFault};
use yaml_tree::{Node, NodeKind};

/// The fault on the lesser line, and of one line the one with the lesser code.
fn lesser(f: Fault, g: Fault) -> Fault
    ensures { result ≡ readings.lesser f g }
{
    if g.line < f.line || (g.line == f.line && g.code.number() < f.code.number()) {
        g
    } else {
        f
    }
}

/// A fault.
pub fn bad<T>(line: u32, code: Code) -> Result<T, YamlFault>
    ensures { Gives (readings.bad line code) result }
{
    Err(YamlFault::Bad { line, code })
}

fn as_fault(fault: Fault) -> YamlFault
    ensures { result ≡ YamlFault.Bad fault.line fault.code }
{
    YamlFault::Bad {
        line: fault.line,
        code: fault.code,
    }
}

/// The lesser of two faults; where memory ran out, that.
fn worse(left: YamlFault, right: YamlFault) -> YamlFault
    ensures { result ≡ readings.worse left right }
{
    match left {
        YamlFault::Memory => YamlFault::Memory,
        YamlFault::Bad { line, code } => {
            let first = Fault { line, code };
            match right {
                YamlFault::Memory => YamlFault::Memory,
                YamlFault::Bad { line, code } => as_fault(lesser(first, Fault { line, code })),
            }
        }
    }
}

/// Two parts.
pub fn both<A: Drop, B: Drop>(
    left: Result<A, YamlFault>,
    right: Result<B, YamlFault>,
) -> Result<(A, B), YamlFault>
    ensures { (a : readings.Read A) → (b : readings.Read B) → Gives a left → Gives b right → Gives (readings.both a b) result }
{
    match left {
        Ok(x) => match right {
            Ok(y) => Ok((x, y)),
            Err(g) => Err(g),
        },
        Err(f) => match right {
            Ok(_) => Err(f),
            Err(g) => Err(worse(f, g)),
        },
    }
}

/// An item more, behind those before it.
pub fn behind<A: Drop>(
    before: Result<Many<A>, YamlFault>,
    item: Result<A, YamlFault>,
) -> Result<Many<A>, YamlFault>
    ensures { (a : readings.Read (List A)) → (b : readings.Read A) → Gives a before → Gives b item → Gives (readings.behind a b) result }
{
    match both(before, item) {
        Ok((items, last)) => {
            let mut items = items;
            items.push(last)?;
            Ok(items)
        }
        Err(fault) => Err(fault),
    }
}

fn with_maybe<A: Drop>(items: Many<A>, last: Option<A>) -> Result<Many<A>, YamlFault>
    ensures { Gives (Ok (readings.and_maybe items last)) result }
{
    match last {
        Some(item) => {
            let mut items = items;
            items.push(item)?;
            Ok(items)
        }
        None => Ok(items),
    }
}

/// One more behind those before it, where it is there.
pub fn keep<A: Drop>(
    before: Result<Many<A>, YamlFault>,
    item: Result<Option<A>, YamlFault>,
) -> Result<Many<A>, YamlFault>
    ensures { (a : readings.Read (List A)) → (b : readings.Read (Option A)) → Gives a before → Gives b item → Gives (readings.keep a b) result }
{
    match both(before, item) {
        Ok((items, last)) => with_maybe(items, last),
        Err(fault) => Err(fault),
    }
}

/// One alone, where it is there.
pub fn alone<A: Drop>(
    alloc: Global,
    item: Result<Option<A>, YamlFault>,
) -> Result<Many<A>, YamlFault>
    ensures { (m : readings.Read (Option A)) → Gives m item → Gives (readings.alone m) result }
{
    match item {
        Ok(item) => with_maybe(Many::make(alloc), item),
        Err(fault) => Err(fault),
    }
}

/// Nothing but a fault, where there is one.
pub fn unless(fault: Option<Fault>) -> Result<(), YamlFault>
    ensures { Gives (readings.unless fault) result }
{
    match fault {
        Some(fault) => Err(as_fault(fault)),
        None => Ok(()),
    }
}

/// Each of the nodes, by their own lines.
#[tactic(auto, unfolding(crate::specs::Readings::each_behind))]
pub fn each<K: Kind>(alloc: Global, items: &[Node]) -> Result<Many<K::Made>, YamlFault>
    ensures { Gives (readings.each (λ n. K.meaning (line_of n) n) items.now) result }
{
    let mut found = Ok(Many::make(alloc));
    'items: for i in 0..items.len() {
        let item = &items[i];
        found = behind(found, K::read(alloc, item.line, item));
    }
    found
}

fn list_of<A: Drop>(alloc: Global, item: Result<A, YamlFault>) -> Result<Many<A>, YamlFault>
    ensures { (m : readings.Read A) → Gives m item → Gives (readings.made (λ a. a ∷ []) m) result }
{
    match item {
        Ok(item) => {
            let mut all = Many::make(alloc);
            all.push(item)?;
            Ok(all)
        }
        Err(fault) => Err(fault),
    }
}

/// One alone, as a list.
fn lone<K: Kind>(alloc: Global, line: u32, node: &Node) -> Result<Many<K::Made>, YamlFault>
    ensures { Gives (readings.made (λ a. a ∷ []) (K.meaning line node.now)) result }
{
    list_of(alloc, K::read(alloc, line, node))
}

/// One, or a list of them.
pub fn several<K: Kind>(alloc: Global, line: u32, node: &Node) -> Result<Many<K::Made>, YamlFault>
    ensures { Gives (kinds.several K.meaning line node.now) result }
{
    match &node.kind {
        NodeKind::Scalar { .. } => lone::<K>(alloc, line, node),
        NodeKind::List(items) => each::<K>(alloc, items.as_slice()),
        NodeKind::Map(_) => lone::<K>(alloc, line, node),
    }
}
