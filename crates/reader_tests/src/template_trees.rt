//! Trees of templates, built from a list of their parts.
use ha_config::{Expr, Op};
use ha_value::{Boxed, Many, Num, Value, Word};
use std::alloc::{AllocError, Global};

/// A part of a tree, behind the parts that it holds.
#[derive(Clone, Copy)]
pub enum Part<'a> {
    Name(&'a str),
    Text(&'a str),
    Number(&'a str),
    /// The last two with an operator between them.
    Pair(Op),
    Negate,
    Not,
    /// Whether the last one is none, or is not.
    IsNone(bool),
    /// A filter, by its number, of one before its arguments, so many.
    Filter(u8, usize),
    /// A function, by its number, of so many arguments.
    Function(u8, usize),
    Field(&'a str),
    /// The last but one, at the last one.
    At,
    /// A list of one.
    ListOfOne,
    /// The first of the last three where the second is true, else the third.
    Pick,
    /// The first of the last two where the second is true.
    PickAlone,
}

/// The last tree that was built.
fn last(alloc: Global, built: &mut Many<Expr>) -> Result<Boxed<Expr>, AllocError> {
    match built.pop() {
        Some(expr) => Boxed::new(alloc, expr),
        None => Err(AllocError),
    }
}

fn plain(alloc: Global, part: Part<'_>) -> Result<Expr, AllocError> {
    match part {
        Part::Name(name) => Ok(Expr::Name(Word::from_str(alloc, name)?)),
        Part::Text(text) => Ok(Expr::Plain(Value::Text(Word::from_str(alloc, text)?))),
        Part::Number(text) => match Num::read(text.as_bytes()) {
            Some(number) => Ok(Expr::Plain(Value::Number(number))),
            None => Err(AllocError),
        },
        _ => Err(AllocError),
    }
}

fn pair(alloc: Global, built: &mut Many<Expr>, op: Op) -> Result<Expr, AllocError> {
    let right = last(alloc, built)?;
    match last(alloc, built) {
        Ok(left) => Ok(Expr::Pair { op, left, right }),
        Err(fault) => Err(fault),
    }
}

fn at(alloc: Global, built: &mut Many<Expr>) -> Result<Expr, AllocError> {
    let index = last(alloc, built)?;
    match last(alloc, built) {
        Ok(base) => Ok(Expr::At { base, index }),
        Err(fault) => Err(fault),
    }
}

fn field(alloc: Global, built: &mut Many<Expr>, name: &str) -> Result<Expr, AllocError> {
    let name = Word::from_str(alloc, name)?;
    match last(alloc, built) {
        Ok(base) => Ok(Expr::Field { base, name }),
        Err(fault) => Err(fault),
    }
}

/// The last trees, so many of at most two, in their order.
fn args(alloc: Global, built: &mut Many<Expr>, many: usize) -> Result<Many<Expr>, AllocError> {
    let mut all = Many::make(alloc);
    for _i in 0..many {
        match built.pop() {
            Some(expr) => all.insert(0, expr)?,
            None => return Err(AllocError),
        }
    }
    Ok(all)
}

fn filter(
    alloc: Global,
    built: &mut Many<Expr>,
    name: u8,
    many: usize,
) -> Result<Expr, AllocError> {
    let args = args(alloc, built, many)?;
    match last(alloc, built) {
        Ok(base) => Ok(Expr::Filter { name, base, args }),
        Err(fault) => Err(fault),
    }
}

/// A choice of the last two trees, and of what stands for the other case.
fn pick(
    alloc: Global,
    built: &mut Many<Expr>,
    no: Option<Boxed<Expr>>,
) -> Result<Expr, AllocError> {
    let test = last(alloc, built)?;
    match last(alloc, built) {
        Ok(yes) => Ok(Expr::Pick { test, yes, no }),
        Err(fault) => Err(fault),
    }
}

/// The tree of a part over those that were built.
fn tree(alloc: Global, built: &mut Many<Expr>, part: Part<'_>) -> Result<Expr, AllocError> {
    match part {
        Part::Pair(op) => pair(alloc, built, op),
        Part::Negate => Ok(Expr::Negate(last(alloc, built)?)),
        Part::Not => Ok(Expr::Not(last(alloc, built)?)),
        Part::IsNone(holds) => Ok(Expr::IsNone {
            base: last(alloc, built)?,
            holds,
        }),
        Part::Filter(name, many) => filter(alloc, built, name, many),
        Part::Function(name, many) => Ok(Expr::Function {
            name,
            args: args(alloc, built, many)?,
        }),
        Part::Field(name) => field(alloc, built, name),
        Part::At => at(alloc, built),
        Part::ListOfOne => Ok(Expr::List(args(alloc, built, 1)?)),
        Part::Pick => {
            let no = last(alloc, built)?;
            pick(alloc, built, Some(no))
        }
        Part::PickAlone => pick(alloc, built, None),
        _ => plain(alloc, part),
    }
}

/// Builds the next tree.
fn build(alloc: Global, built: &mut Many<Expr>, part: Part<'_>) -> Result<(), AllocError> {
    match tree(alloc, built, part) {
        Ok(expr) => Ok(built.push(expr)?),
        Err(fault) => Err(fault),
    }
}

/// The trees of these parts, in the order in which they are built.
fn trees(alloc: Global, parts: &[Part<'_>]) -> Result<Many<Expr>, AllocError> {
    let mut built = Many::make(alloc);
    for part in parts {
        build(alloc, &mut built, *part)?;
    }
    Ok(built)
}

/// The tree of the parts.
pub fn whole(alloc: Global, parts: &[Part<'_>]) -> Result<Expr, AllocError> {
    let mut built = trees(alloc, parts)?;
    match built.pop() {
        Some(expr) => Ok(expr),
        None => Err(AllocError),
    }
}
