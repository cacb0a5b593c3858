//! Copies and comparisons of templates.
ghost use Rattle.std.specs.Prelude.{◌≡◌, ◌↔◌, IsTrue, IfOk};

use crate::template::{Expr, Op, Piece, Template};
use ha_value::{Boxed, Many, Plain, Word};
use std::alloc::{AllocError, Global};

#[cycle(copy_expr)]
fn copy_expr(alloc: Global, expr: &Expr) -> Result<Expr, AllocError>
    ensures { IfOk result (λ made. made ≡ expr.now) }
{
    match expr {
        Expr::Plain(value) => Ok(Expr::Plain(value.copy(alloc)?)),
        Expr::Name(name) => Ok(Expr::Name(name.copy(alloc)?)),
        Expr::List(items) => Ok(Expr::List(copy_exprs(alloc, items.as_slice())?)),
        Expr::Field { base, name } => Ok(Expr::Field {
            base: copy_boxed(alloc, base)?,
            name: name.copy(alloc)?,
        }),
        Expr::At { base, index } => Ok(Expr::At {
            base: copy_boxed(alloc, base)?,
            index: copy_boxed(alloc, index)?,
        }),
        Expr::Filter { name, base, args } => Ok(Expr::Filter {
            name: *name,
            base: copy_boxed(alloc, base)?,
            args: copy_exprs(alloc, args.as_slice())?,
        }),
        Expr::Function { name, args } => Ok(Expr::Function {
            name: *name,
            args: copy_exprs(alloc, args.as_slice())?,
        }),
        Expr::Negate(inner) => Ok(Expr::Negate(copy_boxed(alloc, inner)?)),
        Expr::Not(inner) => Ok(Expr::Not(copy_boxed(alloc, inner)?)),
        Expr::IsNone { base, holds } => Ok(Expr::IsNone {
            base: copy_boxed(alloc, base)?,
            holds: *holds,
        }),
        Expr::Pair { op, left, right } => Ok(Expr::Pair {
            op: *op,
            left: copy_boxed(alloc, left)?,
            right: copy_boxed(alloc, right)?,
        }),
        Expr::Pick { test, yes, no } => {
            let test = copy_boxed(alloc, test)?;
            let yes = copy_boxed(alloc, yes)?;
            match no {
                None => Ok(Expr::Pick {
                    test,
                    yes,
                    no: None,
                }),
                Some(other) => Ok(Expr::Pick {
                    test,
                    yes,
                    no: Some(copy_boxed(alloc, other)?),
                }),
            }
        }
    }
}

// A chain of operators is as deep as it is long: the copy of a level stands here, apart from the choice of its kind, so that a level takes
// little of the stack.
#[cycle(copy_expr)]
#[inline(never)]
fn copy_boxed(alloc: Global, expr: &Boxed<Expr>) -> Result<Boxed<Expr>, AllocError>
    ensures { IfOk result (λ made. made ≡ expr.now) }
{
    Boxed::new(alloc, copy_expr(alloc, expr.get())?)
}

#[cycle(copy_expr)]
fn copy_exprs(alloc: Global, items: &[Expr]) -> Result<Many<Expr>, AllocError>
    ensures { IfOk result (λ made. made ≡ items.now) }
{
    let mut all = Many::make(alloc);
    for i in 0..items.len() {
        all.push(copy_expr(alloc, &items[i])?)?;
    }
    Ok(all)
}

/// Whether two operators are the same.
fn same_op(left: Op, right: Op) -> bool
    ensures { IsTrue result ↔ (left ≡ right) }
{
    left == right
}

#[cycle(same_expr)]
fn same_expr(expr: &Expr, other: &Expr) -> bool
    ensures { IsTrue result ↔ (expr.now ≡ other.now) }
{
    match expr {
        Expr::Plain(a) => match other {
            Expr::Plain(b) => a.same(b),
            _ => false,
        },
        Expr::Name(a) => match other {
            Expr::Name(b) => a.same(b),
            _ => false,
        },
        Expr::List(a) => match other {
            Expr::List(b) => same_exprs(a.as_slice(), b.as_slice()),
            _ => false,
        },
        Expr::Field { base, name } => match other {
            Expr::Field { base: b, name: n } => { name.same(n) && same_expr(base.get(), b.get()) }
            _ => false,
        },
        Expr::At { base, index } => match other {
            Expr::At { base: b, index: i } => {
                same_expr(index.get(), i.get()) && same_expr(base.get(), b.get())
            }
            _ => false,
        },
        Expr::Filter { name, base, args } => match other {
            Expr::Filter {
                name: n,
                base: b,
                args: a,
            } => {
                *name == *n
                    && same_exprs(args.as_slice(), a.as_slice())
                    && same_expr(base.get(), b.get())
            }
            _ => false,
        },
        Expr::Function { name, args } => match other {
            Expr::Function { name: n, args: a } => {
                *name == *n && same_exprs(args.as_slice(), a.as_slice())
            }
            _ => false,
        },
        Expr::Negate(a) => match other {
            Expr::Negate(b) => same_expr(a.get(), b.get()),
            _ => false,
        },
        Expr::Not(a) => match other {
            Expr::Not(b) => same_expr(a.get(), b.get()),
            _ => false,
        },
        Expr::IsNone { base, holds } => match other {
            Expr::IsNone { base: b, holds: h } => { *holds == *h && same_expr(base.get(), b.get()) }
            _ => false,
        },
        Expr::Pair { op, left, right } => match other {
            Expr::Pair {
                op: o,
                left: l,
                right: r,
            } => {
                same_op(*op, *o)
                    && same_expr(right.get(), r.get())
                    && same_expr(left.get(), l.get())
            }
            _ => false,
        },
        Expr::Pick { test, yes, no } => match other {
            Expr::Pick {
                test: t,
                yes: y,
                no: n,
            } => {
                let heads = same_expr(test.get(), t.get()) && same_expr(yes.get(), y.get());
                match (no, n) {
                    (None, None) => heads,
                    (Some(a), Some(b)) => heads && same_expr(a.get(), b.get()),
                    _ => false,
                }
            }
            _ => false,
        },
    }
}

#[cycle(same_expr)]
fn same_exprs(left: &[Expr], right: &[Expr]) -> bool
    ensures { IsTrue result ↔ (left.now ≡ right.now) }
{
    if left.len() != right.len() {
        return false;
    }
    for i in 0..left.len() {
        if !same_expr(&left[i], &right[i]) {
            return false;
        }
    }
    true
}

impl Plain for Expr {
    fn copy(&self, alloc: Global) -> Result<Expr, AllocError> {
        copy_expr(alloc, self)
    }

    fn same(&self, other: &Expr) -> bool {
        same_expr(self, other)
    }
}

impl Plain for Op {
    fn copy(&self, _alloc: Global) -> Result<Op, AllocError> {
        Ok(*self)
    }

    fn same(&self, other: &Op) -> bool {
        same_op(*self, *other)
    }
}

#[cycle(copy_template)]
fn copy_template(alloc: Global, template: &Template) -> Result<Template, AllocError>
    ensures { IfOk result (λ made. made ≡ template.now) }
{
    Ok(Template {
        pieces: copy_pieces(alloc, template.pieces.as_slice())?,
    })
}

#[cycle(copy_template)]
fn copy_pieces(alloc: Global, pieces: &[Piece]) -> Result<Many<Piece>, AllocError>
    ensures { IfOk result (λ made. made ≡ pieces.now) }
{
    let mut all = Many::make(alloc);
    for i in 0..pieces.len() {
        all.push(copy_piece(alloc, &pieces[i])?)?;
    }
    Ok(all)
}

#[cycle(copy_template)]
fn copy_piece(alloc: Global, piece: &Piece) -> Result<Piece, AllocError>
    ensures { IfOk result (λ made. made ≡ piece.now) }
{
    match piece {
        Piece::Text(text) => Ok(Piece::Text(text.copy(alloc)?)),
        Piece::Show(expr) => Ok(Piece::Show(expr.copy(alloc)?)),
        Piece::Assign { name, value } => Ok(Piece::Assign {
            name: name.copy(alloc)?,
            value: value.copy(alloc)?,
        }),
        Piece::Choice { arms, fallback } => {
            let items = arms.as_slice();
            let mut all = Many::make(alloc);
            for i in 0..items.len() {
                let arm = &items[i];
                all.push((arm.0.copy(alloc)?, copy_template(alloc, &arm.1)?))?;
            }
            Ok(Piece::Choice {
                arms: all,
                fallback: copy_template(alloc, fallback)?,
            })
        }
    }
}

#[cycle(same_template)]
fn same_template(left: &Template, right: &Template) -> bool
    ensures { IsTrue result ↔ (left.now ≡ right.now) }
{
    same_pieces(left.pieces.as_slice(), right.pieces.as_slice())
}

#[cycle(same_template)]
fn same_pieces(left: &[Piece], right: &[Piece]) -> bool
    ensures { IsTrue result ↔ (left.now ≡ right.now) }
{
    if left.len() != right.len() {
        return false;
    }
    for i in 0..left.len() {
        if !same_piece(&left[i], &right[i]) {
            return false;
        }
    }
    true
}

#[cycle(same_template)]
fn same_piece(left: &Piece, right: &Piece) -> bool
    ensures { IsTrue result ↔ (left.now ≡ right.now) }
{
    match left {
        Piece::Text(text) => match right {
            Piece::Text(other) => text.same(other),
            _ => false,
        },
        Piece::Show(expr) => match right {
            Piece::Show(other) => expr.same(other),
            _ => false,
        },
        Piece::Assign { name, value } => match right {
            Piece::Assign {
                name: other_name,
                value: other_value,
            } => name.same(other_name) && value.same(other_value),
            _ => false,
        },
        Piece::Choice { arms, fallback } => match right {
            Piece::Choice {
                arms: other_arms,
                fallback: other_fallback,
            } => {
                let a = arms.as_slice();
                let b = other_arms.as_slice();
                if a.len() != b.len() {
                    return false;
                }
                for i in 0..a.len() {
                    let x = &a[i];
                    let y = &b[i];
                    if !(x.0.same(&y.0) && same_template(&x.1, &y.1)) {
                        return false;
                    }
                }
                same_template(fallback, other_fallback)
            }
            _ => false,
        },
    }
}

impl Plain for Template {
    fn copy(&self, alloc: Global) -> Result<Template, AllocError> {
        copy_template(alloc, self)
    }

    fn same(&self, other: &Template) -> bool {
        same_template(self, other)
    }
}

impl Plain for Piece {
    fn copy(&self, alloc: Global) -> Result<Piece, AllocError> {
        copy_piece(alloc, self)
    }

    fn same(&self, other: &Piece) -> bool {
        same_piece(self, other)
    }
}
