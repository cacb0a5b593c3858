//! Expressions while they are read. What is left of a text that is refused is let go link by link, so that a chain may be as
//! long as its text, whatever the stack.

ghost use Rattle.std.specs.Prelude.{◌≡◌, ◌++◌, [], ◌∷◌, None, Some, length, IfOk, OnOk};
ghost use Rattle.ha_config.specs.declared.template.Expr.{Expr};
ghost use Rattle.std.specs.Option.{option_copied};

use ha_config::{Expr, Op, Piece, Template};
use ha_value::{Boxed, Many, Value, Word};
use std::alloc::{AllocError, AllocFailed, Global};
use std::marker::Model;

/// Lets an expression go. Its first operands are taken one after the other, what else is in it is no deeper than the grammar
/// lets expressions stand in one another.
#[cycle(discard)]
pub fn discard(expr: Expr) {
    let mut expr = expr;
    'links: loop {
        match expr {
            Expr::Plain(_) | Expr::Name(_) => return,
            Expr::List(items)
            | Expr::Function {
                name: _,
                args: items,
            } => return discard_all(items),
            Expr::Field { base, name: _ } => expr = base.into_inner(),
            Expr::At { base, index } => {
                discard(index.into_inner());
                expr = base.into_inner();
            }
            Expr::Filter {
                name: _,
                base,
                args,
            } => {
                discard_all(args);
                expr = base.into_inner();
            }
            Expr::Negate(inner) | Expr::Not(inner) => expr = inner.into_inner(),
            Expr::IsNone { base, holds: _ } => expr = base.into_inner(),
            Expr::Pair { op: _, left, right } => {
                discard(right.into_inner());
                expr = left.into_inner();
            }
            Expr::Pick { test, yes, no } => {
                if let Some(no) = no {
                    discard(no.into_inner());
                }
                discard(yes.into_inner());
                expr = test.into_inner();
            }
        }
    }
}

#[cycle(discard)]
fn discard_all(items: Many<Expr>) {
    let mut items = items;
    while let Some(expr) = items.pop() {
        discard(expr);
    }
}

/// Lets pieces go. Those of a choice's arms are put behind the others, so that choices may stand in one another as deep as a
/// text says.
pub fn discard_pieces(pieces: Many<Piece>) {
    let mut left = pieces;
    for _turn in 0..u64::MAX {
        match left.pop() {
            None => return,
            Some(Piece::Text(_text)) => {}
            Some(Piece::Show(expr)) => discard(expr),
            Some(Piece::Assign { name: _name, value }) => discard(value),
            Some(Piece::Choice { arms, fallback }) => {
                put_behind(&mut left, fallback);
                put_arms_behind(&mut left, arms);
            }
        }
    }
}

/// Lets the arms of a choice go.
pub fn discard_arms(arms: Many<(Expr, Template)>) {
    let mut arms = arms;
    for _turn in 0..u64::MAX {
        let Some((test, pieces)) = arms.pop() else {
            return;
        };
        discard(test);
        discard_pieces(pieces.pieces);
    }
}

/// Puts the pieces behind the others. Where memory runs out, they are let go as they are.
fn put_behind(left: &mut Many<Piece>, more: Template) {
    match left.append(more.pieces) {
        Ok(()) => {}
        Err(_) => {}
    }
}

fn put_arms_behind(left: &mut Many<Piece>, arms: Many<(Expr, Template)>) {
    let mut arms = arms;
    for _turn in 0..u64::MAX {
        let Some((test, pieces)) = arms.pop() else {
            return;
        };
        discard(test);
        put_behind(left, pieces);
    }
}

/// Lets a template go, of whatever length its text is. One that is dropped needs stack for each link of its chains.
pub fn discard_template(template: Template) {
    discard_pieces(template.pieces);
}

/// An expression. Contracts see the tree.
pub struct Tree {
    held: Boxed<Expr>,
}

impl Model for Tree {
    ghost use Rattle.ha_config.specs.declared.template.Expr.{Expr};
    ghost use Rattle.std.specs.Coded.{codes};
    ghost use Rattle.ha_config.specs.contracts.template.Expr as e;

    ghost Value = { Expr };

    ghost coded = { Prim.hlevel (codes, e.the_row.coded) };

    ghost view = { λ t. t.held };
}

impl Drop for Tree {
    fn drop(self) {
        let Tree { held } = self;
        discard(held.into_inner());
    }
}

impl Tree {
    fn new(alloc: Global, expr: Expr) -> Result<Tree, AllocError>
        ensures { IfOk result (λ made. made ≡ expr) }
    {
        Ok(Tree {
            held: Boxed::new(alloc, expr)?,
        })
    }

    pub fn into_boxed(self) -> Boxed<Expr>
        ensures { result ≡ self }
    {
        let Tree { held } = self;
        held
    }

    pub fn into_inner(self) -> Expr
        ensures { result ≡ self }
    {
        self.into_boxed().into_inner()
    }
}

/// Expressions that stand in a row. Contracts see the list of their trees.
pub struct Trees {
    held: Many<Expr>,
}

impl Model for Trees {
    ghost use Rattle.std.specs.Prelude.{List};
    ghost use Rattle.ha_config.specs.declared.template.Expr.{Expr};
    ghost use Rattle.std.specs.Coded.{codes};
    ghost use Rattle.ha_config.specs.contracts.template.Expr as e;

    ghost Value = { List Expr };

    ghost coded = { Prim.hlevel (codes, e.the_row.coded) };

    ghost view = { λ t. t.held };
}

impl Drop for Trees {
    fn drop(self) {
        let Trees { held } = self;
        discard_all(held);
    }
}

impl Trees {
    pub fn make(alloc: Global) -> Trees
        ensures { result ≡ [] }
    {
        Trees {
            held: Many::make(alloc),
        }
    }

    pub fn len(&self) -> usize
        ensures { result ≡ length self.now }
    {
        self.held.len()
    }

    /// Adds one behind the last one.
    pub fn push(&mut self, item: Expr) -> Result<(), AllocFailed<Expr>>
        ensures ok { OnOk result (self.new ≡ self.old ++ item ∷ []) }
    {
        self.held.push(item)
    }

    fn into_many(self) -> Many<Expr>
        ensures { result ≡ self }
    {
        let Trees { held } = self;
        held
    }
}

pub fn plain(alloc: Global, value: Value) -> Result<Tree, AllocError>
    ensures { IfOk result (λ made. made ≡ Expr.Plain value) }
{
    Tree::new(alloc, Expr::Plain(value))
}

pub fn named(alloc: Global, name: Word) -> Result<Tree, AllocError>
    ensures { IfOk result (λ made. made ≡ Expr.Name name) }
{
    Tree::new(alloc, Expr::Name(name))
}

pub fn list(alloc: Global, items: Trees) -> Result<Tree, AllocError>
    ensures { IfOk result (λ made. made ≡ Expr.List items) }
{
    Tree::new(alloc, Expr::List(items.into_many()))
}

/// `base.name`.
pub fn field(alloc: Global, base: Tree, name: Word) -> Result<Tree, AllocError>
    ensures { IfOk result (λ made. made ≡ Expr.Field base name) }
{
    Tree::new(
        alloc,
        Expr::Field {
            base: base.into_boxed(),
            name,
        },
    )
}

/// `base[index]`.
pub fn part_at(alloc: Global, base: Tree, index: Tree) -> Result<Tree, AllocError>
    ensures { IfOk result (λ made. made ≡ Expr.At base index) }
{
    Tree::new(
        alloc,
        Expr::At {
            base: base.into_boxed(),
            index: index.into_boxed(),
        },
    )
}

/// `base|filter(args)`.
pub fn filter_of(alloc: Global, name: u8, base: Tree, args: Trees) -> Result<Tree, AllocError>
    ensures { IfOk result (λ made. made ≡ Expr.Filter name base args) }
{
    Tree::new(
        alloc,
        Expr::Filter {
            name,
            base: base.into_boxed(),
            args: args.into_many(),
        },
    )
}

/// `function(args)`.
pub fn call_of(alloc: Global, name: u8, args: Trees) -> Result<Tree, AllocError>
    ensures { IfOk result (λ made. made ≡ Expr.Function name args) }
{
    Tree::new(
        alloc,
        Expr::Function {
            name,
            args: args.into_many(),
        },
    )
}

pub fn negative(alloc: Global, inner: Tree) -> Result<Tree, AllocError>
    ensures { IfOk result (λ made. made ≡ Expr.Negate inner) }
{
    Tree::new(alloc, Expr::Negate(inner.into_boxed()))
}

pub fn turned(alloc: Global, inner: Tree) -> Result<Tree, AllocError>
    ensures { IfOk result (λ made. made ≡ Expr.Not inner) }
{
    Tree::new(alloc, Expr::Not(inner.into_boxed()))
}

pub fn none_test_of(alloc: Global, base: Tree, holds: bool) -> Result<Tree, AllocError>
    ensures { IfOk result (λ made. made ≡ Expr.IsNone base holds) }
{
    Tree::new(
        alloc,
        Expr::IsNone {
            base: base.into_boxed(),
            holds,
        },
    )
}

pub fn pair(alloc: Global, op: Op, left: Tree, right: Tree) -> Result<Tree, AllocError>
    ensures { IfOk result (λ made. made ≡ Expr.Pair op left right) }
{
    Tree::new(
        alloc,
        Expr::Pair {
            op,
            left: left.into_boxed(),
            right: right.into_boxed(),
        },
    )
}

/// `yes if test else no`.
pub fn pick(alloc: Global, test: Tree, yes: Tree, no: Option<Tree>) -> Result<Tree, AllocError>
    ensures { IfOk result (λ made. made ≡ Expr.Pick test yes no) }
{
    let no = match no {
        Some(no) => Some(no.into_boxed()),
        None => None,
    };
    Tree::new(
        alloc,
        Expr::Pick {
            test: test.into_boxed(),
            yes: yes.into_boxed(),
            no,
        },
    )
}
