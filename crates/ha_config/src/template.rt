//! The tree of a template.

use ha_value::{Boxed, Many, Value, Word};

/// A template's text as a tree. Its pieces are rendered in order and joined.
#[derive(Drop)]
#[cycle(template)]
pub struct Template {
    pub pieces: Many<Piece>,
}

/// One piece of a template.
#[derive(Drop)]
#[cycle(template)]
pub enum Piece {
    /// The text from one tag to the next, never empty.
    Text(Word),
    /// `{{ .. }}`.
    Show(Expr),
    /// `{% set .. %}`, which gives the name for the rest of the whole template.
    Assign {
        name: Word,
        value: Expr,
    },
    /// `{% if .. %}`: the first arm whose test is true, else the fallback, which has no pieces where there is no `else`.
    Choice {
        arms: Many<(Expr, Template)>,
        fallback: Template,
    },
}

/// An expression. Operators of one level group from the left, so a chain of them is as deep as it is long.
#[derive(Drop)]
pub enum Expr {
    Plain(Value),
    Name(Word),
    List(Many<Expr>),
    /// `base.name`.
    Field {
        base: Boxed<Expr>,
        name: Word,
    },
    /// `base[index]`.
    At {
        base: Boxed<Expr>,
        index: Boxed<Expr>,
    },
    /// `base|filter(args)`, the filter by its number: 1 `int`, 2 `float`, 3 `round`, 4 `abs`, 5 `lower`, 6 `upper`, 7 `trim`,
    /// 8 `length`, 9 `default`, 10 `first`, 11 `last`, 12 `replace`, 13 `string`, 14 `is_number`.
    Filter {
        name: u8,
        base: Boxed<Expr>,
        args: Many<Expr>,
    },
    /// `function(args)`, the function by its number: 1 `states`, 2 `state_attr`, 3 `is_state`, 4 `is_state_attr`, 5 `has_value`,
    /// 6 `int`, 7 `float`, 8 `min`, 9 `max`, 10 `iif`, 11 `is_number`.
    Function {
        name: u8,
        args: Many<Expr>,
    },
    Negate(Boxed<Expr>),
    Not(Boxed<Expr>),
    /// `is none` and `is not defined` where `holds`; `is not none` and `is defined` where not.
    IsNone {
        base: Boxed<Expr>,
        holds: bool,
    },
    Pair {
        op: Op,
        left: Boxed<Expr>,
        right: Boxed<Expr>,
    },
    /// `yes if test else no`; without `else` the empty text stands for `no`.
    Pick {
        test: Boxed<Expr>,
        yes: Boxed<Expr>,
        no: Option<Boxed<Expr>>,
    },
}

/// An operator between two expressions.
#[derive(Clone, Copy, Debug, PartialEq, Eq)]
pub enum Op {
    Or,
    And,
    /// `==`.
    Equal,
    /// `!=`.
    Unequal,
    /// `<`.
    Less,
    /// `<=`.
    AtMost,
    /// `>`.
    More,
    /// `>=`.
    AtLeast,
    /// `in`.
    Within,
    /// `not in`.
    Outside,
    /// `+`.
    Plus,
    /// `-`.
    Minus,
    /// `~`.
    Join,
    /// `*`.
    Times,
    /// `/`.
    Over,
    /// `//`.
    Floor,
    /// `%`.
    Modulo,
}
