//! The filters and functions: their names, their numbers in the tree, and the numbers of arguments that they have.

ghost use Rattle.std.specs.Prelude.{◌≡◌};
ghost use Rattle.std.specs.List.{find};
ghost use Rattle.std.specs.Str.{bytes_eq};
ghost use Rattle.tpl_parse.specs.Names.{any_from, between, filter_named, farther, filter_row, filters_reach, function_named, function_row, may_stand, takes_behind};

use crate::token::common;

/// Numbers of arguments: at least, and at most where there is a bound.
#[derive(Clone, Copy, Debug, PartialEq, Eq)]
pub struct Counts {
    pub least: usize,
    pub most: Option<usize>,
}

impl Counts {
    /// At least so many.
    pub fn any_from(least: usize) -> Counts
        ensures { result ≡ any_from least }
    {
        Counts { least, most: None }
    }

    fn between(least: usize, most: usize) -> Counts
        ensures { result ≡ between least most }
    {
        Counts {
            least,
            most: Some(most),
        }
    }

    /// Whether a further argument may stand behind so many.
    pub fn takes_behind(self, count: usize) -> bool
        ensures { result ≡ takes_behind self.most count }
    {
        match self.most {
            Some(most) => count < most,
            None => true,
        }
    }
}

#[derive(Clone, Copy, Debug, PartialEq, Eq)]
pub enum Filter {
    Int,
    Float,
    Round,
    Abs,
    Lower,
    Upper,
    Trim,
    Length,
    Default,
    First,
    Last,
    Replace,
    String,
    IsNumber,
}

const FILTERS: [Filter; 14] = [
    Filter::Int,
    Filter::Float,
    Filter::Round,
    Filter::Abs,
    Filter::Lower,
    Filter::Upper,
    Filter::Trim,
    Filter::Length,
    Filter::Default,
    Filter::First,
    Filter::Last,
    Filter::Replace,
    Filter::String,
    Filter::IsNumber,
];

impl Filter {
    pub fn name(self) -> &'static [u8]
        ensures { result.now ≡ (filter_row self).name }
    {
        match self {
            Filter::Int => b"int",
            Filter::Float => b"float",
            Filter::Round => b"round",
            Filter::Abs => b"abs",
            Filter::Lower => b"lower",
            Filter::Upper => b"upper",
            Filter::Trim => b"trim",
            Filter::Length => b"length",
            Filter::Default => b"default",
            Filter::First => b"first",
            Filter::Last => b"last",
            Filter::Replace => b"replace",
            Filter::String => b"string",
            Filter::IsNumber => b"is_number",
        }
    }

    pub fn number(self) -> u8
        ensures { result ≡ (filter_row self).number }
    {
        match self {
            Filter::Int => 1,
            Filter::Float => 2,
            Filter::Round => 3,
            Filter::Abs => 4,
            Filter::Lower => 5,
            Filter::Upper => 6,
            Filter::Trim => 7,
            Filter::Length => 8,
            Filter::Default => 9,
            Filter::First => 10,
            Filter::Last => 11,
            Filter::Replace => 12,
            Filter::String => 13,
            Filter::IsNumber => 14,
        }
    }

    pub fn counts(self) -> Counts
        ensures { result ≡ (filter_row self).counts }
    {
        match self {
            Filter::Int | Filter::Float | Filter::Round => Counts::between(0, 1),
            Filter::Default => Counts::between(1, 1),
            Filter::Replace => Counts::between(2, 2),
            _ => Counts::between(0, 0),
        }
    }

    /// Whether it may stand there: where no expression may be opened, only one that needs no argument.
    pub fn may_stand(self, opens: bool) -> bool
        ensures { result ≡ may_stand opens self }
    {
        self.counts().least == 0 || opens
    }
}

/// How far the text goes on as a name: this filter's, where it may stand there, or one that goes so far.
fn farther(opens: bool, rest: &[u8], far: usize, filter: Filter) -> usize
    ensures { result ≡ farther opens rest.now far filter }
{
    if filter.may_stand(opens) {
        far.max(common(filter.name(), rest))
    } else {
        far
    }
}

fn filter_among(filters: &[Filter], name: &[u8]) -> Option<Filter>
    ensures { result ≡ find (λ filter. bytes_eq (filter_row filter).name name.now) filters.now }
{
    filters.iter().copied().find(|filter| filter.name() == name)
}

/// The filter of that name.
pub fn filter_named(name: &[u8]) -> Option<Filter>
    ensures { result ≡ filter_named name.now }
{
    filter_among(&FILTERS, name)
}

/// How far the text goes on as the name of a filter that may stand there.
pub fn filters_reach(opens: bool, rest: &[u8]) -> usize
    ensures { result ≡ filters_reach opens rest.now }
{
    FILTERS
        .iter()
        .fold(0, |far, filter| farther(opens, rest, far, *filter))
}

#[derive(Clone, Copy, Debug, PartialEq, Eq)]
pub enum Function {
    States,
    StateAttr,
    IsState,
    IsStateAttr,
    HasValue,
    Int,
    Float,
    Min,
    Max,
    Iif,
    IsNumber,
}

const FUNCTIONS: [Function; 11] = [
    Function::States,
    Function::StateAttr,
    Function::IsState,
    Function::IsStateAttr,
    Function::HasValue,
    Function::Int,
    Function::Float,
    Function::Min,
    Function::Max,
    Function::Iif,
    Function::IsNumber,
];

impl Function {
    pub fn name(self) -> &'static [u8]
        ensures { result.now ≡ (function_row self).name }
    {
        match self {
            Function::States => b"states",
            Function::StateAttr => b"state_attr",
            Function::IsState => b"is_state",
            Function::IsStateAttr => b"is_state_attr",
            Function::HasValue => b"has_value",
            Function::Int => b"int",
            Function::Float => b"float",
            Function::Min => b"min",
            Function::Max => b"max",
            Function::Iif => b"iif",
            Function::IsNumber => b"is_number",
        }
    }

    pub fn number(self) -> u8
        ensures { result ≡ (function_row self).number }
    {
        match self {
            Function::States => 1,
            Function::StateAttr => 2,
            Function::IsState => 3,
            Function::IsStateAttr => 4,
            Function::HasValue => 5,
            Function::Int => 6,
            Function::Float => 7,
            Function::Min => 8,
            Function::Max => 9,
            Function::Iif => 10,
            Function::IsNumber => 11,
        }
    }

    pub fn counts(self) -> Counts
        ensures { result ≡ (function_row self).counts }
    {
        match self {
            Function::States | Function::HasValue | Function::IsNumber => Counts::between(1, 1),
            Function::StateAttr | Function::IsState => Counts::between(2, 2),
            Function::IsStateAttr | Function::Iif => Counts::between(3, 3),
            Function::Int | Function::Float => Counts::between(1, 2),
            Function::Min | Function::Max => Counts::any_from(1),
        }
    }
}

fn function_among(functions: &[Function], name: &[u8]) -> Option<Function>
    ensures { result ≡ find (λ function. bytes_eq (function_row function).name name.now) functions.now }
{
    functions
        .iter()
        .copied()
        .find(|function| function.name() == name)
}

/// The function of that name.
pub fn function_named(name: &[u8]) -> Option<Function>
    ensures { result ≡ function_named name.now }
{
    function_among(&FUNCTIONS, name)
}
