//! Filters, and functions of values.
use ha_sight::TplFault;
use ha_value::{Many, Num, Plain, Value, Word};
use std::alloc::{AllocError, Global};
use tpl_fns::{filter, function_of_values};

/// A value that holds no other.
#[derive(Clone, Copy)]
enum Form<'a> {
    Text(&'a str),
    Whole(i64),
    Millionths(i64),
    True,
}

/// What is wanted of a call.
#[derive(Clone, Copy)]
enum Wanted<'a> {
    Gives(Form<'a>),
    Faults,
}

fn value(alloc: Global, form: Form<'_>) -> Result<Value, AllocError> {
    match form {
        Form::Text(text) => Ok(Value::Text(Word::from_str(alloc, text)?)),
        Form::Whole(number) => Ok(Value::Number(Num::Whole(number))),
        Form::Millionths(number) => Ok(Value::Number(Num::Fixed(number))),
        Form::True => Ok(Value::Flag(true)),
    }
}

fn push(alloc: Global, all: &mut Many<Value>, form: Form<'_>) -> Result<(), AllocError> {
    match value(alloc, form) {
        Ok(made) => Ok(all.push(made)?),
        Err(fault) => Err(fault),
    }
}

fn values(alloc: Global, forms: &[Form<'_>]) -> Result<Many<Value>, AllocError> {
    let mut all = Many::make(alloc);
    for form in forms {
        push(alloc, &mut all, *form)?;
    }
    Ok(all)
}

/// Whether the value has this form.
fn is(alloc: Global, found: &Value, form: Form<'_>) -> bool {
    match value(alloc, form) {
        Ok(wanted) => found.same(&wanted),
        Err(_) => false,
    }
}

fn answers(alloc: Global, found: &Result<Value, TplFault>, wanted: Wanted<'_>) -> bool {
    match (found, wanted) {
        (Ok(value), Wanted::Gives(form)) => is(alloc, value, form),
        (Err(TplFault::Fault), Wanted::Faults) => true,
        _ => false,
    }
}

/// Whether the filter of the first value with the others as its arguments does what is wanted.
fn filters(alloc: Global, name: u8, values: &[Value], wanted: Wanted<'_>) -> bool {
    match values {
        [first, args @ ..] => answers(alloc, &filter(alloc, name, first, args), wanted),
        [] => false,
    }
}

fn is_filtered(alloc: Global, name: u8, forms: &[Form<'_>], wanted: Wanted<'_>) -> bool {
    match values(alloc, forms) {
        Ok(all) => filters(alloc, name, all.as_slice(), wanted),
        Err(_) => false,
    }
}

/// Whether each filter, by its number, does what is wanted with a value and arguments.
fn are_filtered(alloc: Global, rows: &[(u8, &[Form<'_>], Wanted<'_>)]) -> bool {
    for row in rows {
        if !is_filtered(alloc, row.0, row.1, row.2) {
            return false;
        }
    }
    true
}

#[test]
fn numbers_are_made(rt: HostRuntime) {
    let unknown = Form::Text("unknown");
    assert!(rt;
        are_filtered(
            rt.alloc(),
            &[
                (
                    3,
                    &[Form::Millionths(2_500_000)],
                    Wanted::Gives(Form::Whole(2))
                ),
                (4, &[Form::Whole(-7)], Wanted::Gives(Form::Whole(7))),
                (1, &[unknown], Wanted::Faults),
                (1, &[unknown, Form::Whole(0)], Wanted::Gives(Form::Whole(0))),
                (
                    1,
                    &[Form::Text(" -2.9\n"), Form::Whole(0)],
                    Wanted::Gives(Form::Whole(-2))
                ),
                (15, &[unknown], Wanted::Faults),
            ]
        )
    );
}

#[test]
fn texts_are_made(rt: HostRuntime) {
    let word = Form::Text("aaAb");
    assert!(rt;
        are_filtered(
            rt.alloc(),
            &[
                (5, &[word], Wanted::Gives(Form::Text("aaab"))),
                (6, &[Form::True], Wanted::Gives(Form::Text("TRUE"))),
                (
                    7,
                    &[Form::Text("\t x y \r\n")],
                    Wanted::Gives(Form::Text("x y"))
                ),
                (8, &[Form::Text("dé")], Wanted::Gives(Form::Whole(2))),
                (
                    12,
                    &[Form::Text("aaa."), Form::Text("aa"), Form::Text("b")],
                    Wanted::Gives(Form::Text("ba."))
                ),
                (12, &[word, Form::Text(""), Form::Text("b")], Wanted::Faults),
            ]
        )
    );
}

/// Whether the function, by its number of at least 6, does what is wanted of these values.
fn is_given(alloc: Global, name: u8, forms: &[Form<'_>], wanted: Wanted<'_>) -> bool {
    if name < 6 {
        return false;
    }
    match values(alloc, forms) {
        Ok(all) => answers(
            alloc,
            &function_of_values(alloc, name, all.as_slice()),
            wanted,
        ),
        Err(_) => false,
    }
}

/// The same of one list of these values.
fn is_given_of_list(alloc: Global, name: u8, forms: &[Form<'_>], wanted: Wanted<'_>) -> bool {
    if name < 6 {
        return false;
    }
    match values(alloc, forms) {
        Ok(all) => answers(
            alloc,
            &function_of_values(alloc, name, &[Value::Items(all)]),
            wanted,
        ),
        Err(_) => false,
    }
}

#[test]
fn functions_give_values(rt: HostRuntime) {
    let alloc = rt.alloc();
    let three = Form::Millionths(3_000_000);
    assert!(rt;
        is_given(
            alloc,
            8,
            &[Form::Whole(4), three, Form::Whole(3)],
            Wanted::Gives(three)
        ) && is_given_of_list(
            alloc,
            9,
            &[Form::Whole(3), three],
            Wanted::Gives(Form::Whole(3))
        ) && is_given(
            alloc,
            10,
            &[Form::Whole(0), Form::Whole(1), Form::Whole(2)],
            Wanted::Gives(Form::Whole(2))
        ) && is_given(alloc, 8, &[], Wanted::Faults)
    );
}
