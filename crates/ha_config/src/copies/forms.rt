//! Copies and comparisons of the values in an action that may have to be rendered.
ghost use Rattle.std.specs.Prelude.{◌≡◌, ◌↔◌, IsTrue, IfOk};

use crate::config::{Form, SpanForm};
use ha_value::{Many, Plain, Word};
use std::alloc::{AllocError, Global};

#[cycle(copy_form)]
fn copy_form(alloc: Global, form: &Form) -> Result<Form, AllocError>
    ensures { IfOk result (λ made. made ≡ form.now) }
{
    match form {
        Form::Plain(value) => Ok(Form::Plain(value.copy(alloc)?)),
        Form::Text(template) => Ok(Form::Text(template.copy(alloc)?)),
        Form::Items(items) => Ok(Form::Items(copy_forms(alloc, items.as_slice())?)),
        Form::Pairs(pairs) => Ok(Form::Pairs(copy_fields(alloc, pairs.as_slice())?)),
    }
}

#[cycle(copy_form)]
fn copy_forms(alloc: Global, forms: &[Form]) -> Result<Many<Form>, AllocError>
    ensures { IfOk result (λ made. made ≡ forms.now) }
{
    let mut all = Many::make(alloc);
    for i in 0..forms.len() {
        all.push(copy_form(alloc, &forms[i])?)?;
    }
    Ok(all)
}

#[cycle(copy_form)]
fn copy_fields(alloc: Global, fields: &[(Word, Form)]) -> Result<Many<(Word, Form)>, AllocError>
    ensures { IfOk result (λ made. made ≡ fields.now) }
{
    let mut all = Many::make(alloc);
    for i in 0..fields.len() {
        let field = &fields[i];
        all.push((field.0.copy(alloc)?, copy_form(alloc, &field.1)?))?;
    }
    Ok(all)
}

#[cycle(same_form)]
fn same_form(left: &Form, right: &Form) -> bool
    ensures { IsTrue result ↔ (left.now ≡ right.now) }
{
    match left {
        Form::Plain(a) => match right {
            Form::Plain(b) => a.same(b),
            _ => false,
        },
        Form::Text(a) => match right {
            Form::Text(b) => a.same(b),
            _ => false,
        },
        Form::Items(a) => match right {
            Form::Items(b) => same_forms(a.as_slice(), b.as_slice()),
            _ => false,
        },
        Form::Pairs(a) => match right {
            Form::Pairs(b) => same_fields(a.as_slice(), b.as_slice()),
            _ => false,
        },
    }
}

#[cycle(same_form)]
fn same_forms(left: &[Form], right: &[Form]) -> bool
    ensures { IsTrue result ↔ (left.now ≡ right.now) }
{
    if left.len() != right.len() {
        return false;
    }
    for i in 0..left.len() {
        if !same_form(&left[i], &right[i]) {
            return false;
        }
    }
    true
}

#[cycle(same_form)]
fn same_fields(left: &[(Word, Form)], right: &[(Word, Form)]) -> bool
    ensures { IsTrue result ↔ (left.now ≡ right.now) }
{
    if left.len() != right.len() {
        return false;
    }
    for i in 0..left.len() {
        let a = &left[i];
        let b = &right[i];
        if !(a.0.same(&b.0) && same_form(&a.1, &b.1)) {
            return false;
        }
    }
    true
}

impl Plain for Form {
    fn copy(&self, alloc: Global) -> Result<Form, AllocError> {
        copy_form(alloc, self)
    }

    fn same(&self, other: &Form) -> bool {
        same_form(self, other)
    }
}

impl Plain for SpanForm {
    fn copy(&self, alloc: Global) -> Result<SpanForm, AllocError> {
        match self {
            SpanForm::Known(span) => Ok(SpanForm::Known(*span)),
            SpanForm::Text(template) => Ok(SpanForm::Text(template.copy(alloc)?)),
            SpanForm::Parts(parts) => Ok(SpanForm::Parts(parts.copy(alloc)?)),
        }
    }

    fn same(&self, other: &SpanForm) -> bool {
        match self {
            SpanForm::Known(a) => match other {
                SpanForm::Known(b) => *a == *b,
                _ => false,
            },
            SpanForm::Text(a) => match other {
                SpanForm::Text(b) => a.same(b),
                _ => false,
            },
            SpanForm::Parts(a) => match other {
                SpanForm::Parts(b) => a.same(b),
                _ => false,
            },
        }
    }
}
