//! Values that may have templates in them, and spans that may.

ghost use Rattle.std.specs.Prelude.{◌≡◌, ◌∷◌, ◌++◌, [], ℕ, List, Option, Result, None, Some, Ok, codes};
ghost use Rattle.std.specs.List.{list_any};
ghost use Rattle.ha_value.specs.declared.value.Value.{Value as Datum};
ghost use Rattle.ha_config.specs.declared.config.Form.TheVariants as made_of;
ghost use Rattle.ha_config.specs.declared.config.SpanForm.TheVariants as spans_of;
ghost use Rattle.ha_config.specs.declared.template.Template.{Template as Tree};
ghost use Rattle.yaml_scan.specs.Answers.{Gives};
ghost use Rattle.yaml_scan.specs.declared.fault.Fault.{Fault};
ghost use Rattle.yaml_tree.specs.declared.node.Node.{Node};
ghost use Rattle.conf_field.specs.Fields as fields;
ghost use Rattle.conf_field.specs.Kinds as kinds;
ghost use Rattle.conf_field.specs.Readings.{Read, each, made};
ghost use Rattle.conf_script.specs.Forms as forms;

use conf_field::{
    Build, Kind, Pair, Row, SPAN_ROWS, are_digits, bad, bare_value, behind, both, data_of, field,
    holds_template, keys, optional, scalar, scalar_word, span_map, span_of, template_text,
};
use ha_clock::Span;
use ha_config::{Form, Piece, SpanForm, Template};
use ha_value::{Many, Plain, Value, Word};
use std::alloc::Global;
use yaml_scan::{Code, YamlFault};
use yaml_tree::{Node, NodeKind};

// ---- literal templates

fn one_piece(alloc: Global, piece: Piece) -> Result<Template, YamlFault>
    ensures { Gives (Ok (forms.one_piece piece)) result }
{
    let mut pieces = Many::make(alloc);
    pieces.push(piece)?;
    Ok(Template { pieces })
}

/// The template that renders to this text.
pub(crate) fn literal(alloc: Global, text: &Word) -> Result<Template, YamlFault>
    ensures { Gives (Ok (forms.literal text.now)) result }
{
    one_piece(alloc, Piece::Text(text.copy(alloc)?))
}

/// Whether the text holds a template.
fn holds(text: &Word) -> bool
    ensures { result ≡ kinds.holds_template text.now }
{
    holds_template(text.bytes())
}

/// The template of a text.
fn source(alloc: Global, line: u32, text: &Word) -> Result<Template, YamlFault>
    ensures { Gives (kinds.template_by line (Some text.now)) result }
{
    template_text(alloc, line, text.bytes())
}

// ---- forms

fn text_form(tree: Result<Template, YamlFault>) -> Result<Form, YamlFault>
    ensures { (m : Read Tree) → Gives m tree → Gives (made made_of.Text m) result }
{
    match tree {
        Ok(tree) => Ok(Form::Text(tree)),
        Err(fault) => Err(fault),
    }
}

fn plain_form(value: Result<Value, YamlFault>) -> Result<Form, YamlFault>
    ensures { (m : Read Datum) → Gives m value → Gives (made made_of.Plain m) result }
{
    match value {
        Ok(value) => Ok(Form::Plain(value)),
        Err(fault) => Err(fault),
    }
}

fn scalar_form(alloc: Global, line: u32, text: &Word, plain: bool) -> Result<Form, YamlFault>
    ensures { Gives (forms.scalar_form line text.now plain) result }
{
    if holds(text) {
        return text_form(source(alloc, line, text));
    }
    plain_form(bare_value(alloc, line, text, plain))
}

/// Values with templates in their texts.
pub(crate) struct Formed;

impl Build for Formed {
    type Made = Form;

    ghost leaf = { forms.scalar_form };

    ghost listed = { made_of.Items };

    ghost mapped = { made_of.Pairs };

    fn scalar(alloc: Global, line: u32, text: &Word, plain: bool) -> Result<Form, YamlFault> {
        scalar_form(alloc, line, text, plain)
    }

    fn list(items: Many<Form>) -> Form
        ensures { result ≡ made_of.Items items }
    {
        Form::Items(items)
    }

    fn map(pairs: Many<(Word, Form)>) -> Form
        ensures { result ≡ made_of.Pairs pairs }
    {
        Form::Pairs(pairs)
    }
}

/// A map of forms, or null for none.
pub(crate) struct Fields;

impl Kind for Fields {
    type Made = Many<(Word, Form)>;

    ghost meaning = { forms.fields };

    fn read(alloc: Global, line: u32, node: &Node) -> Result<Many<(Word, Form)>, YamlFault> {
        data_of::<Formed>(alloc, line, node)
    }
}

// ---- parts of spans, and counts

/// A template where the text holds one, else digits as they are written.
pub(crate) fn template_or_digits(
    alloc: Global,
    line: u32,
    text: &Word,
) -> Result<Template, YamlFault>
    ensures { Gives (forms.template_or_digits line text.now) result }
{
    if holds(text) {
        return source(alloc, line, text);
    }
    if are_digits(text.bytes()) {
        return literal(alloc, text);
    }
    bad(line, Code::Number)
}

/// A template, or digits.
pub(crate) struct Digits;

impl Kind for Digits {
    type Made = Template;

    ghost meaning = { forms.digits };

    fn read(alloc: Global, line: u32, node: &Node) -> Result<Template, YamlFault> {
        match scalar_word(node) {
            Some(text) => template_or_digits(alloc, line, text),
            None => bad(line, Code::Number),
        }
    }
}

fn zero(alloc: Global) -> Result<Template, YamlFault>
    ensures { Gives (Ok (forms.literal (codes "0"))) result }
{
    one_piece(alloc, Piece::Text(Word::from_str(alloc, "0")?))
}

/// A part that is not there is 0.
fn part_or(alloc: Global, part: Result<Option<Template>, YamlFault>) -> Result<Template, YamlFault>
    ensures { (m : Read (Option Tree)) → Gives m part → Gives (made forms.part_or m) result }
{
    match part {
        Ok(Some(tree)) => Ok(tree),
        Ok(None) => zero(alloc),
        Err(fault) => Err(fault),
    }
}

fn part_at(alloc: Global, pairs: &[Pair], row: Row) -> Result<Template, YamlFault>
    ensures { Gives (forms.part_at pairs.now row) result }
{
    part_or(alloc, optional::<Digits>(alloc, pairs, row))
}

#[tactic(auto, unfolding(conf_field::specs::Readings::each_behind))]
fn parts_of(alloc: Global, pairs: &[Pair], rows: &[Row]) -> Result<Many<Template>, YamlFault>
    ensures { Gives (each (forms.part_at pairs.now) rows.now) result }
{
    let mut found = Ok(Many::make(alloc));
    'rows: for i in 0..rows.len() {
        found = behind(found, part_at(alloc, pairs, rows[i]));
    }
    found
}

/// Whether the row's value holds a template.
fn holds_at(pairs: &[Pair], row: Row) -> bool
    ensures { result ≡ forms.is_template_at (fields.field row pairs.now) }
{
    match field(pairs, row) {
        Some(pair) => is_template(&pair.2),
        None => false,
    }
}

fn is_template(node: &Node) -> bool
    ensures { result ≡ forms.is_template (kinds.scalar node.now) }
{
    match scalar(node) {
        Some(text) => holds_template(text),
        None => false,
    }
}

fn any_template(pairs: &[Pair], rows: &[Row]) -> bool
    ensures { result ≡ list_any (λ r. forms.is_template_at (fields.field r pairs.now)) rows.now }
{
    rows.iter().any(|row| holds_at(pairs, *row))
}

fn has_template(pairs: &[Pair]) -> bool
    ensures { result ≡ forms.has_template pairs.now }
{
    any_template(pairs, &SPAN_ROWS)
}

fn made_parts(parts: Result<((), Many<Template>), YamlFault>) -> Result<SpanForm, YamlFault>
    ensures { (m : Read (Prim.Unit {0} × List Tree)) → Gives m parts → Gives (made forms.made_parts m) result }
{
    match parts {
        Ok((_, parts)) => Ok(SpanForm::Parts(parts)),
        Err(fault) => Err(fault),
    }
}

fn parts_map(alloc: Global, pairs: &[Pair]) -> Result<SpanForm, YamlFault>
    ensures { Gives (forms.parts_map pairs.now) result }
{
    let known = keys(&[], &SPAN_ROWS, pairs);
    made_parts(both(known, parts_of(alloc, pairs, &SPAN_ROWS)))
}

// ---- spans

fn known_span(span: Result<Span, YamlFault>) -> Result<SpanForm, YamlFault>
    ensures { (m : Read ℕ) → Gives m span → Gives (made spans_of.Known m) result }
{
    match span {
        Ok(span) => Ok(SpanForm::Known(span)),
        Err(fault) => Err(fault),
    }
}

fn text_span(tree: Result<Template, YamlFault>) -> Result<SpanForm, YamlFault>
    ensures { (m : Read Tree) → Gives m tree → Gives (made spans_of.Text m) result }
{
    match tree {
        Ok(tree) => Ok(SpanForm::Text(tree)),
        Err(fault) => Err(fault),
    }
}

fn span_text(alloc: Global, line: u32, text: &[u8]) -> Result<SpanForm, YamlFault>
    ensures { Gives (forms.span_text line (Some text.now)) result }
{
    if holds_template(text) {
        return text_span(template_text(alloc, line, text));
    }
    known_span(span_of(line, text))
}

fn map_span(alloc: Global, line: u32, pairs: &[Pair]) -> Result<SpanForm, YamlFault>
    ensures { Gives (forms.map_span line pairs.now) result }
{
    if has_template(pairs) {
        return parts_map(alloc, pairs);
    }
    known_span(span_map(line, pairs))
}

/// Whole seconds, `HH:MM`, `HH:MM:SS`, a template, or a map of parts that may be templates.
pub(crate) struct Lasting;

impl Kind for Lasting {
    type Made = SpanForm;

    ghost meaning = { forms.span_form };

    fn read(alloc: Global, line: u32, node: &Node) -> Result<SpanForm, YamlFault> {
        match &node.kind {
            NodeKind::Scalar { .. } => match scalar(node) {
                Some(text) => span_text(alloc, line, text),
                None => bad(line, Code::Time),
            },
            NodeKind::List(_) => bad(line, Code::Time),
            NodeKind::Map(pairs) => map_span(alloc, line, pairs.as_slice()),
        }
    }
}
