//! Texts and their trees, written out by hand, and the places of faults.
use crate::template_trees::{Part, whole};
use ha_config::{Expr, Op, Piece, Template};
use ha_value::{Many, Num, Plain, Value, Word};
use std::alloc::{AllocError, Global};
use tpl_parse::{ParseFault, parse};

/// Whether the text is read as these pieces.
fn reads(alloc: Global, text: &str, pieces: Many<Piece>) -> bool {
    if 60_000 < text.len() {
        return false;
    }
    match parse(alloc, text.as_bytes()) {
        Ok(template) => template.same(&Template { pieces }),
        Err(_) => false,
    }
}

/// A list of one piece.
fn one(alloc: Global, piece: Piece) -> Result<Many<Piece>, AllocError> {
    let mut pieces = Many::make(alloc);
    pieces.push(piece)?;
    Ok(pieces)
}

/// Whether the text is one tag that shows the tree of these parts.
fn shows(alloc: Global, text: &str, parts: &[Part<'_>]) -> bool {
    match whole(alloc, parts) {
        Ok(expr) => match one(alloc, Piece::Show(expr)) {
            Ok(pieces) => reads(alloc, text, pieces),
            Err(_) => false,
        },
        Err(_) => false,
    }
}

#[test]
fn a_sign_is_nearer_than_an_operator(rt: HostRuntime) {
    let parts = [
        Part::Number("7"),
        Part::Negate,
        Part::Number("2"),
        Part::Pair(Op::Floor),
    ];
    assert!(rt; shows(rt.alloc(), "{{ -7 // 2 }}", &parts));
}

#[test]
fn operators_of_one_level_group_from_the_left(rt: HostRuntime) {
    let parts = [
        Part::Name("a"),
        Part::Name("b"),
        Part::Pair(Op::Minus),
        Part::Name("c"),
        Part::Pair(Op::Minus),
    ];
    assert!(rt; shows(rt.alloc(), "{{a-b - c}}", &parts));
}

#[test]
fn each_level_is_nearer_than_the_one_before(rt: HostRuntime) {
    let parts = [
        Part::Name("a"),
        Part::Name("b"),
        Part::Name("c"),
        Part::Name("d"),
        Part::Name("e"),
        Part::Name("f"),
        Part::Name("g"),
        Part::Filter(1, 0),
        Part::Pair(Op::Times),
        Part::Pair(Op::Join),
        Part::Pair(Op::Plus),
        Part::Pair(Op::Equal),
        Part::Not,
        Part::Pair(Op::And),
        Part::Pair(Op::Or),
    ];
    assert!(rt;
        shows(
            rt.alloc(),
            "{{ a or b and not c == d + e ~ f * g|int }}",
            &parts
        )
    );
}

#[test]
fn calls_and_filters(rt: HostRuntime) {
    let parts = [
        Part::Text("sensor.no"),
        Part::Function(1, 1),
        Part::Number("0"),
        Part::Filter(1, 1),
        Part::Filter(4, 0),
    ];
    assert!(rt; shows(rt.alloc(), "{{ states('sensor.no')|int(0)|abs() }}", &parts));
}

#[test]
fn keys_places_and_lists(rt: HostRuntime) {
    let parts = [
        Part::Name("trigger"),
        Part::Field("event"),
        Part::Number("1.50"),
        Part::ListOfOne,
        Part::At,
    ];
    assert!(rt; shows(rt.alloc(), "{{ (trigger).event[[1.5]] }}", &parts));
}

#[test]
fn tests_and_choices(rt: HostRuntime) {
    let alloc = rt.alloc();
    let parts = [
        Part::Name("a"),
        Part::Name("b"),
        Part::Pair(Op::Outside),
        Part::Name("c"),
        Part::IsNone(false),
        Part::Name("d"),
        Part::Name("e"),
        Part::PickAlone,
        Part::Pick,
    ];
    assert!(rt;
        shows(
            alloc,
            "{{ a not in b if c is defined else d if e }}",
            &parts
        )
    );
    assert!(rt;
        shows(
            alloc,
            "{{ x is not None }}",
            &[Part::Name("x"), Part::IsNone(false)]
        )
    );
}

#[test]
fn escapes_of_strings(rt: HostRuntime) {
    let parts = [Part::Text("'\"\\\n\t\\q' }}é")];
    assert!(rt; shows(rt.alloc(), "{{ '\\'\\\"\\\\\\n\\t\\q\\' }}é' }}", &parts));
}

fn push_text(pieces: &mut Many<Piece>, alloc: Global, text: &str) -> Result<(), AllocError> {
    let piece = Piece::Text(Word::from_str(alloc, text)?);
    pieces.push(piece)?;
    Ok(())
}

/// Texts, one behind the other.
fn texts(alloc: Global, all: &[&str]) -> Result<Many<Piece>, AllocError> {
    let mut pieces = Many::make(alloc);
    for text in all {
        push_text(&mut pieces, alloc, text)?;
    }
    Ok(pieces)
}

/// Whether the text is read as two texts.
fn is_two(alloc: Global, text: &str, first: &str, second: &str) -> bool {
    match texts(alloc, &[first, second]) {
        Ok(pieces) => reads(alloc, text, pieces),
        Err(_) => false,
    }
}

#[test]
fn comments_part_texts_and_signs_trim_them(rt: HostRuntime) {
    let alloc = rt.alloc();
    assert!(rt;
        is_two(alloc, " a {# { } é #} b ", " a ", " b ")
            && is_two(alloc, "a \n{#- x -#}\t b ", "a", "b ")
            && is_two(alloc, "a {#-#} b", "a", " b")
            && is_two(alloc, " {#--#} a {##}{ } {# #}", "a ", "{ } ")
    );
}

/// The name `x` is set to 1, and then comes the text `y`.
fn set_and_text(alloc: Global) -> Result<Many<Piece>, AllocError> {
    let name = Word::from_str(alloc, "x")?;
    let value = Expr::Plain(Value::Number(Num::Whole(1)));
    let mut pieces = one(alloc, Piece::Assign { name, value })?;
    push_text(&mut pieces, alloc, "y")?;
    Ok(pieces)
}

#[test]
fn names_are_set(rt: HostRuntime) {
    let alloc = rt.alloc();
    assert!(rt;
        match set_and_text(alloc) {
            Ok(pieces) => reads(alloc, "{%set x = 1 -%}\n y", pieces),
            Err(_) => false,
        }
    );
}

/// Adds an arm of one text.
fn push_arm(
    arms: &mut Many<(Expr, Template)>,
    alloc: Global,
    test: &str,
    text: &str,
) -> Result<(), AllocError> {
    let pieces = texts(alloc, &[text])?;
    let test = Expr::Name(Word::from_str(alloc, test)?);
    arms.push((test, Template { pieces }))?;
    Ok(())
}

/// Two arms and a fallback, of a text each.
fn arms(alloc: Global) -> Result<Many<Piece>, AllocError> {
    let mut arms = Many::make(alloc);
    push_arm(&mut arms, alloc, "a", "1")?;
    push_arm(&mut arms, alloc, "b", "2")?;
    let pieces = texts(alloc, &["3"])?;
    let fallback = Template { pieces };
    one(alloc, Piece::Choice { arms, fallback })
}

#[test]
fn arms_and_a_fallback(rt: HostRuntime) {
    let alloc = rt.alloc();
    assert!(rt;
        match arms(alloc) {
            Ok(pieces) => reads(
                alloc,
                "{% if a %}1{% elif b -%} 2{% else %}3 {%- endif %}",
                pieces
            ),
            Err(_) => false,
        }
    );
}

/// The place of the text's fault, and a million where it is read.
fn place(alloc: Global, text: &[u8]) -> u32 {
    if 60_000 < text.len() {
        return 0;
    }
    match parse(alloc, text) {
        Err(ParseFault::At(at)) => at,
        Err(ParseFault::Memory) => 0,
        Ok(_) => 1_000_000,
    }
}

/// Whether each text has its fault there.
fn are_faults(alloc: Global, rows: &[(&str, u32)]) -> bool {
    for row in rows {
        if place(alloc, row.0.as_bytes()) != row.1 {
            return false;
        }
    }
    true
}

#[test]
fn faults_have_the_first_byte_at_which_no_reading_goes_on(rt: HostRuntime) {
    let alloc = rt.alloc();
    assert!(rt;
        are_faults(
            alloc,
            &[
                ("{{ x|lowe }}", 9),
                ("{{ x|lowx }}", 8),
                ("{{ x|lowers }}", 10),
                ("{{ a %}", 6),
                ("{{ 1000000000001 }}", 15),
                ("{{ 1000000000000.0000006 }}", 23),
                ("{{ a", 4),
                ("{% if a %}x", 11),
                ("{# x", 4),
                ("{{ 'x", 5),
                ("{{ states }}", 10),
                ("{{ states(a, b) }}", 11),
                ("{{ is_state(a) }}", 13),
                ("{{ x|default }}", 13),
                ("{{ x.if }}", 7),
                ("{{ a = b }}", 6),
                ("{{ a == b == c }}", 10),
                ("{{ a is none | int }}", 13),
                ("{{ a if b el }}", 12),
                ("{{ a -}x", 7),
                ("{{ [1,] }}", 6),
                ("{% endif %}", 3),
                ("{% if a %}{% else %}{% elif", 24),
                ("{% set x == 1 %}", 10),
            ]
        )
    );
    assert!(rt; place(alloc, b"a\xed\xa0\x80") == 2);
}

/// The opening text so many times, a name, and the closing text as often.
fn nested(alloc: Global, open: &[u8], count: usize, close: &[u8]) -> Result<Vec<u8>, AllocError> {
    let mut all = Vec::new(alloc);
    all.extend_from_slice(b"{{")?;
    for _i in 0..count {
        all.extend_from_slice(open)?;
    }
    all.push(b'a')?;
    for _i in 0..count {
        all.extend_from_slice(close)?;
    }
    all.extend_from_slice(b"}}")?;
    Ok(all)
}

/// Whether that text has its fault there; a million where it is read.
fn is_place(alloc: Global, open: &[u8], count: usize, close: &[u8], wanted: u32) -> bool {
    match nested(alloc, open, count, close) {
        Ok(text) => place(alloc, text.as_slice()) == wanted,
        Err(_) => false,
    }
}

#[test]
fn sixty_four_expressions_may_be_open(rt: HostRuntime) {
    let alloc = rt.alloc();
    assert!(rt;
        is_place(alloc, b"(", 63, b")", 1_000_000)
            && is_place(alloc, b"(", 64, b")", 65)
            && is_place(alloc, b"not ", 63, b"", 1_000_000)
            && is_place(alloc, b"not ", 64, b"", 257)
    );
}

/// The opening of a tag, so many open groups, and a text.
fn behind_groups(alloc: Global, count: usize, text: &[u8]) -> Result<Vec<u8>, AllocError> {
    let mut all = Vec::new(alloc);
    all.extend_from_slice(b"{{")?;
    for _i in 0..count {
        all.push(b'(')?;
    }
    all.extend_from_slice(text)?;
    Ok(all)
}

/// Whether a text behind so many open groups has its fault there.
fn is_place_behind(alloc: Global, count: usize, text: &[u8], wanted: u32) -> bool {
    match behind_groups(alloc, count, text) {
        Ok(text) => place(alloc, text.as_slice()) == wanted,
        Err(_) => false,
    }
}

#[test]
fn where_no_expression_may_be_opened_nothing_with_arguments_begins(rt: HostRuntime) {
    let alloc = rt.alloc();
    assert!(rt;
        is_place_behind(alloc, 63, b"x|de", 67)
            && is_place_behind(alloc, 63, b"x|replace(1)", 68)
            && is_place_behind(alloc, 63, b"states )", 71)
            && is_place_behind(alloc, 63, b"x|int(1)", 71)
            && is_place_behind(alloc, 62, b"x|de", 68)
            && is_place_behind(alloc, 62, b"states )", 71)
    );
}

#[test]
fn the_longest_chains_are_read(rt: HostRuntime) {
    let alloc = rt.alloc();
    assert!(rt;
        is_place(alloc, b"", 8_190, b"+a", 1_000_000)
            && is_place(alloc, b"", 8_190, b".a", 1_000_000)
            && is_place(alloc, b"", 4_095, b"|abs", 1_000_000)
    );
}
