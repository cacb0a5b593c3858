//! Templates of up to a megabyte, whose chains are far deeper than a stack.
use conf_field::template_text;
use std::alloc::{AllocError, Global};
use tpl_parse::{ParseFault, parse};
use yaml_scan::{Code, YamlFault};

/// A text, a part so many times, another text, and as often what closes the part.
fn chain(
    alloc: Global,
    first: &[u8],
    part: &[u8],
    count: usize,
    close: &[u8],
    last: &[u8],
) -> Result<Vec<u8>, AllocError> {
    let mut all = Vec::new(alloc);
    all.extend_from_slice(first)?;
    for _i in 0..count {
        all.extend_from_slice(part)?;
    }
    for _i in 0..count {
        all.extend_from_slice(close)?;
    }
    all.extend_from_slice(last)?;
    Ok(all)
}

/// Whether the text is refused with this code.
fn is_refused(
    alloc: Global,
    first: &[u8],
    part: &[u8],
    count: usize,
    close: &[u8],
    last: &[u8],
    wanted: Code,
) -> bool {
    match chain(alloc, first, part, count, close, last) {
        Ok(text) => match template_text(alloc, 7, text.as_slice()) {
            Err(YamlFault::Bad { line, code }) => line == 7 && code == wanted,
            _ => false,
        },
        Err(_) => false,
    }
}

#[test]
fn long_chains_are_over_the_limit(rt: HostRuntime) {
    let alloc = rt.alloc();
    let over = Code::Limit;
    assert!(rt;
        is_refused(alloc, b"{{1", b"+1", 524_000, b"", b"}}", over)
            && is_refused(alloc, b"{{1 or 1", b" and 1", 174_000, b"", b"}}", over)
            && is_refused(alloc, b"{{[2, a", b".a", 524_000, b"", b"]}}", over)
            && is_refused(alloc, b"{{1", b"|abs", 262_000, b"", b"}}", over)
            && is_refused(alloc, b"", b"{%if 1%}", 61_000, b"{%endif%}", b"", over)
            && is_refused(alloc, b"", b"{{1}}", 200_000, b"", b"", over)
    );
}

#[test]
fn long_texts_outside_the_grammar_are_no_templates(rt: HostRuntime) {
    let alloc = rt.alloc();
    let none = Code::Template;
    assert!(rt;
        is_refused(alloc, b"{{1", b"+1", 524_000, b"", b"+}}", none)
            && is_refused(
                alloc,
                b"{{1 or 1",
                b" and 1",
                174_000,
                b"",
                b" and }}",
                none
            )
            && is_refused(alloc, b"{{[2, a", b".a", 524_000, b"", b",}}", none)
            && is_refused(alloc, b"{{1", b"|abs", 262_000, b"", b"|}}", none)
            && is_refused(
                alloc,
                b"{%if 1%}",
                b"{%if 1%}",
                61_000,
                b"{%endif%}",
                b"",
                none
            )
            && is_refused(alloc, b"", b"{{1}}", 200_000, b"", b"{{1}", none)
    );
}

/// The place of the fault in a tag with so many zeros between these bytes.
fn place_at_zeros(alloc: Global, before: &[u8], zeros: usize, behind: &[u8]) -> u32 {
    match chain(alloc, before, b"0", zeros, b"", behind) {
        Ok(text) => {
            if 1_048_576 < text.len() {
                return 0;
            }
            match parse(alloc, text.as_slice()) {
                Err(ParseFault::At(at)) => at,
                _ => 0,
            }
        }
        Err(_) => 0,
    }
}

#[test]
fn zeros_of_a_number_out_of_range_are_passed_once(rt: HostRuntime) {
    let alloc = rt.alloc();
    let many = 1_000_000;
    assert!(rt;
        place_at_zeros(alloc, b"{{", many, b"1000000000001}}") == 1_000_014
            && place_at_zeros(alloc, b"{{1000000000000.0000005", many, b"1}}") == 1_000_023
    );
}
