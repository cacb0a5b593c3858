//! The lines of a YAML text.
use std::alloc::Global;
use yaml_scan::{Code, YamlFault, YamlLine, scan};

/// Whether the line stands there, with this indent and content.
fn is_line(lines: &[YamlLine], at: usize, number: u32, indent: u32, content: &str) -> bool {
    match lines.get(at) {
        Some(line) => {
            line.line == number && line.indent == indent && line.content.as_str() == content
        }
        None => false,
    }
}

/// Whether a short text has these three lines, by their indents and contents.
fn are_lines(alloc: Global, text: &[u8], wanted: &[(u32, &str)]) -> bool {
    if text.len() > 1000 {
        return false;
    }
    match scan(alloc, text) {
        Ok(lines) => has_lines(lines.as_slice(), wanted),
        Err(_) => false,
    }
}

fn has_lines(lines: &[YamlLine], wanted: &[(u32, &str)]) -> bool {
    let mut number = 1;
    for at in 0..wanted.len() {
        if !is_line(lines, at, number, wanted[at].0, wanted[at].1) {
            return false;
        }
        number = number.saturating_add(1);
    }
    lines.len() == wanted.len()
}

#[test]
fn lines_with_their_indents(rt: HostRuntime) {
    assert!(rt;
        are_lines(
            rt.alloc(),
            b"\xEF\xBB\xBFa:\r\n\n  - b # c\n",
            &[(0, "a:"), (0, ""), (2, "- b # c")]
        )
    );
}

/// Whether a short text is refused at this line with this code.
fn is_refused(alloc: Global, text: &[u8], line: u32, code: Code) -> bool {
    if text.len() > 1000 {
        return false;
    }
    match scan(alloc, text) {
        Err(YamlFault::Bad { line: at, code: by }) => at == line && by == code,
        _ => false,
    }
}

#[test]
fn faults_of_lines(rt: HostRuntime) {
    let alloc = rt.alloc();
    assert!(rt;
        is_refused(alloc, b"a: 1\n\tb: 2\n", 2, Code::Tab)
            && is_refused(alloc, b"a: 1\n---\n", 2, Code::LeftOut)
            && is_refused(alloc, b"a: 1\nb: \xFF\n", 2, Code::NotUtf8)
    );
}
