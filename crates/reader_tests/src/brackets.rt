//! Flow of up to a megabyte, in far more brackets than nodes may stand in one another.
use std::alloc::{AllocError, Global};
use yaml_scan::YamlFault;
use yaml_tree::read_tree;

/// So many brackets that open, a text, and so many that close.
fn in_brackets(
    alloc: Global,
    opened: usize,
    inner: &[u8],
    closed: usize,
) -> Result<Vec<u8>, AllocError> {
    let mut text = Vec::new(alloc);
    for _i in 0..opened {
        text.push(b'[')?;
    }
    text.extend_from_slice(inner)?;
    for _i in 0..closed {
        text.push(b']')?;
    }
    Ok(text)
}

/// Whether the text is refused on line 1 with this code's number.
fn is_refused(alloc: Global, opened: usize, inner: &[u8], closed: usize, number: u8) -> bool {
    match in_brackets(alloc, opened, inner, closed) {
        Ok(text) => {
            if 1_048_576 < text.len() {
                return false;
            }
            match read_tree(alloc, text.as_slice()) {
                Err(YamlFault::Bad { line, code }) => line == 1 && code.number() == number,
                _ => false,
            }
        }
        Err(_) => false,
    }
}

#[test]
fn half_a_million_lists_in_one_another_are_over_the_limit(rt: HostRuntime) {
    let alloc = rt.alloc();
    assert!(rt;
        is_refused(alloc, 500_000, b"", 500_000, 12)
            && is_refused(alloc, 500_000, b"{a: 1, b: 2}", 500_000, 12)
    );
}

#[test]
fn other_faults_come_before_the_limit(rt: HostRuntime) {
    let alloc = rt.alloc();
    assert!(rt;
        is_refused(alloc, 500_000, b"{a: 1, a: 2}", 500_000, 4)
            && is_refused(alloc, 1_000_000, b"", 0, 3)
    );
}
