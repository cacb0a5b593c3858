//! The trees of YAML texts, and their nodes as texts and entity ids.
use std::alloc::{AllocError, Global};
use yaml_scan::{Code, YamlFault};
use yaml_tree::{Node, NodeKind, read_tree};

/// Whether a short text is refused at this line with the code of this number.
fn is_refused(alloc: Global, text: &[u8], line: u32, code: u8) -> bool {
    if 4096 < text.len() {
        return false;
    }
    match read_tree(alloc, text) {
        Err(YamlFault::Bad { line: at, code: by }) => at == line && by.number() == code,
        _ => false,
    }
}

fn are_refused(alloc: Global, rows: &[(&[u8], u32, u8)]) -> bool {
    for row in rows {
        if !is_refused(alloc, row.0, row.1, row.2) {
            return false;
        }
    }
    true
}

/// A pair of a map: the key, its line, and the text and plainness of its scalar.
#[derive(Clone, Copy)]
struct Told<'a> {
    key: &'a str,
    line: u32,
    text: &'a str,
    plain: bool,
}

fn pair<'a>(key: &'a str, line: u32, text: &'a str, plain: bool) -> Told<'a> {
    Told {
        key,
        line,
        text,
        plain,
    }
}

/// Whether the pair is the one that is told.
fn is_pair(pair: &(ha_value::Word, u32, Node), wanted: &Told<'_>) -> bool {
    match &pair.2.kind {
        NodeKind::Scalar { text, plain } => {
            pair.0.as_str() == wanted.key
                && pair.1 == wanted.line
                && text.as_str() == wanted.text
                && *plain == wanted.plain
        }
        _ => false,
    }
}

/// Whether the node is a map of these pairs.
fn has_pairs(node: &Node, wanted: &[Told<'_>]) -> bool {
    let NodeKind::Map(pairs) = &node.kind else {
        return false;
    };
    let pairs = pairs.as_slice();
    if pairs.len() != wanted.len() {
        return false;
    }
    for at in 0..wanted.len() {
        if !is_pair(&pairs[at], &wanted[at]) {
            return false;
        }
    }
    true
}

/// Whether a short text is a map of these pairs.
fn is_map(alloc: Global, text: &[u8], wanted: &[Told<'_>]) -> bool {
    if 4096 < text.len() {
        return false;
    }
    match read_tree(alloc, text) {
        Ok(node) => has_pairs(&node, wanted),
        Err(_) => false,
    }
}

#[test]
fn six_scalars(rt: HostRuntime) {
    let text =
        b"a: on\nb: 'it''s'\nc: \"x\\ty\"\nd: |-\n  one\n  two\ne: >-\n  one\n  two\nf: long\n  text # note\n";
    assert!(rt;
        is_map(
            rt.alloc(),
            text,
            &[
                pair("a", 1, "on", true),
                pair("b", 2, "it's", false),
                pair("c", 3, "x\ty", false),
                pair("d", 4, "one\ntwo", false),
                pair("e", 7, "one two", false),
                pair("f", 10, "long text", true),
            ]
        )
    );
}

#[test]
fn refused_files(rt: HostRuntime) {
    assert!(rt;
        are_refused(
            rt.alloc(),
            &[
                (
                    b"automation:\n  - alias: A\n    triggers: []\n\tactions: []\n",
                    4,
                    1
                ),
                (
                    b"automation:\n  - alias: A\n    triggers:\n      - trigger: event\n        event_type: go\n    actions: []\n    alias: B\n",
                    7,
                    4
                ),
                (b"# home\nautomation: !include automations.yaml\n", 2, 3),
            ]
        )
    );
}

/// So many keys, each on a line of its own and right of the one before it, and then a scalar.
fn nested(alloc: Global, keys: usize) -> Result<Vec<u8>, AllocError> {
    let mut text = Vec::new(alloc);
    for i in 0..keys {
        for _space in 0..i {
            text.push(b' ')?;
        }
        text.extend_from_slice(b"a:\n")?;
    }
    for _space in 0..keys {
        text.push(b' ')?;
    }
    text.push(b'b')?;
    Ok(text)
}

/// Whether a short text is read.
fn is_read(alloc: Global, text: &[u8]) -> bool {
    text.len() < 4096 && read_tree(alloc, text).is_ok()
}

fn is_nested(alloc: Global, keys: usize) -> bool {
    match nested(alloc, keys) {
        Ok(text) => is_read(alloc, text.as_slice()),
        Err(_) => false,
    }
}

/// Whether so many keys in one another are refused there.
fn is_too_deep(alloc: Global, keys: usize, line: u32, code: u8) -> bool {
    match nested(alloc, keys) {
        Ok(text) => is_refused(alloc, text.as_slice(), line, code),
        Err(_) => false,
    }
}

#[test]
fn nodes_in_one_another(rt: HostRuntime) {
    assert!(rt; is_nested(rt.alloc(), 63) && is_too_deep(rt.alloc(), 64, 65, 12));
}

/// 64 dashes on a line, each an item of the one before it, and a line that begins with so many spaces.
fn dashes(alloc: Global, spaces: usize, line: &[u8]) -> Result<Vec<u8>, AllocError> {
    let mut text = Vec::new(alloc);
    for _dash in 0..63usize {
        text.extend_from_slice(b"- ")?;
    }
    text.extend_from_slice(b"-\n")?;
    for _space in 0..spaces {
        text.push(b' ')?;
    }
    text.extend_from_slice(line)?;
    Ok(text)
}

/// Whether that line behind 64 dashes is refused there.
fn is_wrong_below(alloc: Global, spaces: usize, behind: &[u8], line: u32, code: u8) -> bool {
    match dashes(alloc, spaces, behind) {
        Ok(text) => is_refused(alloc, text.as_slice(), line, code),
        Err(_) => false,
    }
}

#[test]
fn a_tab_is_no_column(rt: HostRuntime) {
    let alloc = rt.alloc();
    assert!(rt;
        is_wrong_below(alloc, 126, b"\tb\n", 1, 12) && is_wrong_below(alloc, 127, b"\tb\n", 2, 1)
    );
}

/// Whether a short text is a map of one pair.
fn is_one_pair(alloc: Global, text: &[u8]) -> bool {
    if 4096 < text.len() {
        return false;
    }
    match read_tree(alloc, text) {
        Ok(node) => matches!(&node.kind, NodeKind::Map(pairs) if pairs.len() == 1),
        Err(_) => false,
    }
}

#[test]
fn nothing_but_a_comment_follows_a_colon(rt: HostRuntime) {
    let alloc = rt.alloc();
    assert!(rt;
        is_refused(alloc, b"[a, b]:\t # x\n", 1, 3)
            && is_refused(alloc, b"[a, b]:\tx\n", 1, 2)
            && is_one_pair(alloc, b"a:\t # x\n")
    );
}

#[test]
fn keys_are_compared_as_they_stand(rt: HostRuntime) {
    let alloc = rt.alloc();
    assert!(rt;
        is_refused(alloc, b"{\xFF: 1, \xFE: 2}\n", 1, 13)
            && is_refused(alloc, b"{\xFF: 1, \xFF: 2}\n", 1, 4)
            && is_refused(alloc, b"\xEF\xBF\xBD: 1\n\xFF: 2\n", 2, 13)
    );
}

/// Whether a short text is null, in this line.
fn is_null(alloc: Global, text: &[u8], line: u32) -> bool {
    if 4096 < text.len() {
        return false;
    }
    match read_tree(alloc, text) {
        Ok(node) => node.is_null() && node.line == line,
        Err(_) => false,
    }
}

#[test]
fn nothing_is_null(rt: HostRuntime) {
    assert!(rt; is_null(rt.alloc(), b"", 1));
}

/// Whether the node has so many texts and so many entities.
fn has(alloc: Global, node: &Node, texts: usize, entities: usize) -> bool {
    match (node.texts(alloc), node.entities(alloc)) {
        (Ok(found), Ok(ids)) => found.len() == texts && ids.len() == entities,
        _ => false,
    }
}

fn is_list_of(alloc: Global, text: &[u8], texts: usize, entities: usize) -> bool {
    if 4096 < text.len() {
        return false;
    }
    match read_tree(alloc, text) {
        Ok(node) => has(alloc, &node, texts, entities),
        Err(_) => false,
    }
}

fn is_bad<T>(found: &Result<T, YamlFault>, code: Code) -> bool {
    match found {
        Err(YamlFault::Bad { line: 1, code: by }) => *by == code,
        _ => false,
    }
}

/// Whether the node is neither texts nor entities, at line 1.
fn has_none(alloc: Global, node: &Node) -> bool {
    is_bad(&node.texts(alloc), Code::Kind) && is_bad(&node.entities(alloc), Code::EntityId)
}

fn is_neither(alloc: Global, text: &[u8]) -> bool {
    if 4096 < text.len() {
        return false;
    }
    match read_tree(alloc, text) {
        Ok(node) => has_none(alloc, &node),
        Err(_) => false,
    }
}

#[test]
fn texts_and_entities(rt: HostRuntime) {
    let alloc = rt.alloc();
    assert!(rt;
        is_list_of(alloc, b"- light.porch , light.hall\n- sensor.door\n", 2, 3)
            && is_neither(alloc, b"# none\n")
    );
}
