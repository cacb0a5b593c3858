//! The longest chains that a template of 16,384 bytes can hold.
use ha_sight::Env;
use ha_value::Plain;
use state_table::StateTable;
use std::alloc::{AllocError, Global};
use std::thread::{Threads, join};
use tpl_eval::render;
use tpl_parse::parse;

/// A text, a part so many times, another text, and as often what closes the part.
fn chain(
    alloc: Global,
    first: &[u8],
    part: &[u8],
    count: usize,
    middle: &[u8],
    close: &[u8],
) -> Result<Vec<u8>, AllocError> {
    let mut all = Vec::new(alloc);
    all.extend_from_slice(first)?;
    for _i in 0..count {
        all.extend_from_slice(part)?;
    }
    all.extend_from_slice(middle)?;
    for _i in 0..count {
        all.extend_from_slice(close)?;
    }
    Ok(all)
}

/// Whether the text is read, rendered, and copied as the same; the copies are dropped then.
fn goes_through(alloc: Global, text: &[u8]) -> bool {
    if 16_384 < text.len() {
        return false;
    }
    let states = StateTable::make(alloc);
    match parse(alloc, text) {
        Ok(template) => {
            let rendered = render(alloc, &template, &states, &Env::none(alloc)).is_ok();
            match template.copy(alloc) {
                Ok(copy) => rendered && copy.same(&template),
                Err(_) => false,
            }
        }
        Err(_) => false,
    }
}

/// On two threads, so that one of them has the stack that a thread has by default.
fn on_threads<R: Threads + Sync>(rt: &R, alloc: Global, text: &[u8]) -> bool {
    let both = join(
        rt,
        || goes_through(alloc, text),
        || goes_through(alloc, text),
    );
    both.0 && both.1
}

/// Whether such a chain goes through, on two threads.
fn chain_goes_through<R: Threads + Sync>(
    rt: &R,
    alloc: Global,
    first: &[u8],
    part: &[u8],
    count: usize,
    middle: &[u8],
    close: &[u8],
) -> bool {
    match chain(alloc, first, part, count, middle, close) {
        Ok(text) => on_threads(rt, alloc, text.as_slice()),
        Err(_) => false,
    }
}

#[test]
fn a_long_sum_goes_through(rt: HostRuntime) {
    assert!(rt; chain_goes_through(&rt, rt.alloc(), b"{{1", b"+1", 8_189, b"}}", b""));
}

#[test]
fn a_long_path_goes_through(rt: HostRuntime) {
    assert!(rt; chain_goes_through(&rt, rt.alloc(), b"{{[a", b".a", 8_184, b"]|length}}", b""));
}

#[test]
fn many_filters_go_through(rt: HostRuntime) {
    assert!(rt; chain_goes_through(&rt, rt.alloc(), b"{{1", b"|abs", 4_094, b"}}", b""));
}

#[test]
fn many_choices_in_one_another_go_through(rt: HostRuntime) {
    assert!(rt; chain_goes_through(&rt, rt.alloc(), b"", b"{%if 1%}", 963, b"", b"{%endif%}"));
}
