//! Lists in brackets, and how many values they may have.
use crate::shown;
use ha_sight::Env;
use state_table::StateTable;
use std::alloc::{AllocError, Global};

/// A text in which `a`, which is none at first, becomes the list of itself twice, so many times; then another text.
fn doubled(alloc: Global, count: usize, behind: &[u8]) -> Result<Vec<u8>, AllocError> {
    let mut all = Vec::new(alloc);
    for _i in 0..count {
        all.extend_from_slice(b"{%set a=[a,a]%}")?;
    }
    all.extend_from_slice(behind)?;
    Ok(all)
}

/// Whether the text behind `a`, which was doubled so many times, gives this text, or is a fault where none is wanted.
fn gives(alloc: Global, count: usize, behind: &[u8], wanted: Option<&str>) -> bool {
    let Ok(text) = doubled(alloc, count, behind) else {
        return false;
    };
    let states = StateTable::make(alloc);
    match wanted {
        Some(wanted) => shown::gives(alloc, &states, &Env::none(alloc), text.as_slice(), wanted),
        None => shown::faults(alloc, &states, &Env::none(alloc), text.as_slice()),
    }
}

/// Whether it is so with each of them.
fn all_give(alloc: Global, rows: &[(usize, &[u8], Option<&str>)]) -> bool {
    for row in rows {
        if !gives(alloc, row.0, row.1, row.2) {
            return false;
        }
    }
    true
}

/// A list of two values of size s has 2 s values, and the size 2 s + 1: after 14 times `a` has the size 32,767.
#[test]
fn a_list_has_65_536_values(rt: HostRuntime) {
    assert!(rt;
        all_give(
            rt.alloc(),
            &[
                (14, b"{{[a,a,1,2]|length}}", Some("4")),
                (14, b"{{[a,a,1,2,3]|length}}", None),
            ]
        )
    );
}

/// Fifteen times gives 65,534 values, sixteen times would give 131,070.
#[test]
fn a_list_is_not_doubled_again_and_again(rt: HostRuntime) {
    assert!(rt;
        all_give(
            rt.alloc(),
            &[
                (15, b"{{a|length}}", Some("2")),
                (16, b"on", None),
                (40, b"on", None),
            ]
        )
    );
}
