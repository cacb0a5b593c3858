//! Faults of values: their places and their codes.
use flow_line::{FlowFault, read_value};
use std::alloc::Global;

/// The place and number of the fault, and 0 where the text is a value.
fn fault(alloc: Global, text: &[u8]) -> (u32, u8) {
    if text.len() > 1000 {
        return (0, 99);
    }
    match read_value(alloc, text) {
        Ok(_) => (0, 0),
        Err(FlowFault::Memory) => (0, 98),
        Err(FlowFault::Bad { at, code }) => (at, code.number()),
    }
}

/// Whether each text has its fault at the place, with the number; 0 for a value.
fn are_faults(alloc: Global, rows: &[(&[u8], u32, u8)]) -> bool {
    for row in rows {
        if fault(alloc, row.0) != (row.1, row.2) {
            return false;
        }
    }
    true
}

#[test]
fn a_value_has_no_blanks_around_it(rt: HostRuntime) {
    assert!(rt;
        are_faults(
            rt.alloc(),
            &[
                (b"{\"a\" : [1,-2.5, null] ,\"b\":true}", 0, 0),
                (b"{\"restart\":true} ", 16, 1),
                (b" null", 0, 1),
                (b"", 0, 1),
            ]
        )
    );
}

#[test]
fn a_fault_stands_at_the_first_byte_at_which_no_reading_goes_on(rt: HostRuntime) {
    assert!(rt;
        are_faults(
            rt.alloc(),
            &[
                (b"[1,]", 3, 1),
                (b"\"\\udc00\"", 4, 1),
                (b"\"\\ud800x\"", 7, 1),
                (b"\"\\ud83d\\ude00\"", 0, 0),
                (b"\"\x1f\"", 1, 1),
                (b"\"\xe0\x80\"", 2, 1),
                (b"99999999999999.", 15, 1),
            ]
        )
    );
}

#[test]
fn keys_depth_and_range_have_codes_of_their_own(rt: HostRuntime) {
    assert!(rt;
        are_faults(
            rt.alloc(),
            &[
                (b"{\"a\":1,\"a\" 2}", 7, 2),
                (b"{\"a\":1,\"a", 9, 1),
                (b"[1000000000000.0000006]", 1, 4),
                (b"[1000000000000]", 0, 0),
                (b"[[[[[[[[[[[[[[[[[[[[[[[[[[[[[[[[[", 32, 3),
            ]
        )
    );
}
