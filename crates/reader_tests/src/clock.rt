//! Moments, spans and zones.
use ha_clock::{Moment, Span, Zone, print_moment, read_moment};
use std::alloc::Global;

/// The milliseconds of a moment and so many more.
fn due(millis: u64, more: u64) -> Option<u64> {
    match (Moment::of_millis(millis), Span::of(more)) {
        (Some(at), Some(span)) => Some(at.plus(span).millis()),
        _ => None,
    }
}

/// Whether the first of two moments is the earlier one.
fn is_earlier(first: u64, second: u64) -> bool {
    match (Moment::of_millis(first), Moment::of_millis(second)) {
        (Some(first), Some(second)) => first < second,
        _ => false,
    }
}

#[test]
fn dues(rt: HostRuntime) {
    assert!(rt;
        Moment::of_millis(32_503_680_000_000).is_none()
            && due(32_503_679_999_999, 1) == Some(32_503_680_000_000)
            && is_earlier(0, 32_503_679_999_999)
            && !is_earlier(5, 5)
    );
}

/// Whether each text is the moment of so many milliseconds, or none.
fn are_moments(rows: &[(&str, Option<u64>)]) -> bool {
    for (text, wanted) in rows {
        if read_moment(text.as_bytes()).map(|at| at.millis()) != *wanted {
            return false;
        }
    }
    true
}

#[test]
fn moments(rt: HostRuntime) {
    assert!(rt;
        are_moments(&[
            ("1970-01-01T00:00:00Z", Some(0)),
            ("2024-03-31T00:59:59.5Z", Some(1_711_846_799_500)),
            ("2024-02-29T00:00:00.25Z", Some(1_709_164_800_250)),
            ("2999-12-31T23:59:59.999Z", Some(32_503_679_999_999)),
            ("2023-02-29T00:00:00Z", None),
            ("2024-03-31T00:59:60Z", None),
            ("2024-03-31T00:59:59", None),
            ("2024-03-31T00:59:59.Z", None),
            ("2024-03-31T00:59:59.1234Z", None),
            ("3000-01-01T00:00:00Z", None),
        ])
    );
}

/// Whether the moment of a text is printed as the other text.
fn is_printed(alloc: Global, text: &str, wanted: &str) -> bool {
    match read_moment(text.as_bytes()) {
        Some(at) => match print_moment(alloc, at) {
            Ok(printed) => printed.as_slice() == wanted.as_bytes(),
            Err(_) => false,
        },
        None => false,
    }
}

#[test]
fn prints(rt: HostRuntime) {
    let alloc = rt.alloc();
    assert!(rt;
        is_printed(alloc, "1970-01-01T00:00:00Z", "1970-01-01T00:00:00.000Z")
            && is_printed(alloc, "2024-02-29T12:34:56.7Z", "2024-02-29T12:34:56.700Z")
            && is_printed(
                alloc,
                "2999-12-31T23:59:59.999Z",
                "2999-12-31T23:59:59.999Z"
            )
    );
}

/// Whether each text is the span of so many milliseconds, or none.
fn are_spans(rows: &[(&str, Option<u64>)]) -> bool {
    for (text, wanted) in rows {
        if Span::read(text.as_bytes()).map(|span| span.millis()) != *wanted {
            return false;
        }
    }
    true
}

#[test]
fn spans(rt: HostRuntime) {
    assert!(rt;
        Span::of(31_622_400_000).map(|span| span.millis()) == Some(31_622_400_000)
            && Span::of(31_622_400_001).is_none()
            && are_spans(&[
                ("5", Some(5_000)),
                ("0:5", Some(300_000)),
                ("00:02:00", Some(120_000)),
                ("0000000000000031622400", Some(31_622_400_000)),
                ("8784:00:00", Some(31_622_400_000)),
                ("31622401", None),
                ("8784:00:01", None),
                ("0:60", None),
                ("0:0:60", None),
                ("", None),
                (":5", None),
                ("1:", None),
                ("1:2:3:4", None),
                ("+5", None),
                ("5.0", None),
                (" 5", None),
            ])
    );
}

const BERLIN: &str = "CET-1CEST,M3.5.0,M10.5.0/3";

/// The weekday, hour, minute and second of a moment.
fn shown(zone: &Zone, moment: &str) -> Option<(u8, u8, u8, u8)> {
    let local = zone.local(read_moment(moment.as_bytes())?);
    Some((local.weekday, local.hour, local.minute, local.second))
}

/// Whether the zone of this text is told as it is written, and has that local time at the moment.
fn is_local(alloc: Global, zone: &str, moment: &str, wanted: (u8, u8, u8, u8)) -> bool {
    match Zone::read(alloc, zone.as_bytes()) {
        Ok(named) => named.text() == zone.as_bytes() && shown(&named, moment) == Some(wanted),
        Err(_) => false,
    }
}

fn are_local(alloc: Global, rows: &[(&str, &str, (u8, u8, u8, u8))]) -> bool {
    for row in rows {
        if !is_local(alloc, row.0, row.1, row.2) {
            return false;
        }
    }
    true
}

#[test]
fn local_times(rt: HostRuntime) {
    assert!(rt;
        are_local(
            rt.alloc(),
            &[
                ("UTC", "1970-01-01T00:00:00Z", (3, 0, 0, 0)),
                ("-05:30", "1970-01-01T00:00:00Z", (2, 18, 30, 0)),
                ("+23:59", "2999-12-31T23:59:59.999Z", (2, 23, 58, 59)),
                (
                    "EST5EDT,M3.2.0,M11.1.0",
                    "2024-07-01T03:04:05Z",
                    (6, 23, 4, 5)
                ),
                (BERLIN, "2024-03-31T00:59:59Z", (6, 1, 59, 59)),
                (BERLIN, "2024-03-31T01:00:00Z", (6, 3, 0, 0)),
                (BERLIN, "2024-10-27T00:30:00Z", (6, 2, 30, 0)),
                (BERLIN, "2024-10-27T01:30:00Z", (6, 2, 30, 0)),
            ]
        )
    );
}

/// Whether it is this hour so many seconds after 1970.
fn is_hour(zone: &Zone, second: u64, hour: u8) -> bool {
    match Moment::of_millis(second.saturating_mul(1000)) {
        Some(at) => zone.local(at).hour == hour,
        None => true,
    }
}

/// Whether this hour comes at none of the seconds from the first up to before the last.
fn skips(alloc: Global, zone: &str, hour: u8, first: u64, last: u64) -> bool {
    let Ok(zone) = Zone::read(alloc, zone.as_bytes()) else {
        return false;
    };
    for second in first..last {
        if is_hour(&zone, second, hour) {
            return false;
        }
    }
    true
}

#[test]
fn a_skipped_time_does_not_come(rt: HostRuntime) {
    // 2024-03-31T00:50:00Z to 01:10:00Z
    assert!(rt; skips(rt.alloc(), BERLIN, 2, 1_711_846_200, 1_711_847_400));
}

/// Whether none of the texts is a zone.
fn are_no_zones(alloc: Global, texts: &[&str]) -> bool {
    for text in texts {
        if Zone::read(alloc, text.as_bytes()).is_ok() {
            return false;
        }
    }
    true
}

#[test]
fn refused_zones(rt: HostRuntime) {
    assert!(rt;
        are_no_zones(
            rt.alloc(),
            &[
                "",
                "utc",
                "+24:00",
                "-23:60",
                "+2:00",
                "+02:00 ",
                "EST5EDT,M13.2.0,M11.1.0",
            ]
        )
    );
}
