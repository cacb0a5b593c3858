//! Sources that give their bytes otherwise than a file in memory does: one at a read, or more than a test would hold.
ghost use Rattle.std.specs.Prelude.{◌≡◌, None};

use crate::outside::{DOOR, PORCH};
use conf_reader::Reader;
use ha_engine::Engine;
use ha_io::{Failed, IoFault, MemKeeper, MemSink, OpenGate, Place, Source};
use ha_top::hearth;
use std::alloc::{AllocError, Global};
use std::process::Abort;
use std::sync::Wait;
use std::thread::Threads;

/// A text, and behind it so many bytes of a piece again and again.
#[derive(Clone, Copy)]
struct Long {
    text: &'static str,
    piece: &'static str,
    /// How many pieces one read gives.
    pieces: usize,
    /// How many bytes come behind the text.
    behind: usize,
    /// How many bytes of the text one read gives.
    most: usize,
}

/// It tells no content.
#[derive(Drop)]
struct Stream {
    text: Vec<u8>,
    at: usize,
    block: Vec<u8>,
    behind: usize,
    most: usize,
}

impl Stream {
    fn make(alloc: Global, long: Long) -> Result<Stream, AllocError> {
        let mut block = Vec::new(alloc);
        for _ in 0..long.pieces {
            block.extend_from_slice(long.piece.as_bytes())?;
        }
        Ok(Stream {
            text: Vec::from_slice(alloc, long.text.as_bytes())?,
            at: 0,
            block,
            behind: long.behind,
            most: long.most,
        })
    }
}

impl Source for Stream {
    ghost faults = { λ _. 0 };

    ghost left = { λ _. None };

    ghost name = { λ _. None };

    fn read(&mut self, buf: &mut [u8]) -> Result<usize, Failed> {
        let from = self.at.min(self.text.len());
        let rest = &self.text[from..];
        let count = rest.len().min(self.most).min(buf.len());
        if 0 < count {
            buf[..count].copy_from_slice(&rest[..count]);
            self.at = from + count;
            return Ok(count);
        }
        let count = self.behind.min(self.block.len()).min(buf.len());
        buf[..count].copy_from_slice(&self.block[..count]);
        self.behind -= count;
        Ok(count)
    }
}

/// A place with the file `home.yaml`; under every other name it has the long one. It tells nothing.
#[derive(Drop)]
struct Streams {
    home: &'static str,
    long: Long,
}

impl Place for Streams {
    type Source = Stream;

    type Sink = MemSink;

    ghost faults = { λ _. 0 };

    ghost holds = { λ _. None };

    ghost asked = { λ _. None };

    ghost last = { λ _. None };

    fn reading(&mut self, alloc: Global, name: &str) -> Result<Stream, IoFault> {
        let mut long = self.long;
        if name == "home.yaml" {
            long.text = self.home;
            long.behind = 0;
        }
        Ok(Stream::make(alloc, long)?)
    }

    fn writing(&mut self, alloc: Global, _name: &str) -> Result<MemSink, IoFault> {
        Ok(MemSink::make(Vec::new(alloc), Vec::new(alloc), Vec::new(alloc)))
    }
}

/// The number of a status, the calls, the errors, and how many entries there are.
type Wanted<'a> = (u8, &'a str, &'a str, usize);

/// Whether a run of these words ends so.
fn ends<R: Abort + Threads + Wait + Sync + Alloc<A = Global>>(
    rt: &R,
    words: &[&str],
    home: &'static str,
    long: Long,
    wanted: Wanted<'_>,
) -> Result<bool, AllocError> {
    let alloc = rt.alloc();
    let mut given = Vec::new(alloc);
    for word in words {
        given.push(String::from_str(alloc, word)?)?;
    }
    let mut place = Streams { home, long };
    let out = MemSink::make(Vec::new(alloc), Vec::new(alloc), Vec::new(alloc));
    let err = MemSink::make(Vec::new(alloc), Vec::new(alloc), Vec::new(alloc));
    let keep = MemKeeper::make(alloc, None, Vec::new(alloc));
    let outcome = hearth::<_, Engine<Reader>, _, _, _>(
        rt,
        alloc,
        given.as_slice(),
        &mut place,
        out,
        err,
        keep,
        &OpenGate::make(),
    );
    Ok(
        outcome.status.number() == wanted.0
            && outcome.out.bytes() == wanted.1.as_bytes()
            && outcome.err.bytes() == wanted.2.as_bytes()
            && outcome.journal.len() == wanted.3,
    )
}

const RUN: [&str; 6] = [
    "run",
    "--config",
    "home.yaml",
    "--start",
    "2024-05-01T20:00:00Z",
    "long.txt",
];

/// Whether a run over each of these sources ends so.
fn all_end<R: Abort + Threads + Wait + Sync + Alloc<A = Global>>(
    rt: &R,
    home: &'static str,
    rows: &[(Long, Wanted<'_>)],
) -> bool {
    for row in rows {
        if !ends(rt, &RUN, home, row.0, row.1).unwrap_or(false) {
            return false;
        }
    }
    true
}

const REPORTS: &str =
    "{\"report\":\"binary_sensor.door\",\"state\":\"off\"}\n{\"report\":\"binary_sensor.door\",\"state\":\"on\"}\n";

#[test]
fn a_source_that_gives_a_byte_at_a_read(rt: HostRuntime) {
    let slow = Long {
        text: REPORTS,
        piece: "",
        pieces: 0,
        behind: 0,
        most: 1,
    };
    assert!(rt; all_end(&rt, DOOR, &[(slow, (0, PORCH, "", 4))]));
}

/// Letters without a line's end, in the pieces that a worker asks for.
fn letters(behind: usize) -> Long {
    Long {
        text: "",
        piece: "xxxxxxxxxxxxxxxx",
        pieces: 4_096,
        behind,
        most: 1,
    }
}

#[test]
fn a_source_without_a_line_end_at_its_bound_and_past_it(rt: HostRuntime) {
    let long = "source 0 line 0: too long\nhearth: source 0 too long\n";
    assert!(rt;
        all_end(
            &rt,
            DOOR,
            &[
                (letters(67_108_864), (0, "", "source 0 line 0: L10\n", 2)),
                (letters(67_108_865), (8, "", long, 2)),
            ]
        )
    );
}

/// So many events, each on a line of its own.
fn events(count: usize) -> Long {
    Long {
        text: "",
        piece: "{\"event\":\"x\"}\n",
        pieces: 4_096,
        behind: count.saturating_mul(14),
        most: 1,
    }
}

#[test]
fn a_journal_that_is_full_at_the_end_of_its_source(rt: HostRuntime) {
    assert!(rt; all_end(&rt, "[]", &[(events(1_048_575), (0, "", "", 1_048_576))]));
}

#[test]
fn a_line_more_than_the_journal_takes(rt: HostRuntime) {
    let full = "hearth: journal full\n";
    assert!(rt; all_end(&rt, "[]", &[(events(1_048_576), (7, "", full, 1_048_576))]));
}

/// A restart, and so many events behind it.
fn restarted(count: usize) -> Long {
    let mut long = events(count);
    long.text = "{\"restart\":true}\n";
    long
}

/// The line of the restart and the boot stand in a segment of their own.
#[test]
fn a_segment_that_is_full_and_a_line_more(rt: HostRuntime) {
    let full = "hearth: journal full\n";
    assert!(rt;
        all_end(
            &rt,
            "[]",
            &[
                (restarted(1_048_575), (0, "", "", 1_048_578)),
                (restarted(1_048_576), (7, "", full, 1_048_578)),
            ]
        )
    );
}

/// So many restarts, each on a line of its own.
fn restarts(count: usize) -> Long {
    Long {
        text: "",
        piece: "{\"restart\":true}\n",
        pieces: 4_096,
        behind: count.saturating_mul(17),
        most: 1,
    }
}

#[test]
fn a_journal_of_all_its_segments_and_a_restart_more(rt: HostRuntime) {
    let full = "hearth: journal full\n";
    assert!(rt;
        all_end(
            &rt,
            "[]",
            &[
                (restarts(1_023), (0, "", "", 2_047)),
                (restarts(1_024), (7, "", full, 2_047)),
            ]
        )
    );
}

const BOOT: &str =
    "{\"boot\":{\"config\":\"[]\\n\",\"stored\":null,\"start\":\"2024-05-01T20:00:00.000Z\",\"zone\":\"UTC\"}}\n";

/// A trace of a boot and a second line without end, of so many bytes in all.
fn trace(bytes: usize) -> Long {
    Long {
        text: BOOT,
        piece: "xxxxxxxxxxxxxxxx",
        pieces: 4_096,
        behind: bytes.saturating_sub(BOOT.len()),
        most: 65_536,
    }
}

/// Whether a trace of so many bytes ends so.
fn is_judged<R: Abort + Threads + Wait + Sync + Alloc<A = Global>>(
    rt: &R,
    long: Long,
    wanted: Wanted<'_>,
) -> bool {
    ends(rt, &["replay", "long.txt"], "", long, wanted).unwrap_or(false)
}

#[test]
fn a_trace_of_its_greatest_size_and_one_byte_more(rt: HostRuntime) {
    assert!(rt;
        is_judged(
            &rt,
            trace(268_435_456),
            (11, "", "hearth: trace line 2: T\n", 0)
        ) && is_judged(
            &rt,
            trace(268_435_457),
            (8, "", "hearth: source 0 too long\n", 0)
        )
    );
}
