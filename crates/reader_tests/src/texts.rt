//! Slugs, and the lines of a stream that comes in pieces.
use ha_text::{LineCut, slug};
use std::alloc::{AllocError, Global};

fn slug_is(alloc: Global, text: &[u8], wanted: &[u8]) -> bool {
    match slug(alloc, text) {
        Ok(word) => word.bytes() == wanted,
        Err(_) => false,
    }
}

#[test]
fn slugs_keep_letters_and_digits(rt: HostRuntime) {
    let alloc = rt.alloc();
    assert!(rt;
        slug_is(alloc, b"Front Door", b"front_door")
            && slug_is(alloc, b"__a--B9 ", b"a_b9")
            && slug_is(alloc, b"", b"unnamed")
            && slug_is(alloc, b"!", b"unnamed")
    );
}

/// Appends the lines that may be taken, each behind a bar, nine at most.
fn take_all(cut: &mut LineCut, shown: &mut Vec<u8>) -> Result<(), AllocError> {
    for _ in 0..9 {
        match cut.take()? {
            Some(line) => {
                shown.push(b'|')?;
                shown.extend_from_slice(line.as_slice())?;
            }
            None => return Ok(()),
        }
    }
    Ok(())
}

/// Appends the last line behind a dash, where the stream ends within one and no whole line is left.
fn push_last(cut: &mut LineCut, shown: &mut Vec<u8>) -> Result<(), AllocError> {
    match cut.take() {
        Ok(None) => match cut.finish() {
            Ok(Some(line)) => {
                shown.push(b'-')?;
                shown.extend_from_slice(line.as_slice())?;
                Ok(())
            }
            Ok(None) => Ok(()),
            Err(fault) => Err(fault),
        },
        Ok(Some(_)) => Ok(shown.push(b'!')?),
        Err(fault) => Err(fault),
    }
}

/// The lines of a stream that comes in these pieces, each behind a bar, with a mark behind each piece; then the last line behind a dash,
/// where the stream ends within one.
fn in_pieces(alloc: Global, pieces: &[&[u8]], mark: &[u8]) -> Result<Vec<u8>, AllocError> {
    let mut cut = LineCut::make(alloc);
    let mut shown = Vec::new(alloc);
    for piece in pieces {
        cut.push(piece)?;
        take_all(&mut cut, &mut shown)?;
        shown.extend_from_slice(mark)?;
    }
    push_last(&mut cut, &mut shown)?;
    Ok(shown)
}

/// Whether these pieces give these lines.
fn are_lines(alloc: Global, pieces: &[&[u8]], mark: &[u8], wanted: &[u8]) -> bool {
    match in_pieces(alloc, pieces, mark) {
        Ok(shown) => shown.as_slice() == wanted,
        Err(_) => false,
    }
}

#[test]
fn a_line_ends_by_a_line_feed_not_by_a_piece(rt: HostRuntime) {
    let (first, second, third) = (
        b"on".as_slice(),
        b"e\r\n \t\n\r\ntwo\n".as_slice(),
        b"last\r".as_slice(),
    );
    assert!(rt;
        are_lines(
            rt.alloc(),
            &[first, second, third],
            b".",
            b".|one|two..-last\r"
        )
    );
}

/// Whether the stream gives these lines, whichever byte it is cut before.
fn are_always(alloc: Global, stream: &[u8], wanted: &[u8]) -> bool {
    for at in 0..stream.len() + 1 {
        let (front, rest) = stream.split_at(at.min(stream.len()));
        if !are_lines(alloc, &[front, rest], b"", wanted) {
            return false;
        }
    }
    true
}

#[test]
fn a_stream_of_three_lines_may_be_cut_at_each_byte(rt: HostRuntime) {
    assert!(rt; are_always(rt.alloc(), b"one\r\ntwo\n \t\nthree\n", b"|one|two|three"));
}

/// So many of a byte.
fn repeated(alloc: Global, byte: u8, count: usize) -> Result<Vec<u8>, AllocError> {
    let mut text = Vec::new(alloc);
    for _i in 0..count {
        text.push(byte)?;
    }
    Ok(text)
}

/// The length of the line, or of what is kept of it, that stands before `end` in a stream of pieces of so many of a byte.
fn long_line(
    alloc: Global,
    byte: u8,
    count: usize,
    pieces: usize,
    end: &[u8],
) -> Result<Option<usize>, AllocError> {
    let piece = repeated(alloc, byte, count)?;
    let mut cut = LineCut::make(alloc);
    for _ in 0..pieces {
        cut.push(piece.as_slice())?;
    }
    cut.push(end)?;
    match cut.take()? {
        Some(line) => Ok(Some(line.len())),
        None => Ok(None),
    }
}

/// Whether so many bytes are kept of that line, or there is none.
fn is_kept(
    alloc: Global,
    byte: u8,
    count: usize,
    pieces: usize,
    end: &[u8],
    wanted: Option<usize>,
) -> bool {
    match long_line(alloc, byte, count, pieces, end) {
        Ok(found) => found == wanted,
        Err(_) => false,
    }
}

#[test]
fn of_a_long_line_the_first_bytes_are_kept(rt: HostRuntime) {
    let alloc = rt.alloc();
    assert!(rt;
        is_kept(alloc, b'x', 40_000, 1, b"\r\n", Some(40_000))
            && is_kept(alloc, b'x', 40_000, 3, b"\n", Some(65_537))
            && is_kept(alloc, b'x', 1, 60_000, b"\n", Some(60_000))
            && is_kept(alloc, b' ', 40_000, 3, b"\r\n", None)
            && is_kept(alloc, b' ', 40_000, 3, b"x \n", Some(65_537))
    );
}
