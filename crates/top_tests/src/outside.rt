//! The forms of the outside, in memory and over the system.
use ha_io::{
    DirPlace, FileKeeper, FileSink, Gate, IoFault, Keeper, MemFile, MemKeeper, MemPlace, MemSink,
    MemSource, OpenGate, Place, Sink, Source, have_distinct_names,
};
use std::alloc::{AllocError, Global};
use std::fs;

fn text(alloc: Global, text: &str) -> Result<String, AllocError> {
    String::from_str(alloc, text)
}

fn bytes(alloc: Global, text: &str) -> Result<Vec<u8>, AllocError> {
    Vec::from_slice(alloc, text.as_bytes())
}

fn numbers(alloc: Global, numbers: &[u64]) -> Result<Vec<u64>, AllocError> {
    Vec::from_slice(alloc, numbers)
}

/// How many bytes the source gave, or none where it failed.
fn given<S: Source>(source: &mut S, buf: &mut [u8]) -> Option<usize> {
    match source.read(buf) {
        Ok(count) => Some(count),
        Err(_) => None,
    }
}

/// Whether these bytes are wanted, or any are.
fn is_filled(bytes: &[u8], wanted: Option<&[u8]>) -> bool {
    match wanted {
        Some(wanted) => bytes == wanted,
        None => true,
    }
}

/// Whether the reads into the buffer give so many bytes, or fail where none is wanted, and leave this in it.
fn reads<S: Source>(
    source: &mut S,
    buf: &mut [u8],
    rows: &[(Option<usize>, Option<&[u8]>)],
) -> bool {
    for row in rows {
        if given(source, buf) != row.0 || !is_filled(buf, row.1) {
            return false;
        }
    }
    true
}

/// How many bytes the sink took, or none where it failed.
fn taken<S: Sink>(sink: &mut S, bytes: &[u8]) -> Option<usize> {
    match sink.write(bytes) {
        Ok(count) => Some(count),
        Err(_) => None,
    }
}

/// Whether the writes of these bytes take so many of them, or fail where none is wanted.
fn writes<S: Sink>(sink: &mut S, rows: &[(&[u8], Option<usize>)]) -> bool {
    for row in rows {
        if taken(sink, row.0) != row.1 {
            return false;
        }
    }
    true
}

fn fails_at_its_second(alloc: Global) -> Result<bool, AllocError> {
    let fails = numbers(alloc, &[2])?;
    let mut source = MemSource::make(text(alloc, "s")?, bytes(alloc, "abc")?, fails);
    Ok(reads(
        &mut source,
        &mut [0u8; 2],
        &[
            (Some(2), Some(b"ab")),
            (None, None),
            (Some(1), Some(b"cb")),
            (Some(0), None),
        ],
    ))
}

#[test]
fn a_source_gives_what_fits_and_fails_at_its_number(rt: HostRuntime) {
    assert!(rt; fails_at_its_second(rt.alloc()).unwrap_or(false));
}

fn fails_in_both_lists(alloc: Global) -> Result<bool, AllocError> {
    let fails = numbers(alloc, &[1, 3])?;
    let zeros = numbers(alloc, &[2, 3])?;
    let mut sink = MemSink::make(Vec::new(alloc), fails, zeros);
    let taken = writes(
        &mut sink,
        &[
            (b"one", None),
            (b"two", Some(0)),
            (b"three", None),
            (b"four", Some(4)),
            (b"5", Some(1)),
        ],
    );
    Ok(taken && sink.bytes() == b"four5".as_slice())
}

#[test]
fn a_write_in_both_lists_fails(rt: HostRuntime) {
    assert!(rt; fails_in_both_lists(rt.alloc()).unwrap_or(false));
}

fn is_text(found: &[u8], wanted: Option<&[u8]>) -> bool {
    match wanted {
        Some(text) => found == text,
        None => false,
    }
}

/// Whether this is what the keeper loads, where it loads at all.
fn loads<K: Keeper>(alloc: Global, keeper: &mut K, wanted: Option<&[u8]>) -> bool {
    match keeper.load(alloc) {
        Ok(Some(found)) => is_text(found.as_slice(), wanted),
        Ok(None) => wanted.is_none(),
        Err(_) => false,
    }
}

fn is_kept(keeper: &MemKeeper, wanted: &[u8]) -> bool {
    match keeper.text() {
        Some(text) => text == wanted,
        None => false,
    }
}

fn keeps_the_old(alloc: Global) -> Result<bool, AllocError> {
    let mut keeper = MemKeeper::make(alloc, None, numbers(alloc, &[3])?);
    Ok(
        loads(alloc, &mut keeper, None)
            && keeper.save(b"old").is_ok()
            && keeper.save(b"new").is_err()
            && is_kept(&keeper, b"old")
            && loads(alloc, &mut keeper, Some(b"old")),
    )
}

#[test]
fn a_refused_save_leaves_the_text(rt: HostRuntime) {
    assert!(rt; keeps_the_old(rt.alloc()).unwrap_or(false));
}

/// A place with one file, whose source and sink fail at their first call, and whose second call fails; none where two files have one name.
fn home(alloc: Global) -> Result<Option<MemPlace>, AllocError> {
    let mut files = Vec::new(alloc);
    files.push(MemFile {
        name: text(alloc, "home")?,
        bytes: Some(bytes(alloc, "[]")?),
        read_fails: numbers(alloc, &[1])?,
        write_fails: numbers(alloc, &[1])?,
        write_zeros: numbers(alloc, &[2])?,
    })?;
    if !have_distinct_names(&files) {
        return Ok(None);
    }
    Ok(Some(MemPlace::make(alloc, files, numbers(alloc, &[2])?)))
}

/// Whether the file of this name is opened, and the reads into the buffer give so many bytes, or fail where none is wanted.
fn reads_by_name<P: Place>(
    alloc: Global,
    place: &mut P,
    name: &str,
    buf: &mut [u8],
    rows: &[(Option<usize>, Option<&[u8]>)],
) -> bool {
    match place.reading(alloc, name) {
        Ok(mut source) => reads(&mut source, buf, rows),
        Err(_) => false,
    }
}

fn is_read_once(alloc: Global) -> Result<bool, AllocError> {
    let Some(mut place) = home(alloc)? else {
        return Ok(false);
    };
    Ok(
        reads_by_name(
            alloc,
            &mut place,
            "home",
            &mut [0u8; 2],
            &[(None, None), (Some(2), None)],
        ) && place.reading(alloc, "home").is_err()
            && place.reading(alloc, "other").is_err(),
    )
}

#[test]
fn a_place_reads_by_name(rt: HostRuntime) {
    assert!(rt; is_read_once(rt.alloc()).unwrap_or(false));
}

/// Whether the file of this name is opened, and the writes take so many bytes, or fail where none is wanted; and then it is flushed, where
/// that is asked.
fn writes_by_name(
    alloc: Global,
    place: &mut MemPlace,
    name: &str,
    rows: &[(&[u8], Option<usize>)],
    flush: bool,
) -> bool {
    match place.writing(alloc, name) {
        Ok(mut sink) => writes(&mut sink, rows) && (!flush || sink.flush().is_ok()),
        Err(_) => false,
    }
}

fn is_written_once(alloc: Global) -> Result<bool, AllocError> {
    let Some(mut place) = home(alloc)? else {
        return Ok(false);
    };
    Ok(
        writes_by_name(
            alloc,
            &mut place,
            "home",
            &[(b"x", None), (b"x", Some(0))],
            false,
        ) && place.writing(alloc, "home").is_err()
            && writes_by_name(alloc, &mut place, "other", &[(b"x", Some(1))], true),
    )
}

#[test]
fn a_place_writes_by_name(rt: HostRuntime) {
    assert!(rt; is_written_once(rt.alloc()).unwrap_or(false));
}

/// Whether what a sink took comes from its file once it is flushed, and not before.
fn is_handed_on<P: Place>(alloc: Global, place: &mut P) -> Result<bool, IoFault> {
    let mut sink = place.writing(alloc, "ha_io_written")?;
    let taken = writes(&mut sink, &[(b"ab", Some(2)), (b"c", Some(1))]);
    let mut source = place.reading(alloc, "./ha_io_written")?;
    let mut buf = [0u8; 4];
    Ok(
        taken
            && reads(&mut source, &mut buf, &[(Some(0), None)])
            && sink.flush().is_ok()
            && reads(
                &mut source,
                &mut buf,
                &[(Some(3), Some(b"abc\0")), (Some(0), None)],
            ),
    )
}

#[test]
fn files_are_written_and_read(rt: HostRuntime) {
    let alloc = rt.alloc();
    let mut place = DirPlace::make(rt, rt.stdin());
    assert!(rt;
        is_handed_on(alloc, &mut place).unwrap_or(false)
            && fs::remove_file(&rt, "ha_io_written").is_ok()
            && place.reading(alloc, "ha_io_written").is_err()
            && place.writing(alloc, "ha_io_no_folder/file").is_err()
    );
}

/// Whether a sink that is let go before it was flushed has written what it took.
fn is_written_at_last<P: Place>(alloc: Global, place: &mut P) -> Result<bool, IoFault> {
    let mut sink = place.writing(alloc, "ha_io_let_go")?;
    let taken = writes(&mut sink, &[(b"ab", Some(2))]);
    drop(sink);
    Ok(
        taken
            && reads_by_name(
                alloc,
                place,
                "./ha_io_let_go",
                &mut [0u8; 4],
                &[(Some(2), None)],
            ),
    )
}

#[test]
fn a_sink_that_is_let_go_writes_what_it_keeps(rt: HostRuntime) {
    let mut place = DirPlace::make(rt, rt.stdin());
    assert!(rt;
        is_written_at_last(rt.alloc(), &mut place).unwrap_or(false)
            && fs::remove_file(&rt, "ha_io_let_go").is_ok()
    );
}

#[test]
fn the_standard_streams_are_open(rt: HostRuntime) {
    let mut place = DirPlace::make(rt, rt.stdin());
    OpenGate::make().before(0, 1);
    assert!(rt;
        reads_by_name(rt.alloc(), &mut place, "stdin", &mut [], &[(Some(0), None)])
            && taken(&mut FileSink::output(rt.stdout()), b"out\n") == Some(4)
            && taken(&mut FileSink::errors(rt.stderr()), b"err\n") == Some(4)
    );
}

/// Whether the keeper was made, holds nothing at first, and then what was saved last.
fn keeps_the_last<K: Keeper>(alloc: Global, keeper: Result<K, AllocError>) -> bool {
    match keeper {
        Ok(mut keeper) => {
            loads(alloc, &mut keeper, None)
                && keeper.save(b"a longer text").is_ok()
                && keeper.save(b"text").is_ok()
                && loads(alloc, &mut keeper, Some(b"text"))
        }
        Err(_) => false,
    }
}

/// Whether the keeper was made, and refuses to save.
fn refuses<K: Keeper>(keeper: Result<K, AllocError>) -> bool {
    match keeper {
        Ok(mut keeper) => keeper.save(b"text").is_err(),
        Err(_) => false,
    }
}

#[test]
fn a_store_file_is_replaced(rt: HostRuntime) {
    let alloc = rt.alloc();
    assert!(rt;
        keeps_the_last(alloc, FileKeeper::make(alloc, rt, "ha_io_store"))
            && matches!(fs::exists(&rt, "ha_io_store.new"), Ok(false))
            && fs::remove_file(&rt, "ha_io_store").is_ok()
            && refuses(FileKeeper::make(alloc, rt, "ha_io_no_folder/store"))
    );
}
