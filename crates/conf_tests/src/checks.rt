//! The command `check` over a file that is cut after each of its bytes, and over one that is as long as it may be.
use conf_auto::read_config;
use ha_check::check_call;
use ha_io::{MemFile, MemPlace, MemSink, have_distinct_names};
use ha_status::Status;
use std::alloc::{AllocError, Global};
use yaml_scan::YamlFault;

/// The status that `check` gives a file, and what is written to the sinks of its answer and of errors.
fn checked(alloc: Global, text: &[u8]) -> Result<Option<(Status, MemSink, MemSink)>, AllocError> {
    let mut files = Vec::new(alloc);
    files.push(MemFile {
        name: String::from_str(alloc, "home.yaml")?,
        bytes: Some(Vec::from_slice(alloc, text)?),
        read_fails: Vec::new(alloc),
        write_fails: Vec::new(alloc),
        write_zeros: Vec::new(alloc),
    })?;
    if !have_distinct_names(&files) {
        return Ok(None);
    }
    let mut place = MemPlace::make(alloc, files, Vec::new(alloc));
    let mut out = MemSink::make(Vec::new(alloc), Vec::new(alloc), Vec::new(alloc));
    let mut err = MemSink::make(Vec::new(alloc), Vec::new(alloc), Vec::new(alloc));
    let (status, _) = check_call::<MemPlace>(alloc, "home.yaml", &mut place, &mut out, &mut err);
    Ok(Some((status, out, err)))
}

/// Whether the status is that of a refusal at this line, by this code.
fn is_refusal(status: &Status, line: u32, code: u8) -> bool {
    match status {
        Status::ConfigRefused { line: at, code: by } => *at == line && *by == code,
        _ => false,
    }
}

/// Whether `check` answers for this text as it is read: it tells of a configuration, or of the line and the code of its refusal.
fn is_as_read(alloc: Global, text: &[u8]) -> Result<bool, AllocError> {
    let Some((status, out, err)) = checked(alloc, text)? else {
        return Ok(false);
    };
    match read_config(alloc, text) {
        Ok(_) => Ok(
            matches!(status, Status::Ok) && !out.bytes().is_empty() && err.bytes().is_empty(),
        ),
        Err(YamlFault::Bad { line, code }) => Ok(
            is_refusal(&status, line, code.number())
                && out.bytes().is_empty()
                && !err.bytes().is_empty(),
        ),
        Err(YamlFault::Memory) => Ok(false),
    }
}

/// Whether it is so for each front of the text.
fn is_each_front_as_read(alloc: Global, text: &[u8]) -> Result<bool, AllocError> {
    for count in 0..text.len() {
        if !is_as_read(alloc, &text[..count])? {
            return Ok(false);
        }
    }
    Ok(true)
}

/// Whether `check` of this text writes this, and this as errors.
fn says(alloc: Global, text: &[u8], output: &str, errors: &str) -> bool {
    match checked(alloc, text) {
        Ok(Some((_, out, err))) => {
            out.bytes() == output.as_bytes() && err.bytes() == errors.as_bytes()
        }
        _ => false,
    }
}

const HALL: &[u8] =
    b"- id: '1700000000001'\n  alias: Hall light\n  description: ''\n  triggers:\n  - trigger: state\n    entity_id:\n    - binary_sensor.hall\n    from:\n    to: 'on'\n  conditions: []\n  actions:\n  - action: light.turn_on\n    metadata: {}\n    data:\n      brightness: 128\n    target:\n      entity_id: light.hall\n  - delay:\n      hours: 0\n      minutes: 2\n      seconds: 0\n      milliseconds: 0\n  - action: light.turn_off\n    target:\n      entity_id: light.hall\n  mode: restart\n";

#[test]
fn each_front_of_a_file_is_checked_as_it_is_read(rt: HostRuntime) {
    assert!(rt; is_each_front_as_read(rt.alloc(), HALL).unwrap_or(false));
}

#[test]
fn a_whole_file_an_empty_one_and_one_without_actions(rt: HostRuntime) {
    let alloc = rt.alloc();
    let whole = "automation.hall_light restart 10 triggers 1 conditions 0 actions 3\nok 1\n";
    assert!(rt;
        says(alloc, HALL, whole, "")
            && says(alloc, b"", "ok 0\n", "")
            && says(
                alloc,
                b"- alias: a\n  triggers: []\n",
                "",
                "hearth: config line 1: C6\n"
            )
    );
}

/// Whether `check` of a comment of so many bytes writes this, and this as errors.
fn is_said_of(alloc: Global, bytes: usize, output: &str, errors: &str) -> bool {
    match Vec::from_elem(alloc, b'#', bytes) {
        Ok(text) => says(alloc, text.as_slice(), output, errors),
        Err(_) => false,
    }
}

#[test]
fn a_file_of_its_greatest_size_and_one_byte_more(rt: HostRuntime) {
    let alloc = rt.alloc();
    let long = "hearth: config line 1: C12\n";
    assert!(rt;
        is_said_of(alloc, 1_048_576, "ok 0\n", "") && is_said_of(alloc, 1_048_577, "", long)
    );
}
