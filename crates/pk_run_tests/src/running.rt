//! Runs in memory, and what several tests say.

use pk_run::{Status, run_keytab};
use pk_values::Memory;
use pk_world::{MemorySource, MemoryStation};
use std::alloc::Global;
use std::process::Abort;
use std::test::Fail;

pub(crate) const FIRST: &[u8] =
    b"CREATE TABLE t (a INTEGER, b INTEGER); INSERT INTO t VALUES (1, 2); SELECT * FROM t;";

pub(crate) const FIRST_TOLD: &[u8] = b"created t\ninserted 1\na|b\n1|2\nrows 1\n";

pub(crate) fn words(alloc: Global, words: &[&str]) -> Result<Vec<String>, Fail> {
    let mut owned = Vec::new(alloc);
    for word in words {
        owned.push(String::from_str(alloc, word)?)?;
    }
    Ok(owned)
}

// A run in memory: the script comes in pieces of `step` bytes, and these pulls and tells fail.
pub(crate) fn run(
    alloc: Global,
    script: &[u8],
    step: usize,
    pulls: &[u64],
    tells: &[u64],
) -> Result<(Status, Vec<u8>), Fail> {
    let words = words(alloc, &["memory"])?;
    let mut source = MemorySource::new(alloc, script, step.max(1), pulls)?;
    let mut station = MemoryStation::new(alloc, b"", b"", tells)?;
    let status = run_keytab(alloc, words.as_slice(), &mut source, &mut station);
    Ok((status, Vec::from_slice(alloc, station.told())?))
}

// ---- cases

// The case of no script.
pub(crate) const NOTHING: &[u8] = b"~";

// Fails where a case is answered otherwise. A case is a script, `~` and all that is told of it, with `#` between
// two; before each stands the front, which is a case itself. A run that tells a refusal ends as `Refused`.
pub(crate) fn assert_answered(
    rt: &impl Abort,
    alloc: Global,
    front: &[u8],
    cases: &[u8],
) -> Result<(), Fail> {
    for case in cases.split(|byte| *byte == b'#') {
        let told = told(alloc, front, case)?;
        let want = wanted(alloc, front, case)?;
        assert_told(rt, told.as_slice(), want.as_slice());
    }
    Ok(())
}

// The message of a failure is what was told.
fn assert_told(rt: &impl Abort, told: &[u8], want: &[u8]) {
    let text = str::from_utf8(told).unwrap_or("no text");
    assert!(rt; told == want, "{text}");
}

fn told(alloc: Global, front: &[u8], case: &[u8]) -> Result<Vec<u8>, Fail> {
    let script = joined(alloc, script_of(front), script_of(case))?;
    let (status, mut told) = run(alloc, script.as_slice(), 4096, &[], &[])?;
    told.extend_from_slice(end_words(status))?;
    Ok(told)
}

fn wanted(alloc: Global, front: &[u8], case: &[u8]) -> Result<Vec<u8>, Memory> {
    let mut want = joined(alloc, told_of(front), told_of(case))?;
    let status = ending(want.as_slice());
    want.extend_from_slice(end_words(status))?;
    Ok(want)
}

fn joined(alloc: Global, front: &[u8], behind: &[u8]) -> Result<Vec<u8>, Memory> {
    let mut text = Vec::from_slice(alloc, front)?;
    text.extend_from_slice(behind)?;
    Ok(text)
}

fn script_of(case: &[u8]) -> &[u8] {
    match case.iter().position(|byte| *byte == b'~') {
        Some(i) => &case[..i],
        None => case,
    }
}

fn told_of(case: &[u8]) -> &[u8] {
    match case.iter().position(|byte| *byte == b'~') {
        Some(i) => &case[i + 1..],
        None => b"no case",
    }
}

// How a run ends whose replies are these.
fn ending(replies: &[u8]) -> Status {
    let mut lines = replies.split(|byte| *byte == b'\n');
    if lines.any(|line| line.starts_with(b"refused: ")) {
        Status::Refused
    } else {
        Status::Done
    }
}

fn end_words(status: Status) -> &'static [u8] {
    match status {
        Status::Done => b"done",
        Status::Refused => b"done with a refusal",
        _ => b"not done",
    }
}

// ---- scripts

// So many times the same.
pub(crate) fn repeat(script: &mut Vec<u8>, text: &[u8], times: usize) -> Result<(), Fail> {
    for _ in 0..times {
        script.extend_from_slice(text)?;
    }
    Ok(())
}

// So many tables, t0 and on.
pub(crate) fn create_tables(script: &mut Vec<u8>, alloc: Global, count: u32) -> Result<(), Fail> {
    for n in 0..count {
        let text = format!(in alloc; "CREATE TABLE t{n} (a INTEGER);")?;
        script.extend_from_slice(text.as_bytes())?;
    }
    Ok(())
}
