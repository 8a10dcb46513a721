//! Scripts that come in parts, pulls and tells that fail, lengths, and words that ask for nothing.

use crate::running::{FIRST, FIRST_TOLD, run, words};
use pk_run::{Status, run_keytab};
use pk_world::{MemorySource, MemoryStation, Pull, Source};
use std::alloc::Global;
use std::test::Fail;

// The script of a row.
#[derive(Clone, Copy, Debug)]
enum Script {
    First,
    Blanks(usize),
    /// The first script with blanks behind it, so many bytes in all.
    Padded(usize),
}

fn bytes_of(alloc: Global, script: Script) -> Result<Vec<u8>, Fail> {
    let (front, length) = match script {
        Script::First => (FIRST, FIRST.len()),
        Script::Blanks(length) => (b"".as_slice(), length),
        Script::Padded(length) => (FIRST, length),
    };
    let mut bytes = Vec::with_capacity(alloc, length)?;
    bytes.extend_from_slice(front)?;
    for _ in front.len()..length {
        bytes.push(b' ')?;
    }
    Ok(bytes)
}

// A script that comes so many bytes at a time; the pull and the tell that fail, 0 for none; and how it
// ends, with so many bytes of the first script's replies.
type Case = (Script, usize, u64, u64, Status, usize);

fn cases(alloc: Global) -> Result<Vec<Case>, Fail> {
    let whole = FIRST_TOLD.len();
    let mut cases = Vec::new(alloc);
    for step in [1, 7, 4096] {
        cases.push((Script::First, step, 0, 0, Status::Done, whole))?;
    }
    // At 7 bytes a time the first script takes 12 pulls, and one more for its end.
    for pull in 1..=13 {
        cases.push((Script::First, 7, pull, 0, Status::ScriptFault, 0))?;
    }
    cases.push((Script::First, 7, 14, 0, Status::Done, whole))?;
    for (tell, told) in [(1, 0), (2, 10), (3, 21)] {
        cases.push((Script::First, 7, 0, tell, Status::ReplyFault, told))?;
    }
    cases.push((Script::First, 7, 0, 4, Status::Done, whole))?;
    // The limit in digits, so that this test holds it.
    let most = 4_194_304;
    cases.push((Script::Blanks(most), 65536, 0, 0, Status::Done, 0))?;
    cases.push((Script::Blanks(most + 1), 65536, 0, 0, Status::LongScript, 0))?;
    cases.push((Script::Padded(most), 65536, 0, 0, Status::Done, whole))?;
    cases.push((Script::Padded(most + 1), 65536, 0, 0, Status::LongScript, 0))?;
    Ok(cases)
}

#[test]
fn cuts_faults_and_lengths_leave_a_front(rt: HostRuntime) -> Result<(), Fail> {
    let alloc = rt.alloc();
    let cases = cases(alloc)?;
    for (script, step, pull, tell, status, told) in cases {
        let bytes = bytes_of(alloc, script)?;
        let got = run(alloc, &bytes, step, &[pull], &[tell])?;
        let case = (script, step, pull, tell);
        assert_eq!(rt; got.0, status, "at {case:?}");
        let want = &FIRST_TOLD[..told.min(FIRST_TOLD.len())];
        assert_eq!(rt; got.1.as_slice(), want, "at {case:?}");
    }
    Ok(())
}

#[test]
fn other_words_read_and_write_nothing(rt: HostRuntime) -> Result<(), Fail> {
    let alloc = rt.alloc();
    let cases: [&[&str]; 6] = [
        &[],
        &["run"],
        &["memory", "memory"],
        &["Memory"],
        &["memory "],
        &["generate", "1"],
    ];
    for case in cases {
        let words = words(alloc, case)?;
        let mut source = MemorySource::new(alloc, FIRST, 100, &[])?;
        let mut station = MemoryStation::new(alloc, b"", b"", &[])?;
        let status = run_keytab(alloc, words.as_slice(), &mut source, &mut station);
        assert_eq!(rt; status, Status::Usage, "at {case:?}");
        assert_eq!(rt; station.calls(), 0);
        let mut room = [0u8; 100];
        assert_eq!(rt; source.pull(&mut room), Pull::Got(FIRST.len()));
    }
    Ok(())
}
