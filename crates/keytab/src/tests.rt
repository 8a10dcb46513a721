use super::*;
use crate::program::ended;
use pk_run::Status;
use pk_world::{Failed, MemorySource, MemoryStation, Pull, Source, Station};
use std::alloc::Global;
use std::env::{Env, FillError};
use std::io::ErrorKind;
use std::test::Fail;

const SCRIPT: &[u8] = b"SELECT * FROM t; SELECT * FROM u";

const TOLD: &[u8] = b"refused: no table t\nrefused: no table u\n";

const USAGE: &[u8] = b"keytab: usage: keytab memory\n";

#[test]
fn each_status_has_its_code_and_its_line(rt: HostRuntime) -> Result<(), Fail> {
    let cases: [(Status, u8, &[u8]); 7] = [
        (Status::Done, 0, b""),
        (Status::Refused, 1, b""),
        (Status::Usage, 2, USAGE),
        (Status::ScriptFault, 3, b"keytab: script can't be read\n"),
        (Status::ReplyFault, 4, b"keytab: replies can't be written\n"),
        (Status::OutOfMemory, 7, b"keytab: out of memory\n"),
        (
            Status::LongScript,
            8,
            b"keytab: script above 4194304 bytes\n",
        ),
    ];
    for (status, code, line) in cases {
        let mut errors = Vec::new(rt.alloc());
        assert_eq!(rt; ended(status, &mut errors), ExitCode::from(code));
        assert_eq!(rt; errors.as_slice(), line, "at {status:?}");
        // Where the line can't be written, the status is left.
        let mut closed = Writer::new(rt.alloc(), 1, 1, ErrorKind::BrokenPipe);
        assert_eq!(rt; ended(status, &mut closed), ExitCode::from(code));
    }
    Ok(())
}

// A reader of the script, so many bytes at a time, of which the call with this number, counted from 1, fails.
#[derive(Drop)]
struct Reader {
    rest: &'static [u8],
    step: usize,
    failing: u64,
    kind: ErrorKind,
    calls: u64,
}

impl Reader {
    fn new(step: usize, failing: u64, kind: ErrorKind) -> Reader {
        Reader {
            rest: SCRIPT,
            step,
            failing,
            kind,
            calls: 0,
        }
    }
}

impl io::Read for Reader {
    fn read(&mut self, room: &mut [u8]) -> io::Result<usize> {
        self.calls = self.calls.saturating_add(1);
        if self.calls == self.failing {
            return Err(io::Error::from(self.kind));
        }
        let count = self.rest.len().min(self.step).min(room.len());
        let front = &mut room[..count];
        front.copy_from_slice(&self.rest[..count]);
        self.rest = &self.rest[count..];
        Ok(count)
    }
}

// A writer that takes so many bytes at a time, of which the call with this number, counted from 1, fails.
#[derive(Drop)]
struct Writer {
    taken: Vec<u8>,
    step: usize,
    failing: u64,
    kind: ErrorKind,
    calls: u64,
}

impl Writer {
    fn new(alloc: Global, step: usize, failing: u64, kind: ErrorKind) -> Writer {
        Writer {
            taken: Vec::new(alloc),
            step,
            failing,
            kind,
            calls: 0,
        }
    }
}

impl io::Write for Writer {
    fn write(&mut self, bytes: &[u8]) -> io::Result<usize> {
        self.calls = self.calls.saturating_add(1);
        if self.calls == self.failing {
            return Err(io::Error::from(self.kind));
        }
        let count = bytes.len().min(self.step);
        self.taken.extend_from_slice(&bytes[..count])?;
        Ok(count)
    }

    fn flush(&mut self) -> io::Result<()> {
        Ok(())
    }
}

#[test]
fn an_input_gives_what_its_reader_gives(rt: HostRuntime) {
    let mut input = Input::new(b"abc".as_slice());
    let mut room = [7u8; 2];
    assert_eq!(rt; input.pull(&mut room), Pull::Got(2));
    assert_eq!(rt; room, *b"ab");
    assert_eq!(rt; input.pull(&mut room), Pull::Got(1));
    assert_eq!(rt; room, *b"cb");
    assert_eq!(rt; input.pull(&mut room), Pull::End);
    assert_eq!(rt; input.faults, 0);
}

// The reader fails at its first, its second and its last call; what came before stays, the room stays at the
// fault, and the next call goes on behind it. A signal is no fault.
#[test]
fn an_input_counts_each_fault_and_goes_on(rt: HostRuntime) -> Result<(), Fail> {
    for kind in [
        ErrorKind::BrokenPipe,
        ErrorKind::ConnectionReset,
        ErrorKind::Interrupted,
    ] {
        let faults = u64::from(kind != ErrorKind::Interrupted);
        for failing in [1, 2, 3] {
            let mut input = Input::new(Reader::new(20, failing, kind));
            let mut all = Vec::new(rt.alloc());
            let mut failed = 0u64;
            for _ in 0..4 {
                let mut room = [7u8; 64];
                match input.pull(&mut room) {
                    Pull::Got(count) => all.extend_from_slice(&room[..count])?,
                    Pull::Failed => {
                        failed = failed.saturating_add(1);
                        assert_eq!(rt; room, [7u8; 64]);
                    }
                    Pull::End => assert_eq!(rt; all.as_slice(), SCRIPT),
                }
            }
            assert_eq!(rt; all.as_slice(), SCRIPT, "at {kind:?}, call {failing}");
            assert_eq!(rt; failed, faults);
            assert_eq!(rt; input.faults, faults);
        }
    }
    Ok(())
}

// The writer takes 3 bytes at a time, and fails at its first call, after a part of the bytes, and between two
// tells. A front of the bytes is there, the next tell goes on behind it, and nothing is written twice.
#[test]
fn an_output_counts_each_fault_and_goes_on(rt: HostRuntime) -> Result<(), Fail> {
    let cases: [(u64, bool, bool, &[u8]); 4] = [
        (1, false, true, b"two\n"),
        (2, false, true, b"onetwo\n"),
        (3, true, false, b"one\n"),
        (9, true, true, b"one\ntwo\n"),
    ];
    for (failing, first, second, taken) in cases {
        for kind in [ErrorKind::BrokenPipe, ErrorKind::StorageFull] {
            let mut output = Output::new(Writer::new(rt.alloc(), 3, failing, kind));
            assert_eq!(rt; output.tell(b"one\n").is_ok(), first);
            assert_eq!(rt; output.tell(b"two\n").is_ok(), second);
            assert_eq!(rt; output.writer.taken.as_slice(), taken, "at call {failing}");
            assert_eq!(rt; output.faults, u64::from(!first || !second));
        }
        let broken_off = Writer::new(rt.alloc(), 3, failing, ErrorKind::Interrupted);
        let mut output = Output::new(broken_off);
        assert_eq!(rt; output.tell(b"one\n"), Ok(()));
        assert_eq!(rt; output.tell(b"two\n"), Ok(()));
        assert_eq!(rt; output.writer.taken.as_slice(), b"one\ntwo\n".as_slice());
        assert_eq!(rt; output.faults, 0);
    }
    // A writer that takes nothing more.
    let mut full = Output::new(Writer::new(rt.alloc(), 0, 0, ErrorKind::Other));
    assert_eq!(rt; full.tell(b"one\n"), Err(Failed));
    assert_eq!(rt; full.faults, 1);
    Ok(())
}

fn memory(alloc: Global) -> Result<Vec<String>, Fail> {
    Ok(vec![in alloc; String::from_str(alloc, "memory")?]?)
}

// Whole runs over a reader and a writer that fail at these calls, 0 for none: the exit status, how many bytes
// are told, and the fault line.
#[test]
fn a_fault_of_either_end_ends_the_run(rt: HostRuntime) -> Result<(), Fail> {
    let alloc = rt.alloc();
    let cases: [(u64, u64, u8, usize, &[u8]); 7] = [
        (0, 0, 1, TOLD.len(), b""),
        (1, 0, 3, 0, b"keytab: script can't be read\n"),
        (2, 0, 3, 0, b"keytab: script can't be read\n"),
        (3, 0, 3, 0, b"keytab: script can't be read\n"),
        (0, 1, 4, 0, b"keytab: replies can't be written\n"),
        (0, 2, 4, 16, b"keytab: replies can't be written\n"),
        (0, 3, 4, 20, b"keytab: replies can't be written\n"),
    ];
    for (read, write, code, told, line) in cases {
        for kind in [ErrorKind::BrokenPipe, ErrorKind::ConnectionReset] {
            let mut input = Input::new(Reader::new(20, read, kind));
            let mut output = Output::new(Writer::new(alloc, 16, write, kind));
            let mut errors = Vec::new(alloc);
            let words = Ok(memory(alloc)?);
            let code_told = run_program(alloc, words, &mut input, &mut output, &mut errors);
            assert_eq!(rt; code_told, ExitCode::from(code), "at {read}, {write}");
            let front = &TOLD[..told.min(TOLD.len())];
            assert_eq!(rt; output.writer.taken.as_slice(), front);
            assert_eq!(rt; errors.as_slice(), line);
            assert_eq!(rt; input.faults, u64::from(read > 0));
            assert_eq!(rt; output.faults, u64::from(write > 0));
        }
    }
    Ok(())
}

// Arguments as the system gives them, the program's name first.
#[derive(Drop)]
struct Arguments {
    all: [&'static [u8]; 3],
    count: usize,
}

impl Env for Arguments {
    fn arg(&self, i: usize, buf: &mut [u8]) -> Result<usize, FillError> {
        if i >= self.count || i >= 3 {
            return Err(FillError::NotPresent);
        }
        let word = self.all[i];
        if word.len() > buf.len() {
            return Err(FillError::TooLong);
        }
        let front = &mut buf[..word.len()];
        front.copy_from_slice(word);
        Ok(word.len())
    }

    fn var(&self, _name: &str, _buf: &mut [u8]) -> Result<usize, FillError> {
        Err(FillError::NotPresent)
    }

    fn var_at(&self, _i: usize, _buf: &mut [u8]) -> Result<usize, FillError> {
        Err(FillError::NotPresent)
    }
}

// What the program does for these arguments, over a source and a station that tell their bytes.
#[test]
fn the_words_decide_what_is_done(rt: HostRuntime) -> Result<(), Fail> {
    let alloc = rt.alloc();
    let cases: [([&'static [u8]; 3], usize, u8, &[u8], &[u8]); 7] = [
        ([b"keytab", b"memory", b""], 2, 1, TOLD, b""),
        ([b"memory", b"memory", b""], 2, 1, TOLD, b""),
        ([b"keytab", b"memory", b"memory"], 3, 2, b"", USAGE),
        ([b"memory", b"", b""], 1, 2, b"", USAGE),
        ([b"", b"", b""], 0, 2, b"", USAGE),
        ([b"keytab", b"memory", b"\xff"], 3, 2, b"", USAGE),
        ([b"keytab", b"memor\xff", b""], 2, 2, b"", USAGE),
    ];
    for (all, count, code, told, line) in cases {
        let arguments = Arguments { all, count };
        let mut source = MemorySource::new(alloc, SCRIPT, 7, &[])?;
        let mut station = MemoryStation::new(alloc, b"", b"", &[])?;
        let mut errors = Vec::new(alloc);
        let words = words(alloc, env::args(&(arguments, alloc)));
        let got = run_program(alloc, words, &mut source, &mut station, &mut errors);
        assert_eq!(rt; got, ExitCode::from(code), "at {all:?}");
        assert_eq!(rt; station.told(), told);
        assert_eq!(rt; errors.as_slice(), line);
    }
    Ok(())
}

#[test]
fn arguments_that_cannot_be_had_have_their_cause(rt: HostRuntime) {
    for (kind, status) in [
        (ErrorKind::OutOfMemory, Status::OutOfMemory),
        (ErrorKind::InvalidData, Status::Usage),
    ] {
        let words = words(rt.alloc(), Err(io::Error::from(kind)));
        assert_eq!(rt; words.err(), Some(status));
    }
}
