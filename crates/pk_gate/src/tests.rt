ghost use Rattle.std.specs.Prelude.{◌≡◌, ◌≤◌, []};
ghost use Rattle.pk_world.specs.MemoryStation.{files_of, call_count};

use super::*;
use pk_values::Bytes;
use pk_world::{DeviceErr, Left, MemoryStation, Station, Which};
use std::alloc::Global;
use std::test::Fail;

fn crosses<T: Send + Sync>() {}

// Two payloads appended, the log emptied, and a third appended: with 3, 4, 4, 2 and 4 calls of the station.
fn play(alloc: Global, station: &mut MemoryStation) -> Result<(), DeviceErr>
    requires { (files_of station.old).log ≡ [] }
{
    let mut log = Log::create(alloc, station)?;
    log.append(station, &Bytes::copy(alloc, b"ab")?)?;
    log.append(station, &Bytes::copy(alloc, b"c")?)?;
    log.restart(station)?;
    log.append(station, &Bytes::copy(alloc, b"d")?)
}

// The first two payloads that a fault or a crash in the call of this number may leave, `-` where there are fewer. In the
// first three calls nothing is promised.
fn allowed(call: u64) -> [&'static [u8]; 2] {
    match call {
        0..=3 => [b"bad,bad", b"-,-"],
        4..=7 => [b"-,-", b"ab,-"],
        8..=11 => [b"ab,-", b"ab,c"],
        12..=13 => [b"ab,c", b"-,-"],
        _ => [b"-,-", b"d,-"],
    }
}

// Payload k of the log that a station holds.
fn payload(alloc: Global, station: &mut MemoryStation, k: u64) -> Result<Vec<u8>, Fail> {
    let log = match Log::open(alloc, station) {
        Ok(log) => log,
        Err(LogErr::Bad) => return Ok(Vec::from_slice(alloc, b"bad")?),
        Err(error) => return Err(Fail::from(error)),
    };
    if k >= log.count() {
        return Ok(Vec::from_slice(alloc, b"-")?);
    }
    Ok(log.read(station, k)?.into_vec())
}

fn list(alloc: Global, station: &mut MemoryStation) -> Result<Vec<u8>, Fail> {
    let mut text = payload(alloc, station, 0)?;
    text.push(b',')?;
    text.extend_from_slice(payload(alloc, station, 1)?.as_slice())?;
    Ok(text)
}

fn is_allowed(call: u64, text: &[u8]) -> bool {
    let [before, after] = allowed(call);
    text == before || text == after
}

// Whether a station that is started anew after a crash holds what may be left; and so too after a crash in each call of
// its first opening. How many openings that were.
fn openings(
    alloc: Global,
    station: &MemoryStation,
    call: u64,
    left: Left,
) -> Result<Option<u64>, Fail>
    requires first { 1 ≤ call }
    requires last { call ≤ call_count station.now }
{
    let mut again = station.crash(call, left)?;
    let text = list(alloc, &mut again)?;
    if !is_allowed(call, &text) {
        return Ok(None);
    }
    let mut opened = station.crash(call, left)?;
    let _ = Log::open(alloc, &mut opened);
    let mut count = 1u64;
    for inner in 1..=opened.calls() {
        let mut third = opened.crash(inner, Left::New)?;
        if list(alloc, &mut third)? != text {
            return Ok(None);
        }
        count = count.saturating_add(1);
    }
    Ok(Some(count))
}

#[test]
fn each_call_crashed_leaves_a_list(rt: HostRuntime) -> Result<(), Fail> {
    let alloc = rt.alloc();
    let mut station = MemoryStation::new(alloc, b"", b"", &[])?;
    assert_eq!(rt; play(alloc, &mut station), Ok(()));
    assert_eq!(rt; station.calls(), 17);
    let mut cases = 0u64;
    for call in 1..=station.calls() {
        for left in [
            Left::Old,
            Left::New,
            Left::Fill(0),
            Left::Fill(1),
            Left::Fill(7),
            Left::Fill(255),
        ] {
            let count = openings(alloc, &station, call, left)?;
            assert!(rt; count.is_some(), "in {call}, {left:?}");
            cases = cases.saturating_add(count.unwrap_or(0));
        }
    }
    // From the fourth call on an opening has four calls; in the first three the file may be empty, or begin with other bytes.
    assert_eq!(rt; cases, 14 * 6 * 5 + (6 * 3) + 2 * (3 + 5 + 4 * 4));
    Ok(())
}

#[test]
fn each_call_failing_leaves_a_list(rt: HostRuntime) -> Result<(), Fail> {
    let alloc = rt.alloc();
    for call in 1..=17 {
        let mut station = MemoryStation::new(alloc, b"", b"", &[call])?;
        assert_eq!(rt; play(alloc, &mut station), Err(DeviceErr::Disk));
        assert_eq!(rt; (station.calls(), station.disk_faults()), (call, 1));
        let mut again = MemoryStation::new(alloc, station.file(Which::Log), b"", &[])?;
        let text = list(alloc, &mut again)?;
        assert!(rt; is_allowed(call, &text), "in {call}");
    }
    Ok(())
}

// Files, with a blank between two, and the first two payloads of each behind an `=`. `L` stands for what a log begins with,
// `S` for seven bytes of it, `W` for the same with another last byte, `.` for a zero byte, `1` to `9` for bytes of these
// numbers and `M` for 16, so that `M...` spells the length 268,435,456.
const FILES: &[u8] =
    b"=bad,bad S=bad,bad L=bad,bad L.=-,- W.=bad,bad L2=-,- L7=-,- L1=bad,bad L1.=bad,bad L1.....=bad,bad L1M...=bad,bad L1M..1=bad,bad L1M..1x.=bad,bad L1...1=bad,bad L1...1x=bad,bad L1...1x.=x,- L1...1x2=x,- L1...2x.=bad,bad L1...2xy.=xy,- L1...1x.1...1y1=x,- L1...1x1...2yz.=x,yz L1...1x1...2yz=bad,bad L1...1x1...2y=bad,bad L.1...1x.=-,-";

// The bytes that a text of a file stands for.
fn spelled(alloc: Global, text: &[u8]) -> Result<Vec<u8>, Fail> {
    let mut bytes = Vec::new(alloc);
    for byte in text {
        match byte {
            b'L' => bytes.extend_from_slice(b"KEYTLOG1")?,
            b'S' => bytes.extend_from_slice(b"KEYTLOG")?,
            b'W' => bytes.extend_from_slice(b"KEYTLOG2")?,
            b'.' => bytes.push(0)?,
            b'M' => bytes.push(16)?,
            b'1'..=b'9' => bytes.push(byte - b'0')?,
            _ => bytes.push(*byte)?,
        }
    }
    Ok(bytes)
}

#[test]
fn files_hold_the_lists_that_they_spell(rt: HostRuntime) -> Result<(), Fail> {
    let alloc = rt.alloc();
    let mut cases = 0u64;
    for case in FILES.split(|byte| *byte == b' ') {
        let mut parts = case.split(|byte| *byte == b'=');
        let file = spelled(alloc, parts.next().unwrap_or(b""))?;
        let want = parts.next().unwrap_or(b"");
        let mut station = MemoryStation::new(alloc, &file, b"", &[])?;
        let text = list(alloc, &mut station)?;
        assert!(rt; text.as_slice() == want, "case {cases}");
        cases = cases.saturating_add(1);
    }
    assert_eq!(rt; cases, 24);
    Ok(())
}

#[test]
fn a_log_gives_what_was_appended(rt: HostRuntime) -> Result<(), Fail> {
    crosses::<Log>();
    let alloc = rt.alloc();
    let mut station = MemoryStation::new(alloc, b"", b"pages", &[])?;
    let mut log = Log::create(alloc, &mut station)?;
    assert_eq!(rt;
        log.append(&mut station, &Bytes::copy(alloc, b"ab")?),
        Ok(())
    );
    assert_eq!(rt; log.count(), 1);
    assert_eq!(rt; station.file(Which::Pages), b"pages".as_slice());
    assert_eq!(rt;
        payload(alloc, &mut station, 0)?.as_slice(),
        b"ab".as_slice()
    );
    Ok(())
}
