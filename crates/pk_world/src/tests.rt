use super::*;
use std::alloc::Global;
use std::test::Fail;

fn crosses<T: Send + Sync>(_value: &T) {}

#[test]
fn a_source_gives_its_bytes(rt: HostRuntime) -> Result<(), Fail> {
    let alloc = rt.alloc();
    let mut source = MemorySource::new(alloc, b"ab", 1, &[2])?;
    crosses(&source);
    let mut room = [7u8; 4];
    assert_eq!(rt; source.pull(&mut room), Pull::Got(1));
    assert_eq!(rt; room, [b'a', 7, 7, 7]);
    assert_eq!(rt; source.pull(&mut room), Pull::Failed);
    assert_eq!(rt; source.faults(), 1);
    assert_eq!(rt; source.pull(&mut room), Pull::Got(1));
    assert_eq!(rt; room, [b'b', 7, 7, 7]);
    assert_eq!(rt; source.pull(&mut room), Pull::End);
    Ok(())
}

// All bytes of a source, through a room of this size.
fn pulled(alloc: Global, bytes: &[u8], step: usize, room: usize) -> Result<Vec<u8>, Fail> {
    let mut source = MemorySource::new(alloc, bytes, step.max(1), &[])?;
    let mut all = Vec::new(alloc);
    let mut buffer = [0u8; 8];
    for _ in 0..100 {
        let end = room.clamp(1, 8);
        let front = &mut buffer[..end];
        if let Pull::Got(n) = source.pull(front) {
            all.extend_from_slice(&buffer[..n])?;
        }
    }
    Ok(all)
}

#[test]
fn pieces_of_any_size_make_up_the_bytes(rt: HostRuntime) -> Result<(), Fail> {
    for (step, room) in [(1, 8), (3, 2), (8, 8), (100, 5)] {
        let all = pulled(rt.alloc(), b"all of the bytes", step, room)?;
        assert_eq!(rt; all.as_slice(), b"all of the bytes".as_slice());
    }
    Ok(())
}

#[test]
fn a_station_takes_what_it_is_told(rt: HostRuntime) -> Result<(), Fail> {
    let mut station = MemoryStation::new(rt.alloc(), b"log", b"pages", &[2])?;
    crosses(&station);
    assert_eq!(rt; station.tell(b"one"), Ok(()));
    assert_eq!(rt; station.tell(b"two"), Err(Failed));
    assert_eq!(rt; station.tell(b"three"), Ok(()));
    assert_eq!(rt; station.told(), b"onethree".as_slice());
    assert_eq!(rt; station.calls(), 3);
    assert_eq!(rt; station.sink_faults(), 1);
    assert_eq!(rt; station.file(Which::Log), b"log".as_slice());
    assert_eq!(rt; station.file(Which::Pages), b"pages".as_slice());
    Ok(())
}

// Writes into the log, where the place isn't behind its end.
fn put(station: &mut MemoryStation, at: u64, bytes: &[u8]) {
    if at <= station.file(Which::Log).len() as u64 {
        let _ = station.write_at(Which::Log, at, bytes);
    }
}

// A station that has had these calls on its log: `ab` written and synced, `cdef` written over its end, a reply told, and
// the log synced again.
fn written(alloc: Global, failing: &[u64]) -> Result<MemoryStation, Fail> {
    let mut station = MemoryStation::new(alloc, b"", b"pages", failing)?;
    put(&mut station, 0, b"ab");
    let _ = station.sync(Which::Log);
    put(&mut station, 1, b"cdef");
    let _ = station.tell(b"told");
    let _ = station.sync(Which::Log);
    Ok(station)
}

// Whether there was a call of this number, and a crash in it leaves this log, and the pages as they were.
fn left_in(station: &MemoryStation, call: u64, left: Left, log: &[u8]) -> Result<bool, Fail> {
    if call == 0 || call > station.calls() {
        return Ok(false);
    }
    let after = station.crash(call, left)?;
    Ok(
        after.file(Which::Log) == log
            && after.file(Which::Pages) == b"pages".as_slice()
            && after.told().is_empty()
            && after.calls() == 0,
    )
}

#[test]
fn a_crash_leaves_what_was_synced_and_more(rt: HostRuntime) -> Result<(), Fail> {
    let mut station = MemoryStation::new(rt.alloc(), b"", b"pages", &[])?;
    assert_eq!(rt; station.write_at(Which::Log, 0, b"ab"), Ok(()));
    assert!(rt; left_in(&station, 1, Left::Fill(7), b"\x07\x07")?);
    let station = written(rt.alloc(), &[])?;
    let cases: [(u64, Left, &[u8]); 9] = [
        (1, Left::Old, b""),
        (1, Left::New, b"ab"),
        (2, Left::Fill(7), b"\x07\x07"),
        (3, Left::Old, b"ab"),
        (3, Left::New, b"acdef"),
        (3, Left::Fill(7), b"a\x07\x07\x07\x07"),
        (4, Left::Old, b"ab"),
        (5, Left::New, b"acdef"),
        (5, Left::Fill(0), b"a\0\0\0\0"),
    ];
    for (call, left, log) in cases {
        assert!(rt; left_in(&station, call, left, log)?, "in {call}, {left:?}");
    }
    // A sync or a write that failed: what it should have done may still come out.
    let station = written(rt.alloc(), &[2, 3])?;
    assert_eq!(rt; station.file(Which::Log), b"ab".as_slice());
    assert_eq!(rt; station.disk_faults(), 2);
    assert!(rt; left_in(&station, 4, Left::Old, b"")?);
    assert!(rt; left_in(&station, 4, Left::New, b"acdef")?);
    Ok(())
}

#[test]
fn each_call_fails_where_the_list_says_so(rt: HostRuntime) -> Result<(), Fail> {
    let mut station = MemoryStation::new(rt.alloc(), b"abc", b"", &[1, 3, 5, 7, 9])?;
    let mut room = [0u8; 2];
    assert_eq!(rt; station.size(Which::Log), Err(Failed));
    assert_eq!(rt; station.size(Which::Log), Ok(3));
    assert_eq!(rt; station.read_at(Which::Log, 1, &mut room), Err(Failed));
    assert_eq!(rt; station.read_at(Which::Log, 1, &mut room), Ok(()));
    assert_eq!(rt; room, [b'b', b'c']);
    assert_eq!(rt; station.write_at(Which::Log, 3, b"de"), Err(Failed));
    assert_eq!(rt; station.write_at(Which::Log, 3, b"de"), Ok(()));
    assert_eq!(rt; station.sync(Which::Log), Err(Failed));
    assert_eq!(rt; station.sync(Which::Log), Ok(()));
    assert_eq!(rt; station.tell(b"one"), Err(Failed));
    assert_eq!(rt; station.tell(b"two"), Ok(()));
    assert_eq!(rt; station.file(Which::Log), b"abcde".as_slice());
    assert_eq!(rt; station.told(), b"two".as_slice());
    assert_eq!(rt;
        (
            station.calls(),
            station.disk_faults(),
            station.sink_faults()
        ),
        (10, 4, 1)
    );
    assert_eq!(rt; station.page_reads(), 0);
    assert_eq!(rt; station.read_at(Which::Pages, 0, &mut room[..0]), Ok(()));
    assert_eq!(rt; station.page_reads(), 1);
    Ok(())
}

#[test]
fn looks_and_writes_go_through(rt: HostRuntime) -> Result<(), Fail> {
    let mut station = MemoryStation::new(rt.alloc(), b"", b"pages", &[])?;
    assert_eq!(rt; station.write_at(Which::Pages, 1, b"xy"), Ok(()));
    assert_eq!(rt; station.file(Which::Pages), b"pxyes".as_slice());
    assert_eq!(rt; look(&mut station, Which::Pages, 5, &mut []), Ok(()));
    assert_eq!(rt; write_through(&mut station, Which::Log, 0, b"z"), Ok(()));
    let last = station.calls();
    assert!(rt; left_in(&station, last, Left::Old, b"")?);
    let page = Page::make(vec![in rt.alloc(); 7u8; PAGE_BYTES]?);
    assert_eq!(rt; page.as_slice().len(), PAGE_BYTES);
    Ok(())
}
