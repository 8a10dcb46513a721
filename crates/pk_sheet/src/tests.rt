use super::*;
use pk_rows::{Place, Stored};
use pk_values::{Bytes, Memory};
use pk_world::PAGE_BYTES;
use std::alloc::Global;
use std::io::Write;
use std::test::Fail;

fn crosses<T: Send + Sync>() {}

// Pages, and what each holds: two digits for each byte in front, and zeros behind; of each record its place, and how many
// bytes it has.
const PAGES: &[u8] = b"\
=
0001=0.0:0;
0002=bad
0001 00000001 0000000000000001 0002 6162=1.1:2;
0001 ffffffff ffffffffffffffff 0001 00=4294967295.18446744073709551615:1;
0002 00000000 0000000000000000 0009 010000000000000001 00000001 0000000000000000 0012 010000000000000001017401016101000000=0.0:9;1.0:18;
0001 00000000 0000000000000000 0009 010000000000000001 00000001 0000000000000000 0012 010000000000000001017401016101000000=bad
0003 00000000 0000000000000000 0009 010000000000000001 00000001 0000000000000000 0012 010000000000000001017401016101000000=bad
0002 00000001 0000000000000002 0001 61 00000001 0000000000000003 0001 62=1.2:1;1.3:1;
0002 00000001 0000000000000003 0001 62 00000001 0000000000000002 0001 61=bad
0002 00000001 0000000000000002 0001 61 00000001 0000000000000002 0001 61=bad
0002 00000001 0000000000000002 0001 61 00000001 0000000000000002 0000=bad
0002 00000001 0000000000000002 0001 61 00000002 0000000000000001 0001 62=1.2:1;2.1:1;
0002 00000002 0000000000000001 0001 62 00000001 0000000000000002 0001 61=bad
0002 00000001 00000000000000ff 0001 61 00000001 0000000000000100 0001 62=1.255:1;1.256:1;
0002 00000001 0000000000000002 0001 61 01000000 0000000000000000 0001 62=1.2:1;16777216.0:1;
0001 00000001 0000000000000001 0001 6162=bad
0001 00000001 0000000000000001 0003 6162=1.1:3;
0000 01=bad
0000 00000001 0000000000000001 0002 6162=bad
0001 00000001 0000000000000001 0ff0 61=1.1:4080;
0001 00000001 0000000000000001 0ff1 61=bad
0001 00000001 0000000000000001 ffff 61=bad
0002 00000001 0000000000000001 0fe2 61=bad
0002 00000001 0000000000000001 0fe1 61=bad
0124=bad
0125=bad
ffff=bad";

// The page that begins so.
fn page(alloc: Global, digits: &[u8]) -> Result<Vec<u8>, Memory> {
    let mut bytes = Vec::with_capacity(alloc, PAGE_BYTES)?;
    let mut high = None;
    for letter in digits {
        let Some(digit) = char::from(*letter).to_digit(16) else {
            continue;
        };
        high = match high {
            None => Some(digit),
            Some(first) => {
                bytes.push(((first << 4 | digit) & 255) as u8)?;
                None
            }
        };
    }
    bytes.resize(PAGE_BYTES, 0)?;
    Ok(bytes)
}

// What a page holds, where it is written again as it was.
fn held(alloc: Global, page: &[u8]) -> Result<Vec<u8>, Fail> {
    if page.len() != PAGE_BYTES {
        return Ok(Vec::from_slice(alloc, b"no page")?);
    }
    let sheet = match read_sheet(alloc, page) {
        Ok(sheet) => sheet,
        Err(SheetErr::Bad) => return Ok(Vec::from_slice(alloc, b"bad")?),
        Err(error) => return Err(Fail::from(error)),
    };
    if sheet.write_sheet()?.as_slice() != page {
        return Ok(Vec::from_slice(alloc, b"another page")?);
    }
    listed(alloc, &sheet)
}

fn listed(alloc: Global, sheet: &Sheet) -> Result<Vec<u8>, Fail> {
    let mut text = Vec::new(alloc);
    for stored in sheet.stored() {
        let place = stored.place;
        let len = stored.bytes.as_slice().len();
        write!(text, "{}.{}:{len};", place.table, place.id)?;
    }
    Ok(text)
}

#[test]
fn pages_hold_what_they_spell(rt: HostRuntime) -> Result<(), Fail> {
    crosses::<Sheet>();
    let alloc = rt.alloc();
    let mut cases = 0u64;
    for line in PAGES.split(|byte| *byte == b'\n') {
        let mut parts = line.split(|byte| *byte == b'=');
        let page = page(alloc, parts.next().unwrap_or(b""))?;
        let want = parts.next().unwrap_or(b"");
        let text = held(alloc, &page)?;
        assert!(rt; text.as_slice() == want, "case {cases}");
        cases = cases.saturating_add(1);
    }
    assert_eq!(rt; cases, 28);
    Ok(())
}

// How many of the pages with each byte at this place are read, and written again as they were.
fn read_with(alloc: Global, page: &mut [u8], at: usize) -> Result<u32, Fail> {
    let mut count = 0u32;
    if at < page.len() {
        let right = page[at];
        for byte in 0..=255 {
            page[at] = byte;
            if held(alloc, page)?.as_slice() != b"bad".as_slice() {
                count = count.saturating_add(1);
            }
        }
        page[at] = right;
    }
    Ok(count)
}

#[test]
fn damaged_pages_are_bad(rt: HostRuntime) -> Result<(), Fail> {
    let alloc = rt.alloc();
    let mut page = page(
        alloc,
        b"0002 00000001 0000000000000001 0002 6162 00000001 0000000000000101 0001 63",
    )?;
    let mut count = 0u32;
    for at in 0..36 {
        count = count.saturating_add(read_with(alloc, &mut page, at)?);
    }
    assert_eq!(rt; count, 4396);
    assert_eq!(rt; read_with(alloc, &mut page, PAGE_BYTES - 1)?, 1);
    Ok(())
}

#[test]
fn bytes_of_ones_are_no_sheet(rt: HostRuntime) -> Result<(), Fail> {
    let alloc = rt.alloc();
    let mut bytes = Vec::with_capacity(alloc, PAGE_BYTES)?;
    bytes.push(0)?;
    bytes.push(1)?;
    bytes.resize(PAGE_BYTES, 255)?;
    assert_eq!(rt; held(alloc, &bytes)?.as_slice(), b"bad".as_slice());
    Ok(())
}

// Puts so many bytes at a place, instead of what is there, where the page has room for them. Whether it has.
fn put(alloc: Global, sheet: &mut Sheet, table: u32, id: u64, len: usize) -> Result<bool, Fail> {
    changed_sheets_are_sheets();
    let mut bytes = Vec::new(alloc);
    bytes.resize(len, 7)?;
    let place = Place { table, id };
    let _before = sheet.remove(place);
    if len.saturating_add(14) > sheet.room() as usize {
        return Ok(false);
    }
    sheet.add(Stored {
        place,
        bytes: Bytes::from_vec(bytes),
    })?;
    Ok(true)
}

#[test]
fn records_are_added_and_removed(rt: HostRuntime) -> Result<(), Fail> {
    let alloc = rt.alloc();
    let mut sheet = Sheet::empty(alloc);
    assert_eq!(rt; sheet.room(), 4094);
    assert!(rt; put(alloc, &mut sheet, 1, 1, 2)?);
    assert_eq!(rt; sheet.room(), 4078);
    assert!(rt; put(alloc, &mut sheet, 2, 0, 0)?);
    assert!(rt; put(alloc, &mut sheet, 0, 9, 1)?);
    assert!(rt; put(alloc, &mut sheet, 1, 2, 3)?);
    assert!(rt; put(alloc, &mut sheet, 1, 1, 4)?);
    let text = held(alloc, sheet.write_sheet()?.as_slice())?;
    assert_eq!(rt; text.as_slice(), b"0.9:1;1.1:4;1.2:3;2.0:0;".as_slice());
    assert_eq!(rt; sheet.room(), 4094 - 4 * 14 - 8);
    assert!(rt; sheet.remove(Place { table: 1, id: 2 }).is_some());
    assert!(rt; sheet.remove(Place { table: 1, id: 2 }).is_none());
    assert!(rt; sheet.remove(Place { table: 1, id: 0 }).is_none());
    assert_eq!(rt;
        listed(alloc, &sheet)?.as_slice(),
        b"0.9:1;1.1:4;2.0:0;".as_slice()
    );
    assert_eq!(rt; sheet.room(), 4094 - 3 * 14 - 5);
    Ok(())
}

#[test]
fn a_page_is_filled(rt: HostRuntime) -> Result<(), Fail> {
    let alloc = rt.alloc();
    let mut sheet = Sheet::empty(alloc);
    assert!(rt; !put(alloc, &mut sheet, 1, 1, 4081)?);
    assert!(rt; put(alloc, &mut sheet, 1, 1, 4080)?);
    assert_eq!(rt; sheet.room(), 0);
    assert!(rt; !put(alloc, &mut sheet, 1, 2, 0)?);
    let text = held(alloc, sheet.write_sheet()?.as_slice())?;
    assert_eq!(rt; text.as_slice(), b"1.1:4080;".as_slice());
    let mut sheet = Sheet::empty(alloc);
    for id in 0..292 {
        assert!(rt; put(alloc, &mut sheet, 1, 291 - id, 0)?);
    }
    assert_eq!(rt; (sheet.stored().len(), sheet.room()), (292, 6));
    assert!(rt; !put(alloc, &mut sheet, 1, 292, 0)?);
    let page = sheet.write_sheet()?;
    assert_eq!(rt; read_sheet(alloc, page.as_slice())?.stored().len(), 292);
    Ok(())
}
