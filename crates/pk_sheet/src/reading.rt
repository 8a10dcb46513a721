//! Reading a page from its first byte to its last.

ghost use Rattle.std.specs.Prelude.{◌≡◌, ◌==◌, length};
ghost use Rattle.std.specs.List.{list_all};
ghost use Rattle.std.specs.Int.{w16, w32, w64};
ghost use Rattle.pk_sheet.specs.Errors.{Gets};
ghost use Rattle.pk_sheet.specs.Pages.{SheetHolds};
ghost use Rattle.pk_sheet.specs.Reading.{Finds, FindsBytes, number_at, text_at, stored_at, all_at, records_at};

use crate::by_place::ascend;
use crate::sheet::Sheet;
use crate::sheet_err::SheetErr;
use pk_rows::{Place, Stored};
use pk_values::{Bytes, Items};
use std::alloc::Global;

// How many records a page has room for, where they have no bytes of their own: 4,094 / 14.
const MOST_RECORDS: usize = 292;

// A part in front of bytes, and the bytes behind it; `Bad` exactly where no such part is in front.
type Found<'a, T> = Result<(T, &'a [u8]), SheetErr>;

/// The sheet that a page of 4,096 bytes holds. `Bad` comes exactly where it holds none: where there are fewer records than
/// it says, or places that don't ascend, or another byte than 0 behind the last record. Each byte is read once, and its time
/// is linear in them.
pub fn read_sheet(alloc: Global, bytes: &[u8]) -> Result<Sheet, SheetErr>
    requires { length bytes.now ≡ 4096 }
    ensures { Gets (SheetHolds bytes.now) result }
{
    let (stored, rest) = match records_of(alloc, bytes) {
        Ok(found) => found,
        Err(error) => return Err(error),
    };
    if !ascend(stored.as_slice()) {
        return Err(SheetErr::Bad);
    }
    if !are_zeros(rest) {
        return Err(SheetErr::Bad);
    }
    Ok(Sheet::of(stored.into_vec(), rest.len() as u32))
}

fn are_zeros(bytes: &[u8]) -> bool
    ensures { result ≡ list_all (λ b. b == 0) bytes.now }
{
    bytes.iter().all(|byte| *byte == 0)
}

// The records behind their number.
#[tactic(auto, unfolding(crate::specs::Reading::records_at))]
fn records_of(alloc: Global, bytes: &[u8]) -> Found<'_, Items<Stored>>
    ensures { Finds result (records_at bytes.now) }
{
    let (count, rest) = u16_of(bytes)?;
    all_of(alloc, count as usize, rest)
}

// So many records. What a page can't hold takes no memory beforehand, however many it says.
fn all_of(alloc: Global, count: usize, bytes: &[u8]) -> Found<'_, Items<Stored>>
    ensures { Finds result (all_at count bytes.now) }
{
    let mut records = Vec::with_capacity(alloc, count.min(MOST_RECORDS))?;
    let mut rest = bytes;
    for _ in 0..count {
        let (stored, behind) = stored_of(alloc, rest)?;
        records.push(stored)?;
        rest = behind;
    }
    Ok((Items::from_vec(records), rest))
}

#[tactic(auto, unfolding(crate::specs::Reading::stored_at))]
fn stored_of(alloc: Global, bytes: &[u8]) -> Found<'_, Stored>
    ensures { Finds result (stored_at bytes.now) }
{
    let (table, rest) = u32_of(bytes)?;
    let (id, rest) = u64_of(rest)?;
    let (text, rest) = text_of(rest)?;
    let stored = Stored {
        place: Place { table, id },
        bytes: Bytes::copy(alloc, text)?,
    };
    Ok((stored, rest))
}

// Bytes behind their number.
#[tactic(auto, unfolding(crate::specs::Reading::text_at))]
fn text_of(bytes: &[u8]) -> Found<'_, &[u8]>
    ensures { FindsBytes result (text_at bytes.now) }
{
    let (len, rest) = u16_of(bytes)?;
    if rest.len() < len as usize {
        return Err(SheetErr::Bad);
    }
    Ok(rest.split_at(len as usize))
}

#[tactic(auto, unfolding(crate::specs::Reading::number_at))]
fn u16_of(bytes: &[u8]) -> Found<'_, u16>
    ensures { Finds result (number_at w16 bytes.now) }
{
    if bytes.len() < 2 {
        return Err(SheetErr::Bad);
    }
    let (front, rest) = bytes.split_at(2);
    let number = u16::from_be_bytes([front[0], front[1]]);
    Ok((number, rest))
}

#[tactic(auto, unfolding(crate::specs::Reading::number_at))]
fn u32_of(bytes: &[u8]) -> Found<'_, u32>
    ensures { Finds result (number_at w32 bytes.now) }
{
    if bytes.len() < 4 {
        return Err(SheetErr::Bad);
    }
    let (front, rest) = bytes.split_at(4);
    let number = u32::from_be_bytes([front[0], front[1], front[2], front[3]]);
    Ok((number, rest))
}

#[tactic(auto, unfolding(crate::specs::Reading::number_at))]
fn u64_of(bytes: &[u8]) -> Found<'_, u64>
    ensures { Finds result (number_at w64 bytes.now) }
{
    if bytes.len() < 8 {
        return Err(SheetErr::Bad);
    }
    let (front, rest) = bytes.split_at(8);
    let number = u64::from_be_bytes([
        front[0], front[1], front[2], front[3], front[4], front[5], front[6], front[7],
    ]);
    Ok((number, rest))
}
