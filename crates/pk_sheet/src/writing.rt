//! The bytes of a page.

ghost use Rattle.std.specs.Prelude.{◌≡◌, ◌^◌, ◌<◌, ◌++◌, All, length, IfOk, OnOk};
ghost use Rattle.std.specs.List.{flat_map};
ghost use Rattle.pk_sheet.specs.Sheets.{IsSheet};
ghost use Rattle.pk_sheet.specs.Pages.{record_bytes, page_bytes};

use pk_rows::Stored;
use pk_values::Memory;
use pk_world::PAGE_BYTES;
use std::alloc::Global;

/// The bytes of the page that holds the sheet of these records: 4,096.
pub(crate) fn page_bytes(alloc: Global, stored: &[Stored]) -> Result<Vec<u8>, Memory>
    requires { IsSheet stored.now }
    ensures { IfOk result (λ bytes. bytes.items ≡ page_bytes stored.now) }
{
    let mut out = Vec::with_capacity(alloc, PAGE_BYTES)?;
    out.extend_from_slice(&(stored.len() as u16).to_be_bytes())?;
    put_records(&mut out, stored)?;
    out.resize(PAGE_BYTES, 0)?;
    Ok(out)
}

fn put_records(out: &mut Vec<u8>, stored: &[Stored]) -> Result<(), Memory>
    requires { All (λ s. length s.bytes < 2 ^ 16) stored.now }
    ensures { OnOk result (out.new.items ≡ out.old.items ++ flat_map record_bytes stored.now) }
{
    for record in stored {
        put_record(out, record)?;
    }
    Ok(())
}

fn put_record(out: &mut Vec<u8>, stored: &Stored) -> Result<(), Memory>
    requires { length stored.now.bytes < 2 ^ 16 }
    ensures { OnOk result (out.new.items ≡ out.old.items ++ record_bytes stored.now) }
{
    let bytes = stored.bytes.as_slice();
    out.extend_from_slice(&stored.place.table.to_be_bytes())?;
    out.extend_from_slice(&stored.place.id.to_be_bytes())?;
    out.extend_from_slice(&(bytes.len() as u16).to_be_bytes())?;
    out.extend_from_slice(bytes)?;
    Ok(())
}
