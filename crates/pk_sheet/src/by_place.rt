//! Records in the order of their places.

ghost use Rattle.std.specs.Prelude.{◌≡◌, ◌↔◌, None, IsTrue, OnOk, OnErr};
ghost use Rattle.pk_sheet.specs.Sheets.{IsPlace, PlacesAscend, record_at, with_record, without_place};

use pk_rows::{Place, Stored};
use pk_values::Memory;

/// Whether each place is above those before it.
pub(crate) fn ascend(stored: &[Stored]) -> bool
    ensures { IsTrue result ↔ PlacesAscend stored.now }
{
    stored.is_sorted_by(|a, b| a.place.cmp(&b.place).is_lt())
}

/// Puts a record at its own place, which no other has.
pub(crate) fn put_in(records: &mut Vec<Stored>, stored: Stored) -> Result<(), Memory>
    requires ascend { PlacesAscend records.old.items }
    requires absent { record_at stored.place records.old.items ≡ None }
    ensures place { IsPlace stored.place }
    ensures ok { OnOk result (records.new.items ≡ with_record stored records.old.items) }
    ensures err { OnErr result (records.new.items ≡ records.old.items) }
{
    let place = stored.place;
    let index = records.partition_point(|other| other.place.cmp(&place).is_lt());
    records.insert(index, stored)?;
    Ok(())
}

/// Takes out the record at a place; `None` exactly where there is none.
pub(crate) fn take_out(records: &mut Vec<Stored>, place: Place) -> Option<Stored>
    requires { PlacesAscend records.old.items }
    ensures taken { result ≡ record_at place records.old.items }
    ensures left { records.new.items ≡ without_place place records.old.items }
{
    match records.binary_search_by(|other| other.place.cmp(&place)) {
        Ok(index) => Some(records.remove(index)),
        Err(_) => None,
    }
}
