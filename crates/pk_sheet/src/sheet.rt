ghost use Rattle.std.specs.Prelude.{◌≡◌, ◌≤◌, [], None, IfOk, OnOk, OnErr};
ghost use Rattle.std.specs.FinMap.{insert, remove};
ghost use Rattle.pk_sheet.specs.Sheets.{IsSheet, size_of, room_of, record_at, with_record, without_place, map_of};
ghost use Rattle.pk_sheet.specs.Pages.{SheetHolds};

use crate::by_place::{put_in, take_out};
use crate::writing::page_bytes;
use pk_rows::{Place, Stored};
use pk_values::Memory;
use pk_world::Page;
use std::alloc::Global;
use std::marker::Model;

/// How many bytes of a page records may take: all but the 2 that say how many there are.
pub(crate) const RECORD_BYTES: u32 = 4094;

// How many bytes a record takes beside its own.
const HEAD_BYTES: u32 = 14;

/// Records by ascending places that fit on one page. Contracts see it as the list of the records.
#[derive(Debug, Drop)]
pub struct Sheet {
    stored: Vec<Stored>,
    // How many bytes of the page are left.
    room: u32,
}

impl Model for Sheet {
    ghost use Rattle.std.specs.Prelude.{List};
    ghost use Rattle.pk_rows.specs.declared.stored.Stored.{Stored as Record};
    ghost use Rattle.pk_sheet.specs.Sheets.{LeavesRoom};

    ghost Value = { List Record };

    ghost view = { λ s. s.stored.items };

    ghost invariant = { λ s. LeavesRoom s.stored.items s.room };
}

impl Sheet {
    /// A sheet without records.
    pub fn empty(alloc: Global) -> Sheet
        ensures { result ≡ [] }
    {
        Sheet {
            stored: Vec::new(alloc),
            room: RECORD_BYTES,
        }
    }

    /// The sheet of these records, which leave so many bytes.
    pub(crate) fn of(stored: Vec<Stored>, room: u32) -> Sheet
        requires sheet { IsSheet stored.items }
        requires room { room ≡ room_of stored.items }
        ensures { result ≡ stored.items }
    {
        Sheet { stored, room }
    }

    /// The records, by ascending places.
    pub fn stored(&self) -> &[Stored]
        ensures stored { result.now ≡ self.now }
        ensures sheet { IsSheet self.now }
    {
        self.stored.as_slice()
    }

    /// How many bytes of the page are left: 4,094, less 14 and its own for each record. It takes no memory.
    pub fn room(&self) -> u32
        ensures { result ≡ room_of self.now }
    {
        self.room
    }

    /// Adds a record at a place that has none, where 14 bytes and its own are at most the room. After `Memory` the sheet is
    /// as it was.
    pub fn add(&mut self, stored: Stored) -> Result<(), Memory>
        requires absent { record_at stored.place self.old ≡ None }
        requires fits { size_of stored ≤ room_of self.old }
        ensures records { OnOk result (self.new ≡ with_record stored self.old) }
        ensures map { OnOk result (map_of self.new ≡ insert (map_of self.old) stored.place stored.bytes) }
        ensures same { OnErr result (self.new ≡ self.old) }
    {
        let size = size_of(&stored);
        put_in(&mut self.stored, stored)?;
        self.room -= size;
        Ok(())
    }

    /// Takes out the record at a place; `None` exactly where there is none. It takes no memory.
    pub fn remove(&mut self, place: Place) -> Option<Stored>
        ensures removed { result ≡ record_at place self.old }
        ensures records { self.new ≡ without_place place self.old }
        ensures map { map_of self.new ≡ remove (map_of self.old) place }
    {
        match take_out(&mut self.stored, place) {
            Some(stored) => {
                self.room += size_of(&stored);
                Some(stored)
            }
            None => None,
        }
    }

    /// The page that holds this sheet.
    pub fn write_sheet(&self) -> Result<Page, Memory>
        ensures { IfOk result (λ page. SheetHolds page self.now) }
    {
        let bytes = page_bytes(*self.stored.allocator(), self.stored.as_slice())?;
        Ok(Page::make(bytes))
    }
}

// How many bytes a record takes on a page that has room for it.
fn size_of(stored: &Stored) -> u32
    requires { size_of stored.now ≤ 4094 }
    ensures { result ≡ size_of stored.now }
{
    HEAD_BYTES + stored.bytes.as_slice().len() as u32
}
