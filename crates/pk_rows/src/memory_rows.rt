ghost use Rattle.std.specs.Prelude.{◌≡◌, OnOk};
ghost use Rattle.std.specs.FinMap.{from_entries};
ghost use Rattle.pk_rows.specs.Maps.{without, with_all, place_cmp};

use crate::batch::Batch;
use crate::place::Place;
use crate::rows::Rows;
use crate::stored::Stored;
use pk_values::{Bytes, Memory};
use pk_world::{Station, StoreErr};
use std::alloc::Global;
use std::collections::BTreeMap;
use std::ops::Bound;

/// Rows in memory, which are lost when it is dropped. It makes no call of its station, and `Memory` is its one error.
#[derive(Drop)]
pub struct MemoryRows {
    alloc: Global,
    rows: BTreeMap<Place, Bytes>,
}

impl MemoryRows {
    ghost use Rattle.std.specs.FinMap.{empty};
    ghost use Rattle.pk_rows.specs.MemoryRows.{map_of};

    /// Nothing is stored.
    pub fn new(alloc: Global) -> MemoryRows
        ensures { map_of result ≡ empty }
    {
        MemoryRows {
            alloc,
            rows: BTreeMap::new(alloc),
        }
    }
}

impl<W: Station> Rows<W> for MemoryRows {
    ghost use Rattle.std.specs.Prelude.{◌≡◌, true};
    ghost use Rattle.std.proofs.Common.{sym, ap, ◌∙◌};
    ghost use Rattle.pk_rows.specs.Maps.{has_place};
    ghost use Rattle.pk_rows.specs.MemoryRows.{map_of};

    ghost stands = { λ r w m. m ≡ map_of r };

    ghost is_image = { λ f m. Unit {0} };

    ghost is_compact = { λ f. Unit {0} };

    ghost is_quiet = { true };

    fn get(&mut self, _station: &mut W, place: Place) -> Result<Option<Bytes>, StoreErr> {
        match self.rows.get(&place) {
            None => Ok(None),
            Some(bytes) => Ok(Some(Bytes::copy(self.alloc, bytes.as_slice())?)),
        }
    }

    fn next_after(&self, place: Place) -> Option<Place> {
        let above = (Bound::Excluded(place), Bound::Unbounded);
        match self.rows.range(above).next() {
            None => None,
            Some((next, _)) => Some(*next),
        }
    }

    fn commit(&mut self, _station: &mut W, batch: &Batch) -> Result<(), StoreErr> {
        take_out(&mut self.rows, batch.gone.as_slice());
        put_all(self.alloc, &mut self.rows, batch.put.as_slice())?;
        Ok(())
    }

    fn checkpoint(&mut self, _station: &mut W) -> Result<(), StoreErr> {
        Ok(())
    }

    ghost one_map = { λ r w m n told a b. a ∙ sym b };

    ghost same_places = { λ r w m n a b place. ap (λ x. has_place x place) (a ∙ sym b) };

    ghost files_alone = { λ r v w m same a. a };

    ghost as_read = { λ r w m a tells. tt };

    ghost left_now = { λ r w m f a honest tells left. tt };
}

fn take_out(rows: &mut BTreeMap<Place, Bytes>, gone: &[Place])
    ensures { from_entries {R = place_cmp} rows.new.entries ≡ without gone.now (from_entries rows.old.entries) }
{
    for place in gone {
        rows.remove(place);
    }
}

fn put_all(alloc: Global, rows: &mut BTreeMap<Place, Bytes>, put: &[Stored]) -> Result<(), Memory>
    ensures { OnOk result (from_entries {R = place_cmp} rows.new.entries ≡ with_all put.now (from_entries rows.old.entries)) }
{
    for stored in put {
        let bytes = Bytes::copy(alloc, stored.bytes.as_slice())?;
        rows.insert(stored.place, bytes)?;
    }
    Ok(())
}
