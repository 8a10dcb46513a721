use crate::batch::Batch;
use crate::place::Place;
use pk_values::Bytes;
use pk_world::{Station, StoreErr};

/// A finite map from places to bytes, which its holder and a station keep together.
///
/// A holder stands for at most one map over a station that tells its files. Over one that tells nothing it still knows which
/// places its map has; of the bytes it then says only what it was told. One that is quiet keeps the map by itself.
pub trait Rows<W: Station> {
    ghost use Rattle.std.specs.Prelude.{◌≡◌, ◌⊎◌, Bool, ◌||◌, false, is_some, IsTrue, IfOk, OnOk, IsErrOf};
    ghost use Rattle.pk_world.specs.Rose.{Rose};
    ghost use Rattle.pk_world.specs.Files.{Files};
    ghost use Rattle.pk_world.specs.Station.{Uses, Reads, LeavesOnly};
    ghost use Rattle.pk_world.specs.declared.store_err.StoreErr.TheVariants as causes;
    ghost use Rattle.pk_rows.specs.Maps.{Map, bytes_at, has_place, HaveSamePlaces, IsNextAbove, committed};
    ghost use Rattle.pk_rows.specs.Batches.{CanCommit};
    ghost use Rattle.pk_rows.specs.Outside.{IsLeftAlone, HasSameFiles};

    /// Whether holder and station stand for the map.
    ghost stands: { Self → W → Map → Type 0 };

    /// Whether two files are an image of the map.
    ghost is_image: { Files → Map → Type 0 };

    /// Whether two files are compact.
    ghost is_compact: { Files → Type 0 };

    /// Whether no call uses the station.
    ghost is_quiet: { Bool };

    /// What is stored at the place, `None` exactly where nothing is.
    fn get(&mut self, station: &mut W, place: Place) -> Result<Option<Bytes>, StoreErr>
        requires { (m : Map) × stands self.old station.old m }
        ensures found { (m : Map) → stands self.old station.old m → IfOk result (λ bytes. is_some bytes ≡ has_place m place) }
        ensures bytes { (m : Map) → stands self.old station.old m → IsTrue (is_quiet || W.tells station.old) → IfOk result (λ bytes. bytes ≡ bytes_at m place) }
        ensures stands { (m : Map) → stands self.old station.old m → stands self.new station.new m }
        ensures reads { Reads W.Station station.old station.new }
        ensures disk { IsErrOf result StoreErr.Disk → Rose (W.disk_faults station.old) (W.disk_faults station.new) }
        ensures changed { IsErrOf result StoreErr.Changed → W.tells station.old ≡ false }
        ensures quiet { IsTrue is_quiet → IsLeftAlone station.old station.new result };

    /// The least place above at which something is stored, `None` exactly where nothing is stored above. It takes no memory.
    fn next_after(&self, place: Place) -> Option<Place>
        ensures { (station : W) (m : Map) → stands self.now station m → IsNextAbove m place result };

    /// Takes out what is gone, and then puts what is put: a place of both has the bytes that are put. After `Err` nothing
    /// is claimed of the map, and each crash meanwhile leaves the map as it was before or as it is to be.
    fn commit(&mut self, station: &mut W, batch: &Batch) -> Result<(), StoreErr>
        requires { (m : Map) × stands self.old station.old m × CanCommit batch.now m }
        ensures stands { (m : Map) → stands self.old station.old m → OnOk result (stands self.new station.new (committed batch.now m)) }
        ensures uses { Uses W.Station station.old station.new }
        ensures any_moment { (m : Map) → stands self.old station.old m → LeavesOnly W.Station station.old station.new (λ f. is_image f m ⊎ is_image f (committed batch.now m)) }
        ensures disk { IsErrOf result StoreErr.Disk → Rose (W.disk_faults station.old) (W.disk_faults station.new) }
        ensures changed { IsErrOf result StoreErr.Changed → W.tells station.old ≡ false }
        ensures quiet { IsTrue is_quiet → IsLeftAlone station.old station.new result };

    /// Makes the files compact. The map stays. After `Err` nothing is claimed of the map, and each crash meanwhile leaves
    /// it as it is.
    fn checkpoint(&mut self, station: &mut W) -> Result<(), StoreErr>
        requires { (m : Map) × stands self.old station.old m }
        ensures stands { (m : Map) → stands self.old station.old m → OnOk result (stands self.new station.new m) }
        ensures done { OnOk result (IsTrue (W.tells station.old) → is_compact (W.content station.new)) }
        ensures uses { Uses W.Station station.old station.new }
        ensures any_moment { (m : Map) → stands self.old station.old m → LeavesOnly W.Station station.old station.new (λ f. is_image f m) }
        ensures disk { IsErrOf result StoreErr.Disk → Rose (W.disk_faults station.old) (W.disk_faults station.new) }
        ensures changed { IsErrOf result StoreErr.Changed → W.tells station.old ≡ false }
        ensures quiet { IsTrue is_quiet → IsLeftAlone station.old station.new result };

    /// Where the map is told there is one.
    ghost one_map: { (r : Self) (w : W) (m n : Map) → IsTrue (is_quiet || W.tells w) → stands r w m → stands r w n → m ≡ n };

    /// Which places there are is known, whether the map is told or not.
    ghost same_places: { (r : Self) (w : W) (m n : Map) → stands r w m → stands r w n → HaveSamePlaces m n };

    /// What the station does beside its files changes nothing.
    ghost files_alone: { (r : Self) (v w : W) (m : Map) → HasSameFiles W.Station v w → stands r v m → stands r w m };

    /// The files as they read are an image of the map.
    ghost as_read: { (r : Self) (w : W) (m : Map) → stands r w m → IsTrue (W.tells w) → is_image (W.content w) m };

    /// A crash now leaves an image of the map.
    ghost left_now: { (r : Self) (w : W) (m : Map) (f : Files) → stands r w m → W.honest w → IsTrue (W.tells w) → W.may_leave w f → is_image f m };
}
