ghost use Rattle.std.specs.Prelude.{◌≡◌, false, IsTrue, OnOk, IsErrOf};
ghost use Rattle.pk_world.specs.Rose.{Rose};
ghost use Rattle.pk_world.specs.declared.store_err.StoreErr.TheVariants as causes;
ghost use Rattle.pk_rows.specs.Maps.{Map, after};
ghost use Rattle.pk_rows.specs.Batches.{CanRun};
ghost use Rattle.pk_rows.specs.Outside.{IsLeftAlone};
ghost use Rattle.pk_rows.specs.Laws.{CommitsAreToldByPlace};
ghost use Rattle.pk_rows.specs.Edges.{ExampleIsRun};

use crate::batch::Batch;
use crate::rows::Rows;
use pk_world::{Station, StoreErr};

/// Commits the batches one after the other, whatever holds the rows. The first error ends it, and is its own.
pub fn run_batches<W: Station, R: Rows<W>>(
    rows: &mut R,
    station: &mut W,
    batches: &[Batch],
) -> Result<(), StoreErr>
    requires { (m : Map) × R.stands rows.old station.old m × CanRun batches.now m }
    ensures stands { (m : Map) → R.stands rows.old station.old m → OnOk result (R.stands rows.new station.new (after batches.now m)) }
    ensures disk { IsErrOf result StoreErr.Disk → Rose (W.disk_faults station.old) (W.disk_faults station.new) }
    ensures changed { IsErrOf result StoreErr.Changed → W.tells station.old ≡ false }
    ensures quiet { IsTrue R.is_quiet → IsLeftAlone station.old station.new result }
{
    for batch in batches {
        rows.commit(station, batch)?;
    }
    Ok(())
}

/// What stands at each place after a commit: what was put there last, else nothing where the place is gone, else what
/// stood there before.
pub fn commits_are_told_by_place()
    ensures { CommitsAreToldByPlace }
{}

/// Three batches, with a place that is gone and put at once, may be run from nothing, and leave what they should.
pub fn example_is_run()
    ensures { ExampleIsRun }
{}
