ghost use Rattle.std.specs.Prelude.{◌≡◌, ◌+◌, ◌≤◌, IsTrue, length, take, drop, OnOk, OnErr};
ghost use Rattle.pk_world.specs.Rose.{Rose};
ghost use Rattle.pk_world.specs.Files.{file_of, TornIn};
ghost use Rattle.pk_world.specs.Station.{Uses, Reads, LeavesOnly, Tearing, IsWritten};

use crate::station::{Failed, Station, Which};

/// Writes bytes to a file from `at` on, and syncs it. Until it is `Ok` a crash may leave that range torn.
pub fn write_through<W: Station>(
    station: &mut W,
    which: Which,
    at: u64,
    bytes: &[u8],
) -> Result<(), Failed>
    requires { IsTrue (W.tells station.old) → at ≤ length (file_of (W.content station.old) which) }
    ensures uses { Uses W.Station station.old station.new }
    ensures any_moment { LeavesOnly W.Station station.old station.new (Tearing W.Station station.old which at (length bytes.now)) }
    ensures torn { IsTrue (W.tells station.old) → TornIn which at (length bytes.now) (W.content station.old) (W.content station.new) }
    ensures written { OnOk result (IsWritten W.Station which at bytes.now station.old station.new) }
    ensures unfailed { OnOk result (W.disk_faults station.new ≡ W.disk_faults station.old) }
    ensures cause { OnErr result (Rose (W.disk_faults station.old) (W.disk_faults station.new)) }
{
    station.write_at(which, at, bytes)?;
    station.sync(which)
}

/// Fills the room with the bytes of a file from `at` on, which are all in the file.
pub fn look<W: Station>(
    station: &mut W,
    which: Which,
    at: u64,
    room: &mut [u8],
) -> Result<(), Failed>
    requires { IsTrue (W.tells station.old) → at + length room.old ≤ length (file_of (W.content station.old) which) }
    ensures reads { Reads W.Station station.old station.new }
    ensures read { OnOk result (IsTrue (W.tells station.old) → room.new ≡ take (length room.old) (drop at (file_of (W.content station.old) which))) }
    ensures unfailed { OnOk result (W.disk_faults station.new ≡ W.disk_faults station.old) }
    ensures cause { OnErr result (Rose (W.disk_faults station.old) (W.disk_faults station.new)) }
{
    station.read_at(which, at, room)
}
