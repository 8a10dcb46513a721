ghost use Rattle.std.specs.Prelude.{◌≡◌, ◌+◌, ◌-◌, ◌^◌, ◌≤◌, List, ℕ, length, min, take, drop, IsTrue, IfOk, OnOk, IsErrOf};
ghost use Rattle.pk_world.specs.Rose.{Rose};
ghost use Rattle.pk_world.specs.Files.{Files};
ghost use Rattle.pk_world.specs.Station.{Uses, Reads, LeavesOnly};
ghost use Rattle.pk_gate.specs.Format.{magic, LogHolds};
ghost use Rattle.pk_gate.specs.Steps.{IsStep, IsWithin, Shows};
ghost use Rattle.pk_gate.specs.Stands.{Stands};

use crate::extent::Extent;
use crate::log::Log;
use crate::log_err::LogErr;
use crate::steps::{Part, Step};
use pk_world::{Station, Which, look};
use std::alloc::Global;

// What a log begins with.
const MAGIC: [u8; 8] = *b"KEYTLOG1";

// How many bytes are read at a time.
const PART_BYTES: u64 = 65_536;

impl Log {
    /// Opens the log that a file holds: syncs the file, and reads it once. `Bad` comes exactly where it holds no list of
    /// payloads.
    pub fn open<W: Station>(alloc: Global, station: &mut W) -> Result<Log, LogErr>
        ensures reads { Reads W.Station station.old station.new }
        ensures stands { IfOk result (λ log. (ps : List (List ℕ)) × Stands W.Station log station.new ps) }
        ensures bad { IsErrOf result LogErr.Bad → IsTrue (W.tells station.old) → (ps : List (List ℕ)) → LogHolds (W.content station.old).log ps → ⊥ }
        ensures cause { IsErrOf result LogErr.Disk → Rose (W.disk_faults station.old) (W.disk_faults station.new) }
        ensures unfailed { ¬ IsErrOf result LogErr.Disk → W.disk_faults station.new ≡ W.disk_faults station.old }
    {
        station.sync(Which::Log)?;
        let size = station.size(Which::Log)?;
        if size < 8 {
            return Err(LogErr::Bad);
        }
        let mut first = [0u8; 8];
        look(station, Which::Log, 0, &mut first)?;
        if first != MAGIC {
            return Err(LogErr::Bad);
        }
        read_frames(alloc, station, size)
    }
}

// Reads the frames of a log of so many bytes that was synced and begins as a log does.
fn read_frames<W: Station>(alloc: Global, station: &mut W, size: u64) -> Result<Log, LogErr>
    requires least { 8 ≤ size }
    requires most { size ≤ 2 ^ 62 }
    requires size { IsTrue (W.tells station.old) → size ≡ length (W.content station.old).log }
    requires begins { IsTrue (W.tells station.old) → take 8 (W.content station.old).log ≡ magic }
    requires synced { W.honest station.old → IsTrue (W.tells station.old) → (f : Files) → W.may_leave station.old f → f.log ≡ (W.content station.old).log }
    ensures reads { Reads W.Station station.old station.new }
    ensures stands { IfOk result (λ log. (ps : List (List ℕ)) × Stands W.Station log station.new ps) }
    ensures bad { IsErrOf result LogErr.Bad → IsTrue (W.tells station.old) → (ps : List (List ℕ)) → LogHolds (W.content station.old).log ps → ⊥ }
    ensures cause { IsErrOf result LogErr.Disk → Rose (W.disk_faults station.old) (W.disk_faults station.new) }
    ensures unfailed { ¬ IsErrOf result LogErr.Disk → W.disk_faults station.new ≡ W.disk_faults station.old }
{
    let mut part = Part {
        at: 0,
        bytes: Vec::new(alloc),
    };
    let mut gate = 8;
    let mut extents = Vec::new(alloc);
    'frames: loop {
        match step_at(alloc, station, &mut part, gate, size)? {
            Step::Frame(len) => {
                extents.push(Extent { at: gate + 5, len })?;
                gate += 5 + len as u64;
            }
            Step::Closed => {
                return Ok(Log {
                    alloc,
                    gate,
                    extents,
                });
            }
            Step::Bad => return Err(LogErr::Bad),
        }
    }
}

// What stands at a gate of a log of so many bytes.
fn step_at<W: Station>(
    alloc: Global,
    station: &mut W,
    part: &mut Part,
    gate: u64,
    size: u64,
) -> Result<Step, LogErr>
    requires place { gate ≤ size }
    requires size { IsTrue (W.tells station.old) → size ≡ length (W.content station.old).log }
    requires shows { IsTrue (W.tells station.old) → Shows (W.content station.old).log part.old }
    ensures reads { Reads W.Station station.old station.new }
    ensures shows { OnOk result (IsTrue (W.tells station.old) → Shows (W.content station.old).log part.new) }
    ensures step { IfOk result (λ step. IsTrue (W.tells station.old) → IsStep (drop gate (W.content station.old).log) step) }
    ensures within { IfOk result (λ step. IsWithin (size - gate) step) }
    ensures good { ¬ IsErrOf result LogErr.Bad }
    ensures cause { IsErrOf result LogErr.Disk → Rose (W.disk_faults station.old) (W.disk_faults station.new) }
    ensures unfailed { ¬ IsErrOf result LogErr.Disk → W.disk_faults station.new ≡ W.disk_faults station.old }
{
    reach(alloc, station, part, gate, size)?;
    Ok(Step::of(part.behind(gate), size - gate))
}

// Sees to it that a part has the first bytes from a gate on: five, or all that there are.
fn reach<W: Station>(
    alloc: Global,
    station: &mut W,
    part: &mut Part,
    gate: u64,
    size: u64,
) -> Result<(), LogErr>
    requires place { gate ≤ size }
    requires size { IsTrue (W.tells station.old) → size ≡ length (W.content station.old).log }
    requires shows { IsTrue (W.tells station.old) → Shows (W.content station.old).log part.old }
    ensures reads { Reads W.Station station.old station.new }
    ensures shows { OnOk result (IsTrue (W.tells station.old) → Shows (W.content station.old).log part.new) }
    ensures begins { OnOk result (part.new.at ≤ gate) }
    ensures reaches { OnOk result (gate + min 5 (size - gate) ≤ part.new.at + length part.new.bytes.items) }
    ensures good { ¬ IsErrOf result LogErr.Bad }
    ensures cause { IsErrOf result LogErr.Disk → Rose (W.disk_faults station.old) (W.disk_faults station.new) }
    ensures unfailed { ¬ IsErrOf result LogErr.Disk → W.disk_faults station.new ≡ W.disk_faults station.old }
{
    let left = size - gate;
    if part.reaches(gate, left.min(5)) {
        return Ok(());
    }
    *part = part_from(alloc, station, gate, left.min(PART_BYTES))?;
    Ok(())
}

// Reads so many bytes of the log from a place on.
fn part_from<W: Station>(
    alloc: Global,
    station: &mut W,
    at: u64,
    count: u64,
) -> Result<Part, LogErr>
    requires { IsTrue (W.tells station.old) → at + count ≤ length (W.content station.old).log }
    ensures reads { Reads W.Station station.old station.new }
    ensures shows { IfOk result (λ part. IsTrue (W.tells station.old) → Shows (W.content station.old).log part) }
    ensures at { IfOk result (λ part. part.at ≡ at) }
    ensures count { IfOk result (λ part. length part.bytes.items ≡ count) }
    ensures good { ¬ IsErrOf result LogErr.Bad }
    ensures cause { IsErrOf result LogErr.Disk → Rose (W.disk_faults station.old) (W.disk_faults station.new) }
    ensures unfailed { ¬ IsErrOf result LogErr.Disk → W.disk_faults station.new ≡ W.disk_faults station.old }
{
    let mut bytes = Vec::new(alloc);
    bytes.resize(count as usize, 0)?;
    look(station, Which::Log, at, bytes.as_mut_slice())?;
    Ok(Part { at, bytes })
}
