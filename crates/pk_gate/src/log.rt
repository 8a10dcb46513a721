ghost use Rattle.std.specs.Prelude.{◌≡◌, ◌+◌, ◌-◌, ◌<◌, ◌≤◌, ◌++◌, ◌∷◌, [], List, ℕ, length, take, drop, slice_index_or, IsTrue, IfOk, OnOk, OnErr, IsErrOf, vec_len, vec_capacity};
ghost use Rattle.std.specs.Int.{to_be_bytes, w32};
ghost use Rattle.pk_world.specs.Rose.{Rose};
ghost use Rattle.pk_world.specs.Files.{Files};
ghost use Rattle.pk_world.specs.Station.{Uses, Reads, LeavesOnly};
ghost use Rattle.pk_gate.specs.Format.{IsPayload};

use crate::extent::Extent;
use byteorder::{BigEndian, ByteOrder};
use pk_values::{Bytes, Memory};
use pk_world::{DeviceErr, Failed, Station, Which, look, write_through};
use std::alloc::Global;

/// The most bytes of a payload.
pub const MOST_PAYLOAD: u32 = 268_435_456;

// What an empty log begins with: the bytes that say what file it is, and a gate that isn't open.
const EMPTY: [u8; 9] = *b"KEYTLOG1\0";

// The place of the first gate.
const FIRST_GATE: u64 = 8;

const CLOSED: u8 = 0;

const OPEN: u8 = 1;

/// A list of payloads in the file `Log` of a station. It keeps where each lies, and no payload.
#[derive(Debug, Drop)]
pub struct Log {
    pub(crate) alloc: Global,
    pub(crate) gate: u64,
    pub(crate) extents: Vec<Extent>,
}

impl Log {
    ghost use Rattle.pk_gate.specs.Stands.{Stands, IsSame, count_of, len_at};
    ghost use Rattle.pk_gate.specs.Crash.{LeavesLog, Appending, Restarting};

    /// An empty log in an empty file. It syncs both files, and until then a crash may leave anything of the log.
    pub fn create<W: Station>(alloc: Global, station: &mut W) -> Result<Log, DeviceErr>
        requires { IsTrue (W.tells station.old) → (W.content station.old).log ≡ [] }
        ensures uses { Uses W.Station station.old station.new }
        ensures stands { IfOk result (λ log. Stands W.Station log station.new []) }
        ensures durable { IfOk result (λ _. W.honest station.old → IsTrue (W.tells station.old) → (f : Files) → W.may_leave station.new f → f.pages ≡ (W.content station.old).pages) }
        ensures pages { IsTrue (W.tells station.old) → (W.content station.new).pages ≡ (W.content station.old).pages }
        ensures any_moment { LeavesOnly W.Station station.old station.new (LeavesLog W.Station station.old (λ _. Unit {0})) }
        ensures memory { ¬ IsErrOf result DeviceErr.Memory }
        ensures cause { IsErrOf result DeviceErr.Disk → Rose (W.disk_faults station.old) (W.disk_faults station.new) }
        ensures unfailed { ¬ IsErrOf result DeviceErr.Disk → W.disk_faults station.new ≡ W.disk_faults station.old }
    {
        station.sync(Which::Pages)?;
        write_through(station, Which::Log, 0, &EMPTY)?;
        Ok(Log {
            alloc,
            gate: FIRST_GATE,
            extents: Vec::new(alloc),
        })
    }

    /// How many payloads the log has.
    pub fn count(&self) -> u64
        ensures { result ≡ count_of self.now }
    {
        self.extents.len() as u64
    }

    /// How many bytes payload k has, counted from 0, of those that there are.
    pub fn len(&self, k: u64) -> u32
        requires { k < count_of self.now }
        ensures { result ≡ len_at self.now k }
    {
        self.extents[k as usize].len
    }

    /// Payload k, counted from 0, of those that there are.
    pub fn read<W: Station>(&self, station: &mut W, k: u64) -> Result<Bytes, DeviceErr>
        requires below { k < count_of self.now }
        requires stands { (ps : List (List ℕ)) × Stands W.Station self.now station.old ps }
        ensures reads { Reads W.Station station.old station.new }
        ensures stands { (ps : List (List ℕ)) → Stands W.Station self.now station.old ps → Stands W.Station self.now station.new ps }
        ensures read { (ps : List (List ℕ)) → Stands W.Station self.now station.old ps → IfOk result (λ bytes. IsTrue (W.tells station.old) → bytes ≡ slice_index_or ps k []) }
        ensures cause { IsErrOf result DeviceErr.Disk → Rose (W.disk_faults station.old) (W.disk_faults station.new) }
        ensures unfailed { ¬ IsErrOf result DeviceErr.Disk → W.disk_faults station.new ≡ W.disk_faults station.old }
    {
        let len = self.len(k);
        let mut bytes = Vec::new(self.alloc);
        bytes.resize(len as usize, 0)?;
        self.read_part(station, k, 0, bytes.as_mut_slice())?;
        Ok(Bytes::from_vec(bytes))
    }

    /// Fills the room with the bytes of payload k from `at` on, which are all in the payload. It takes no memory.
    pub fn read_part<W: Station>(
        &self,
        station: &mut W,
        k: u64,
        at: u32,
        room: &mut [u8],
    ) -> Result<(), Failed>
        requires below { k < count_of self.now }
        requires within { at + length room.old ≤ len_at self.now k }
        requires stands { (ps : List (List ℕ)) × Stands W.Station self.now station.old ps }
        ensures reads { Reads W.Station station.old station.new }
        ensures stands { (ps : List (List ℕ)) → Stands W.Station self.now station.old ps → Stands W.Station self.now station.new ps }
        ensures read { (ps : List (List ℕ)) → Stands W.Station self.now station.old ps → OnOk result (IsTrue (W.tells station.old) → room.new ≡ take (length room.old) (drop at (slice_index_or ps k []))) }
        ensures cause { OnErr result (Rose (W.disk_faults station.old) (W.disk_faults station.new)) }
        ensures unfailed { OnOk result (W.disk_faults station.new ≡ W.disk_faults station.old) }
    {
        let extent = self.extents[k as usize];
        look(station, Which::Log, extent.at + at as u64, room)
    }

    /// Appends a payload. It takes all its memory before it writes. At any moment a crash leaves the list as it was, or
    /// with the payload. After `Disk` the log must be opened again.
    pub fn append<W: Station>(&mut self, station: &mut W, payload: &Bytes) -> Result<(), DeviceErr>
        requires sized { IsPayload payload.now }
        requires stands { (ps : List (List ℕ)) × Stands W.Station self.old station.old ps }
        ensures uses { Uses W.Station station.old station.new }
        ensures stands { (ps : List (List ℕ)) → Stands W.Station self.old station.old ps → OnOk result (Stands W.Station self.new station.new (ps ++ (payload.now ∷ []))) }
        ensures any_moment { (ps : List (List ℕ)) → Stands W.Station self.old station.old ps → LeavesOnly W.Station station.old station.new (Appending W.Station station.old ps payload.now) }
        ensures pages { IsTrue (W.tells station.old) → (W.content station.new).pages ≡ (W.content station.old).pages }
        ensures same { OnErr result (IsSame self.old self.new) }
        ensures memory { IsErrOf result DeviceErr.Memory → station.new ≡ station.old }
        ensures cause { IsErrOf result DeviceErr.Disk → Rose (W.disk_faults station.old) (W.disk_faults station.new) }
        ensures unfailed { ¬ IsErrOf result DeviceErr.Disk → W.disk_faults station.new ≡ W.disk_faults station.old }
    {
        let staged = staged(self.alloc, payload.as_slice())?;
        self.extents.reserve(1)?;
        write_through(station, Which::Log, self.gate + 1, staged.as_slice())?;
        write_through(station, Which::Log, self.gate, &[OPEN])?;
        let len = payload.as_slice().len() as u32;
        let at = self.gate + 5;
        push(&mut self.extents, Extent { at, len });
        self.gate = at + len as u64;
        Ok(())
    }

    /// Empties the log. At any moment a crash leaves the list as it was, or none. A log without payloads it leaves as it
    /// is, without a call of the station, since a torn write could open its gate. It takes no memory. After `Failed` the
    /// log must be opened again.
    pub fn restart<W: Station>(&mut self, station: &mut W) -> Result<(), Failed>
        requires { (ps : List (List ℕ)) × Stands W.Station self.old station.old ps }
        ensures uses { Uses W.Station station.old station.new }
        ensures stands { (ps : List (List ℕ)) → Stands W.Station self.old station.old ps → OnOk result (Stands W.Station self.new station.new []) }
        ensures any_moment { (ps : List (List ℕ)) → Stands W.Station self.old station.old ps → LeavesOnly W.Station station.old station.new (Restarting W.Station station.old ps) }
        ensures pages { IsTrue (W.tells station.old) → (W.content station.new).pages ≡ (W.content station.old).pages }
        ensures untouched { count_of self.old ≡ 0 → station.new ≡ station.old }
        ensures same { OnErr result (IsSame self.old self.new) }
        ensures cause { OnErr result (Rose (W.disk_faults station.old) (W.disk_faults station.new)) }
        ensures unfailed { OnOk result (W.disk_faults station.new ≡ W.disk_faults station.old) }
    {
        if self.count() == 0 {
            return Ok(());
        }
        write_through(station, Which::Log, FIRST_GATE, &[CLOSED])?;
        self.extents.clear();
        self.gate = FIRST_GATE;
        Ok(())
    }
}

// What an append writes behind its gate: the frame of a payload, and a gate that isn't open.
fn staged(alloc: Global, payload: &[u8]) -> Result<Vec<u8>, Memory>
    requires { IsPayload payload.now }
    ensures { IfOk result (λ bytes. bytes.items ≡ to_be_bytes w32 (length payload.now) ++ (payload.now ++ (0 ∷ []))) }
{
    let mut len = [0u8; 4];
    BigEndian::write_u32(&mut len, payload.len() as u32);
    let mut bytes = Vec::with_capacity(alloc, payload.len() + 5)?;
    bytes.extend_from_slice(&len)?;
    bytes.extend_from_slice(payload)?;
    bytes.push(CLOSED)?;
    Ok(bytes)
}

// Adds an extent, for which there is room.
fn push(extents: &mut Vec<Extent>, extent: Extent)
    requires { vec_len extents.old < vec_capacity extents.old }
    ensures { extents.new.items ≡ extents.old.items ++ (extent ∷ []) }
{
    let _ = extents.push(extent);
}
