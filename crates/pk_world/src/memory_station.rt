ghost use Rattle.std.specs.Prelude.{◌≡◌};
ghost use Rattle.pk_world.specs.MemoryFiles.{held};
ghost use Rattle.pk_world.specs.History.{IsRecorded};

use crate::call::Call;
use crate::crash::left_of;
use crate::left::Left;
use crate::memory_files::MemoryFiles;
use crate::recording::{answer, extend_if, fits, note};
use crate::station::{Failed, Station, Which};
use pk_values::Memory;
use std::alloc::Global;

/// A station in memory, for tests. It tells what it holds, keeps a record of its calls, and can say what a crash in any
/// of them leaves. A growth that it can't get is a fault, and a call that finds no room for its record only fails.
#[derive(Debug, Drop)]
pub struct MemoryStation {
    alloc: Global,
    first: MemoryFiles,
    calls: Vec<Call>,
    files: MemoryFiles,
    told: Vec<u8>,
    failing: Vec<u64>,
    page_reads: u64,
    disk_faults: u64,
    sink_faults: u64,
    ghost recorded: { IsRecorded (held first) calls.items (held files) told.items },
}

impl MemoryStation {
    ghost use Rattle.std.specs.Prelude.{◌≡◌, ◌+◌, ◌-◌, ◌≤◌, ◌^◌, min, [], IfOk};
    ghost use Rattle.pk_world.specs.Listed.{is_listed};
    ghost use Rattle.pk_world.specs.Files.{file_of};
    ghost use Rattle.pk_world.specs.History.{MayLeave, LeftSince};
    ghost use Rattle.pk_world.specs.Crash.{crashed};
    ghost use Rattle.pk_world.specs.MemoryStation.{taken, files_of, failing_calls, call_count, page_read_count, disk_fault_count, sink_fault_count, moment_in, MayHaveLeft};

    /// A station over these two files that has told nothing. The calls whose numbers, counted from 1 and all five kinds
    /// together, stand in `failing` fail.
    pub fn new(
        alloc: Global,
        log: &[u8],
        pages: &[u8],
        failing: &[u64],
    ) -> Result<MemoryStation, Memory>
        ensures told { IfOk result (λ s. taken s ≡ []) }
        ensures log { IfOk result (λ s. file_of (files_of s) Which.Log ≡ log.now) }
        ensures pages { IfOk result (λ s. file_of (files_of s) Which.Pages ≡ pages.now) }
        ensures failing { IfOk result (λ s. failing_calls s ≡ failing.now) }
        ensures calls { IfOk result (λ s. call_count s ≡ 0) }
        ensures page_reads { IfOk result (λ s. page_read_count s ≡ 0) }
        ensures disk_faults { IfOk result (λ s. disk_fault_count s ≡ 0) }
        ensures sink_faults { IfOk result (λ s. sink_fault_count s ≡ 0) }
    {
        Ok(MemoryStation {
            alloc,
            first: MemoryFiles::new(alloc, log, pages)?,
            calls: Vec::new(alloc),
            files: MemoryFiles::new(alloc, log, pages)?,
            told: Vec::new(alloc),
            failing: Vec::from_slice(alloc, failing)?,
            page_reads: 0,
            disk_faults: 0,
            sink_faults: 0,
        })
    }

    /// The bytes of a file.
    pub fn file(&self, which: Which) -> &[u8]
        ensures { result.now ≡ file_of (files_of self.now) which }
    {
        self.files.file(which)
    }

    /// The bytes that the sink has taken.
    pub fn told(&self) -> &[u8]
        ensures { result.now ≡ taken self.now }
    {
        self.told.as_slice()
    }

    /// How many calls the station has had.
    pub fn calls(&self) -> u64
        ensures { result ≡ call_count self.now }
    {
        self.calls.len() as u64
    }

    /// How many calls of `read_at` have read the pages, up to the greatest u64.
    pub fn page_reads(&self) -> u64
        ensures { result ≡ page_read_count self.now }
    {
        self.page_reads
    }

    /// How many calls on the files have failed, up to the greatest u64.
    pub fn disk_faults(&self) -> u64
        ensures { result ≡ disk_fault_count self.now }
    {
        self.disk_faults
    }

    /// How many calls of `tell` have failed, up to the greatest u64.
    pub fn sink_faults(&self) -> u64
        ensures { result ≡ sink_fault_count self.now }
    {
        self.sink_faults
    }

    /// The station after a crash in the call of this number, from 1 to `calls()`, and a new start: what it holds is what
    /// the calls before left, and where the call is a write, a part of that; each byte that was written since its file's
    /// last sync comes out as `left` says. It has told nothing, and none of its calls fails.
    pub fn crash(&self, call: u64, left: Left) -> Result<MemoryStation, Memory>
        requires first { 1 ≤ call }
        requires last { call ≤ call_count self.now }
        ensures files { IfOk result (λ s. files_of s ≡ crashed left (moment_in self.now call)) }
        ensures possible { IfOk result (λ s. MayLeave (moment_in self.now call) (files_of s)) }
        ensures since { IfOk result (λ s. MayHaveLeft self.now (call - 1) (files_of s) (moment_in self.now call).told) }
        ensures told { IfOk result (λ s. taken s ≡ []) }
        ensures failing { IfOk result (λ s. failing_calls s ≡ []) }
        ensures calls { IfOk result (λ s. call_count s ≡ 0) }
    {
        let (first, calls, number) = (&self.first, self.calls.as_slice(), call as usize);
        let log = left_of(self.alloc, first, calls, number, Which::Log, left)?;
        let pages = left_of(self.alloc, first, calls, number, Which::Pages, left)?;
        MemoryStation::new(self.alloc, log.as_slice(), pages.as_slice(), &[])
    }

    // Whether the next call is one of those that fail.
    fn fails_next(&self) -> bool
        ensures { result ≡ is_listed (failing_calls self.now) (min (call_count self.now + 1) (2 ^ 64 - 1)) }
    {
        let number = self.calls().saturating_add(1);
        self.failing.contains(&number)
    }
}

impl Station for MemoryStation {
    ghost use Rattle.std.specs.Prelude.{◌≡◌, ℕ, ◌+◌, ◌-◌, ◌≤◌, ◌^◌, min, true, false, List, ◌++◌, length, take, is_ok, IsTrue, OnOk, OnErr};
    ghost use Rattle.pk_world.specs.Files.{Files};
    ghost use Rattle.pk_world.specs.Listed.{is_listed};
    ghost use Rattle.pk_world.specs.Clock.{Passes};
    ghost use Rattle.pk_world.specs.Rose.{Rose};
    ghost use Rattle.pk_world.specs.MemoryStation.{taken, files_of, failing_calls, call_count, disk_fault_count, sink_fault_count, MayLeaveNow, MayHaveLeft};
    ghost use Rattle.pk_world.specs.MemoryLaws.{counts_now, only_now, earlier, as_read};

    ghost tells = { λ _. true };

    ghost content = { files_of };

    ghost told = { taken };

    ghost disk_faults = { disk_fault_count };

    ghost sink_faults = { sink_fault_count };

    ghost now = { call_count };

    ghost may_leave = { MayLeaveNow };

    ghost left_since = { MayHaveLeft };

    ghost honest = { λ _. Unit {0} };

    fn size(&mut self, which: Which) -> Result<u64, Failed> {
        let size = self.files.file(which).len();
        let done = !self.fails_next() && fits(size, 0);
        let noted = note(&mut self.calls, Call::Look);
        answer(done & noted, &mut self.disk_faults)?;
        Ok(size as u64)
    }

    fn read_at(&mut self, which: Which, at: u64, room: &mut [u8]) -> Result<(), Failed> {
        let done = !self.fails_next();
        let noted = note(&mut self.calls, Call::Look);
        if which == Which::Pages {
            self.page_reads = self.page_reads.saturating_add(1);
        }
        answer(done & noted, &mut self.disk_faults)?;
        let at = at as usize;
        room.copy_from_slice(&self.files.file(which)[at..at + room.len()]);
        Ok(())
    }

    fn write_at(&mut self, which: Which, at: u64, bytes: &[u8]) -> Result<(), Failed> {
        let at = at as usize;
        let Ok(copy) = Vec::from_slice(self.alloc, bytes) else {
            return answer(false, &mut self.disk_faults);
        };
        let room = self.files.make_room(which, at, bytes.len());
        let done = !self.fails_next() && room && fits(at, bytes.len());
        let call = Call::Write {
            which,
            at: at as u64,
            bytes: copy,
            done,
        };
        let written = done & note(&mut self.calls, call);
        self.files.put(written, which, at, bytes);
        answer(written, &mut self.disk_faults)
    }

    fn sync(&mut self, which: Which) -> Result<(), Failed> {
        let done = !self.fails_next();
        let synced = done & note(&mut self.calls, Call::Sync { which, done });
        answer(synced, &mut self.disk_faults)
    }

    /// Takes all of the bytes or, where it fails, none of them. It fails where the number of the call is listed, and
    /// where memory runs out.
    fn tell(&mut self, bytes: &[u8]) -> Result<(), Failed>
        ensures listed { IsTrue (is_listed (failing_calls self.old) (min (call_count self.old + 1) (2 ^ 64 - 1))) → is_ok result ≡ false }
        ensures failing { failing_calls self.new ≡ failing_calls self.old }
        ensures ok { OnOk result (taken self.new ≡ taken self.old ++ bytes.now) }
        ensures refused { OnErr result (taken self.new ≡ taken self.old) }
        ensures err { (n : ℕ) × (n ≤ length bytes.now) × (taken self.new ≡ taken self.old ++ take n bytes.now) }
        ensures content { files_of self.new ≡ files_of self.old }
        ensures during { (f : Files) (s : List ℕ) → MayHaveLeft self.new (call_count self.old) f s → MayLeaveNow self.old f × ((n : ℕ) × (n ≤ length bytes.now) × (s ≡ taken self.old ++ take n bytes.now)) }
        ensures time { Passes (call_count self.old) (call_count self.new) (MayHaveLeft self.old) (MayHaveLeft self.new) }
        ensures disk { disk_fault_count self.new ≡ disk_fault_count self.old }
        ensures count { sink_fault_count self.old ≤ sink_fault_count self.new }
        ensures unfailed { OnOk result (sink_fault_count self.new ≡ sink_fault_count self.old) }
        ensures cause { OnErr result (Rose (sink_fault_count self.old) (sink_fault_count self.new)) }
    {
        let Ok(copy) = Vec::from_slice(self.alloc, bytes) else {
            return answer(false, &mut self.sink_faults);
        };
        let room = self.told.reserve(bytes.len()).is_ok();
        let done = !self.fails_next() && room;
        let told = done & note(&mut self.calls, Call::Tell { bytes: copy, done });
        extend_if(told, &mut self.told, bytes);
        answer(told, &mut self.sink_faults)
    }

    ghost counts_now = { counts_now };

    ghost only_now = { only_now };

    ghost earlier = { earlier };

    ghost as_read = { as_read };
}
