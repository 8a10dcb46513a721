ghost use Rattle.std.specs.Prelude.{◌≡◌, ◌↔◌, ◌-◌, ◌≤◌, length, IfOk, OnOk, IsTrue};
ghost use Rattle.pk_world.specs.Files.{file_of};
ghost use Rattle.pk_world.specs.MemoryFiles.{held};
ghost use Rattle.pk_world.specs.History.{Moment, state_of, step, begun, inside};
ghost use Rattle.pk_world.specs.Crash.{marked, crashed, IsKept, Tracks};

use crate::call::Call;
use crate::left::Left;
use crate::memory_files::{MemoryFiles, overwrite};
use crate::station::Which;
use pk_values::Memory;
use std::alloc::Global;

// What a crash in the call of this number, counted from 1, leaves of a file.
pub fn left_of(
    alloc: Global,
    first: &MemoryFiles,
    calls: &[Call],
    number: usize,
    which: Which,
    left: Left,
) -> Result<Vec<u8>, Memory>
    requires first { 1 ≤ number }
    requires last { number ≤ length calls.now }
    ensures { IfOk result (λ file. file.items ≡ file_of (crashed left (inside (held first.now) calls.now (number - 1))) which) }
{
    let mut seen = Vec::from_slice(alloc, first.file(which))?;
    let mut kept = Vec::from_slice(alloc, first.file(which))?;
    for call in &calls[..number - 1] {
        replay(alloc, call, which, left, &mut seen, &mut kept)?;
    }
    begin(alloc, &calls[number - 1], which, left, &mut kept)?;
    Ok(kept)
}

// Does a call again: on what reads give of a file, and on what a crash leaves of it.
fn replay(
    alloc: Global,
    call: &Call,
    which: Which,
    left: Left,
    seen: &mut Vec<u8>,
    kept: &mut Vec<u8>,
) -> Result<(), Memory>
    ensures { OnOk result ((m : Moment) → Tracks left which m seen.old.items kept.old.items → Tracks left which (step m call.now) seen.new.items kept.new.items) }
{
    begin(alloc, call, which, left, kept)?;
    finish(call, which, seen, kept)
}

// Puts what may come of a write in progress into what a crash leaves of a file.
fn begin(
    alloc: Global,
    call: &Call,
    which: Which,
    left: Left,
    kept: &mut Vec<u8>,
) -> Result<(), Memory>
    ensures { OnOk result ((m : Moment) → IsKept left which m kept.old.items → IsKept left which (begun m call.now) kept.new.items) }
{
    match call {
        Call::Write {
            which: file,
            at,
            bytes,
            done: _,
        } => {
            if is_same(*file, which) {
                mark(alloc, left, kept, *at, bytes.as_slice())
            } else {
                Ok(())
            }
        }
        _ => Ok(()),
    }
}

// Ends a call: what was written shows in reads, and what was synced stays.
fn finish(call: &Call, which: Which, seen: &mut Vec<u8>, kept: &mut Vec<u8>) -> Result<(), Memory>
    ensures { OnOk result ((m : Moment) (left : Left) → seen.old.items ≡ (state_of m which).seen → IsKept left which (begun m call.now) kept.old.items → Tracks left which (step m call.now) seen.new.items kept.new.items) }
{
    match call {
        Call::Write {
            which: file,
            at,
            bytes,
            done,
        } => {
            if is_same(*file, which) && *done {
                overwrite(seen, *at, bytes.as_slice())
            } else {
                Ok(())
            }
        }
        Call::Sync { which: file, done } => {
            if is_same(*file, which) && *done {
                kept.clear();
                Ok(kept.extend_from_slice(seen.as_slice())?)
            } else {
                Ok(())
            }
        }
        _ => Ok(()),
    }
}

fn is_same(file: Which, which: Which) -> bool
    ensures { IsTrue result ↔ (file ≡ which) }
{
    file == which
}

// A write that came out so.
fn mark(alloc: Global, left: Left, file: &mut Vec<u8>, at: u64, bytes: &[u8]) -> Result<(), Memory>
    ensures { OnOk result (file.new.items ≡ marked left file.old.items at bytes.now) }
{
    match left {
        Left::Old => Ok(()),
        Left::New => overwrite(file, at, bytes),
        Left::Fill(byte) => {
            let mut filled = Vec::new(alloc);
            filled.resize(bytes.len(), byte)?;
            overwrite(file, at, filled.as_slice())
        }
    }
}
