ghost use Rattle.std.specs.Prelude.{◌≡◌, ◌+◌, ◌≤◌, length, IfOk, OnOk, IsTrue, vec_capacity, if◌then◌else◌};
ghost use Rattle.pk_world.specs.Files.{overwritten};

use crate::station::Which;
use pk_values::Memory;
use std::alloc::Global;

// Two files in memory.
#[derive(Debug, Drop)]
pub struct MemoryFiles {
    log: Vec<u8>,
    pages: Vec<u8>,
}

impl MemoryFiles {
    ghost use Rattle.pk_world.specs.Files.{file_of, with_file};
    ghost use Rattle.pk_world.specs.MemoryFiles.{held, room_of};

    pub fn new(alloc: Global, log: &[u8], pages: &[u8]) -> Result<MemoryFiles, Memory>
        ensures log { IfOk result (λ files. file_of (held files) Which.Log ≡ log.now) }
        ensures pages { IfOk result (λ files. file_of (held files) Which.Pages ≡ pages.now) }
    {
        Ok(MemoryFiles {
            log: Vec::from_slice(alloc, log)?,
            pages: Vec::from_slice(alloc, pages)?,
        })
    }

    pub fn file(&self, which: Which) -> &[u8]
        ensures { result.now ≡ file_of (held self.now) which }
    {
        match which {
            Which::Log => self.log.as_slice(),
            Which::Pages => self.pages.as_slice(),
        }
    }

    // Makes room in a file for as many bytes from `at` on; whether there is.
    pub fn make_room(&mut self, which: Which, at: usize, count: usize) -> bool
        ensures held { held self.new ≡ held self.old }
        ensures room { IsTrue result → at + count ≤ room_of self.new which }
    {
        match which {
            Which::Log => reserve_to(&mut self.log, at, count),
            Which::Pages => reserve_to(&mut self.pages, at, count),
        }
    }

    // Writes over what a file holds from `at` on, and past its end, if it shall. There is room for it.
    pub fn put(&mut self, shall: bool, which: Which, at: usize, bytes: &[u8])
        requires place { at ≤ length (file_of (held self.old) which) }
        requires room { IsTrue shall → at + length bytes.now ≤ room_of self.old which }
        ensures { held self.new ≡ (if shall then with_file (held self.old) which (overwritten (file_of (held self.old) which) at bytes.now) else held self.old) }
    {
        if shall {
            match which {
                Which::Log => write_over(&mut self.log, at, bytes),
                Which::Pages => write_over(&mut self.pages, at, bytes),
            }
        }
    }
}

// Writes over what is there from `at` on, and past the end, and where `at` is farther than that, behind it.
pub fn overwrite(file: &mut Vec<u8>, at: u64, bytes: &[u8]) -> Result<(), Memory>
    ensures { OnOk result (file.new.items ≡ overwritten file.old.items at bytes.now) }
{
    let at = (at as usize).min(file.len());
    if !reserve_to(file, at, bytes.len()) {
        return Err(Memory);
    }
    write_over(file, at, bytes);
    Ok(())
}

// Makes room for as many bytes from `at` on; whether there is.
fn reserve_to(file: &mut Vec<u8>, at: usize, count: usize) -> bool
    ensures items { file.new.items ≡ file.old.items }
    ensures room { IsTrue result → at + count ≤ vec_capacity file.new }
{
    let end = at.saturating_add(count);
    end < usize::MAX && file.reserve(end.saturating_sub(file.len())).is_ok()
}

// Writes over what is there from `at` on, and past the end. There is room for it.
fn write_over(file: &mut Vec<u8>, at: usize, bytes: &[u8])
    requires place { at ≤ length file.old.items }
    requires room { at + length bytes.now ≤ vec_capacity file.old }
    ensures { file.new.items ≡ overwritten file.old.items at bytes.now }
{
    let over = bytes.len().min(file.len() - at);
    put(file.as_mut_slice(), at, &bytes[..over]);
    let _ = file.extend_from_slice(&bytes[over..]);
}

// Puts bytes in the place of as many from `at` on.
fn put(file: &mut [u8], at: usize, bytes: &[u8])
    requires { at + length bytes.now ≤ length file.old }
    ensures { file.new ≡ overwritten file.old at bytes.now }
{
    let part = &mut file[at..at + bytes.len()];
    part.copy_from_slice(bytes);
}
