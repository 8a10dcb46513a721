ghost use Rattle.std.specs.Prelude.{◌≡◌, ℕ, ◌≤◌, length, take, OnOk, OnErr, IsErr};
ghost use Rattle.std.specs.Io.KnownBytes.{Appends};
ghost use Rattle.pk_world.specs.Rose.{Rose};

use pk_world::{Failed, Station, Which};
use std::io::{ErrorKind, Write};

/// A station over a writer, as standard output is, and over no files: each call on them fails. It tells nothing, since
/// nobody knows what standard output holds; what a writer takes, where std knows that, `hand_on` says.
#[derive(Drop)]
pub struct Output<W: Write + Drop> {
    pub(crate) writer: W,
    pub(crate) faults: u64,
    pub(crate) disk_faults: u64,
}

impl<W: Write + Drop> Output<W> {
    /// A station that hands what it is told to the writer.
    pub fn new(writer: W) -> Output<W>
        ensures writer { result.writer ≡ writer }
        ensures faults { result.faults ≡ 0 }
        ensures disk_faults { result.disk_faults ≡ 0 }
    {
        Output {
            writer,
            faults: 0,
            disk_faults: 0,
        }
    }

    // Hands bytes to the writer, up to its first fault, which is counted.
    fn hand_on(&mut self, bytes: &[u8]) -> Result<(), Failed>
        ensures whole { OnOk result (Appends (W.contents self.old.writer) (W.contents self.new.writer) bytes.now) }
        ensures front { (n : ℕ) × (n ≤ length bytes.now) × Appends (W.contents self.old.writer) (W.contents self.new.writer) (take n bytes.now) }
        ensures disk { self.new.disk_faults ≡ self.old.disk_faults }
        ensures count { self.old.faults ≤ self.new.faults }
        ensures unfailed { OnOk result (self.new.faults ≡ self.old.faults) }
        ensures cause { OnErr result (Rose self.old.faults self.new.faults) }
    {
        let written = write_whole(&mut self.writer, bytes);
        if written.is_err() {
            self.faults = self.faults.saturating_add(1);
        }
        written
    }

    // The fault of a call on a file.
    fn no_file<T>(&mut self) -> Result<T, Failed>
        ensures fails { IsErr result }
        ensures writer { self.new.writer ≡ self.old.writer }
        ensures faults { self.new.faults ≡ self.old.faults }
        ensures cause { Rose self.old.disk_faults self.new.disk_faults }
        ensures count { self.old.disk_faults ≤ self.new.disk_faults }
    {
        self.disk_faults = self.disk_faults.saturating_add(1);
        Err(Failed)
    }
}

impl<W: Write + Drop> Station for Output<W> {
    ghost use Rattle.std.specs.Prelude.{false, []};

    ghost tells = { λ _. false };

    ghost content = { λ _. record { log = []; pages = [] } };

    ghost told = { λ _. [] };

    ghost disk_faults = { λ s. s.disk_faults };

    ghost sink_faults = { λ s. s.faults };

    ghost now = { λ _. 0 };

    ghost may_leave = { λ _ _. ⊥ };

    ghost left_since = { λ _ _ _ _. ⊥ };

    ghost honest = { λ _. ⊥ };

    fn size(&mut self, _which: Which) -> Result<u64, Failed> {
        self.no_file()
    }

    fn read_at(&mut self, _which: Which, _at: u64, _room: &mut [u8]) -> Result<(), Failed> {
        self.no_file()
    }

    fn write_at(&mut self, _which: Which, _at: u64, _bytes: &[u8]) -> Result<(), Failed> {
        self.no_file()
    }

    fn sync(&mut self, _which: Which) -> Result<(), Failed> {
        self.no_file()
    }

    fn tell(&mut self, bytes: &[u8]) -> Result<(), Failed> {
        self.hand_on(bytes)
    }

    ghost counts_now = { λ _ _ _ _ none. none };

    ghost only_now = { λ _ _ _ none _ _. absurd none };

    ghost earlier = { λ _ _ _ _ _ _ _ none. none };

    ghost as_read = { λ _ none _. absurd none };
}

// Writes the bytes one after the other, up to the first fault. Std's `write_all` does the same, but doesn't say
// that a fault leaves a front of the bytes.
fn write_whole<W: Write>(writer: &mut W, bytes: &[u8]) -> Result<(), Failed>
    ensures whole { OnOk result (Appends (W.contents writer.old) (W.contents writer.new) bytes.now) }
    ensures front { (n : ℕ) × (n ≤ length bytes.now) × Appends (W.contents writer.old) (W.contents writer.new) (take n bytes.now) }
{
    let mut at = 0;
    for _ in 0..u64::MAX {
        if at >= bytes.len() {
            return Ok(());
        }
        match writer.write(&bytes[at..]) {
            Ok(0) => return Err(Failed),
            Ok(count) => at += count,
            Err(error) => {
                if error.kind() != ErrorKind::Interrupted {
                    return Err(Failed);
                }
            }
        }
    }
    Err(Failed)
}
