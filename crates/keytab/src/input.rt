ghost use Rattle.std.specs.Prelude.{◌≡◌};
ghost use Rattle.std.specs.Io.{ReadsAtMost};
ghost use Rattle.std.specs.Io.KnownBytes.{ReadConsumes};

use pk_world::{Pull, Source};
use std::io;
use std::io::{ErrorKind, Read};

// How many bytes are read at once.
const BUFFER: usize = 4096;

/// A source over a reader, as standard input is. It tells which bytes will come where std knows what
/// the reader has left; of standard input nobody knows it.
#[derive(Drop)]
pub struct Input<R: Read + Drop> {
    reader: R,
    pub(crate) faults: u64,
}

impl<R: Read + Drop> Input<R> {
    /// A source of what the reader gives.
    pub fn new(reader: R) -> Input<R>
        ensures reader { result.reader ≡ reader }
        ensures faults { result.faults ≡ 0 }
    {
        Input { reader, faults: 0 }
    }
}

impl<R: Read + Drop> Source for Input<R> {
    ghost use Rattle.std.specs.Prelude.{[], is_some, unwrap_or};

    ghost tells = { λ s. is_some (R.remaining s.reader) };

    ghost rest = { λ s. unwrap_or (R.remaining s.reader) [] };

    ghost faults = { λ s. s.faults };

    // The bytes are read into a buffer of its own, since a reader may write behind those that it gives.
    fn pull(&mut self, room: &mut [u8]) -> Pull {
        let mut buffer = [0u8; BUFFER];
        let most = room.len().min(BUFFER);
        match read_some(&mut self.reader, &mut buffer[..most]) {
            Ok(0) => Pull::End,
            Ok(count) => {
                let front = &mut room[..count];
                front.copy_from_slice(&buffer[..count]);
                Pull::Got(count)
            }
            Err(_) => {
                self.faults = self.faults.saturating_add(1);
                Pull::Failed
            }
        }
    }
}

// Reads once, and again where a signal broke the reading off, as std's own loops do.
fn read_some<R: Read>(reader: &mut R, room: &mut [u8]) -> io::Result<usize>
    ensures bound { ReadsAtMost result room.new }
    ensures bytes { ReadConsumes (R.remaining reader.old) (R.remaining reader.new) result room.new }
{
    for _ in 0..u64::MAX {
        match reader.read(room) {
            Ok(count) => return Ok(count),
            Err(error) => {
                if error.kind() != ErrorKind::Interrupted {
                    return Err(error);
                }
            }
        }
    }
    Err(io::Error::from(ErrorKind::Interrupted))
}
