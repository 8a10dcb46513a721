ghost use Rattle.std.specs.Prelude.{◌≡◌, ◌≤◌, [], length, IsTrue, IfErr, IfOk};
ghost use Rattle.pk_values.specs.Words.{is_words, IsCause};

use crate::memory::Memory;
use std::alloc::Global;
use std::marker::Model;

/// How many bytes a text has at most.
pub const MOST_BYTES: usize = 255;

/// A text of at most 255 bytes of UTF-8. Contracts see it as the list of its bytes.
#[derive(Debug, Drop)]
pub struct Words {
    bytes: Vec<u8>,
}

impl Model for Words {
    ghost use Rattle.std.specs.Prelude.{List, ℕ, IsTrue};

    ghost Value = { List ℕ };

    ghost use Rattle.pk_values.specs.Words.{is_words};

    ghost view = { λ w. w.bytes.items };

    ghost invariant = { λ w. IsTrue (is_words w.bytes.items) };
}

/// Why bytes are no [`Words`].
#[derive(Debug, Drop)]
pub enum WordsErr {
    /// There are more than 255 bytes, namely so many.
    TooLong { len: usize },
    /// The longest front of the bytes that is UTF-8 has so many bytes.
    NotUtf8 { at: usize },
    /// Memory ran out.
    Memory,
}

impl Words {
    /// The words of no byte.
    pub fn empty(alloc: Global) -> Words
        ensures { result ≡ [] }
    {
        Words {
            bytes: Vec::new(alloc),
        }
    }

    /// The words of these bytes. `TooLong` comes exactly above 255 bytes, and `NotUtf8` exactly where
    /// there are at most 255 that aren't UTF-8.
    pub fn read(alloc: Global, bytes: &[u8]) -> Result<Words, WordsErr>
        ensures words { IfOk result (λ words. words ≡ bytes.now) }
        ensures valid { IfOk result (λ words. IsTrue (is_words words)) }
        ensures cause { IfErr result (λ error. IsCause error bytes.now) }
    {
        if bytes.len() > MOST_BYTES {
            return Err(WordsErr::TooLong { len: bytes.len() });
        }
        match str::from_utf8(bytes) {
            Ok(text) => copied(alloc, text.as_bytes()),
            Err(error) => Err(WordsErr::NotUtf8 {
                at: error.valid_up_to(),
            }),
        }
    }

    /// Equal words.
    pub fn copy(&self) -> Result<Words, Memory>
        ensures { IfOk result (λ words. words ≡ self.now) }
    {
        Ok(Words {
            bytes: Vec::from_slice(*self.bytes.allocator(), self.bytes.as_slice())?,
        })
    }

    /// How many bytes the words have, at most 255.
    pub fn len(&self) -> u32
        ensures bytes { result ≡ length self.now }
        ensures most { result ≤ 255 }
    {
        self.bytes.len() as u32
    }

    /// The bytes of the words.
    pub fn as_slice(&self) -> &[u8]
        ensures bytes { result.now ≡ self.now }
        ensures words { IsTrue (is_words result.now) }
    {
        self.bytes.as_slice()
    }
}

// The words of bytes that are some.
fn copied(alloc: Global, bytes: &[u8]) -> Result<Words, WordsErr>
    requires { IsTrue (is_words bytes.now) }
    ensures words { IfOk result (λ words. words ≡ bytes.now) }
    ensures valid { IfOk result (λ words. IsTrue (is_words words)) }
    ensures cause { IfErr result (λ error. IsCause error bytes.now) }
{
    match Vec::from_slice(alloc, bytes) {
        Ok(bytes) => Ok(Words { bytes }),
        Err(_) => Err(WordsErr::Memory),
    }
}
