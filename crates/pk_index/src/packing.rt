//! Byte strings as numbers. Those of less than 16 bytes are two words, those of less than 24 three, and
//! those of less than 48 six: a block of their length, zeros and the bytes, read word by word.
//!
//! The last word comes first, since it tells most apart. It is turned over, so that numbers that ascend
//! are put in front, where a search in a node of the tree begins.

ghost use Rattle.std.specs.Prelude.{◌≡◌, ◌+◌, ◌<◌, ◌≤◌, length, replicate};
ghost use Rattle.pk_index.specs.Packing.{block, word, turned, two_words, three_words, six_words};

/// The two words of less than 16 bytes.
pub(crate) fn two_words(bytes: &[u8]) -> (u64, u64)
    requires { length bytes.now < 16 }
    ensures { result ≡ two_words bytes.now }
{
    let mut room = [0; 16];
    fill(&mut room, bytes);
    (turned(word(&room, 8)), word(&room, 0))
}

/// The three words of less than 24 bytes.
pub(crate) fn three_words(bytes: &[u8]) -> (u64, u64, u64)
    requires { length bytes.now < 24 }
    ensures { result ≡ three_words bytes.now }
{
    let mut room = [0; 24];
    fill(&mut room, bytes);
    (turned(word(&room, 16)), word(&room, 8), word(&room, 0))
}

/// The six words of less than 48 bytes.
pub(crate) fn six_words(bytes: &[u8]) -> (u64, u64, u64, u64, u64, u64)
    requires { length bytes.now < 48 }
    ensures { result ≡ six_words bytes.now }
{
    let mut room = [0; 48];
    fill(&mut room, bytes);
    (
        turned(word(&room, 40)),
        word(&room, 32),
        word(&room, 24),
        word(&room, 16),
        word(&room, 8),
        word(&room, 0),
    )
}

// Writes the length of the bytes and, at the end, the bytes.
fn fill(room: &mut [u8], bytes: &[u8])
    requires zeros { room.old ≡ replicate (length room.old) 0 }
    requires fits { length bytes.now < length room.old }
    requires short { length room.old ≤ 48 }
    ensures { room.new ≡ block (length room.old) bytes.now }
{
    let start = room.len() - bytes.len();
    room[0] = bytes.len() as u8;
    room[start..].copy_from_slice(bytes);
}

// The number of the eight bytes at a place.
fn word(bytes: &[u8], at: usize) -> u64
    requires { at + 8 ≤ length bytes.now }
    ensures { result ≡ word at bytes.now }
{
    let (_, rest) = bytes.split_at(at);
    let (eight, _) = rest.split_at(8);
    u64::from_be_bytes([
        eight[0], eight[1], eight[2], eight[3], eight[4], eight[5], eight[6], eight[7],
    ])
}

// The number counted down from the greatest.
fn turned(number: u64) -> u64
    ensures { result ≡ turned number }
{
    u64::MAX - number
}
