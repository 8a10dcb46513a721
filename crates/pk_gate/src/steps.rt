ghost use Rattle.std.specs.Prelude.{◌≡◌, ◌+◌, ◌-◌, ◌^◌, ◌<◌, ◌≤◌, List, ℕ, min, take, drop, length, IsTrue};
ghost use Rattle.std.specs.Int.{to_be_bytes, w32};

use crate::log::MOST_PAYLOAD;

// What stands at a gate.
#[derive(Clone, Copy, Debug, PartialEq, Eq)]
pub enum Step {
    // The gate isn't open: the list ends.
    Closed,
    // A frame with a payload of so many bytes.
    Frame(u32),
    // No list ends so.
    Bad,
}

// A part of a file: the bytes from a place on.
#[derive(Debug, Drop)]
pub struct Part {
    pub at: u64,
    pub bytes: Vec<u8>,
}

impl Part {
    // Whether it has so many bytes from a place on.
    pub fn reaches(&self, place: u64, count: u64) -> bool
        requires { place + count < 2 ^ 64 }
        ensures { IsTrue result → (self.now.at ≤ place) × (place + count ≤ self.now.at + length self.now.bytes.items) }
    {
        self.at <= place && place - self.at + count <= self.bytes.len() as u64
    }

    // What it has from a place on.
    pub fn behind(&self, place: u64) -> &[u8]
        requires begins { self.now.at ≤ place }
        requires reaches { place ≤ self.now.at + length self.now.bytes.items }
        ensures { result.now ≡ drop (place - self.now.at) self.now.bytes.items }
    {
        &self.bytes[(place - self.at) as usize..]
    }
}

impl Step {
    ghost use Rattle.pk_gate.specs.Steps.{IsStep, IsWithin};

    // What stands at a gate, where `left` bytes of the file are from there on and these are the first of them: five, or
    // all where they are fewer.
    pub fn of(head: &[u8], left: u64) -> Step
        requires enough { min 5 left ≤ length head.now }
        ensures step { (bytes : List ℕ) → length bytes ≡ left → head.now ≡ take (length head.now) bytes → IsStep bytes result }
        ensures within { IsWithin left result }
    {
        if left == 0 {
            return Step::Bad;
        }
        if head[0] != 1 {
            return Step::Closed;
        }
        if left < 5 {
            return Step::Bad;
        }
        let len = number(&head[1..5]);
        if len == 0 || len > MOST_PAYLOAD || left - 5 < len as u64 {
            return Step::Bad;
        }
        Step::Frame(len)
    }
}

// The number that four bytes spell, the highest first.
fn number(bytes: &[u8]) -> u32
    requires { length bytes.now ≡ 4 }
    ensures spelled { to_be_bytes w32 result ≡ bytes.now }
    ensures fits { result < 2 ^ 32 }
{
    u32::from_be_bytes([bytes[0], bytes[1], bytes[2], bytes[3]])
}
