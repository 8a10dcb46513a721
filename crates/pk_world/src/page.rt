ghost use Rattle.std.specs.Prelude.{◌≡◌, length};

use std::marker::Model;

/// How many bytes a page has.
pub const PAGE_BYTES: usize = 4096;

/// A page of a file: exactly 4,096 bytes.
#[derive(Debug, Drop)]
pub struct Page {
    bytes: Vec<u8>,
}

impl Model for Page {
    ghost use Rattle.std.specs.Prelude.{◌≡◌, List, ℕ, length};

    ghost Value = { List ℕ };

    ghost view = { λ page. page.bytes.items };

    ghost invariant = { λ page. length page.bytes.items ≡ 4096 };
}

impl Page {
    /// A page of these bytes, of which there are 4,096.
    pub fn make(bytes: Vec<u8>) -> Page
        requires { length bytes.items ≡ 4096 }
        ensures { result ≡ bytes.items }
    {
        Page { bytes }
    }

    /// The bytes, in order.
    pub fn as_slice(&self) -> &[u8]
        ensures bytes { result.now ≡ self.now }
        ensures length { length result.now ≡ 4096 }
    {
        self.bytes.as_slice()
    }
}
