//! Lists of parts of one sort.

ghost use Rattle.std.specs.Prelude.{◌≡◌, List, ℕ};
ghost use Rattle.pk_catalog.specs.Reading.{Found, Finds, all_at, list_at};

use crate::reading::{Found, byte_of};
use pk_values::Items;
use std::alloc::Global;

/// What a list in a record may be of.
pub(crate) trait Part: Drop {
    ghost use Rattle.pk_catalog.specs.Reading.{Found as FoundIn};

    /// The part in front of the bytes, and the bytes behind it.
    ghost at: { List ℕ → FoundIn Self };

    /// Reads it.
    fn read(alloc: Global, bytes: &[u8]) -> Found<'_, Self>
        ensures { Finds result (at bytes.now) };
}

/// So many parts.
pub(crate) fn all_of<T: Part>(alloc: Global, count: usize, bytes: &[u8]) -> Found<'_, Items<T>>
    ensures { Finds result (all_at T.at count bytes.now) }
{
    let mut parts = Vec::with_capacity(alloc, count)?;
    let mut rest = bytes;
    for _ in 0..count {
        let (part, behind) = T::read(alloc, rest)?;
        parts.push(part)?;
        rest = behind;
    }
    Ok((Items::from_vec(parts), rest))
}

/// Parts behind their number.
#[tactic(auto, unfolding(crate::specs::Reading::list_at))]
pub(crate) fn list_of<T: Part>(alloc: Global, bytes: &[u8]) -> Found<'_, Items<T>>
    ensures { Finds result (list_at T.at bytes.now) }
{
    let (count, rest) = byte_of(bytes)?;
    all_of(alloc, count as usize, rest)
}
