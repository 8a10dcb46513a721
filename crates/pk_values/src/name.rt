ghost use Rattle.std.specs.Prelude.{◌≡◌, IsTrue, IfOk};
ghost use Rattle.std.specs.List.{list_all};
ghost use Rattle.pk_values.specs.Name.{begins_name, continues_name, is_name, folded, name_of};

use crate::memory::Memory;
use std::alloc::Global;
use std::marker::Model;
use std::sync::ArcSlice;

/// The name of a table, a column or a session: at least one byte, each a letter `a` to `z`, a digit
/// or `_`, and no digit first. Contracts see it as the list of its bytes. Copies share their bytes, so
/// that one costs the same however long the name is.
#[derive(Debug, Drop)]
pub struct Name {
    bytes: ArcSlice<u8>,
}

impl Model for Name {
    ghost use Rattle.std.specs.Prelude.{List, ℕ, IsTrue};

    ghost Value = { List ℕ };

    ghost use Rattle.pk_values.specs.Name.{is_name};
    ghost use Rattle.std.specs.Arc.{arc_slice_items};

    ghost view = { λ n. arc_slice_items n.bytes };

    ghost invariant = { λ n. IsTrue (is_name (arc_slice_items n.bytes)) };
}

impl Name {
    /// The name that a word spells, with `A` to `Z` read as `a` to `z`. `None` comes exactly where
    /// the word so read is no name.
    pub fn read(alloc: Global, word: &[u8]) -> Result<Option<Name>, Memory>
        ensures { IfOk result (λ name. name ≡ name_of word.now) }
    {
        let bytes = folded(alloc, word)?;
        if is_name(&bytes) {
            let bytes = ArcSlice::from_vec(bytes)?;
            Ok(Some(Name { bytes }))
        } else {
            Ok(None)
        }
    }

    /// An equal name.
    pub fn copy(&self) -> Result<Name, Memory>
        ensures { IfOk result (λ name. name ≡ self.now) }
    {
        let bytes = self.bytes.clone()?;
        Ok(Name { bytes })
    }

    /// The bytes of the name.
    pub fn as_slice(&self) -> &[u8]
        ensures bytes { result.now ≡ self.now }
        ensures name { IsTrue (is_name result.now) }
    {
        self.bytes.as_slice()
    }
}

// The word in small letters.
fn folded(alloc: Global, word: &[u8]) -> Result<Vec<u8>, Memory>
    ensures { IfOk result (λ v. v.items ≡ folded word.now) }
{
    let mut bytes = Vec::with_capacity(alloc, word.len())?;
    for byte in word {
        bytes.push(byte.to_ascii_lowercase())?;
    }
    Ok(bytes)
}

// Whether the bytes are those of a name.
fn is_name(bytes: &[u8]) -> bool
    ensures { result ≡ is_name bytes.now }
{
    match bytes.split_first() {
        None => false,
        Some((first, rest)) => begins_name(*first) && continue_name(rest),
    }
}

fn continue_name(bytes: &[u8]) -> bool
    ensures { result ≡ list_all continues_name bytes.now }
{
    bytes.iter().all(|b| continues_name(*b))
}

fn begins_name(byte: u8) -> bool
    ensures { result ≡ begins_name byte }
{
    byte.is_ascii_lowercase() || byte == b'_'
}

fn continues_name(byte: u8) -> bool
    ensures { result ≡ continues_name byte }
{
    begins_name(byte) || byte.is_ascii_digit()
}
