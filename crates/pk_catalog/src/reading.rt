//! Parts in front of bytes: single bytes, numbers and texts.

ghost use Rattle.std.specs.Prelude.{◌≡◌, if◌then◌else◌, Some, None};
ghost use Rattle.std.specs.Int.{w32, w64};
ghost use Rattle.pk_values.specs.Name.{is_name};
ghost use Rattle.pk_values.specs.Words.{is_words};
ghost use Rattle.pk_catalog.specs.Reading.{Finds, FindsBytes, Reads, byte_at, number_at, text_at, words_at, name_at, version_at};

use crate::cat_err::CatErr;
use pk_values::{Name, Words, WordsErr};
use std::alloc::Global;

/// What records of this form begin with.
pub const VERSION: u8 = 1;

/// A part in front of bytes, and the bytes behind it; `Bad` exactly where no such part is in front.
pub(crate) type Found<'a, T> = Result<(T, &'a [u8]), CatErr>;

/// The first byte.
pub(crate) fn byte_of(bytes: &[u8]) -> Found<'_, u8>
    ensures { Finds result (byte_at bytes.now) }
{
    match bytes {
        [] => Err(CatErr::Bad),
        [first, rest @ ..] => Ok((*first, rest)),
    }
}

/// The version of the records, which is 1.
#[tactic(auto, unfolding(crate::specs::Reading::version_at))]
pub(crate) fn version_of(bytes: &[u8]) -> Found<'_, u8>
    ensures { Finds result (version_at bytes.now) }
{
    match bytes {
        [1, rest @ ..] => Ok((VERSION, rest)),
        [] | [_, ..] => Err(CatErr::Bad),
    }
}

/// A number of 32 bits.
#[tactic(auto, unfolding(crate::specs::Reading::number_at))]
pub(crate) fn u32_of(bytes: &[u8]) -> Found<'_, u32>
    ensures { Finds result (number_at w32 bytes.now) }
{
    if bytes.len() < 4 {
        return Err(CatErr::Bad);
    }
    let (front, rest) = bytes.split_at(4);
    let number = u32::from_be_bytes([front[0], front[1], front[2], front[3]]);
    Ok((number, rest))
}

/// A number of 64 bits.
#[tactic(auto, unfolding(crate::specs::Reading::number_at))]
pub(crate) fn u64_of(bytes: &[u8]) -> Found<'_, u64>
    ensures { Finds result (number_at w64 bytes.now) }
{
    if bytes.len() < 8 {
        return Err(CatErr::Bad);
    }
    let (front, rest) = bytes.split_at(8);
    let number = u64::from_be_bytes([
        front[0], front[1], front[2], front[3], front[4], front[5], front[6], front[7],
    ]);
    Ok((number, rest))
}

/// Bytes behind their number.
#[tactic(auto, unfolding(crate::specs::Reading::text_at))]
pub(crate) fn text_of(bytes: &[u8]) -> Found<'_, &[u8]>
    ensures { FindsBytes result (text_at bytes.now) }
{
    let (len, rest) = byte_of(bytes)?;
    if rest.len() < len as usize {
        return Err(CatErr::Bad);
    }
    Ok(rest.split_at(len as usize))
}

/// Words behind the number of their bytes.
#[tactic(auto, unfolding(crate::specs::Reading::words_at))]
pub(crate) fn words_of(alloc: Global, bytes: &[u8]) -> Found<'_, Words>
    ensures { Finds result (words_at bytes.now) }
{
    let (text, rest) = text_of(bytes)?;
    match words(alloc, text) {
        Ok(words) => Ok((words, rest)),
        Err(error) => Err(error),
    }
}

/// A name behind the number of its bytes.
#[tactic(auto, unfolding(crate::specs::Reading::name_at))]
pub(crate) fn name_of(alloc: Global, bytes: &[u8]) -> Found<'_, Name>
    ensures { Finds result (name_at bytes.now) }
{
    let (text, rest) = text_of(bytes)?;
    match name(alloc, text) {
        Ok(name) => Ok((name, rest)),
        Err(error) => Err(error),
    }
}

// The words of these bytes.
fn words(alloc: Global, bytes: &[u8]) -> Result<Words, CatErr>
    ensures { Reads result (if is_words bytes.now then Some bytes.now else None) }
{
    match Words::read(alloc, bytes) {
        Ok(words) => Ok(words),
        Err(WordsErr::TooLong { .. }) => Err(CatErr::Bad),
        Err(WordsErr::NotUtf8 { .. }) => Err(CatErr::Bad),
        Err(WordsErr::Memory) => Err(CatErr::Memory),
    }
}

// The name of these bytes, which are in small letters as they stand.
#[tactic(auto, using(crate::proofs::Texts::no_name))]
fn name(alloc: Global, bytes: &[u8]) -> Result<Name, CatErr>
    ensures { Reads result (if is_name bytes.now then Some bytes.now else None) }
{
    let Some(name) = Name::read(alloc, bytes)? else {
        return Err(CatErr::Bad);
    };
    if name.as_slice() == bytes {
        Ok(name)
    } else {
        Err(CatErr::Bad)
    }
}
