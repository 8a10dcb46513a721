//! The keys of a table in its record. A set of columns is kept as the number with the bit `c` for each column `c`.

ghost use Rattle.std.specs.Prelude.{◌≡◌, ℕ, ◌≤◌, ◌<◌, ◌==◌, ◌&&◌, ◌||◌, ◌++◌, length, All, OnOk};
ghost use Rattle.pk_values.specs.ColumnSet.{IsColumnSet, has_column};
ghost use Rattle.pk_catalog.specs.Records.{key_record, list_record, sort_byte};
ghost use Rattle.pk_catalog.specs.Reading.{Finds, key_at, sort_at};

use crate::cat_err::CatErr;
use crate::parts::Part;
use crate::reading::{Found, u32_of};
use pk_values::{COLUMN_LIMIT, ColSet, KeyDecl, Memory, Sort};
use std::alloc::Global;

// What stands for the sorts.
const CERTAIN: u8 = 1;

const POSSIBLE: u8 = 2;

impl Part for KeyDecl {
    ghost at = { key_at };

    fn read(_alloc: Global, bytes: &[u8]) -> Found<'_, KeyDecl> {
        key_of(bytes)
    }
}

#[tactic(auto, unfolding(crate::specs::Reading::key_at))]
fn key_of(bytes: &[u8]) -> Found<'_, KeyDecl>
    ensures { Finds result (key_at bytes.now) }
{
    let (sort, rest) = sort_of(bytes)?;
    let (number, rest) = u32_of(rest)?;
    let columns = set_of(number);
    Ok((KeyDecl { sort, columns }, rest))
}

#[tactic(auto, unfolding(crate::specs::Reading::sort_at))]
fn sort_of(bytes: &[u8]) -> Found<'_, Sort>
    ensures { Finds result (sort_at bytes.now) }
{
    match bytes {
        [1, rest @ ..] => Ok((Sort::Certain, rest)),
        [2, rest @ ..] => Ok((Sort::Possible, rest)),
        [] | [_, ..] => Err(CatErr::Bad),
    }
}

/// Appends the keys behind their number.
pub(crate) fn put_keys(out: &mut Vec<u8>, keys: &[KeyDecl]) -> Result<(), Memory>
    requires few { length keys.now ≤ 32 }
    requires sets { All (λ k. IsColumnSet k.columns) keys.now }
    ensures { OnOk result (out.new.items ≡ out.old.items ++ list_record key_record keys.now) }
{
    out.push(keys.len() as u8)?;
    for key in keys {
        put_key(out, key)?;
    }
    Ok(())
}

fn put_key(out: &mut Vec<u8>, key: &KeyDecl) -> Result<(), Memory>
    requires { IsColumnSet key.now.columns }
    ensures { OnOk result (out.new.items ≡ out.old.items ++ key_record key.now) }
{
    out.push(sort_byte(key.sort))?;
    out.extend_from_slice(&number_of(key.columns).to_be_bytes())?;
    Ok(())
}

fn sort_byte(sort: Sort) -> u8
    ensures { result ≡ sort_byte sort }
{
    match sort {
        Sort::Certain => CERTAIN,
        Sort::Possible => POSSIBLE,
    }
}

// The number that stands for a set.
fn number_of(set: ColSet) -> u32
    requires { IsColumnSet set }
    ensures { result ≡ set }
{
    let mut number = 0;
    for c in 0..COLUMN_LIMIT {
        number = with_bit(number, c, set.has(c));
    }
    number
}

// The number with a bit besides, where it is wanted.
fn with_bit(number: u32, c: u32, wanted: bool) -> u32
    requires { c < 32 }
    ensures { (k : ℕ) → has_column result k ≡ ((k == c && wanted) || has_column number k) }
{
    if wanted { number | 1 << c } else { number }
}

// The set that a number stands for.
fn set_of(number: u32) -> ColSet
    ensures { result ≡ number }
{
    let mut set = ColSet::empty();
    for c in 0..COLUMN_LIMIT {
        set = with_if(set, c, number >> c & 1 == 1);
    }
    set
}

// The set with a column besides, where it is wanted.
fn with_if(set: ColSet, c: u32, wanted: bool) -> ColSet
    requires { c < 32 }
    ensures set { IsColumnSet set → IsColumnSet result }
    ensures members { (k : ℕ) → has_column result k ≡ ((k == c && wanted) || has_column set k) }
{
    if wanted { set.with(c) } else { set }
}
