//! Sets of columns.

ghost use Rattle.std.specs.Prelude.{◌≡◌, ◌≤◌, ◌<◌, ◌^◌, ◌==◌, ◌&&◌, ◌||◌, ℕ, length, map, IfOk};
ghost use Rattle.pk_values.specs.ColumnSet.{IsColumnSet, has_column, columns as numbers};
ghost use Rattle.std.specs.List.{range_with_len};
ghost use Rattle.pk_schema.specs.Shapes.{all_of, not_null_of, named_of, key_of};

use crate::named::is_among;
use pk_syntax::{ColumnDecl, KeyText};
use pk_values::{ColSet, KeyDecl, Memory, Name};
use std::alloc::Global;

/// The set of all columns.
pub(crate) fn all_of(columns: &[ColumnDecl]) -> ColSet
    requires { length columns.now ≤ 32 }
    ensures set { IsColumnSet result }
    ensures columns { result ≡ all_of columns.now }
    ensures listed { numbers result ≡ range_with_len 0 (length columns.now) }
{
    ColSet::below(columns.len() as u32)
}

/// The set of the columns that are NOT NULL.
pub(crate) fn not_null_of(columns: &[ColumnDecl]) -> ColSet
    requires { length columns.now ≤ 32 }
    ensures set { IsColumnSet result }
    ensures columns { result ≡ not_null_of columns.now }
{
    let mut set = ColSet::empty();
    for (i, column) in columns.iter().enumerate() {
        set = with_if(set, i as u32, column.not_null);
    }
    set
}

/// The keys that their texts name.
pub(crate) fn keys_of(
    alloc: Global,
    columns: &[ColumnDecl],
    texts: &[KeyText],
) -> Result<Vec<KeyDecl>, Memory>
    requires { length columns.now ≤ 32 }
    ensures { IfOk result (λ keys. keys.items ≡ map (key_of columns.now) texts.now) }
{
    let mut keys = Vec::with_capacity(alloc, texts.len())?;
    for text in texts {
        keys.push(key_of(columns, text))?;
    }
    Ok(keys)
}

/// The key over the columns that a text names, in whatever order; a name that is no column adds none.
pub fn key_of(columns: &[ColumnDecl], text: &KeyText) -> KeyDecl
    requires { length columns.now ≤ 32 }
    ensures key { result ≡ key_of columns.now text.now }
    ensures within { result.columns < 2 ^ length columns.now }
{
    KeyDecl {
        sort: text.sort,
        columns: named_of(columns, text.columns.as_slice()),
    }
}

// The set of the columns of these names.
fn named_of(columns: &[ColumnDecl], names: &[Name]) -> ColSet
    requires { length columns.now ≤ 32 }
    ensures set { IsColumnSet result }
    ensures columns { result ≡ named_of columns.now names.now }
{
    let mut set = ColSet::empty();
    for (i, column) in columns.iter().enumerate() {
        set = with_if(set, i as u32, is_among(names, &column.name));
    }
    set
}

// The set with column `c` besides, where it is wanted.
fn with_if(set: ColSet, c: u32, wanted: bool) -> ColSet
    requires column { c < 32 }
    requires set { IsColumnSet set }
    ensures set { IsColumnSet result }
    ensures members { (k : ℕ) → has_column result k ≡ ((k == c && wanted) || has_column set k) }
{
    if wanted { set.with(c) } else { set }
}
