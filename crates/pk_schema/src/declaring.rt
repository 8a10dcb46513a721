//! From sets of columns back to their names.

ghost use Rattle.std.specs.Prelude.{◌≡◌, ◌<◌, ◌^◌, length, map, nat_lt, All, IsTrue, IfOk};
ghost use Rattle.std.specs.List.{list_all};
ghost use Rattle.pk_values.specs.ColumnSet.{columns as numbers};
ghost use Rattle.pk_schema.specs.Shapes.{names_at, key_text_of};

use pk_syntax::{ColumnDecl, KeyText};
use pk_values::{ColSet, Items, KeyDecl, Memory, Name};
use std::alloc::Global;

/// The keys by the names of their columns.
pub(crate) fn key_texts(
    alloc: Global,
    columns: &[ColumnDecl],
    keys: &[KeyDecl],
) -> Result<Items<KeyText>, Memory>
    requires { All (λ k. k.columns < 2 ^ length columns.now) keys.now }
    ensures { IfOk result (λ texts. texts ≡ map (key_text_of columns.now) keys.now) }
{
    let mut texts = Vec::with_capacity(alloc, keys.len())?;
    for key in keys {
        texts.push(key_text(alloc, columns, key)?)?;
    }
    Ok(Items::from_vec(texts))
}

fn key_text(alloc: Global, columns: &[ColumnDecl], key: &KeyDecl) -> Result<KeyText, Memory>
    requires { key.now.columns < 2 ^ length columns.now }
    ensures { IfOk result (λ text. text ≡ key_text_of columns.now key.now) }
{
    Ok(KeyText {
        sort: key.sort,
        columns: names_at(alloc, columns, key.columns)?,
    })
}

// The names of the columns of a set, in the order of the table.
fn names_at(alloc: Global, columns: &[ColumnDecl], set: ColSet) -> Result<Items<Name>, Memory>
    requires { IsTrue (list_all (λ c. nat_lt c (length columns.now)) (numbers set)) }
    ensures { IfOk result (λ names. names ≡ names_at columns.now set) }
{
    let mut names = Vec::with_capacity(alloc, set.len() as usize)?;
    let mut rest = set;
    while let Some(c) = rest.first() {
        rest = rest.without(c);
        names.push(columns[c as usize].name.copy()?)?;
    }
    Ok(Items::from_vec(names))
}
