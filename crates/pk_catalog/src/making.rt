//! Schemas of columns and keys that were read.

ghost use Rattle.std.specs.Prelude.{◌≡◌, not, map, IfOk};
ghost use Rattle.std.specs.List.{list_all, zip};
ghost use Rattle.pk_syntax.specs.Declarations.{has_column, is_plain_length};
ghost use Rattle.pk_syntax.specs.Words.{is_reserved};
ghost use Rattle.pk_schema.specs.Shapes.{Shape, IsShape};
ghost use Rattle.pk_catalog.specs.Records.{Gets};
ghost use Rattle.pk_catalog.specs.Reading.{Reads};
ghost use Rattle.pk_catalog.specs.Making.{decl_inside, first_name, IsMadeOf, IsDeclared, HasKeys, names_inside, key_text_inside, has_free_names, is_plain_by_parts, same_key, same_keys};

use crate::cat_err::CatErr;
use pk_schema::{Column, MakeErr, Schema, declarations_make_the_same};
use pk_syntax::{KeyText, TableDecl, is_reserved};
use pk_values::{ColSet, Items, KeyDecl, Kind, Memory, Name};
use std::alloc::Global;

/// The schema of these columns and keys; `Bad` exactly where there is none.
pub(crate) fn schema_of(
    alloc: Global,
    columns: Items<Column>,
    keys: &[KeyDecl],
) -> Result<Schema, CatErr>
    ensures { Gets (IsMadeOf columns keys.now) result }
{
    declarations_make_the_same();
    match decl_of(alloc, columns, keys) {
        Ok(decl) => declared(alloc, &decl, keys),
        Err(error) => Err(error),
    }
}

// The declaration of these columns and keys. A schema doesn't know what its table is called, so that any name of a table
// will do, and the first column's does.
fn decl_of(alloc: Global, columns: Items<Column>, keys: &[KeyDecl]) -> Result<TableDecl, CatErr>
    ensures { Reads result (decl_inside columns keys.now) }
{
    let table = match first_name(columns.as_slice()) {
        Ok(name) => name,
        Err(error) => return Err(error),
    };
    let keys = key_texts(alloc, columns.as_slice(), keys)?;
    Ok(TableDecl {
        table,
        columns,
        keys,
    })
}

fn first_name(columns: &[Column]) -> Result<Name, CatErr>
    ensures { Reads result (first_name columns.now) }
{
    match columns {
        [] => Err(CatErr::Bad),
        [first, ..] => Ok(first.name.copy()?),
    }
}

// The schema of a declaration, where its keys are these.
#[tactic(auto, using(crate::proofs::SchemaMaking::not_plain, crate::proofs::SchemaMaking::plain_from_parts, crate::proofs::SchemaMaking::refused, crate::proofs::SchemaMaking::made_given))]
fn declared(alloc: Global, decl: &TableDecl, keys: &[KeyDecl]) -> Result<Schema, CatErr>
    ensures { Gets (IsDeclared decl.now keys.now) result }
{
    if !is_plain(decl) {
        return Err(CatErr::Bad);
    }
    match Schema::make(alloc, decl) {
        // A set with columns that the table doesn't have comes back without them.
        Ok(schema) => with_keys(schema, keys),
        Err(MakeErr::Refused(_)) => Err(CatErr::Bad),
        Err(MakeErr::Memory) => Err(CatErr::Memory),
    }
}

// The schema, where its keys are these.
#[tactic(auto, using(crate::proofs::SchemaMaking::with_these, crate::proofs::SchemaMaking::with_others))]
fn with_keys(schema: Schema, keys: &[KeyDecl]) -> Result<Schema, CatErr>
    ensures { Gets (HasKeys schema keys.now) result }
{
    if has_keys(&schema, keys) {
        Ok(schema)
    } else {
        Err(CatErr::Bad)
    }
}

fn has_keys(schema: &Schema, keys: &[KeyDecl]) -> bool
    ensures same { result ≡ same_keys schema.now.keys keys.now }
    ensures shape { IsShape schema.now }
{
    are_same(schema.keys(), keys)
}

#[tactic(auto, unfolding(crate::specs::Making::same_keys))]
fn are_same(these: &[KeyDecl], those: &[KeyDecl]) -> bool
    ensures { result ≡ same_keys these.now those.now }
{
    these.len() == those.len() && are_alike(these, those)
}

// Whether each key is the one beside it.
fn are_alike(these: &[KeyDecl], those: &[KeyDecl]) -> bool
    ensures { result ≡ list_all (λ pair. same_key pair.0 pair.1) (zip these.now those.now) }
{
    these.iter().zip(those).all(|(a, b)| is_same(a, b))
}

fn is_same(a: &KeyDecl, b: &KeyDecl) -> bool
    ensures { result ≡ same_key a.now b.now }
{
    a.columns == b.columns && a.sort == b.sort
}

// ---- what a declaration has to be

fn is_plain(decl: &TableDecl) -> bool
    ensures { result ≡ is_plain_by_parts decl.now }
{
    let columns = decl.columns.as_slice();
    has_column(columns) && (names_are_free(decl) && lengths_are_plain(columns))
}

fn has_column(columns: &[Column]) -> bool
    ensures { result ≡ has_column columns.now }
{
    match columns {
        [] => false,
        [_, ..] => true,
    }
}

// Whether no name is a word of the grammar.
fn names_are_free(decl: &TableDecl) -> bool
    ensures { result ≡ has_free_names decl.now }
{
    let columns = decl.columns.as_slice();
    let keys = decl.keys.as_slice();
    !is_reserved(decl.table.as_slice()) && (columns_are_free(columns) && keys_are_free(keys))
}

fn columns_are_free(columns: &[Column]) -> bool
    ensures { result ≡ list_all (λ c. not (is_reserved c.name)) columns.now }
{
    columns.iter().all(|c| !is_reserved(c.name.as_slice()))
}

fn keys_are_free(keys: &[KeyText]) -> bool
    ensures { result ≡ list_all (λ k. list_all (λ name. not (is_reserved name)) k.columns) keys.now }
{
    keys.iter().all(|key| are_free(key.columns.as_slice()))
}

fn are_free(names: &[Name]) -> bool
    ensures { result ≡ list_all (λ name. not (is_reserved name)) names.now }
{
    names.iter().all(|name| !is_reserved(name.as_slice()))
}

fn lengths_are_plain(columns: &[Column]) -> bool
    ensures { result ≡ list_all (λ c. is_plain_length c.kind c.max) columns.now }
{
    columns.iter().all(|c| is_plain_length(c.kind, c.max))
}

fn is_plain_length(kind: Kind, max: u8) -> bool
    ensures { result ≡ is_plain_length kind max }
{
    match kind {
        Kind::Integer => max == 0,
        Kind::Text => max > 0,
    }
}

// ---- keys by the names of their columns

fn key_texts(alloc: Global, columns: &[Column], keys: &[KeyDecl]) -> Result<Items<KeyText>, Memory>
    ensures { IfOk result (λ texts. texts ≡ map (key_text_inside columns.now) keys.now) }
{
    let mut texts = Vec::with_capacity(alloc, keys.len())?;
    for key in keys {
        texts.push(key_text(alloc, columns, key)?)?;
    }
    Ok(Items::from_vec(texts))
}

fn key_text(alloc: Global, columns: &[Column], key: &KeyDecl) -> Result<KeyText, Memory>
    ensures { IfOk result (λ text. text ≡ key_text_inside columns.now key.now) }
{
    Ok(KeyText {
        sort: key.sort,
        columns: names_inside(alloc, columns, key.columns)?,
    })
}

// The names of those columns of the set that the table has.
fn names_inside(alloc: Global, columns: &[Column], set: ColSet) -> Result<Items<Name>, Memory>
    ensures { IfOk result (λ names. names ≡ names_inside columns.now set) }
{
    let mut names = Vec::with_capacity(alloc, set.len() as usize)?;
    let mut rest = set;
    while let Some(c) = rest.first() {
        rest = rest.without(c);
        if (c as usize) < columns.len() {
            names.push(columns[c as usize].name.copy()?)?;
        }
    }
    Ok(Items::from_vec(names))
}
