ghost use Rattle.std.specs.Prelude.{◌≡◌, ◌||◌, ℕ, List, [], ◌∷◌, ◌++◌, map, option_to_list, OnOk, IfOk};
ghost use Rattle.std.specs.List.{filter_map, list_any};
ghost use Rattle.std.specs.Str.{bytes_eq};
ghost use Rattle.pk_parse.specs.Reading.{Reads};
ghost use Rattle.pk_values.specs.NameSets.{has_name};
ghost use Rattle.pk_parse.specs.Create.{single_key, key_of_mark, keys_of_part, column_of_part, columns_of, keys_of, is_not_null, has_primary, is_primary, declared_column, declared_columns, declared_by, declared};

use crate::miss::Miss;
use crate::table_part::{ColumnText, KeyPart, Mark, TablePart};
use pk_syntax::{ColumnDecl, KeyText, TableDecl};
use pk_values::{Items, Memory, Name, Sort};
use std::alloc::Global;
use std::collections::BTreeSet;

// The table that the parts declare; without a column they declare none.
#[tactic(auto, unfolding(crate::specs::Create::declared))]
pub(crate) fn declared(
    alloc: Global,
    table: Name,
    parts: Items<TablePart>,
) -> Result<TableDecl, Miss>
    ensures { Reads result (declared table parts) }
{
    let Draft { columns, keys } = Draft::of(alloc, parts)?;
    if columns.is_empty() {
        return Err(Miss::NotStatement);
    }
    let columns = declared_columns(alloc, &keys, &columns)?;
    let keys = key_texts(alloc, keys)?;
    Ok(TableDecl {
        table,
        columns,
        keys,
    })
}

// What the parts of a CREATE TABLE are so far, columns and keys apart.
#[derive(Debug, Drop)]
struct Draft {
    columns: Vec<ColumnText>,
    keys: Vec<KeyPart>,
}

impl Draft {
    // The columns and the keys of the parts.
    fn of(alloc: Global, parts: Items<TablePart>) -> Result<Draft, Memory>
        ensures columns { IfOk result (λ draft. draft.columns.items ≡ columns_of parts) }
        ensures keys { IfOk result (λ draft. draft.keys.items ≡ keys_of parts) }
    {
        let mut draft = Draft {
            columns: Vec::new(alloc),
            keys: Vec::new(alloc),
        };
        for part in parts.into_vec() {
            draft.add(part)?;
        }
        Ok(draft)
    }

    // Takes the next part.
    fn add(&mut self, part: TablePart) -> Result<(), Memory>
        ensures columns { OnOk result (self.new.columns.items ≡ self.old.columns.items ++ option_to_list (column_of_part part)) }
        ensures keys { OnOk result (self.new.keys.items ≡ self.old.keys.items ++ keys_of_part part) }
    {
        match part {
            TablePart::Column(column) => {
                add_marked(&mut self.keys, &column.name, column.marks.as_slice())?;
                self.columns.push(column)?;
                Ok(())
            }
            TablePart::Key(key) => {
                self.keys.push(key)?;
                Ok(())
            }
        }
    }
}

// Adds the keys that the marks of a column make.
fn add_marked(keys: &mut Vec<KeyPart>, column: &Name, marks: &[Mark]) -> Result<(), Memory>
    ensures { OnOk result (keys.new.items ≡ keys.old.items ++ filter_map (key_of_mark column.now) marks.now) }
{
    for mark in marks {
        add_mark(keys, column, *mark)?;
    }
    Ok(())
}

fn add_mark(keys: &mut Vec<KeyPart>, column: &Name, mark: Mark) -> Result<(), Memory>
    ensures { OnOk result (keys.new.items ≡ keys.old.items ++ option_to_list (key_of_mark column.now mark)) }
{
    match mark {
        Mark::NotNull => Ok(()),
        Mark::Unique => add_single(keys, Sort::Possible, column, false),
        Mark::Primary => add_single(keys, Sort::Certain, column, true),
    }
}

// Adds the key of one column.
fn add_single(
    keys: &mut Vec<KeyPart>,
    sort: Sort,
    column: &Name,
    primary: bool,
) -> Result<(), Memory>
    ensures { OnOk result (keys.new.items ≡ keys.old.items ++ single_key sort column.now primary ∷ []) }
{
    let mut columns = Vec::new(*keys.allocator());
    columns.push(column.copy()?)?;
    let columns = Items::from_vec(columns);
    keys.push(KeyPart {
        key: KeyText { sort, columns },
        primary,
    })?;
    Ok(())
}

// The columns, each NOT NULL where it is marked so or a primary key has it.
fn declared_columns<'a>(
    alloc: Global,
    keys: &'a [KeyPart],
    columns: &'a [ColumnText],
) -> Result<Items<ColumnDecl>, Memory>
    ensures { IfOk result (λ decls. decls ≡ declared_columns keys.now columns.now) }
{
    let primary = primary_names(alloc, keys)?;
    let mut decls = Vec::with_capacity(alloc, columns.len())?;
    for column in columns {
        decls.push(declared_column(&primary, column)?)?;
    }
    Ok(Items::from_vec(decls))
}

fn declared_column<'a>(
    primary: &BTreeSet<&'a [u8]>,
    column: &'a ColumnText,
) -> Result<ColumnDecl, Memory>
    ensures { IfOk result (λ decl. decl ≡ declared_column (has_name primary.now) column.now) }
{
    let not_null = is_marked(column.marks.as_slice()) || has_name(primary, column.name.as_slice());
    Ok(ColumnDecl {
        name: column.name.copy()?,
        kind: column.form.kind,
        max: column.form.max,
        not_null,
    })
}

fn has_name<'a>(names: &BTreeSet<&'a [u8]>, name: &'a [u8]) -> bool
    ensures { result ≡ has_name names.now name.now }
{
    names.contains(&name)
}

// Whether NOT NULL is among the marks.
fn is_marked(marks: &[Mark]) -> bool
    ensures { result ≡ list_any is_not_null marks.now }
{
    marks.iter().any(|mark| is_not_null(*mark))
}

fn is_not_null(mark: Mark) -> bool
    ensures { result ≡ is_not_null mark }
{
    match mark {
        Mark::NotNull => true,
        Mark::Unique | Mark::Primary => false,
    }
}

// The names in primary keys, in an order that finds each column fast, however many there are.
fn primary_names(alloc: Global, keys: &[KeyPart]) -> Result<BTreeSet<&[u8]>, Memory>
    ensures { IfOk result (λ names. (column : List ℕ) → has_name names column ≡ is_primary keys.now column) }
{
    let mut names = BTreeSet::new(alloc);
    for part in keys {
        add_primary(&mut names, part)?;
    }
    Ok(names)
}

// Adds the names of a key, where it is a primary key.
fn add_primary<'a>(names: &mut BTreeSet<&'a [u8]>, part: &'a KeyPart) -> Result<(), Memory>
    ensures { OnOk result
        ((column : List ℕ) → has_name names.new column ≡ (has_name names.old column || has_primary column part.now)) }
{
    if part.primary {
        add_names(names, part.key.columns.as_slice())
    } else {
        Ok(())
    }
}

fn add_names<'a>(names: &mut BTreeSet<&'a [u8]>, columns: &'a [Name]) -> Result<(), Memory>
    ensures { OnOk result
        ((column : List ℕ) → has_name names.new column ≡ (has_name names.old column || list_any (λ name. bytes_eq name column) columns.now)) }
{
    for column in columns {
        names.insert(column.as_slice())?;
    }
    Ok(())
}

// The keys alone.
fn key_texts(alloc: Global, keys: Vec<KeyPart>) -> Result<Items<KeyText>, Memory>
    ensures { IfOk result (λ texts. texts ≡ map (λ k. k.key) keys.items) }
{
    let mut texts = Vec::with_capacity(alloc, keys.len())?;
    for KeyPart { key, primary: _ } in keys {
        texts.push(key)?;
    }
    Ok(Items::from_vec(texts))
}
