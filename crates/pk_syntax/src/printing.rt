ghost use Rattle.std.specs.Prelude.{◌≡◌, ◌++◌, codes, decimal, IfOk, OnOk};
ghost use Rattle.std.specs.List.{flat_map, join_by};
ghost use Rattle.pk_syntax.specs.Declarations.{has_name, in_column_order};
ghost use Rattle.pk_syntax.specs.Printing.{text_type, type_text, null_text, column_text, sort_text, key_text, table_text};

use crate::declaration::{ColumnDecl, KeyText, TableDecl};
use pk_values::{Bytes, Kind, Memory, Name, Sort};
use std::alloc::Global;
use std::io::Write;

// How many bytes a column of TEXT has at most.
const TEXT_MAX: u8 = 255;

/// The canonical text of a table: the CREATE TABLE with its columns in order and behind them its
/// keys in order, each key's columns in the order of the table. `Memory` may come at any call.
#[tactic(auto, unfolding(crate::specs::Printing::table_text))]
pub fn print_table(alloc: Global, decl: &TableDecl) -> Result<Bytes, Memory>
    ensures { IfOk result (λ bytes. bytes ≡ table_text decl.now) }
{
    let columns = decl.columns.as_slice();
    let mut out = Vec::new(alloc);
    write_bytes(&mut out, b"CREATE TABLE ")?;
    write_bytes(&mut out, decl.table.as_slice())?;
    write_bytes(&mut out, b" (")?;
    write_columns(&mut out, columns)?;
    write_keys(&mut out, columns, decl.keys.as_slice())?;
    write_bytes(&mut out, b");")?;
    Ok(Bytes::from_vec(out))
}

// The columns, with a comma between each two.
fn write_columns(out: &mut Vec<u8>, columns: &[ColumnDecl]) -> Result<(), Memory>
    ensures { OnOk result (out.new.items ≡ out.old.items ++ join_by column_text (codes ", ") columns.now) }
{
    let Some((first, others)) = columns.split_first() else {
        return Ok(());
    };
    write_column(out, first)?;
    write_other_columns(out, others)
}

// Each column behind a comma.
fn write_other_columns(out: &mut Vec<u8>, columns: &[ColumnDecl]) -> Result<(), Memory>
    ensures { OnOk result (out.new.items ≡ out.old.items ++ flat_map (λ c. codes ", " ++ column_text c) columns.now) }
{
    for column in columns {
        write_bytes(out, b", ")?;
        write_column(out, column)?;
    }
    Ok(())
}

// The column's name and type, and NOT NULL where it is so.
fn write_column(out: &mut Vec<u8>, column: &ColumnDecl) -> Result<(), Memory>
    ensures { OnOk result (out.new.items ≡ out.old.items ++ column_text column.now) }
{
    write_bytes(out, column.name.as_slice())?;
    write_bytes(out, b" ")?;
    write_type(out, column.kind, column.max)?;
    write_bytes(out, null_words(column.not_null))
}

fn null_words(not_null: bool) -> &'static [u8]
    ensures { result.now ≡ null_text not_null }
{
    if not_null { b" NOT NULL" } else { b"" }
}

fn write_type(out: &mut Vec<u8>, kind: Kind, max: u8) -> Result<(), Memory>
    ensures { OnOk result (out.new.items ≡ out.old.items ++ type_text kind max) }
{
    match kind {
        Kind::Integer => write_bytes(out, b"INTEGER"),
        Kind::Text => write_text_type(out, max),
    }
}

// TEXT, or VARCHAR with its length.
fn write_text_type(out: &mut Vec<u8>, max: u8) -> Result<(), Memory>
    ensures { OnOk result (out.new.items ≡ out.old.items ++ text_type max) }
{
    if max == TEXT_MAX {
        return write_bytes(out, b"TEXT");
    }
    write_bytes(out, b"VARCHAR(")?;
    write_number(out, max)?;
    write_bytes(out, b")")
}

// Each key behind a comma.
fn write_keys(out: &mut Vec<u8>, columns: &[ColumnDecl], keys: &[KeyText]) -> Result<(), Memory>
    ensures { OnOk result (out.new.items ≡ out.old.items ++ flat_map (λ k. codes ", " ++ key_text columns.now k) keys.now) }
{
    for key in keys {
        write_bytes(out, b", ")?;
        write_key(out, columns, key)?;
    }
    Ok(())
}

// The key's sort, and its columns in the order of the table.
fn write_key(out: &mut Vec<u8>, columns: &[ColumnDecl], key: &KeyText) -> Result<(), Memory>
    ensures { OnOk result (out.new.items ≡ out.old.items ++ key_text columns.now key.now) }
{
    write_bytes(out, sort_words(key.sort))?;
    write_bytes(out, b"(")?;
    write_names(out, columns, key.columns.as_slice())?;
    write_bytes(out, b")")
}

fn sort_words(sort: Sort) -> &'static [u8]
    ensures { result.now ≡ sort_text sort }
{
    match sort {
        Sort::Certain => b"CERTAIN KEY ",
        Sort::Possible => b"POSSIBLE KEY ",
    }
}

// The columns of the table that are among the names, with a comma between each two.
fn write_names(out: &mut Vec<u8>, table: &[ColumnDecl], names: &[Name]) -> Result<(), Memory>
    ensures { OnOk result (out.new.items ≡ out.old.items ++ join_by (λ name. name) (codes ", ") (in_column_order table.now names.now)) }
{
    let mut before: &[u8] = b"";
    for column in table {
        if has_name(names, &column.name) {
            write_bytes(out, before)?;
            write_bytes(out, column.name.as_slice())?;
            before = b", ";
        }
    }
    Ok(())
}

// Whether the name is one of them.
fn has_name(names: &[Name], name: &Name) -> bool
    ensures { result ≡ has_name names.now name.now }
{
    names.iter().any(|n| n.as_slice() == name.as_slice())
}

fn write_bytes(out: &mut Vec<u8>, bytes: &[u8]) -> Result<(), Memory>
    ensures { OnOk result (out.new.items ≡ out.old.items ++ bytes.now) }
{
    out.extend_from_slice(bytes)?;
    Ok(())
}

fn write_number(out: &mut Vec<u8>, n: u8) -> Result<(), Memory>
    ensures { OnOk result (out.new.items ≡ out.old.items ++ decimal n) }
{
    write!(out, "{n}").map_err(|_| Memory)
}
