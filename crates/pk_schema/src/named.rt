//! What has a name, and columns by their names.

ghost use Rattle.std.specs.Prelude.{◌≡◌, ◌<◌, List, ℕ, length, map, IsTrue, IfOk, OnOk, IfSome};
ghost use Rattle.std.specs.Option.{option_copied};
ghost use Rattle.pk_syntax.specs.Declarations.{has_name, names_of, twice};
ghost use Rattle.std.specs.List.{list_all};
ghost use Rattle.pk_values.specs.Name.{is_name};
ghost use Rattle.pk_schema.specs.Shapes.{place_of_column, column_named};

use pk_syntax::ColumnDecl;
use pk_values::{Memory, Name};
use std::alloc::Global;

/// What has a name.
pub trait Named {
    ghost name: { Self → List ℕ };

    /// The name.
    fn name(&self) -> &Name
        ensures { result.now ≡ name self.now };
}

impl Named for Name {
    ghost name = { λ name. name };

    fn name(&self) -> &Name {
        self
    }
}

impl Named for ColumnDecl {
    ghost name = { λ column. column.name };

    fn name(&self) -> &Name {
        &self.name
    }
}

/// The first name that has stood before.
pub fn twice<T: Named>(items: &[T]) -> Option<&Name>
    ensures { option_copied result ≡ twice (map T.name items.now) }
{
    for (i, item) in items.iter().enumerate() {
        if has_name(&items[..i], item.name()) {
            return Some(item.name());
        }
    }
    None
}

/// Whether one of them has the name.
pub(crate) fn has_name<T: Named>(items: &[T], name: &Name) -> bool
    ensures { result ≡ has_name (map T.name items.now) name.now }
{
    for item in items {
        if item.name().as_slice() == name.as_slice() {
            return true;
        }
    }
    false
}

/// Whether it is one of the names.
pub(crate) fn is_among(names: &[Name], name: &Name) -> bool
    ensures { result ≡ has_name names.now name.now }
{
    has_name(names, name)
}

/// The place of the column of this name, counted from 0.
#[tactic(auto, unfolding(crate::specs::Shapes::place_of_column))]
pub fn column_place(columns: &[ColumnDecl], name: &Name) -> Option<usize>
    ensures place { result ≡ place_of_column columns.now name.now }
    ensures within { IfSome result (λ place. place < length columns.now) }
{
    columns
        .iter()
        .position(|column| column.name.as_slice() == name.as_slice())
}

/// The column of this name.
#[tactic(auto, unfolding(crate::specs::Shapes::column_named))]
pub fn column_named<'a>(columns: &'a [ColumnDecl], name: &Name) -> Option<&'a ColumnDecl>
    ensures { option_copied result ≡ column_named columns.now name.now }
{
    columns
        .iter()
        .find(|column| column.name.as_slice() == name.as_slice())
}

/// An equal column, whose name is one.
pub fn copied_column(column: &ColumnDecl) -> Result<ColumnDecl, Memory>
    ensures copy { IfOk result (λ copy. copy ≡ column.now) }
    ensures name { IsTrue (is_name column.now.name) }
{
    // Who asks for the bytes of a name learns what they are.
    let _bytes = column.name.as_slice();
    Ok(ColumnDecl {
        name: column.name.copy()?,
        kind: column.kind,
        max: column.max,
        not_null: column.not_null,
    })
}

/// Equal columns, in the same order.
pub fn copied_columns(alloc: Global, columns: &[ColumnDecl]) -> Result<Vec<ColumnDecl>, Memory>
    ensures copies { IfOk result (λ copies. copies.items ≡ columns.now) }
    ensures names { OnOk result (IsTrue (list_all is_name (names_of columns.now))) }
{
    let mut copies = Vec::with_capacity(alloc, columns.len())?;
    for column in columns {
        copies.push(copied_column(column)?)?;
    }
    Ok(copies)
}
