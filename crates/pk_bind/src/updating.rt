//! UPDATE.

ghost use Rattle.std.specs.Prelude.{◌≡◌, ◌&&◌, map, IfOk, IsTrue};
ghost use Rattle.std.specs.List.{list_all};
ghost use Rattle.std.specs.Option.{option_copied};
ghost use Rattle.pk_values.specs.Refusals.{first_some, or_else, first_by};
ghost use Rattle.pk_syntax.specs.Given.{has_utf8, cond_has_utf8};
ghost use Rattle.pk_schema.specs.Shapes.{IsShape};
ghost use Rattle.pk_bind.specs.Bound.{IsBound, IfReady};
ghost use Rattle.pk_bind.specs.Columns.{no_column};
ghost use Rattle.pk_bind.specs.Conditions.{cond_fault, cond_has_words};
ghost use Rattle.pk_bind.specs.Fitting.{edit_fits};
ghost use Rattle.pk_bind.specs.Literals.{has_words};
ghost use Rattle.pk_bind.specs.Update.{missing_from, set_twice, found_fault, set_fault, judged, update_refusals, set_of, edit_of};

use crate::bound::Bound;
use crate::columns::{column_at, no_column, twice_refused};
use crate::conditions::cond_asked;
use crate::edit::{Edit, SetTo};
use crate::literals::{Check, stored_fault, stored_value};
use crate::searching::{Search, cond_fault};
use pk_schema::{Column, Schema, column_named, twice};
use pk_syntax::{Literal, SetPart, Update};
use pk_values::{Items, Memory, Name, Refusal};
use std::alloc::Global;

/// What an UPDATE changes, or the first refusal that stands.
pub fn bind_update(alloc: Global, schema: &Schema, update: &Update) -> Result<Bound<Edit>, Memory>
    requires { IsTrue (list_all (λ s. has_utf8 s.value) update.now.sets && cond_has_utf8 update.now.cond) }
    ensures bound { IfOk result (λ b. IsBound (update_refusals schema.now update.now) (edit_of schema.now.columns update.now) b) }
    ensures fits { IfOk result (λ b. IfReady b (λ edit. IsTrue (edit_fits schema.now.columns edit))) }
{
    let _columns = schema.columns();
    match update_refusal(alloc, schema, update)? {
        Some(refusal) => Ok(Bound::Refused(refusal)),
        None => ready(alloc, schema, update),
    }
}

// ---- refusals

// The first refusal that stands.
#[tactic(auto, unfolding(crate::specs::Update::update_refusals))]
fn update_refusal(
    alloc: Global,
    schema: &Schema,
    update: &Update,
) -> Result<Option<Refusal>, Memory>
    ensures { IfOk result (λ r. r ≡ first_some (update_refusals schema.now update.now)) }
{
    let columns = schema.columns();
    if let Some(refusal) = missing_from(columns, update)? {
        return Ok(Some(refusal));
    }
    if let Some(refusal) = set_twice(alloc, update.sets.as_slice())? {
        return Ok(Some(refusal));
    }
    if let Some(refusal) = judged(Check::Kind, Search::Kind, columns, update)? {
        return Ok(Some(refusal));
    }
    if let Some(refusal) = judged(Check::Wide, Search::Wide, columns, update)? {
        return Ok(Some(refusal));
    }
    if let Some(refusal) = judged(Check::Length, Search::Length, columns, update)? {
        return Ok(Some(refusal));
    }
    sets_fault(Check::Null, columns, update.sets.as_slice())
}

// A name is no column of the table: those that are set, then those of the condition.
fn missing_from(columns: &[Column], update: &Update) -> Result<Option<Refusal>, Memory>
    ensures { IfOk result (λ r. r ≡ missing_from columns.now update.now) }
{
    if let Some(refusal) = missing_set(columns, &update.table, update.sets.as_slice())? {
        return Ok(Some(refusal));
    }
    cond_fault(Search::Missing, columns, &update.table, &update.cond)
}

fn missing_set(
    columns: &[Column],
    table: &Name,
    sets: &[SetPart],
) -> Result<Option<Refusal>, Memory>
    ensures { IfOk result (λ r. r ≡ first_by (λ set. no_column columns.now table.now set.column) sets.now) }
{
    for set in sets {
        if let Some(refusal) = no_column(columns, table, &set.column)? {
            return Ok(Some(refusal));
        }
    }
    Ok(None)
}

// A column that is to be set is set twice.
#[tactic(auto, unfolding(crate::specs::Update::set_twice))]
fn set_twice(alloc: Global, sets: &[SetPart]) -> Result<Option<Refusal>, Memory>
    ensures { IfOk result (λ r. r ≡ set_twice sets.now) }
{
    let names = names_set(alloc, sets)?;
    twice_refused(twice(names.as_slice()))
}

// The names of the columns that are set.
fn names_set(alloc: Global, sets: &[SetPart]) -> Result<Vec<Name>, Memory>
    ensures { IfOk result (λ names. names.items ≡ map (λ set. set.column) sets.now) }
{
    let mut names = Vec::with_capacity(alloc, sets.len())?;
    for set in sets {
        names.push(set.column.copy()?)?;
    }
    Ok(names)
}

// What is found in the literals that columns are set to, or else in the condition.
fn judged(
    check: Check,
    search: Search,
    columns: &[Column],
    update: &Update,
) -> Result<Option<Refusal>, Memory>
    ensures { IfOk result (λ r. r ≡ judged check search columns.now update.now) }
{
    if let Some(refusal) = sets_fault(check, columns, update.sets.as_slice())? {
        return Ok(Some(refusal));
    }
    cond_fault(search, columns, &update.table, &update.cond)
}

fn sets_fault(check: Check, columns: &[Column], sets: &[SetPart]) -> Result<Option<Refusal>, Memory>
    ensures { IfOk result (λ r. r ≡ first_by (set_fault check columns.now) sets.now) }
{
    for set in sets {
        if let Some(refusal) = found_fault(check, column_named(columns, &set.column), &set.value)? {
            return Ok(Some(refusal));
        }
    }
    Ok(None)
}

// What the check finds in a literal that goes to the column, where there is one.
fn found_fault(
    check: Check,
    column: Option<&Column>,
    literal: &Literal,
) -> Result<Option<Refusal>, Memory>
    ensures { IfOk result (λ r. r ≡ found_fault check (option_copied column.entry) literal.now) }
{
    match column {
        None => Ok(None),
        Some(column) => stored_fault(check, column, literal),
    }
}

// ---- meaning

// What is changed, where nothing is refused.
fn ready(alloc: Global, schema: &Schema, update: &Update) -> Result<Bound<Edit>, Memory>
    requires texts { IsTrue (list_all (λ s. has_utf8 s.value) update.now.sets && cond_has_utf8 update.now.cond) }
    requires shape { IsShape schema.now }
    requires unrefused { first_some (update_refusals schema.now update.now) ≡ None }
    ensures bound { IfOk result (λ b. IsBound (update_refusals schema.now update.now) (edit_of schema.now.columns update.now) b) }
    ensures fits { IfOk result (λ b. IfReady b (λ edit. IsTrue (edit_fits schema.now.columns edit))) }
{
    Ok(Bound::Ready(edit_of(alloc, schema, update)?))
}

#[tactic(auto, unfolding(crate::specs::Update::edit_of))]
fn edit_of(alloc: Global, schema: &Schema, update: &Update) -> Result<Edit, Memory>
    requires sets { IsTrue (list_all (λ s. has_words s.value) update.now.sets) }
    requires cond { IsTrue (cond_has_words update.now.cond) }
    ensures { IfOk result (λ edit. edit ≡ edit_of schema.now.columns update.now) }
{
    Ok(Edit {
        sets: sets_of(alloc, schema, update.sets.as_slice())?,
        cond: cond_asked(alloc, schema, &update.cond)?,
    })
}

// The columns by their places, and their new values.
fn sets_of(alloc: Global, schema: &Schema, sets: &[SetPart]) -> Result<Items<SetTo>, Memory>
    requires { IsTrue (list_all (λ s. has_words s.value) sets.now) }
    ensures { IfOk result (λ made. made ≡ map (set_of schema.now.columns) sets.now) }
{
    let mut made = Vec::with_capacity(alloc, sets.len())?;
    for set in sets {
        made.push(set_of(alloc, schema, set)?)?;
    }
    Ok(Items::from_vec(made))
}

fn set_of(alloc: Global, schema: &Schema, set: &SetPart) -> Result<SetTo, Memory>
    requires { IsTrue (has_words set.now.value) }
    ensures { IfOk result (λ made. made ≡ set_of schema.now.columns set.now) }
{
    Ok(SetTo {
        column: column_at(schema, &set.column),
        value: stored_value(alloc, &set.value)?,
    })
}
