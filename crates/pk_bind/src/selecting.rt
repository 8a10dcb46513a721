//! SELECT.

ghost use Rattle.std.specs.Prelude.{◌≡◌, length, map, IfOk, IsTrue};
ghost use Rattle.std.specs.List.{range_with_len};
ghost use Rattle.pk_values.specs.Refusals.{first_some};
ghost use Rattle.pk_syntax.specs.Given.{cond_has_utf8};
ghost use Rattle.pk_bind.specs.Bound.{IsBound, IfReady};
ghost use Rattle.pk_bind.specs.Columns.{column_at};
ghost use Rattle.pk_bind.specs.Conditions.{cond_has_words};
ghost use Rattle.pk_bind.specs.Fitting.{selection_fits};
ghost use Rattle.pk_bind.specs.Select.{missing_shown, missing_order, missing_from, select_refusals, shown_of, order_of, selection_of};

use crate::bound::Bound;
use crate::columns::{column_at, missing_column, no_column};
use crate::conditions::cond_asked;
use crate::searching::{Search, cond_fault};
use crate::selection::{OrderBy, Selection, Shown};
use pk_schema::{Column, Schema};
use pk_syntax::{OrderPart, Select, What};
use pk_values::{Items, Memory, Name, Refusal};
use std::alloc::Global;

/// What a SELECT asks for, or the first refusal that stands.
pub fn bind_select(
    alloc: Global,
    schema: &Schema,
    select: &Select,
) -> Result<Bound<Selection>, Memory>
    requires { IsTrue (cond_has_utf8 select.now.cond) }
    ensures bound { IfOk result (λ b. IsBound (select_refusals schema.now select.now) (selection_of schema.now.columns select.now) b) }
    ensures fits { IfOk result (λ b. IfReady b (λ selection. IsTrue (selection_fits schema.now.columns selection))) }
{
    match select_refusal(schema, select)? {
        Some(refusal) => Ok(Bound::Refused(refusal)),
        None => ready(alloc, schema, select),
    }
}

// ---- refusals

// The first refusal that stands.
#[tactic(auto, unfolding(crate::specs::Select::select_refusals))]
fn select_refusal(schema: &Schema, select: &Select) -> Result<Option<Refusal>, Memory>
    ensures { IfOk result (λ r. r ≡ first_some (select_refusals schema.now select.now)) }
{
    let columns = schema.columns();
    if let Some(refusal) = missing_from(columns, select)? {
        return Ok(Some(refusal));
    }
    if let Some(refusal) = cond_fault(Search::Kind, columns, &select.table, &select.cond)? {
        return Ok(Some(refusal));
    }
    if let Some(refusal) = cond_fault(Search::Wide, columns, &select.table, &select.cond)? {
        return Ok(Some(refusal));
    }
    cond_fault(Search::Length, columns, &select.table, &select.cond)
}

// A name is no column of the table: those asked for, then those of the condition, then those of the order.
fn missing_from(columns: &[Column], select: &Select) -> Result<Option<Refusal>, Memory>
    ensures { IfOk result (λ r. r ≡ missing_from columns.now select.now) }
{
    if let Some(refusal) = missing_shown(columns, &select.table, &select.what)? {
        return Ok(Some(refusal));
    }
    if let Some(refusal) = cond_fault(Search::Missing, columns, &select.table, &select.cond)? {
        return Ok(Some(refusal));
    }
    missing_order(columns, &select.table, select.order.as_slice())
}

fn missing_shown(columns: &[Column], table: &Name, what: &What) -> Result<Option<Refusal>, Memory>
    ensures { IfOk result (λ r. r ≡ missing_shown columns.now table.now what.now) }
{
    match what {
        What::Columns(names) => missing_column(columns, table, names.as_slice()),
        What::All | What::Count => Ok(None),
    }
}

fn missing_order(
    columns: &[Column],
    table: &Name,
    order: &[OrderPart],
) -> Result<Option<Refusal>, Memory>
    ensures { IfOk result (λ r. r ≡ missing_order columns.now table.now order.now) }
{
    for part in order {
        if let Some(refusal) = no_column(columns, table, &part.column)? {
            return Ok(Some(refusal));
        }
    }
    Ok(None)
}

// ---- meaning

// What is asked for, where nothing is refused.
fn ready(alloc: Global, schema: &Schema, select: &Select) -> Result<Bound<Selection>, Memory>
    requires texts { IsTrue (cond_has_utf8 select.now.cond) }
    requires unrefused { first_some (select_refusals schema.now select.now) ≡ None }
    ensures bound { IfOk result (λ b. IsBound (select_refusals schema.now select.now) (selection_of schema.now.columns select.now) b) }
    ensures fits { IfOk result (λ b. IfReady b (λ selection. IsTrue (selection_fits schema.now.columns selection))) }
{
    Ok(Bound::Ready(selection_of(alloc, schema, select)?))
}

#[tactic(auto, unfolding(crate::specs::Select::selection_of))]
fn selection_of(alloc: Global, schema: &Schema, select: &Select) -> Result<Selection, Memory>
    requires { IsTrue (cond_has_words select.now.cond) }
    ensures { IfOk result (λ selection. selection ≡ selection_of schema.now.columns select.now) }
{
    Ok(Selection {
        cond: cond_asked(alloc, schema, &select.cond)?,
        shown: shown_of(alloc, schema, &select.what)?,
        order: order_of(alloc, schema, select.order.as_slice())?,
    })
}

// The columns that are shown.
fn shown_of(alloc: Global, schema: &Schema, what: &What) -> Result<Shown, Memory>
    ensures { IfOk result (λ shown. shown ≡ shown_of schema.now.columns what.now) }
{
    match what {
        What::All => Ok(Shown::Columns(all_places(alloc, schema)?)),
        What::Columns(names) => Ok(Shown::Columns(places_of(alloc, schema, names.as_slice())?)),
        What::Count => Ok(Shown::Count),
    }
}

// The places of all columns.
#[tactic(auto, using(crate::proofs::FitLemmas::places_more))]
fn all_places(alloc: Global, schema: &Schema) -> Result<Items<u32>, Memory>
    ensures { IfOk result (λ places. places ≡ range_with_len 0 (length schema.now.columns)) }
{
    let columns = schema.columns();
    let mut places = Vec::with_capacity(alloc, columns.len())?;
    for place in 0..columns.len() as u32 {
        places.push(place)?;
    }
    Ok(Items::from_vec(places))
}

// The places of the columns of these names.
fn places_of(alloc: Global, schema: &Schema, names: &[Name]) -> Result<Items<u32>, Memory>
    ensures { IfOk result (λ places. places ≡ map (column_at schema.now.columns) names.now) }
{
    let mut places = Vec::with_capacity(alloc, names.len())?;
    for name in names {
        places.push(column_at(schema, name))?;
    }
    Ok(Items::from_vec(places))
}

// The columns by which rows are put in order.
fn order_of(alloc: Global, schema: &Schema, parts: &[OrderPart]) -> Result<Items<OrderBy>, Memory>
    ensures { IfOk result (λ order. order ≡ map (order_of schema.now.columns) parts.now) }
{
    let mut order = Vec::with_capacity(alloc, parts.len())?;
    for part in parts {
        order.push(OrderBy {
            column: column_at(schema, &part.column),
            down: part.down,
        })?;
    }
    Ok(Items::from_vec(order))
}
