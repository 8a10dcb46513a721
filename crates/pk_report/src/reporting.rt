ghost use Rattle.std.specs.Prelude.{◌≡◌, ◌++◌, codes, IfOk, OnOk};
ghost use Rattle.std.specs.List.{flat_map};
ghost use Rattle.pk_report.specs.Part.{part_text};
ghost use Rattle.pk_report.specs.Text.{row_text, selected_text, count_text, line, pair_text, steps_text, implied_text, cover_text, examples_text, sets_text, text};

use crate::example::Example;
use crate::keys::{write_cases, write_keys, write_sets};
use crate::line::{write_barred, write_joined, write_line};
use crate::part::Part::{self, Named, Number, Values, Words};
use crate::refusing::refused;
use crate::reply::Reply;
use crate::shown::write_number;
use pk_values::{ColSet, Items, KeyDecl, Memory, Name, Rule, Value};
use std::alloc::Global;

/// The bytes of a reply: its lines, each with a line feed at its end. A set of columns shows the names
/// that there are for them, and what is implied shows the rules behind the first, which is the declared
/// key. An `Err` comes only where memory runs out.
#[tactic(auto, unfolding(crate::specs::Text::text))]
pub fn reply_text(alloc: Global, reply: &Reply) -> Result<Vec<u8>, Memory>
    ensures { IfOk result (λ v. v.items ≡ text reply.now) }
{
    match reply {
        Reply::Created { table } => one_line(alloc, &[Words(b"created "), Named(table)]),
        Reply::Dropped { table } => one_line(alloc, &[Words(b"dropped "), Named(table)]),
        Reply::Inserted { n } => one_line(alloc, &[Words(b"inserted "), Number(*n)]),
        Reply::Updated { n } => one_line(alloc, &[Words(b"updated "), Number(*n)]),
        Reply::Deleted { n } => one_line(alloc, &[Words(b"deleted "), Number(*n)]),
        Reply::Selected { header, rows } => selected(alloc, header.as_slice(), rows.as_slice()),
        Reply::Count { n } => counted(alloc, *n),
        Reply::Begun => one_line(alloc, &[Words(b"begun")]),
        Reply::Committed { n } => one_line(alloc, &[Words(b"committed "), Number(*n)]),
        Reply::CommittedNothing => one_line(alloc, &[Words(b"committed nothing")]),
        Reply::RolledBack => one_line(alloc, &[Words(b"rolled back")]),
        Reply::InSession { name } => one_line(alloc, &[Words(b"session "), Named(name)]),
        Reply::Shown { text } => one_line(alloc, &[Words(text.as_slice())]),
        Reply::Implied { key, rules } => implied(alloc, *key, rules.as_slice()),
        Reply::NotImplied { low, high } => not_implied(alloc, low.as_slice(), high.as_slice()),
        Reply::Cover { columns, keys } => cover(alloc, columns.as_slice(), keys.as_slice()),
        Reply::Examples { columns, cases } => {
            examples(alloc, columns.as_slice(), cases.as_slice())
        }
        Reply::Discovered {
            columns,
            certain,
            possible,
        } => discovered(
            alloc,
            columns.as_slice(),
            certain.as_slice(),
            possible.as_slice(),
        ),
        Reply::Checkpointed => one_line(alloc, &[Words(b"checkpoint")]),
        Reply::Refused(refusal) => refused(alloc, refusal),
    }
}

// The text of a reply that is one line.
fn one_line(alloc: Global, parts: &[Part<'_>]) -> Result<Vec<u8>, Memory>
    ensures { IfOk result (λ v. v.items ≡ line (flat_map part_text parts.now)) }
{
    let mut out = Vec::new(alloc);
    write_line(&mut out, parts)?;
    Ok(out)
}

// The names of the columns, the rows and their number, a line each.
fn selected(alloc: Global, header: &[Name], rows: &[Items<Value>]) -> Result<Vec<u8>, Memory>
    ensures { IfOk result (λ v. v.items ≡ selected_text header.now rows.now) }
{
    let mut out = Vec::new(alloc);
    write_barred(&mut out, header)?;
    write_rows(&mut out, rows)?;
    write_line(&mut out, &[Words(b"rows "), Number(rows.len() as u64)])?;
    Ok(out)
}

// A line for each row.
fn write_rows(out: &mut Vec<u8>, rows: &[Items<Value>]) -> Result<(), Memory>
    ensures { OnOk result (out.new.items ≡ out.old.items ++ flat_map row_text rows.now) }
{
    for row in rows {
        write_barred(out, row.as_slice())?;
    }
    Ok(())
}

// A count, as a table of one row.
fn counted(alloc: Global, n: u64) -> Result<Vec<u8>, Memory>
    ensures { IfOk result (λ v. v.items ≡ count_text n) }
{
    let mut out = Vec::new(alloc);
    write_line(&mut out, &[Words(b"count")])?;
    write_line(&mut out, &[Number(n)])?;
    write_line(&mut out, &[Words(b"rows 1")])?;
    Ok(out)
}

// The two rows that refute a key.
fn not_implied<'a>(alloc: Global, low: &'a [Value], high: &'a [Value]) -> Result<Vec<u8>, Memory>
    ensures { IfOk result (λ v. v.items ≡ line (codes "not implied: rows " ++ pair_text low.now high.now)) }
{
    one_line(
        alloc,
        &[
            Words(b"not implied: rows "),
            Values(low),
            Words(b" and "),
            Values(high),
        ],
    )
}

// The declared key, and the steps that lead from it.
fn implied(alloc: Global, key: u32, rules: &[Rule]) -> Result<Vec<u8>, Memory>
    ensures { IfOk result (λ v. v.items ≡ implied_text key rules.now) }
{
    let mut out = Vec::from_slice(alloc, b"implied by key ")?;
    write_number(&mut out, u64::from(key))?;
    write_steps(&mut out, rules.get(1..).unwrap_or(&[]))?;
    out.push(b'\n')?;
    Ok(out)
}

// The steps, where there are any.
fn write_steps(out: &mut Vec<u8>, steps: &[Rule]) -> Result<(), Memory>
    ensures { OnOk result (out.new.items ≡ out.old.items ++ steps_text steps.now) }
{
    if steps.is_empty() {
        Ok(())
    } else {
        out.extend_from_slice(b" by ")?;
        write_joined(out, b", ", steps)
    }
}

// The keys of a cover, and how many there are.
fn cover(alloc: Global, names: &[Name], keys: &[KeyDecl]) -> Result<Vec<u8>, Memory>
    ensures { IfOk result (λ v. v.items ≡ cover_text names.now keys.now) }
{
    let mut out = Vec::new(alloc);
    write_keys(&mut out, names, keys)?;
    write_line(&mut out, &[Words(b"keys "), Number(keys.len() as u64)])?;
    Ok(out)
}

// The cases, and how many there are.
fn examples(alloc: Global, names: &[Name], cases: &[Example]) -> Result<Vec<u8>, Memory>
    ensures { IfOk result (λ v. v.items ≡ examples_text names.now cases.now) }
{
    let mut out = Vec::new(alloc);
    write_cases(&mut out, names, cases)?;
    write_line(&mut out, &[Words(b"examples "), Number(cases.len() as u64)])?;
    Ok(out)
}

// The keys of both sorts.
fn discovered(
    alloc: Global,
    names: &[Name],
    certain: &[ColSet],
    possible: &[ColSet],
) -> Result<Vec<u8>, Memory>
    ensures { IfOk result (λ v. v.items ≡ sets_text (codes "certain") names.now certain.now ++ sets_text (codes "possible") names.now possible.now) }
{
    let mut out = Vec::new(alloc);
    write_sets(&mut out, b"certain", names, certain)?;
    write_sets(&mut out, b"possible", names, possible)?;
    Ok(out)
}
