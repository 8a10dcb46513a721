ghost use Rattle.std.specs.Prelude.{◌≡◌, ◌++◌, codes, IfOk};
ghost use Rattle.std.specs.Fmt.{decimal};
ghost use Rattle.std.specs.List.{flat_map};
ghost use Rattle.pk_values.specs.declared.refusal.Refusal.TheVariants.{NoColumn, ValueCount, LongText, LongRow, Conflict, KeySets};
ghost use Rattle.pk_report.specs.Part.{part_text};
ghost use Rattle.pk_report.specs.Text.{line, refusal_text, broken_words, agree_words, broken_text, limit_text, base_limit_text, sets_limit_text};

use crate::line::write_line;
use crate::part::Part::{self, Named, Number, Values, Words};
use pk_values::{BaseLimitName, Break, LimitName, Memory, Name, Refusal, SetsName, Sort};
use std::alloc::Global;

/// The line of a refusal.
pub(crate) fn refused(alloc: Global, refusal: &Refusal) -> Result<Vec<u8>, Memory>
    ensures { IfOk result (λ v. v.items ≡ line (codes "refused: " ++ refusal_text refusal.now)) }
{
    match refusal {
        Refusal::BadCharacter { line } => of_number(alloc, b"bad character on line ", *line),
        Refusal::UnclosedText { line } => of_number(alloc, b"unclosed text on line ", *line),
        Refusal::NotStatement { line } => of_number(alloc, b"not a statement on line ", *line),
        Refusal::NoTable { table } => of_name(alloc, b"no table ", table),
        Refusal::TableExists { table } => around_name(alloc, b"table ", table, b" exists"),
        Refusal::NoColumn { column, table } => no_column(alloc, column, table),
        Refusal::ColumnTwice { column } => around_name(alloc, b"column ", column, b" twice"),
        Refusal::ValueCount { values, columns } => value_count(alloc, *values, *columns),
        Refusal::WrongKind { column } => of_name(alloc, b"wrong kind for column ", column),
        Refusal::WideNumber => of_words(alloc, b"number outside 64 bits"),
        Refusal::LongText {
            column,
            bytes,
            most,
        } => long_text(alloc, column, *bytes, *most),
        Refusal::NullValue { column } => of_name(alloc, b"null in column ", column),
        Refusal::LongRow { bytes } => long_row(alloc, *bytes),
        Refusal::Limit { what } => of_limit(alloc, limit_words(*what)),
        Refusal::Open { session } => of_name(alloc, b"transaction open in ", session),
        Refusal::NoTransaction => of_words(alloc, b"no transaction"),
        Refusal::Transactions => of_words(alloc, b"limit transactions 16"),
        Refusal::ManyChanges => of_words(alloc, b"limit changes 20000"),
        Refusal::Conflict { row, table, commit } => conflict(alloc, *row, table, *commit),
        Refusal::BaseLimit { what } => of_limit(alloc, base_limit_words(*what)),
        Refusal::BrokenKey { table, broken } => broken_key(alloc, table, broken),
        Refusal::DiscoveryRows => of_words(alloc, b"limit discovery rows 8192"),
        Refusal::KeySets { what, edge } => key_sets(alloc, *what, *edge),
    }
}

fn of_words(alloc: Global, words: &[u8]) -> Result<Vec<u8>, Memory>
    ensures { IfOk result (λ v. v.items ≡ line (codes "refused: " ++ words.now)) }
{
    refused_for(alloc, &[Words(words)])
}

fn of_limit(alloc: Global, limit: &[u8]) -> Result<Vec<u8>, Memory>
    ensures { IfOk result (λ v. v.items ≡ line (codes "refused: " ++ codes "limit " ++ limit.now)) }
{
    refused_for(alloc, &[Words(b"limit "), Words(limit)])
}

fn of_number(alloc: Global, words: &[u8], n: u64) -> Result<Vec<u8>, Memory>
    ensures { IfOk result (λ v. v.items ≡ line (codes "refused: " ++ words.now ++ decimal n)) }
{
    refused_for(alloc, &[Words(words), Number(n)])
}

fn of_name<'a>(alloc: Global, words: &'a [u8], name: &'a Name) -> Result<Vec<u8>, Memory>
    ensures { IfOk result (λ v. v.items ≡ line (codes "refused: " ++ words.now ++ name.now)) }
{
    refused_for(alloc, &[Words(words), Named(name)])
}

fn around_name<'a>(
    alloc: Global,
    before: &'a [u8],
    name: &'a Name,
    behind: &'a [u8],
) -> Result<Vec<u8>, Memory>
    ensures { IfOk result (λ v. v.items ≡ line (codes "refused: " ++ before.now ++ name.now ++ behind.now)) }
{
    refused_for(alloc, &[Words(before), Named(name), Words(behind)])
}

fn no_column<'a>(alloc: Global, column: &'a Name, table: &'a Name) -> Result<Vec<u8>, Memory>
    ensures { IfOk result (λ v. v.items ≡ line (codes "refused: " ++ refusal_text (NoColumn column.now table.now))) }
{
    refused_for(
        alloc,
        &[
            Words(b"no column "),
            Named(column),
            Words(b" in "),
            Named(table),
        ],
    )
}

fn value_count(alloc: Global, values: u64, columns: u64) -> Result<Vec<u8>, Memory>
    ensures { IfOk result (λ v. v.items ≡ line (codes "refused: " ++ refusal_text (ValueCount values columns))) }
{
    refused_for(
        alloc,
        &[
            Number(values),
            Words(b" values for "),
            Number(columns),
            Words(b" columns"),
        ],
    )
}

fn long_text(alloc: Global, column: &Name, bytes: u64, most: u64) -> Result<Vec<u8>, Memory>
    ensures { IfOk result (λ v. v.items ≡ line (codes "refused: " ++ refusal_text (LongText column.now bytes most))) }
{
    refused_for(
        alloc,
        &[
            Words(b"text of "),
            Number(bytes),
            Words(b" bytes for column "),
            Named(column),
            Words(b", at most "),
            Number(most),
        ],
    )
}

fn long_row(alloc: Global, bytes: u64) -> Result<Vec<u8>, Memory>
    ensures { IfOk result (λ v. v.items ≡ line (codes "refused: " ++ refusal_text (LongRow bytes))) }
{
    refused_for(
        alloc,
        &[
            Words(b"row of "),
            Number(bytes),
            Words(b" bytes, at most 4000"),
        ],
    )
}

fn conflict(alloc: Global, row: u64, table: &Name, commit: u64) -> Result<Vec<u8>, Memory>
    ensures { IfOk result (λ v. v.items ≡ line (codes "refused: " ++ refusal_text (Conflict row table.now commit))) }
{
    refused_for(
        alloc,
        &[
            Words(b"conflict on row "),
            Number(row),
            Words(b" of "),
            Named(table),
            Words(b" with commit "),
            Number(commit),
        ],
    )
}

fn broken_key<'a>(alloc: Global, table: &'a Name, broken: &'a Break) -> Result<Vec<u8>, Memory>
    ensures { IfOk result (λ v. v.items ≡ line (codes "refused: " ++ broken_text table.now broken.now)) }
{
    refused_for(
        alloc,
        &[
            Words(broken_words(broken.sort)),
            Number(u64::from(broken.key)),
            Words(b" of "),
            Named(table),
            Words(b": rows "),
            Number(broken.low),
            Words(b" and "),
            Number(broken.high),
            Words(agree_words(broken.sort)),
            Values(broken.values.as_slice()),
        ],
    )
}

fn key_sets(alloc: Global, what: SetsName, edge: u32) -> Result<Vec<u8>, Memory>
    ensures { IfOk result (λ v. v.items ≡ line (codes "refused: " ++ refusal_text (KeySets what edge))) }
{
    refused_for(
        alloc,
        &[
            Words(b"limit "),
            Words(sets_limit_words(what)),
            Words(b" at edge "),
            Number(u64::from(edge)),
        ],
    )
}

// The line of a refusal for this reason.
fn refused_for(alloc: Global, reason: &[Part<'_>]) -> Result<Vec<u8>, Memory>
    ensures { IfOk result (λ v. v.items ≡ line (codes "refused: " ++ flat_map part_text reason.now)) }
{
    let mut out = Vec::from_slice(alloc, b"refused: ")?;
    write_line(&mut out, reason)?;
    Ok(out)
}

fn broken_words(sort: Sort) -> &'static [u8]
    ensures { result.now ≡ broken_words sort }
{
    match sort {
        Sort::Certain => b"certain key ",
        Sort::Possible => b"possible key ",
    }
}

fn agree_words(sort: Sort) -> &'static [u8]
    ensures { result.now ≡ agree_words sort }
{
    match sort {
        Sort::Certain => b" agree in the completion ",
        Sort::Possible => b" agree on ",
    }
}

fn limit_words(what: LimitName) -> &'static [u8]
    ensures { result.now ≡ limit_text what }
{
    match what {
        LimitName::Name => b"name 30",
        LimitName::Columns => b"columns 32",
        LimitName::Keys => b"keys 32",
        LimitName::Nullable => b"nullable columns 5",
        LimitName::Tables => b"tables 256",
    }
}

fn base_limit_words(what: BaseLimitName) -> &'static [u8]
    ensures { result.now ≡ base_limit_text what }
{
    match what {
        BaseLimitName::Rows => b"rows 200000",
        BaseLimitName::RowIds => b"row ids 4611686018427387904",
        BaseLimitName::Commits => b"commits 4611686018427387904",
    }
}

fn sets_limit_words(what: SetsName) -> &'static [u8]
    ensures { result.now ≡ sets_limit_text what }
{
    match what {
        SetsName::Certain => b"certain sets 4096",
        SetsName::Possible => b"possible sets 4096",
    }
}
