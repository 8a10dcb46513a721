ghost use Rattle.std.specs.Prelude.{◌≡◌, ◌++◌, OnOk};
ghost use Rattle.std.specs.List.{flat_map};
ghost use Rattle.pk_report.specs.Text.{line, key_text, lack_text, case_text, set_line, sets_text};

use crate::example::Example;
use crate::line::write_line;
use crate::part::Part::{Columns, Values, Words};
use pk_values::{ColSet, KeyDecl, Memory, Name, Sort};

/// Writes a line for each key, as it is declared.
pub(crate) fn write_keys(out: &mut Vec<u8>, names: &[Name], keys: &[KeyDecl]) -> Result<(), Memory>
    ensures { OnOk result (out.new.items ≡ out.old.items ++ flat_map (λ key. line (key_text names.now key)) keys.now) }
{
    for key in keys {
        write_key(out, names, key)?;
    }
    Ok(())
}

fn write_key(out: &mut Vec<u8>, names: &[Name], key: &KeyDecl) -> Result<(), Memory>
    ensures { OnOk result (out.new.items ≡ out.old.items ++ line (key_text names.now key.now)) }
{
    let set = key.columns;
    match key.sort {
        Sort::Certain => write_line(out, &[Words(b"CERTAIN KEY "), Columns { names, set }]),
        Sort::Possible => write_line(out, &[Words(b"POSSIBLE KEY "), Columns { names, set }]),
    }
}

/// Writes a line for each case.
pub(crate) fn write_cases(
    out: &mut Vec<u8>,
    names: &[Name],
    cases: &[Example],
) -> Result<(), Memory>
    ensures { OnOk result (out.new.items ≡ out.old.items ++ flat_map (case_text names.now) cases.now) }
{
    for case in cases {
        write_case(out, names, case)?;
    }
    Ok(())
}

fn write_case(out: &mut Vec<u8>, names: &[Name], case: &Example) -> Result<(), Memory>
    ensures { OnOk result (out.new.items ≡ out.old.items ++ case_text names.now case.now) }
{
    match case.sort {
        Sort::Certain => write_lack(out, b"not certain ", names, case),
        Sort::Possible => write_lack(out, b"not possible ", names, case),
    }
}

// Writes the line of a case that begins with these words.
fn write_lack<'a>(
    out: &mut Vec<u8>,
    words: &'a [u8],
    names: &'a [Name],
    case: &'a Example,
) -> Result<(), Memory>
    ensures { OnOk result (out.new.items ≡ out.old.items ++ line (lack_text words.now names.now case.now)) }
{
    let set = case.columns;
    write_line(
        out,
        &[
            Words(words),
            Columns { names, set },
            Words(b": rows "),
            Values(case.low.as_slice()),
            Words(b" and "),
            Values(case.high.as_slice()),
        ],
    )
}

/// Writes a line for each set of this sort, or one that there is none.
pub(crate) fn write_sets(
    out: &mut Vec<u8>,
    sort: &[u8],
    names: &[Name],
    sets: &[ColSet],
) -> Result<(), Memory>
    ensures { OnOk result (out.new.items ≡ out.old.items ++ sets_text sort.now names.now sets.now) }
{
    if sets.is_empty() {
        write_line(out, &[Words(sort), Words(b" none")])
    } else {
        write_each_set(out, sort, names, sets)
    }
}

fn write_each_set(
    out: &mut Vec<u8>,
    sort: &[u8],
    names: &[Name],
    sets: &[ColSet],
) -> Result<(), Memory>
    ensures { OnOk result (out.new.items ≡ out.old.items ++ flat_map (set_line sort.now names.now) sets.now) }
{
    for set in sets {
        write_set(out, sort, names, *set)?;
    }
    Ok(())
}

fn write_set<'a>(
    out: &mut Vec<u8>,
    sort: &'a [u8],
    names: &'a [Name],
    set: ColSet,
) -> Result<(), Memory>
    ensures { OnOk result (out.new.items ≡ out.old.items ++ set_line sort.now names.now set) }
{
    write_line(out, &[Words(sort), Words(b" "), Columns { names, set }])
}
