//! Replies by their bytes: the texts of all replies stand one behind the other, each on lines of its own.

use crate::cases::assert_told;
use pk_report::{Example, Reply, reply_text};
use pk_values::{
    Break, Bytes, ColSet, Items, KeyDecl, Memory, Name, Refusal, Row, Rule, Sort, Value, Words,
};
use std::alloc::Global;
use std::test::Fail;

const TOLD: &[u8] = b"\
inserted 0
inserted 1
inserted 18446744073709551615
count
4
rows 1
begun
least|none|most
-9223372036854775808|NULL|'O''Hara'
rows 1
a
rows 0
created t
CREATE TABLE t (a INTEGER);
refused: certain key 1 of t: rows 1 and 2 agree in the completion (-9223372036854775808, NULL, 'O''Hara')
implied by key 1 by strengthening, extension
CERTAIN KEY (a, c)
POSSIBLE KEY ()
keys 2
not possible (a, c): rows (-9223372036854775808, NULL, 'O''Hara') and ()
examples 1
certain none
possible (a, c)
";

#[test]
fn replies_are_told(rt: HostRuntime) -> Result<(), Fail> {
    let mut told = Vec::new(rt.alloc());
    tell_replies(&mut told)?;
    // The message of a failure is what was told.
    assert_told(&rt, told.as_slice(), told.as_slice(), TOLD);
    Ok(())
}

// ---- what is told

fn tell_replies(told: &mut Vec<u8>) -> Result<(), Fail> {
    tell_numbers(told)?;
    tell_selections(told)?;
    tell_names_and_texts(told)?;
    tell_keys(told)
}

fn tell_numbers(told: &mut Vec<u8>) -> Result<(), Fail> {
    tell(told, Reply::Inserted { n: 0 })?;
    tell(told, Reply::Inserted { n: 1 })?;
    tell(told, Reply::Inserted { n: u64::MAX })?;
    tell(told, Reply::Count { n: 4 })?;
    Ok(tell(told, Reply::Begun)?)
}

fn tell_selections(told: &mut Vec<u8>) -> Result<(), Fail> {
    let alloc = *told.allocator();
    tell(told, one_row_selected(alloc)?)?;
    Ok(tell(told, no_row_selected(alloc)?)?)
}

fn tell_names_and_texts(told: &mut Vec<u8>) -> Result<(), Fail> {
    let alloc = *told.allocator();
    tell(told, created(alloc)?)?;
    tell(told, shown(alloc)?)?;
    Ok(tell(told, refused(alloc)?)?)
}

fn tell_keys(told: &mut Vec<u8>) -> Result<(), Fail> {
    let alloc = *told.allocator();
    tell(told, implied(alloc)?)?;
    tell(told, covered(alloc)?)?;
    tell(told, examples(alloc)?)?;
    Ok(tell(told, discovered(alloc)?)?)
}

// Replies are dropped here alone, where nothing else is done.
fn tell(told: &mut Vec<u8>, reply: Reply) -> Result<(), Memory> {
    add_text(told, &reply)
}

fn add_text(told: &mut Vec<u8>, reply: &Reply) -> Result<(), Memory> {
    let text = reply_text(*told.allocator(), reply)?;
    Ok(told.extend_from_slice(text.as_slice())?)
}

// ---- the replies

fn one_row_selected(alloc: Global) -> Result<Reply, Fail> {
    Ok(Reply::Selected {
        header: names(alloc, b"least none most")?,
        rows: mixed_rows(alloc)?,
    })
}

fn no_row_selected(alloc: Global) -> Result<Reply, Fail> {
    Ok(Reply::Selected {
        header: names(alloc, b"a")?,
        rows: Items::from_vec(Vec::new(alloc)),
    })
}

fn created(alloc: Global) -> Result<Reply, Fail> {
    let table = named(alloc, b"t")?;
    Ok(Reply::Created { table })
}

fn shown(alloc: Global) -> Result<Reply, Memory> {
    let text = Bytes::copy(alloc, b"CREATE TABLE t (a INTEGER);")?;
    Ok(Reply::Shown { text })
}

fn refused(alloc: Global) -> Result<Reply, Fail> {
    let table = named(alloc, b"t")?;
    let broken = broken(alloc)?;
    Ok(Reply::Refused(Refusal::BrokenKey { table, broken }))
}

fn implied(alloc: Global) -> Result<Reply, Memory> {
    let rules = vec![in alloc;
        Rule::Declared { key: 1 },
        Rule::Strengthen,
        Rule::Extend { to: a_and_c() },
    ]?;
    Ok(Reply::Implied {
        key: 1,
        rules: Items::from_vec(rules),
    })
}

fn covered(alloc: Global) -> Result<Reply, Fail> {
    Ok(Reply::Cover {
        columns: names(alloc, b"a b c")?,
        keys: keys(alloc)?,
    })
}

fn examples(alloc: Global) -> Result<Reply, Fail> {
    Ok(Reply::Examples {
        columns: names(alloc, b"a b c")?,
        cases: one_example(alloc)?,
    })
}

fn discovered(alloc: Global) -> Result<Reply, Fail> {
    Ok(Reply::Discovered {
        columns: names(alloc, b"a b c")?,
        certain: Items::from_vec(Vec::new(alloc)),
        possible: only(alloc, a_and_c())?,
    })
}

// ---- what stands in them

fn named(alloc: Global, word: &[u8]) -> Result<Name, Fail> {
    match Name::read(alloc, word)? {
        Some(name) => Ok(name),
        None => Err("no name".into()),
    }
}

// The names that stand in the text, with a blank between each two.
fn names(alloc: Global, text: &[u8]) -> Result<Items<Name>, Fail> {
    let mut names = Vec::new(alloc);
    read_names(&mut names, text)?;
    Ok(Items::from_vec(names))
}

fn read_names(names: &mut Vec<Name>, text: &[u8]) -> Result<(), Fail> {
    let alloc = *names.allocator();
    for word in text.split(|byte| *byte == b' ') {
        names.push(named(alloc, word)?)?;
    }
    Ok(())
}

// A row of a number, null and a text with a quote.
fn mixed(alloc: Global) -> Result<Row, Fail> {
    let name = Words::read(alloc, b"O'Hara")?;
    Ok(Row::make(vec![in alloc; Value::Integer(i64::MIN), Value::Null, Value::Text(name)]?))
}

fn broken(alloc: Global) -> Result<Break, Fail> {
    Ok(Break {
        key: 1,
        sort: Sort::Certain,
        low: 1,
        high: 2,
        values: mixed(alloc)?,
    })
}

fn mixed_rows(alloc: Global) -> Result<Items<Items<Value>>, Fail> {
    let row = mixed(alloc)?;
    Ok(only(alloc, Items::from_vec(row.into_values()))?)
}

fn a_and_c() -> ColSet {
    ColSet::empty().with(2).with(0)
}

fn keys(alloc: Global) -> Result<Items<KeyDecl>, Memory> {
    let certain = KeyDecl {
        sort: Sort::Certain,
        columns: a_and_c(),
    };
    let possible = KeyDecl {
        sort: Sort::Possible,
        columns: ColSet::empty(),
    };
    Ok(Items::from_vec(vec![in alloc; certain, possible]?))
}

fn one_example(alloc: Global) -> Result<Items<Example>, Fail> {
    let example = Example {
        sort: Sort::Possible,
        columns: a_and_c(),
        low: mixed(alloc)?,
        high: Row::make(Vec::new(alloc)),
    };
    Ok(only(alloc, example)?)
}

// The list of this item alone.
fn only<T: Drop>(alloc: Global, item: T) -> Result<Items<T>, Memory> {
    let mut items = Vec::new(alloc);
    items.push(item)?;
    Ok(Items::from_vec(items))
}
