//! What the keys of declared tables imply, and what keys are asked about.

ghost use Rattle.std.specs.Prelude.{◌<◌, ◌^◌, length};

use crate::declared::{assert_told, cause, cut, digit, question, schema, sort_letter};
use pk_imply::{AskErr, asked_key, cover, derive, implies};
use pk_schema::Schema;
use pk_syntax::TableDecl;
use pk_values::{ColSet, KeyDecl, Memory, Rule};
use std::alloc::Global;
use std::test::Fail;

const NULLABLE: &[u8] = b"a INT, b INT, c INT, d INT";

const A_KNOWN: &[u8] = b"a INT NOT NULL, b INT, c INT, d INT";

const KNOWN: &[u8] = b"a INT NOT NULL, b INT NOT NULL, c INT NOT NULL, d INT NOT NULL";

const MANY: &[u8] = b"\
    a INT, b INT, c INT, d INT, e INT, f INT, g INT, h INT, i INT, j INT, k INT, l INT, \
    m INT, n INT, o INT, p INT, q INT, r INT, s INT, t INT, u INT, v INT, w INT, x INT, \
    y INT, z INT, aa INT, ab INT, ac INT, ad INT, ae INT, af INT";

const MANY_KNOWN: &[u8] = b"\
    a INT NOT NULL, b INT NOT NULL, c INT NOT NULL, d INT NOT NULL, e INT NOT NULL, f \
    INT NOT NULL, g INT NOT NULL, h INT NOT NULL, i INT NOT NULL, j INT NOT NULL, k INT \
    NOT NULL, l INT NOT NULL, m INT NOT NULL, n INT NOT NULL, o INT NOT NULL, p INT NOT \
    NULL, q INT NOT NULL, r INT NOT NULL, s INT NOT NULL, t INT NOT NULL, u INT NOT \
    NULL, v INT NOT NULL, w INT NOT NULL, x INT NOT NULL, y INT NOT NULL, z INT NOT \
    NULL, aa INT NOT NULL, ab INT NOT NULL, ac INT NOT NULL, ad INT NOT NULL, ae INT \
    NOT NULL, af INT NOT NULL";

// Over all columns and, from the last pair on, over each two that stand beside each other: 32 keys.
const MANY_KEYS: &[u8] = b"\
    ?(a, b, c, d, e, f, g, h, i, j, k, l, m, n, o, p, q, r, s, t, u, v, w, x, y, z, aa, ab, \
    ac, ad, ae, af)?(ae, af)?(ad, ae)?(ac, ad)?(ab, ac)?(aa, ab)?(z, aa)?(y, z)?(x, y)?(w, x)\
    ?(v, w)?(u, v)?(t, u)?(s, t)?(r, s)?(q, r)?(p, q)?(o, p)?(n, o)?(m, n)?(l, m)?(k, l)?(j, \
    k)?(i, j)?(h, i)?(g, h)?(f, g)?(e, f)?(d, e)?(c, d)?(b, c)?(a, b)";

// The letters of the first of these, and of the cover of them all, over columns that may be null or not.
const ALL_MAY: &[u8] = b"?ABCDEFGHIJKLMNOPQRSTUVWXYZ[\\]^_`";

const PAIRS_MAY: &[u8] =
    b"?AB?BC?CD?DE?EF?FG?GH?HI?IJ?JK?KL?LM?MN?NO?OP?PQ?QR?RS?ST?TU?UV?VW?WX?XY?YZ?Z[?[\\?\\]?]^?^_?_`";

const PAIRS_MUST: &[u8] =
    b"+AB+BC+CD+DE+EF+FG+GH+HI+IJ+JK+KL+LM+MN+NO+OP+PQ+QR+RS+ST+TU+UV+VW+WX+XY+YZ+Z[+[\\+\\]+]^+^_+_`";

// Columns, and then declared keys, a key that is asked about, and what is told of it: its letters, and
// the place of the declared key that implies it with the rules from that key; or why it is refused.
const ASKED: [[&[u8]; 2]; 34] = [
    [A_KNOWN, b"?(a) | +(a, b) | +AB 0 1se"],
    [NULLABLE, b"?(a) | +(a) | +A"],
    [A_KNOWN, b"?(a, b) | +(a, b) | +AB"],
    [KNOWN, b"?(b)?(a) | +(a) | +A 1 2s"],
    [NULLABLE, b"+(a) | +(a) | +A 0 1"],
    [NULLABLE, b"+(a) | ?(a) | ?A 0 1w"],
    [NULLABLE, b"+(a) | ?(a, c) | ?AC 0 1we"],
    [NULLABLE, b"+(a) | +(a, c) | +AC 0 1e"],
    [NULLABLE, b"?(a) | ?(a, b, c, d) | ?ABCD 0 1e"],
    [NULLABLE, b"?(a, b) | ?(a) | ?A"],
    [NULLABLE, b"+(a, b) | +(b, c) | +BC"],
    [NULLABLE, b" | ?(a, b, c, d) | ?ABCD"],
    [KNOWN, b" | +() | +"],
    [NULLABLE, b"?() | +() | + 0 1s"],
    [NULLABLE, b"+() | ?() | ? 0 1w"],
    [NULLABLE, b"?() | +(d) | +D 0 1se"],
    [NULLABLE, b"+(a) | ?() | ?"],
    [NULLABLE, b"?(b)?(b) | ?(b) | ?B 0 1"],
    [NULLABLE, b"?(a)+(a)+(a) | +(a) | +A 1 2"],
    [NULLABLE, b"+(b)?(a) | ?(a) | ?A 1 2"],
    [NULLABLE, b"?(a, b)?(a) | ?(a, b) | ?AB 0 1"],
    [KNOWN, b"?(a, b, c, d) | +(a, b, c, d) | +ABCD 0 1s"],
    [NULLABLE, b" | +() | +"],
    [NULLABLE, b" | ?() | ?"],
    [NULLABLE, b" | +(c, a) | +AC"],
    [NULLABLE, b" | ?(d, c, b, a) | ?ABCD"],
    [KNOWN, b" | ?(b) | ?B"],
    [NULLABLE, b" | +(a, x, b, y) | no column x in t"],
    [NULLABLE, b" | +(x, a, a) | no column x in t"],
    [NULLABLE, b" | +(a, a, x) | no column x in t"],
    [NULLABLE, b" | ?(x, x) | no column x in t"],
    [NULLABLE, b" | +(a, b, b, a) | b twice"],
    [NULLABLE, b" | ?(a, b, a, b) | a twice"],
    [MANY, b" | ?(af, a) | ?A`"],
];

#[test]
fn keys_are_asked_about(rt: HostRuntime) -> Result<(), Fail> {
    let alloc = rt.alloc();
    for [columns, case] in &ASKED {
        let (declared, rest) = cut(case);
        let (asked, want) = cut(rest);
        let told = answer(alloc, columns, declared, asked)?;
        assert_told(&rt, case, told.as_slice(), want);
    }
    let told = answer(alloc, MANY, b"", MANY_KEYS)?;
    assert_told(&rt, b"all columns", told.as_slice(), ALL_MAY);
    Ok(())
}

fn answer(alloc: Global, columns: &[u8], declared: &[u8], asked: &[u8]) -> Result<Vec<u8>, Fail> {
    let schema = schema(alloc, columns, declared)?;
    let question = question(alloc, asked)?;
    answered(alloc, &schema, &question)
}

// What is told of the first key of the question.
fn answered(alloc: Global, schema: &Schema, question: &TableDecl) -> Result<Vec<u8>, Fail> {
    let key = question.keys.as_slice().first().ok_or("no key")?;
    match asked_key(schema, &question.table, key) {
        Ok(key) => Ok(implied(alloc, schema, &key)?),
        Err(AskErr::Refused(refusal)) => Ok(cause(alloc, &refusal)?),
        Err(AskErr::Memory) => Err("out of memory".into()),
    }
}

// The key, and where it is implied, from which place and by which rules.
fn implied(alloc: Global, schema: &Schema, key: &KeyDecl) -> Result<Vec<u8>, Memory>
    requires { key.now.columns < 2 ^ length schema.now.columns }
{
    let mut told = Vec::new(alloc);
    write_key(&mut told, key)?;
    write_derivation(&mut told, schema, key)?;
    Ok(told)
}

fn write_derivation(out: &mut Vec<u8>, schema: &Schema, key: &KeyDecl) -> Result<(), Memory>
    requires { key.now.columns < 2 ^ length schema.now.columns }
{
    let Some(place) = implies(schema, *key) else {
        return Ok(());
    };
    out.extend_from_slice(&[b' ', digit(place as u64), b' '])?;
    let rules = derive(*out.allocator(), schema, *key)?;
    write_rules(out, rules.as_slice(), key.columns)
}

// Writes a letter for the key's sort, and one for each of its columns.
fn write_key(out: &mut Vec<u8>, key: &KeyDecl) -> Result<(), Memory> {
    out.push(sort_letter(key.sort))?;
    for c in 0..32u8 {
        write_column(out, key.columns, c)?;
    }
    Ok(())
}

// Writes the letter of column `c`, if the set has it.
fn write_column(out: &mut Vec<u8>, columns: ColSet, c: u8) -> Result<(), Memory> {
    if !columns.has(u32::from(c)) {
        return Ok(());
    }
    out.push(b'A'.saturating_add(c))?;
    Ok(())
}

// Writes a letter for each of the rules to a key over these columns.
fn write_rules(out: &mut Vec<u8>, rules: &[Rule], columns: ColSet) -> Result<(), Memory> {
    for rule in rules {
        out.push(rule_letter(*rule, columns))?;
    }
    Ok(())
}

fn rule_letter(rule: Rule, columns: ColSet) -> u8 {
    match rule {
        Rule::Declared { key } => digit(u64::from(key)),
        Rule::Strengthen => b's',
        Rule::Weaken => b'w',
        Rule::Extend { to } => { if to == columns { b'e' } else { b'?' } }
    }
}

// Columns, declared keys, and the keys of the cover.
const COVERED: [[&[u8]; 3]; 18] = [
    [NULLABLE, b"", b""],
    [NULLABLE, b"?(a)+(a)?(a, b)+(b, c)", b"+A+BC"],
    [NULLABLE, b"?(a)+(a)", b"+A"],
    [NULLABLE, b"?(a)+(a, b)", b"+AB?A"],
    [NULLABLE, b"?(a, b)+(a)", b"+A"],
    [A_KNOWN, b"?(b)?(a)", b"+A?B"],
    [A_KNOWN, b"?(a)+(a, b)", b"+A"],
    [A_KNOWN, b"?(a, b)+(b, c)", b"+BC?AB"],
    [KNOWN, b"?(b)?(a, b)?(a)", b"+A+B"],
    [NULLABLE, b"?(b)+(a)+(a)?(b)", b"+A?B"],
    [NULLABLE, b"+()?(a)", b"+"],
    [NULLABLE, b"+(a)?()", b"+"],
    [NULLABLE, b"+(b, c)+(a, c)+(d)+(a, b)", b"+D+AB+AC+BC"],
    [NULLABLE, b"?(b, c)?(a, c)?(d)?(b, c, d)", b"?D?AC?BC"],
    [NULLABLE, b"+(a, b, c, d)", b"+ABCD"],
    [KNOWN, b"?(a, b, c, d)+(a, b, c, d)", b"+ABCD"],
    [MANY, MANY_KEYS, PAIRS_MAY],
    [MANY_KNOWN, MANY_KEYS, PAIRS_MUST],
];

#[test]
fn keys_are_covered(rt: HostRuntime) -> Result<(), Fail> {
    let alloc = rt.alloc();
    for [columns, declared, want] in &COVERED {
        let told = covering(alloc, columns, declared)?;
        assert_told(&rt, declared, told.as_slice(), want);
    }
    let schema = schema(alloc, MANY, MANY_KEYS)?;
    assert!(rt; schema.columns().len() == 32 && schema.keys().len() == 32);
    Ok(())
}

// The keys of the cover.
fn covering(alloc: Global, columns: &[u8], declared: &[u8]) -> Result<Vec<u8>, Fail> {
    let schema = schema(alloc, columns, declared)?;
    let keys = cover(alloc, &schema)?;
    Ok(spelled(alloc, keys.as_slice())?)
}

fn spelled(alloc: Global, keys: &[KeyDecl]) -> Result<Vec<u8>, Memory> {
    let mut letters = Vec::new(alloc);
    for key in keys {
        write_key(&mut letters, key)?;
    }
    Ok(letters)
}
