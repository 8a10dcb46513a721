//! Certain keys.
//!
//! A case is the columns of the key, those of them that are nullable, what is done, and what is told. What is done are
//! words: `+1:5-` puts the row under the id, `/1:5-` drops it, `=1:5-` asks whether it is held, and `?5-:0:13` asks for the
//! least row that is null on column 0 alone and similar to `5-`, with 1 and 3 outside. A look-up is told by an id or `.`,
//! and whether a row is held by `y` or `n`.

ghost use Rattle.std.specs.Prelude.{◌≡◌, ◌<◌, length, not, IsTrue};
ghost use Rattle.std.specs.List.Sorted.{IsStrictlySortedBy};
ghost use Rattle.std.specs.Ordering.{nat_cmp};
ghost use Rattle.pk_values.specs.ColumnSet.{columns, is_subset};
ghost use Rattle.pk_values.specs.Values.{is_null};
ghost use Rattle.pk_similar.specs.Similarity.{are_below};
ghost use Rattle.pk_index.specs.Rows.{is_known_outside};
ghost use Rattle.pk_index.specs.Shown.{key_of, nullable_of};

use crate::spelled::{assert_told, cut, id, ids, row, set, told_answer, told_id};
use pk_index::{PatternIndex, Steps};
use pk_similar::lies_below;
use pk_values::{ColSet, Row, Value};
use std::alloc::Global;
use std::marker::Brand;
use std::sync::ledger::{Blank, Ledger};
use std::test::Fail;

fn told(alloc: Global, key: ColSet, nullable: ColSet, does: &[u8]) -> Result<Vec<u8>, Fail> {
    if !nullable.is_inside(key) || nullable.len() > 5 {
        return Err("no key".into());
    }
    let mut index = PatternIndex::new(alloc, key, nullable);
    if index.nullable() != nullable {
        return Err("other nullable columns".into());
    }
    let mut told = Vec::new(alloc);
    for word in does.split(|byte| *byte == b' ') {
        tell(&mut told, &mut index, key, nullable, word)?;
    }
    Ok(told)
}

fn tell(
    told: &mut Vec<u8>,
    index: &mut PatternIndex,
    key: ColSet,
    nullable: ColSet,
    word: &[u8],
) -> Result<(), Fail>
    requires key { key_of index.old ≡ key }
    requires nullable { nullable_of index.old ≡ nullable }
    ensures key { key_of index.new ≡ key }
    ensures nullable { nullable_of index.new ≡ nullable }
{
    let alloc = *told.allocator();
    let (front, rest) = cut(word, b':');
    match front {
        [b'?', probe @ ..] => {
            let probe = row(alloc, probe)?;
            let found = look_up(alloc, index, key, nullable, &probe, rest)?;
            told.push(told_id(found))?;
            Ok(())
        }
        [what, digit] => edit(told, index, key, *what, id(*digit), &row(alloc, rest)?),
        [..] => Err("no word".into()),
    }
}

fn edit(
    told: &mut Vec<u8>,
    index: &mut PatternIndex,
    key: ColSet,
    what: u8,
    id: u64,
    row: &Row,
) -> Result<(), Fail>
    requires key { key_of index.old ≡ key }
    ensures key { key_of index.new ≡ key_of index.old }
    ensures nullable { nullable_of index.new ≡ nullable_of index.old }
{
    if !lies_below(key, row.width()) {
        return Err("no row of the key".into());
    }
    match what {
        b'+' => index.put(id, row)?,
        b'/' => index.drop_row(id, row),
        _ => told.push(told_answer(index.holds(id, row)))?,
    }
    Ok(())
}

fn look_up(
    alloc: Global,
    index: &PatternIndex,
    key: ColSet,
    nullable: ColSet,
    probe: &Row,
    rest: &[u8],
) -> Result<Option<u64>, Fail>
    requires key { key_of index.now ≡ key }
    requires nullable { nullable_of index.now ≡ nullable }
{
    let (pattern, outside) = cut(rest, b':');
    let pattern = set(pattern)?;
    let outside = ids(alloc, outside)?;
    if !lies_below(key, probe.width()) || !pattern.is_inside(nullable) {
        return Err("no probe of the key".into());
    }
    if !knows_others(probe, key, nullable) {
        return Err("a null where none may be".into());
    }
    Ok(least::<Brand>(Blank::new(1), index, probe, pattern, outside.as_slice()))
}

// A look-up where the steps aren't asked for.
fn least<L: Ledger>(
    blank: Blank,
    index: &PatternIndex,
    probe: &Row,
    pattern: ColSet,
    outside: &[u64],
) -> Option<u64>
    requires name { blank.name ≡ L.name }
    requires parts { blank.parts ≡ L.parts }
    requires some { 0 < L.parts }
    requires wide { IsTrue (are_below (length probe.now) (columns (key_of index.now))) }
    requires known { IsTrue (is_known_outside (nullable_of index.now) (columns (key_of index.now)) probe.now) }
    requires inside { IsTrue (is_subset pattern (nullable_of index.now)) }
    requires ascending { IsStrictlySortedBy nat_cmp outside.now }
{
    let mut steps = Steps::<L>::new(blank);
    index.least(probe, pattern, outside, &mut steps)
}

const CERTAIN: &[u8] = b"\
01 | 01 | ?11:: ?--:01: =1:11 | ..n
 |  | ?:: +2: ?:: +1: ?:: ?::1 ?::12 =2: =3: /1: ?:: | .212.yn2
0 |  | +3:5 +1:6 +2:5 ?5:: ?6:: ?7:: ?5::2 ?5::23 ?5::3 ?5::1 /2:5 ?5:: =3:5 =2:5 | 21.3.223yn
0 | 0 | +1:5 +2:- ?5:: ?5:0: ?6:: ?6:0: ?-:: ?-:0: ?-::1 ?-:0:2 | 12.212..
01 | 01 | +1:55 +2:5- +3:-5 +4:-- ?55:: ?55:1: ?55:0: ?55:01: ?56:: ?56:1: ?56:0: ?65:0: ?66:01: ?66:1: | 1234.2.34.
01 | 01 | +1:55 +2:5- +3:-5 +4:-- ?5-:: ?5-:1: ?5-:0: ?5-:01: ?-6:: ?-6:1: ?-6:0: ?--:: ?--:0: ?--:01: | 1234.2.134
01 | 0 | +1:55 +2:-5 +3:56 ?55:: ?-5:: ?-6:: ?-7:: ?65:: ?65:0: ?66:0: ?-5::1 | 113..2..
01 | 01 | +1:5- /1:5- ?5-:1: ?--:1: =1:5- +1:55 ?5-:: ?--:: ?--:1: =1:5- =1:55 | ..n11.ny
01 | 01 | +1:55 +2:55 /1:55 ?55:: ?5-:: ?-5:: ?--:: /2:55 ?55:: ?5-:: ?-5:: ?--:: | 2222....
0 | 0 | +1:5 /1:5 +2:5 +1:6 ?5:: ?6:: ?-:: ?-::1 =1:5 =2:5 | 2112ny
0 | 0 | +1:5 +2:6 /1:5 /2:6 +1:6 +2:5 ?5:: ?6:: ?5::2 ?-::1 ?-::12 | 21.2.
0 | 0 | +1:a +2:b ?a:: ?b:: ?c:: ?-:: ?A:: ?0:: +3:A ?A:: ?A::3 =3:A =3:a | 12.1..3.yn
12 | 2 | +1:055 +2:65- ?055:: ?755:: ?765:: ?055:2: ?05-:2: ?05-:: =1:955 =1:956 | 11.221yn
01 | 01 | +3:12 +1:21 ?12:: ?21:: ?1-:: ?-1:: ?2-:: ?11:: | 31311.
01234 | 01234 | +1:12345 +2:1-3-5 +3:----- +4:-2345 ?12345:: ?12345:13: ?12345:01234: ?12345:0: ?-----:: ?-----:13: ?-----:0: ?1-3-5:: ?1-3-6:: ?1-3-6:13: ?9----:0: ?9----:: ?92345:0: ?12945:13: ?12945:0: | 12341241..4.4..
01234 | 01234 | +1:aB-0- /1:aB-0- +2:-B00- ?aB000:24: ?aB000:04: ?a--00:04: ?a-1-0:04: ?a-0-0:04: /2:-B00- ?a-0-0:04: ?-----:04: | .22.2..
0 |  | +1:5 +2:5 +3:5 +4:5 ?5::1234 ?5::123 ?5::12 ?5::14 ?5::0234 ?5::9 | .43211
012345 | 12345 | +1:5a---- +2:aaaa-- +3:55---- +4:55a--- +5:55555- +6:55555a ?5a----:2345: ?5b----:2345: ?aaaa--:45: ?55----:2345: ?55a---:345: ?55b---:345: ?55555-:5: ?55556-:5: ?55555a:: ?55555b:: =4:55a--- =4:55b--- /4:55a--- ?55a---:345: =5:55555- =6:55555a | 1.234.9.9.yn.yy
0123456 | 23456 | +1:55555-- +2:55a---- ?55555--:56: ?55556--:56: ?55a----:3456: /1:55555-- ?55555--:56: =2:55a---- | 1.2.y
0123456789 |  | +1:0123456789 +2:012345678A +3:ABCDEFGHIJ ?0123456789:: ?012345678A:: ?ABCDEFGHIJ:: ?ABCDEFGHII:: ?BBCDEFGHIJ:: =3:ABCDEFGHIJ /3:ABCDEFGHIJ ?ABCDEFGHIJ:: | 123..y.";

#[test]
fn certain_keys_find_the_least_similar_row(rt: HostRuntime) -> Result<(), Fail> {
    let alloc = rt.alloc();
    for case in CERTAIN.split(|byte| *byte == b'\n') {
        let (key, rest) = cut(case, b'|');
        let (nullable, rest) = cut(rest, b'|');
        let (does, want) = cut(rest, b'|');
        let told = told(alloc, set(key)?, set(nullable)?, does)?;
        assert_told(&rt, case, told.as_slice(), want);
    }
    Ok(())
}

// A key over as many columns as there may be, with texts as long as they may be.
#[test]
fn the_longest_projections_are_filed(rt: HostRuntime) -> Result<(), Fail> {
    let alloc = rt.alloc();
    let does = b"\
+1:AAAAAAAAAAAAAAAAAAAAAAAAAAAAAAAA +2:AAAAAAAAAAAAAAAAAAAAAAAAAAAAAAAB +3:-AAAAAAAAAAAAAAAAAAAAAAAAAAAAAAA \
?AAAAAAAAAAAAAAAAAAAAAAAAAAAAAAAA:: ?AAAAAAAAAAAAAAAAAAAAAAAAAAAAAAAB:: ?AAAAAAAAAAAAAAAAAAAAAAAAAAAAAAAC:: \
?BAAAAAAAAAAAAAAAAAAAAAAAAAAAAAAA:0: ?-AAAAAAAAAAAAAAAAAAAAAAAAAAAAAAB:: ?-AAAAAAAAAAAAAAAAAAAAAAAAAAAAAAB:0: \
/2:AAAAAAAAAAAAAAAAAAAAAAAAAAAAAAAB ?-AAAAAAAAAAAAAAAAAAAAAAAAAAAAAAB:: =1:AAAAAAAAAAAAAAAAAAAAAAAAAAAAAAAA";
    let told = told(alloc, ColSet::below(32), ColSet::below(5), does)?;
    assert_told(&rt, b"32 columns", told.as_slice(), b"12.32..y");
    Ok(())
}

// The values of a row are kept.
fn kept(alloc: Global, id: u64, letters: &[u8]) -> Result<Vec<u8>, Fail> {
    let key = set(b"02")?;
    let row = row(alloc, letters)?;
    let none = ColSet::empty();
    if !lies_below(key, row.width()) || !none.is_inside(key) {
        return Err("no row of the key".into());
    }
    let mut index = PatternIndex::new(alloc, key, none);
    index.put(id, &row)?;
    let mut bytes = Vec::new(alloc);
    for value in index.values(id)?.as_slice() {
        match value {
            Value::Null => bytes.push(b'-')?,
            Value::Integer(n) => bytes.push(b'0'.saturating_add(n.rem_euclid(10) as u8))?,
            Value::Text(words) => bytes.extend_from_slice(words.as_slice())?,
        }
    }
    Ok(bytes)
}

#[test]
fn values_are_those_on_the_columns_of_the_key(rt: HostRuntime) -> Result<(), Fail> {
    let cases: [(&[u8], &[u8]); 4] = [
        (b"123", b"13"),
        (b"a-b4", b"ab"),
        (b"-a-", b"--"),
        (b"x5-", b"x-"),
    ];
    for (letters, want) in cases {
        let bytes = kept(rt.alloc(), 7, letters)?;
        assert_told(&rt, letters, bytes.as_slice(), want);
    }
    Ok(())
}

// Whether a known value stands in each column that isn't nullable.
fn knows_others(row: &Row, cols: ColSet, nullable: ColSet) -> bool
    requires { IsTrue (are_below (length row.now) (columns cols)) }
    ensures { result ≡ is_known_outside nullable (columns cols) row.now }
{
    let Some(c) = cols.first() else {
        return true;
    };
    let value = row.value(c);
    let others = knows_others(row, cols.without(c), nullable);
    (nullable.has(c) | is_known(value)) & others
}

fn is_known(value: &Value) -> bool
    ensures { result ≡ not (is_null value.now) }
{
    match value {
        Value::Null => false,
        Value::Integer(_) => true,
        Value::Text(_) => true,
    }
}
