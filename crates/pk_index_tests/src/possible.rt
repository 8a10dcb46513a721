//! Possible keys: the cases are those of certain keys, but that no column is nullable, so that `?5-:13` is a look-up.

ghost use Rattle.std.specs.Prelude.{◌≡◌, ◌+◌, ◌*◌, ◌<◌, ◌≤◌, length, IsTrue};
ghost use Rattle.std.specs.List.Sorted.{IsStrictlySortedBy};
ghost use Rattle.std.specs.Ordering.{nat_cmp};
ghost use Rattle.pk_values.specs.ColumnSet.{columns};
ghost use Rattle.pk_similar.specs.Similarity.{are_below};
ghost use Rattle.pk_index.specs.Shown.{strong_key_of};

use crate::spelled::{assert_told, cut, id, ids, row, set, told_answer, told_id};
use pk_index::{Steps, StrongIndex};
use pk_similar::lies_below;
use pk_values::{ColSet, Row};
use std::alloc::Global;
use std::marker::Brand;
use std::sync::ledger::{Blank, Ledger};
use std::test::Fail;

const POSSIBLE: &[u8] = b"\
01 | ?11: =1:11 =1:1- | .nn
 | ?: +2: +1: ?: ?:1 ?:12 =1: =3: /1: ?: | .12.yn2
0 | +3:5 +1:5 ?5: ?5:1 ?5:13 ?6: ?-: /1:5 ?5: =1:5 =3:5 | 13...3ny
01 | +1:5- +2:-- +3:55 ?5-: ?--: ?55: =1:5- =1:6- =1:-5 =1:55 =2:5- =3:55 =3:5- /1:-6 =1:5- =2:-- | ..3yyynyynny
01 | +1:5- /1:5- +1:55 +2:5- ?55: =1:5- =1:55 =2:5- ?5-: | 1nyy.
01 | +1:aB +2:Ba ?aB: ?Ba: ?aa: ?BB: ?bB: /1:aB ?aB: +1:Ba ?Ba: ?Ba:1 | 12....12
12 | +1:955 ?855: ?855:1 ?85-: =1:755 =1:-55 =1:75- | 1..yyn";

#[test]
fn possible_keys_find_the_least_similar_row(rt: HostRuntime) -> Result<(), Fail> {
    let alloc = rt.alloc();
    for case in POSSIBLE.split(|byte| *byte == b'\n') {
        let (key, rest) = cut(case, b'|');
        let (does, want) = cut(rest, b'|');
        let told = told_strong(alloc, set(key)?, does)?;
        assert_told(&rt, case, told.as_slice(), want);
    }
    Ok(())
}

fn told_strong(alloc: Global, key: ColSet, does: &[u8]) -> Result<Vec<u8>, Fail> {
    let mut index = StrongIndex::new(alloc, key);
    let mut told = Vec::new(alloc);
    for word in does.split(|byte| *byte == b' ') {
        let (front, rest) = cut(word, b':');
        match front {
            [b'?', probe @ ..] => {
                let probe = row(alloc, probe)?;
                let outside = ids(alloc, rest)?;
                told.push(told_id(look_up_strong(&index, key, &probe, outside.as_slice())?))?;
            }
            [what, digit] => edit_strong(
                &mut told,
                &mut index,
                key,
                *what,
                id(*digit),
                &row(alloc, rest)?,
            )?,
            [..] => return Err("no word".into()),
        }
    }
    Ok(told)
}

fn edit_strong(
    told: &mut Vec<u8>,
    index: &mut StrongIndex,
    key: ColSet,
    what: u8,
    id: u64,
    row: &Row,
) -> Result<(), Fail>
    requires { strong_key_of index.old ≡ key }
    ensures { strong_key_of index.new ≡ key }
{
    if !lies_below(key, row.width()) {
        return Err("no row of the key".into());
    }
    match what {
        b'+' => index.put(id, row)?,
        b'/' => index.drop_row(id, row),
        _ => told.push(told_answer(index.holds(id, row)))?,
    }
    Ok(())
}

fn look_up_strong(
    index: &StrongIndex,
    key: ColSet,
    probe: &Row,
    outside: &[u64],
) -> Result<Option<u64>, Fail>
    requires key { strong_key_of index.now ≡ key }
    requires ascending { IsStrictlySortedBy nat_cmp outside.now }
{
    if !lies_below(key, probe.width()) {
        return Err("no probe of the key".into());
    }
    Ok(least_strong::<Brand>(Blank::new(1), index, probe, outside))
}

fn least_strong<L: Ledger>(
    blank: Blank,
    index: &StrongIndex,
    probe: &Row,
    outside: &[u64],
) -> Option<u64>
    requires name { blank.name ≡ L.name }
    requires parts { blank.parts ≡ L.parts }
    requires some { 0 < L.parts }
    requires wide { IsTrue (are_below (length probe.now) (columns (strong_key_of index.now))) }
    requires ascending { IsStrictlySortedBy nat_cmp outside.now }
{
    let mut steps = Steps::<L>::new(blank);
    index.least(probe, outside, &mut steps)
}

// What is counted of two look-ups adds up.
fn least_of_both<L: Ledger>(
    index: &StrongIndex,
    probe: &Row,
    other: &Row,
    outside: &[u64],
    steps: &mut Steps<L>,
) -> (Option<u64>, Option<u64>)
    requires wide { IsTrue (are_below (length probe.now) (columns (strong_key_of index.now))) }
    requires other_wide { IsTrue (are_below (length other.now) (columns (strong_key_of index.now))) }
    requires ascending { IsStrictlySortedBy nat_cmp outside.now }
    ensures some { steps.old + 2 ≤ steps.new }
    ensures most { steps.new ≤ steps.old + 2 * (2 + length outside.now) }
{
    let found = index.least(probe, outside, steps);
    (found, index.least(other, outside, steps))
}
