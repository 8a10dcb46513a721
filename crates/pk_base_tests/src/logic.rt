//! Conditions on a row. A case is a line: what is judged, and behind the bar what it is, in the letters `F`, `U` and
//! `T` for false, unknown and true, and `?` for what can't be judged. What is told of the cases is spelled as they are.
//!
//! The words of a row are its values: `-` for null, a number, or a text behind a quote, where `'*` is the longest text.
//! The words of a condition are these, in the order in which it is put together:
//!
//! - `a=1`, `a<b`: the column is equal to a value, or is less than another column. The columns `a`, `b`, `y` and `z`
//!   are those with the numbers 0, 1, 31 and 32.
//! - `a?`, `a!`: the column IS NULL, IS NOT NULL.
//! - `N`: NOT of the condition before it; `A` and `O`: AND and OR of all conditions before it. `N64` stands for 64
//!   times `N`, so that the condition is nested that deep.

use crate::cases::{assert_told, cut};
use pk_logic::{Cond, Op, Side, Truth, is_judgeable, judge};
use pk_values::{Items, MOST_BYTES, MOST_COLUMNS, Row, Value, Words};
use sqlite_items::Boxed;
use std::alloc::Global;
use std::mem;
use std::process::Abort;
use std::test::Fail;

// ---- comparisons

// Two values, and what each of the operators = <> < <= > >= says of them: two letters, the first where the second
// value stands in the condition, the other where it is named by its column.
const NUMBERS: &[u8] = b"\
-9223372036854775808 9223372036854775807 | FF TT TT TT FF FF
9223372036854775807 -9223372036854775808 | FF TT FF FF TT TT
-9223372036854775808 -9223372036854775808 | TT FF FF TT FF TT
9223372036854775807 9223372036854775807 | TT FF FF TT FF TT
-1 0 | FF TT TT TT FF FF
10 9 | FF TT FF FF TT TT
- 1 | UU UU UU UU UU UU
1 - | UU UU UU UU UU UU
- - | UU UU UU UU UU UU
";

const TEXTS: &[u8] = b"\
' '* | FF TT TT TT FF FF
'* ' | FF TT FF FF TT TT
' ' | TT FF FF TT FF TT
'* '* | TT FF FF TT FF TT
'10 '9 | FF TT TT TT FF FF
'a 'A | FF TT FF FF TT TT
'\xc3\xa4 'z | FF TT FF FF TT TT
' - | UU UU UU UU UU UU
'* - | UU UU UU UU UU UU
'10 - | UU UU UU UU UU UU
'a - | UU UU UU UU UU UU
'\xc3\xa4 - | UU UU UU UU UU UU
";

#[test]
fn numbers_are_decided_by_their_order(rt: HostRuntime) -> Result<(), Fail> {
    assert_compared(&rt, rt.alloc(), NUMBERS)
}

#[test]
fn texts_are_decided_by_their_order(rt: HostRuntime) -> Result<(), Fail> {
    assert_compared(&rt, rt.alloc(), TEXTS)
}

fn assert_compared(rt: &impl Abort, alloc: Global, cases: &[u8]) -> Result<(), Fail> {
    let mut told = Vec::new(alloc);
    tell_comparisons(&mut told, cases)?;
    // The message of a failure is what was told.
    assert_told(rt, told.as_slice(), told.as_slice(), cases);
    Ok(())
}

fn tell_comparisons(told: &mut Vec<u8>, cases: &[u8]) -> Result<(), Fail> {
    for case in cases.split_inclusive(|byte| *byte == b'\n') {
        let (values, _) = cut(case);
        tell_comparison(told, values)?;
    }
    Ok(())
}

fn tell_comparison(told: &mut Vec<u8>, values: &[u8]) -> Result<(), Fail> {
    let row = row(*told.allocator(), values)?;
    tell_operators(told, values, &row)
}

fn tell_operators(told: &mut Vec<u8>, values: &[u8], row: &Row) -> Result<(), Fail> {
    told.extend_from_slice(values)?;
    told.extend_from_slice(b" |")?;
    for op in [
        Op::Equal,
        Op::Unequal,
        Op::Less,
        Op::AtMost,
        Op::Greater,
        Op::AtLeast,
    ] {
        tell_operator(told, row, op)?;
    }
    Ok(told.push(b'\n')?)
}

fn tell_operator(told: &mut Vec<u8>, row: &Row, op: Op) -> Result<(), Fail> {
    let known = compared(row, op, last(row)?);
    let column = compared(row, op, Side::Column(1));
    Ok(told.extend_from_slice(&[b' ', known, column])?)
}

// The row's last value, for a comparison with it.
fn last(row: &Row) -> Result<Side, Fail> {
    match row.as_slice().last() {
        Some(value) => Ok(Side::Known(value.copy()?)),
        None => Err("no value".into()),
    }
}

fn compared(row: &Row, op: Op, with: Side) -> u8 {
    let column = 0;
    letter(&Cond::Compare { column, op, with }, row)
}

// What the condition is on the row.
fn letter(cond: &Cond, row: &Row) -> u8 {
    if is_judgeable(cond, row) {
        truth_letter(judge(cond, row))
    } else {
        b'?'
    }
}

fn truth_letter(truth: Truth) -> u8 {
    match truth {
        Truth::False => b'F',
        Truth::Unknown => b'U',
        Truth::True => b'T',
    }
}

// ---- conditions

const NULL_AND_ONE: &[u8] = b"- 1";

const NULLS: &[u8] = b"\
a=- | U
a=- N | U
b=- | U
b=- N | U
a? | T
a? N | F
a! | F
a! N | T
b? | F
b? N | T
b! | T
b! N | F
";

// All pairs of a member that is false, `b=2`, one that is unknown, `a=1`, and one that is true, `b=1`.
const MEMBERS: &[u8] = b"\
b=2 b=2 A | F
b=2 a=1 A | F
b=2 b=1 A | F
a=1 b=2 A | F
a=1 a=1 A | U
a=1 b=1 A | U
b=1 b=2 A | F
b=1 a=1 A | U
b=1 b=1 A | T
b=2 b=2 O | F
b=2 a=1 O | U
b=2 b=1 O | T
a=1 b=2 O | U
a=1 a=1 O | U
a=1 b=1 O | T
b=1 b=2 O | T
b=1 a=1 O | T
b=1 b=1 O | T
";

const NO_MEMBERS: &[u8] = b"\
A | T
O | F
";

const NESTED: &[u8] = b"\
b=2 N64 | F
b=2 N63 | T
b=2 A64 | F
b=2 O64 | F
a=1 N64 | U
a=1 N63 | U
a=1 A64 | U
a=1 O64 | U
b=1 N64 | T
b=1 N63 | F
b=1 A64 | T
b=1 O64 | T
";

const WIDEST: &[u8] =
    b"0 1 2 3 4 5 6 7 8 9 10 11 12 13 14 15 16 17 18 19 20 21 22 23 24 25 26 27 28 29 30 31";

const LAST_COLUMNS: &[u8] = b"\
y? | F
y=- | U
a<y | T
y! N | F
y! A | T
y! O | T
z? | ?
z=- | ?
a<z | ?
z! N | ?
z! A | ?
z! O | ?
y=0 | F
y='0 | ?
";

#[test]
fn nulls_are_found_by_is_null_alone(rt: HostRuntime) -> Result<(), Fail> {
    assert_judged(&rt, rt.alloc(), NULL_AND_ONE, NULLS)
}

#[test]
fn members_are_joined(rt: HostRuntime) -> Result<(), Fail> {
    assert_judged(&rt, rt.alloc(), NULL_AND_ONE, MEMBERS)?;
    assert_judged(&rt, rt.alloc(), b"", NO_MEMBERS)
}

#[test]
fn conditions_of_64_levels_are_judged(rt: HostRuntime) -> Result<(), Fail> {
    assert_judged(&rt, rt.alloc(), NULL_AND_ONE, NESTED)
}

#[test]
fn what_cannot_be_judged_is_told(rt: HostRuntime) -> Result<(), Fail> {
    assert_judged(&rt, rt.alloc(), WIDEST, LAST_COLUMNS)
}

fn assert_judged(rt: &impl Abort, alloc: Global, values: &[u8], cases: &[u8]) -> Result<(), Fail> {
    let told = judgements(alloc, values, cases)?;
    // The message of a failure is what was told.
    assert_told(rt, told.as_slice(), told.as_slice(), cases);
    Ok(())
}

fn judgements(alloc: Global, values: &[u8], cases: &[u8]) -> Result<Vec<u8>, Fail> {
    let row = row(alloc, values)?;
    let mut told = Vec::new(alloc);
    tell_judgements(&mut told, &row, cases)?;
    Ok(told)
}

fn tell_judgements(told: &mut Vec<u8>, row: &Row, cases: &[u8]) -> Result<(), Fail> {
    for case in cases.split_inclusive(|byte| *byte == b'\n') {
        let (text, _) = cut(case);
        tell_judgement(told, row, text)?;
    }
    Ok(())
}

fn tell_judgement(told: &mut Vec<u8>, row: &Row, text: &[u8]) -> Result<(), Fail> {
    let letter = judged(*told.allocator(), row, text)?;
    told.extend_from_slice(text)?;
    Ok(told.extend_from_slice(&[b' ', b'|', b' ', letter, b'\n'])?)
}

fn judged(alloc: Global, row: &Row, text: &[u8]) -> Result<u8, Fail> {
    let cond = condition(alloc, text)?;
    Ok(letter(&cond, row))
}

// ---- what is spelled

fn row(alloc: Global, text: &[u8]) -> Result<Row, Fail> {
    let mut values = Vec::new(alloc);
    read_values(&mut values, text)?;
    if values.len() > MOST_COLUMNS {
        return Err("no row".into());
    }
    Ok(Row::make(values))
}

fn read_values(values: &mut Vec<Value>, text: &[u8]) -> Result<(), Fail> {
    let alloc = *values.allocator();
    if text.is_empty() {
        return Ok(());
    }
    for word in text.split(|byte| *byte == b' ') {
        values.push(value(alloc, word)?)?;
    }
    Ok(())
}

fn value(alloc: Global, word: &[u8]) -> Result<Value, Fail> {
    match word {
        [b'-'] => Ok(Value::Null),
        [b'\'', b'*'] => Ok(Value::Text(Words::read(alloc, &[b'a'; MOST_BYTES])?)),
        [b'\'', bytes @ ..] => Ok(Value::Text(Words::read(alloc, bytes)?)),
        _ => Ok(Value::Integer(number(word).ok_or("no value")?)),
    }
}

fn number(word: &[u8]) -> Option<i64> {
    str::from_utf8(word).ok()?.parse().ok()
}

// The condition that the last word leaves.
fn condition(alloc: Global, text: &[u8]) -> Result<Cond, Fail> {
    let mut conds = Vec::new(alloc);
    read_words(&mut conds, text)?;
    Ok(conds.pop().ok_or("no condition")?)
}

fn read_words(conds: &mut Vec<Cond>, text: &[u8]) -> Result<(), Fail> {
    for word in text.split(|byte| *byte == b' ') {
        read_word(conds, word)?;
    }
    Ok(())
}

fn read_word(conds: &mut Vec<Cond>, word: &[u8]) -> Result<(), Fail> {
    match word {
        [joint @ (b'N' | b'A' | b'O'), times @ ..] => {
            let times = count(times).ok_or("no number")?;
            join(conds, *joint, times)
        }
        _ => Ok(conds.push(leaf(*conds.allocator(), word)?)?),
    }
}

// Once where no number stands there.
fn count(times: &[u8]) -> Option<i64> {
    if times.is_empty() {
        Some(1)
    } else {
        number(times)
    }
}

fn join(conds: &mut Vec<Cond>, joint: u8, times: i64) -> Result<(), Fail> {
    for _ in 0..times {
        let cond = joined(conds, joint)?;
        conds.push(cond)?;
    }
    Ok(())
}

// Takes what the joint joins.
fn joined(conds: &mut Vec<Cond>, joint: u8) -> Result<Cond, Fail> {
    match joint {
        b'N' => denied(conds),
        b'A' => Ok(Cond::All(taken(conds))),
        _ => Ok(Cond::Any(taken(conds))),
    }
}

fn denied(conds: &mut Vec<Cond>) -> Result<Cond, Fail> {
    let cond = conds.pop().ok_or("nothing to deny")?;
    Ok(Cond::Not(Boxed::new(*conds.allocator(), cond)?))
}

fn taken(conds: &mut Vec<Cond>) -> Items<Cond> {
    let none = Vec::new(*conds.allocator());
    Items::from_vec(mem::replace(conds, none))
}

fn leaf(alloc: Global, word: &[u8]) -> Result<Cond, Fail> {
    let [letter, sign, side @ ..] = word else {
        return Err("no condition".into());
    };
    let column = column(*letter)?;
    match *sign {
        b'=' => compare(alloc, column, Op::Equal, side),
        b'<' => compare(alloc, column, Op::Less, side),
        b'?' => Ok(Cond::IsNull { column, not: false }),
        b'!' => Ok(Cond::IsNull { column, not: true }),
        _ => Err("no condition".into()),
    }
}

fn column(letter: u8) -> Result<u32, Fail> {
    match letter {
        b'a' => Ok(0),
        b'b' => Ok(1),
        b'y' => Ok(31),
        b'z' => Ok(32),
        _ => Err("no column".into()),
    }
}

fn compare(alloc: Global, column: u32, op: Op, side: &[u8]) -> Result<Cond, Fail> {
    let with = side_of(alloc, side)?;
    Ok(Cond::Compare { column, op, with })
}

fn side_of(alloc: Global, text: &[u8]) -> Result<Side, Fail> {
    match text {
        [letter @ b'a'..=b'z'] => Ok(Side::Column(column(*letter)?)),
        _ => Ok(Side::Known(value(alloc, text)?)),
    }
}
