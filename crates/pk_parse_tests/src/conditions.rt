use crate::telling::{is_none, joined, replaced, told};
use pk_values::Memory;
use std::alloc::Global;
use std::test::Fail;

// A condition on each line.
const CONDITIONS: &[u8] = b"
a = 1;
a <> 1;
a != 1;
a < 1;
a <= 1;
a > 1;
a >= 1;
A=b;
a = a;
a = 'b';
a = NULL;
a < -7;
a < 9223372036854775808;
a IS NULL;
a IS NOT NULL;
NOT a IS NOT NULL;
NOT NOT a = 1;
(a = 1);
(((a = 1)));
a = 1 AND b = 1;
a = 1 AND b = 1 AND c = 1;
a = 1 OR b = 1 OR c = 1;
a = 1 OR b = 1 AND c = 1;
a = 1 AND b = 1 OR c = 1;
(a = 1 OR b = 1) AND c = 1;
a = 1 AND (b = 1 AND c = 1);
a = 1 OR (b = 1 OR c = 1);
NOT a = 1 AND b = 1;
NOT (a = 1 AND b = 1)";

const CONDITIONS_TOLD: &[u8] = b"
(= a 1)
(<> a 1)
(<> a 1)
(< a 1)
(<= a 1)
(> a 1)
(>= a 1)
(= a b)
(= a a)
(= a 'b)
(= a null)
(< a -7)
(< a wide)
(null a)
(known a)
(not (known a))
(not (not (= a 1)))
(= a 1)
(= a 1)
(all (= a 1) (= b 1))
(all (= a 1) (= b 1) (= c 1))
(any (= a 1) (= b 1) (= c 1))
(any (= a 1) (all (= b 1) (= c 1)))
(any (all (= a 1) (= b 1)) (= c 1))
(all (any (= a 1) (= b 1)) (= c 1))
(all (= a 1) (all (= b 1) (= c 1)))
(any (= a 1) (any (= b 1) (= c 1)))
(all (not (= a 1)) (= b 1))
(not (all (= a 1) (= b 1)))";

// The script with a DELETE of the condition on each of these lines.
fn deletes(alloc: Global, conditions: &[u8]) -> Result<Vec<u8>, Memory> {
    replaced(alloc, conditions, b'\n', b"\nDELETE FROM t WHERE ")
}

// What is told of a script of DELETEs whose conditions are told so.
fn deletes_told(alloc: Global, conditions: &[u8]) -> Result<Vec<u8>, Memory> {
    replaced(alloc, conditions, b'\n', b"\ndelete t where ")
}

#[test]
fn conditions_are_read(rt: HostRuntime) -> Result<(), Fail> {
    let alloc = rt.alloc();
    let script = deletes(alloc, CONDITIONS)?;
    let answer = told(alloc, &script)?;
    let want = deletes_told(alloc, CONDITIONS_TOLD)?;
    assert_eq!(rt; answer.as_slice(), want.as_slice());
    Ok(())
}

// A text on each line that is no condition.
const OTHERS: &[u8] = b"
;
a;
a =;
= 1;
1 = a;
1 = 1;
a = = 1;
a == 1;
a * 1;
a - 1;
a 1;
a = - b;
a IS;
a IS NOT;
a IS 1;
a NULL;
a IS NOT NOT NULL;
NOT;
NOT NULL;
();
(a = 1;
a = 1);
(a) = 1;
a = (1);
a = 1 AND;
a = 1 OR;
AND a = 1;
a = 1 AND OR b = 1;
a = 1 b = 1;
a = 1, b = 1;
a AND b;
key = 1;
a = key;
key IS NULL";

#[test]
fn others_are_no_conditions(rt: HostRuntime) -> Result<(), Fail> {
    let alloc = rt.alloc();
    let script = deletes(alloc, OTHERS)?;
    assert!(rt; is_none(alloc, &script, 34)?);
    Ok(())
}

// The text with so many openings before it and as many closings behind it.
fn nested(
    alloc: Global,
    open: &[u8],
    text: &[u8],
    close: &[u8],
    levels: u32,
) -> Result<Vec<u8>, Memory> {
    let mut whole = Vec::new(alloc);
    repeat(&mut whole, open, levels)?;
    whole.extend_from_slice(text)?;
    repeat(&mut whole, close, levels)?;
    Ok(whole)
}

fn repeat(whole: &mut Vec<u8>, part: &[u8], times: u32) -> Result<(), Memory> {
    for _ in 0..times {
        whole.extend_from_slice(part)?;
    }
    Ok(())
}

// Whether `a = 1` at this depth is read, as what so many NOTs make of it.
fn is_read_at(
    alloc: Global,
    open: &[u8],
    close: &[u8],
    levels: u32,
    nots: u32,
) -> Result<bool, Memory> {
    let condition = nested(alloc, open, b"a = 1", close, levels)?;
    let want = nested(alloc, b"(not ", b"(= a 1)", b")", nots)?;
    is_read_as(alloc, &condition, &want)
}

fn is_read_as(alloc: Global, condition: &[u8], want: &[u8]) -> Result<bool, Memory> {
    let script = joined(alloc, &[b"DELETE FROM t WHERE ", condition])?;
    let answer = told(alloc, &script)?;
    let want = joined(alloc, &[b"\ndelete t where ", want])?;
    Ok(answer.as_slice() == want.as_slice())
}

fn is_none_at(alloc: Global, open: &[u8], close: &[u8], levels: u32) -> Result<bool, Memory> {
    let condition = nested(alloc, open, b"a = 1", close, levels)?;
    let script = joined(alloc, &[b"\nDELETE FROM t WHERE ", &condition])?;
    is_none(alloc, &script, 1)
}

// Whether it is read behind so many parentheses, and behind so many NOTs.
fn is_read_behind(alloc: Global, levels: u32) -> Result<bool, Memory> {
    let parentheses = is_read_at(alloc, b"(", b")", levels, 0)?;
    let nots = is_read_at(alloc, b"NOT ", b"", levels, levels)?;
    Ok(parentheses && nots)
}

// Whether it is no condition behind so many parentheses, nor behind so many NOTs.
fn is_none_behind(alloc: Global, levels: u32) -> Result<bool, Memory> {
    let parentheses = is_none_at(alloc, b"(", b")", levels)?;
    let nots = is_none_at(alloc, b"NOT ", b"", levels)?;
    Ok(parentheses && nots)
}

#[test]
fn units_stand_at_most_64_deep(rt: HostRuntime) -> Result<(), Fail> {
    let alloc = rt.alloc();
    assert!(rt; is_read_behind(alloc, 0)?);
    assert!(rt; is_read_behind(alloc, 63)?);
    assert!(rt; is_read_behind(alloc, 64)?);
    assert!(rt; is_none_behind(alloc, 65)?);
    assert!(rt; is_none_behind(alloc, 100_000)?);
    assert!(rt; is_read_at(alloc, b"(NOT ", b")", 32, 32)?);
    assert!(rt; is_none_at(alloc, b"(NOT ", b")", 33)?);
    Ok(())
}

#[test]
fn many_members_are_read(rt: HostRuntime) -> Result<(), Fail> {
    let alloc = rt.alloc();
    assert!(rt; are_members(alloc, b"a = 1 AND ", b"(all")?);
    assert!(rt; are_members(alloc, b"a = 1 OR ", b"(any")?);
    Ok(())
}

// Whether `a = 1` behind 10,000 of these is read as 10,001 members.
fn are_members(alloc: Global, before: &[u8], word: &[u8]) -> Result<bool, Memory> {
    let condition = nested(alloc, before, b"a = 1", b"", 10_000)?;
    let members = nested(alloc, b"", word, b" (= a 1)", 10_001)?;
    let want = joined(alloc, &[&members, b")"])?;
    is_read_as(alloc, &condition, &want)
}
