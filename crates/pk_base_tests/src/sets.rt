//! Sets of columns.
//!
//! A set is spelled by the letters of its columns: the digits are the columns 0 to 9, and `a` to `v` are those
//! from 10 to 31.

use crate::cases::{assert_told, order_sign};
use pk_values::{COLUMN_LIMIT, ColSet, Memory};
use std::alloc::Global;
use std::test::Fail;

// Each set comes before all that stand behind it: smaller ones first, then by their columns.
const SETS: [&[u8]; 11] = [
    b"", b"0", b"1", b"v", b"01", b"0v", b"12", b"uv", b"012", b"v22u", b"357",
];

// A line for each set: how it stands to every set, what is told of its columns, and `y` where it stands to itself, to
// no column and to all as each set does.
const SETS_TOLD: &[u8] = b"
=<<<<<<<<<< 0 - ()()y
>=<<<<<<<<< 1 0 (0)(0)y
>>=<<<<<<<< 1 1 (1)(1)y
>>>=<<<<<<< 1 v (v)(v)y
>>>>=<<<<<< 2 0 (01)(01)y
>>>>>=<<<<< 2 0 (0v)(0v)y
>>>>>>=<<<< 2 1 (12)(12)y
>>>>>>>=<<< 2 u (uv)(uv)y
>>>>>>>>=<< 3 0 (012)(012)y
>>>>>>>>>=< 3 2 (2uv)(2uv)y
>>>>>>>>>>= 3 3 (357)(357)y";

#[test]
fn sets_are_walked_and_ordered(rt: HostRuntime) -> Result<(), Fail> {
    let told = sets_told(rt.alloc(), &SETS)?;
    assert_told(&rt, told.as_slice(), told.as_slice(), SETS_TOLD);
    Ok(())
}

fn sets_told(alloc: Global, sets: &[&[u8]]) -> Result<Vec<u8>, Memory> {
    let mut text = Vec::new(alloc);
    for letters in sets {
        tell_set(&mut text, set_of(letters), sets)?;
    }
    Ok(text)
}

fn set_of(letters: &[u8]) -> ColSet {
    let mut set = ColSet::empty();
    for letter in letters {
        set = set.with(column(*letter) % COLUMN_LIMIT);
    }
    set
}

fn column(letter: u8) -> u32 {
    match letter {
        b'0'..=b'9' => u32::from(letter - b'0'),
        _ => u32::from(letter.saturating_sub(b'a')) + 10,
    }
}

fn tell_set(text: &mut Vec<u8>, set: ColSet, sets: &[&[u8]]) -> Result<(), Memory> {
    text.push(b'\n')?;
    tell_order(text, set, sets)?;
    tell_columns(text, set)?;
    text.push(law_letter(set))?;
    Ok(())
}

fn tell_order(text: &mut Vec<u8>, set: ColSet, others: &[&[u8]]) -> Result<(), Memory> {
    for letters in others {
        text.push(set_sign(set, letters))?;
    }
    Ok(())
}

fn set_sign(set: ColSet, letters: &[u8]) -> u8 {
    order_sign(set.cmp(&set_of(letters)))
}

// How many columns the set has, its first one, those that it says it has, and those that a walk comes by.
fn tell_columns(text: &mut Vec<u8>, set: ColSet) -> Result<(), Memory> {
    text.extend_from_slice(&[b' ', letter(set.len()), b' ', first_letter(set), b' '])?;
    tell_members(text, set)?;
    tell_walk(text, set)
}

fn law_letter(set: ColSet) -> u8 {
    if is_between(set) && is_itself(set) {
        b'y'
    } else {
        b'n'
    }
}

fn is_between(set: ColSet) -> bool {
    ColSet::empty().is_inside(set) && set.is_inside(ColSet::below(32))
}

fn is_itself(set: ColSet) -> bool {
    set.minus(set) == ColSet::empty()
        && set.plus(set) == set
        && set.with(5).without(5) == set.without(5)
}

fn first_letter(set: ColSet) -> u8 {
    match set.first() {
        Some(c) => letter(c),
        None => b'-',
    }
}

// Asks for columns that no set has too.
fn tell_members(text: &mut Vec<u8>, set: ColSet) -> Result<(), Memory> {
    text.push(b'(')?;
    for c in 0..40 {
        tell_column(text, set, c)?;
    }
    text.push(b')')?;
    Ok(())
}

fn tell_column(text: &mut Vec<u8>, set: ColSet, c: u32) -> Result<(), Memory> {
    if !set.has(c) {
        return Ok(());
    }
    text.push(letter(c))?;
    Ok(())
}

fn tell_walk(text: &mut Vec<u8>, set: ColSet) -> Result<(), Memory> {
    text.push(b'(')?;
    let mut left = set;
    for _ in 0..40 {
        left = tell_first(text, left)?;
    }
    text.push(b')')?;
    Ok(())
}

// Tells the first column, and hands back the set of the others.
fn tell_first(text: &mut Vec<u8>, set: ColSet) -> Result<ColSet, Memory> {
    match set.split_first() {
        Some((c, others)) => {
            text.push(letter(c))?;
            Ok(others)
        }
        None => Ok(set),
    }
}

// The digit or letter of a number, and `?` where it is above 31.
fn letter(n: u32) -> u8 {
    match u8::try_from(n) {
        Ok(n) if n < 10 => b'0' + n,
        Ok(n) if n < 32 => b'a' + (n - 10),
        _ => b'?',
    }
}

#[test]
fn sets_are_joined(rt: HostRuntime) {
    assert!(rt; ColSet::below(0).len() == 0);
    assert!(rt; ColSet::below(32).len() == 32);
    assert!(rt; ColSet::below(3) == set_of(b"210"));
    assert!(rt; set_of(b"149").minus(set_of(b"45")) == set_of(b"19"));
    assert!(rt; set_of(b"14").plus(set_of(b"45")) == set_of(b"145"));
    assert!(rt; set_of(b"4").is_inside(set_of(b"14")));
    assert!(rt; !set_of(b"14").is_inside(set_of(b"4")));
}
