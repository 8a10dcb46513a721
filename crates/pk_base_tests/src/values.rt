//! Names, words, values, rows and lists. The values of a row are spelled by letters.

use crate::cases::{assert_told, cut, order_sign};
use crate::spelled::{row, tell_values, text, value_letter};
use pk_values::{Bytes, Items, Kind, Memory, Name, Row, Value, Words, WordsErr};
use std::alloc::Global;
use std::io::Write;
use std::process::Abort;
use std::test::Fail;

// ---- cases

// What a table of cases is about.
#[derive(Clone, Copy)]
enum Subject {
    Name,
    Words,
    Row,
}

// Each case is what is spelled, a bar, and what is told of what it spells.
fn assert_cases(
    rt: &impl Abort,
    alloc: Global,
    subject: Subject,
    cases: &[&[u8]],
) -> Result<(), Fail> {
    for case in cases {
        let (spelled, want) = cut(case);
        let told = told(alloc, subject, spelled)?;
        assert_told(rt, case, told.trim_ascii(), want);
    }
    Ok(())
}

fn told(alloc: Global, subject: Subject, spelled: &[u8]) -> Result<Vec<u8>, Fail> {
    let mut text = Vec::new(alloc);
    tell(&mut text, subject, spelled)?;
    Ok(text)
}

fn tell(text: &mut Vec<u8>, subject: Subject, spelled: &[u8]) -> Result<(), Fail> {
    match subject {
        Subject::Name => Ok(tell_named(text, spelled)?),
        Subject::Words => Ok(tell_words(text, spelled)?),
        Subject::Row => tell_spelled(text, spelled),
    }
}

// ---- names

// A word, and the name that it spells, once as it is read and once as it is copied; nothing where it is none.
const NAMES: [&[u8]; 10] = [
    b"Ab_1 | ab_1 ab_1",
    b"_ | _ _",
    b"Zz | zz zz",
    b"a9 | a9 a9",
    b"t | t t",
    b"1a |",
    b" |",
    b"a-b |",
    b"a b |",
    b"\xc3\xa4 |",
];

#[test]
fn names_are_read(rt: HostRuntime) -> Result<(), Fail> {
    assert_cases(&rt, rt.alloc(), Subject::Name, &NAMES)
}

fn tell_named(text: &mut Vec<u8>, word: &[u8]) -> Result<(), Memory> {
    let name = Name::read(*text.allocator(), word)?;
    tell_read(text, &name)
}

fn tell_read(text: &mut Vec<u8>, name: &Option<Name>) -> Result<(), Memory> {
    match name {
        Some(name) => tell_name(text, name),
        None => Ok(()),
    }
}

fn tell_name(text: &mut Vec<u8>, name: &Name) -> Result<(), Memory> {
    tell_word(text, name.as_slice())?;
    let copy = name.copy()?;
    tell_word(text, copy.as_slice())
}

fn tell_word(text: &mut Vec<u8>, word: &[u8]) -> Result<(), Memory> {
    text.push(b' ')?;
    text.extend_from_slice(word)?;
    Ok(())
}

// ---- words

// Bytes, and how many the words of them have that are the same once read and copied, or why they are no words.
const WORDS: [&[u8]; 7] = [
    b" | same 0",
    b"ab | same 2",
    b"\xc3\xa4\xf0\x9f\x98\x80 | same 6",
    b"a\xff | cut 1",
    b"\xff | cut 0",
    b"ab\xc3 | cut 2",
    b"\xed\xa0\x80 | cut 0",
];

#[test]
fn words_are_read(rt: HostRuntime) -> Result<(), Fail> {
    assert_cases(&rt, rt.alloc(), Subject::Words, &WORDS)
}

#[test]
fn words_have_at_most_255_bytes(rt: HostRuntime) -> Result<(), Fail> {
    let letters = [b'a'; 256];
    let mut told = Vec::new(rt.alloc());
    tell_words(&mut told, &letters[..255])?;
    tell_words(&mut told, &letters)?;
    assert_told(&rt, b"letters", told.as_slice(), b" same 255 long 256");
    Ok(())
}

fn tell_words(text: &mut Vec<u8>, bytes: &[u8]) -> Result<(), Memory> {
    match Words::read(*text.allocator(), bytes) {
        Ok(words) => tell_copied(text, &words, bytes),
        Err(error) => tell_error(text, &error),
    }
}

fn tell_copied(text: &mut Vec<u8>, words: &Words, bytes: &[u8]) -> Result<(), Memory> {
    let copy = words.copy()?;
    tell_same(text, words, &copy, bytes)
}

// Tells nothing where words have other bytes.
fn tell_same(text: &mut Vec<u8>, words: &Words, copy: &Words, bytes: &[u8]) -> Result<(), Memory> {
    if words.as_slice() != bytes || copy.as_slice() != bytes {
        return Ok(());
    }
    tell_count(text, b" same ", words.len() as usize)
}

fn tell_error(text: &mut Vec<u8>, error: &WordsErr) -> Result<(), Memory> {
    match error {
        WordsErr::NotUtf8 { at } => tell_count(text, b" cut ", *at),
        WordsErr::TooLong { len } => tell_count(text, b" long ", *len),
        WordsErr::Memory => Err(Memory),
    }
}

fn tell_count(text: &mut Vec<u8>, word: &[u8], count: usize) -> Result<(), Memory> {
    text.extend_from_slice(word)?;
    tell_number(text, count as u64)
}

fn tell_number(text: &mut Vec<u8>, n: u64) -> Result<(), Memory> {
    write!(text, "{n}").map_err(|_| Memory)
}

// ---- values

// Null, these numbers and these texts: each value comes before all that stand behind it.
const NUMBERS: [i64; 5] = [i64::MIN, -1, 0, 1, i64::MAX];

const TEXTS: [&[u8]; 5] = [b"", b"Z", b"a", b"a\0", b"\xc3\xa4"];

// A line for each value: how it stands to every value, what kind it has, and how it stands to its copy.
const VALUES_TOLD: &[u8] = b"
=<<<<<<<<<< null =
>=<<<<<<<<< number =
>>=<<<<<<<< number =
>>>=<<<<<<< number =
>>>>=<<<<<< number =
>>>>>=<<<<< number =
>>>>>>=<<<< text =
>>>>>>>=<<< text =
>>>>>>>>=<< text =
>>>>>>>>>=< text =
>>>>>>>>>>= text =";

#[test]
fn values_are_ordered(rt: HostRuntime) -> Result<(), Fail> {
    let alloc = rt.alloc();
    let values = ascending_values(alloc)?;
    let told = values_told(alloc, values.as_slice())?;
    assert_told(&rt, told.as_slice(), told.as_slice(), VALUES_TOLD);
    Ok(())
}

fn ascending_values(alloc: Global) -> Result<Vec<Value>, Memory> {
    let mut values = Vec::new(alloc);
    values.push(Value::Null)?;
    add_numbers(&mut values)?;
    add_texts(&mut values)?;
    Ok(values)
}

fn add_numbers(values: &mut Vec<Value>) -> Result<(), Memory> {
    for n in NUMBERS {
        values.push(Value::Integer(n))?;
    }
    Ok(())
}

fn add_texts(values: &mut Vec<Value>) -> Result<(), Memory> {
    let alloc = *values.allocator();
    for bytes in TEXTS {
        values.push(text(alloc, bytes)?)?;
    }
    Ok(())
}

fn values_told(alloc: Global, values: &[Value]) -> Result<Vec<u8>, Memory> {
    let mut text = Vec::new(alloc);
    for value in values {
        tell_value(&mut text, value, values)?;
    }
    Ok(text)
}

fn tell_value(text: &mut Vec<u8>, value: &Value, values: &[Value]) -> Result<(), Memory> {
    text.push(b'\n')?;
    tell_signs(text, value, values)?;
    text.extend_from_slice(kind_word(value.kind()))?;
    tell_copy(text, value)
}

fn tell_signs(text: &mut Vec<u8>, value: &Value, others: &[Value]) -> Result<(), Memory> {
    for other in others {
        text.push(sign(value, other))?;
    }
    Ok(())
}

fn tell_copy(text: &mut Vec<u8>, value: &Value) -> Result<(), Memory> {
    let copy = value.copy()?;
    text.push(sign(value, &copy))?;
    Ok(())
}

fn kind_word(kind: Option<Kind>) -> &'static [u8] {
    match kind {
        None => b" null ",
        Some(Kind::Integer) => b" number ",
        Some(Kind::Text) => b" text ",
    }
}

// `?` where the values are told equal and yet not tied, or the other way round.
fn sign(a: &Value, b: &Value) -> u8 {
    let sign = order_sign(a.compare(b));
    if a.equals(b) == (sign == b'=') {
        sign
    } else {
        b'?'
    }
}

// ---- rows

// A row, and how many bytes it takes, and the width and the values of its copy.
const ROWS: [&[u8]; 6] = [
    b" | 0 0",
    b"1- | 10 2 1-",
    b"1-b | 14 3 1-b",
    b"xxxxxxxxxxxxxxxy | 4000 16 xxxxxxxxxxxxxxxy",
    b"xxxxxxxxxxxxxxxz | 4001 16 xxxxxxxxxxxxxxxz",
    b"xxxxxxxxxxxxxxxxxxxxxxxxxxxxxxxx | 8224 32 xxxxxxxxxxxxxxxxxxxxxxxxxxxxxxxx",
];

#[test]
fn rows_are_copied_and_measured(rt: HostRuntime) -> Result<(), Fail> {
    assert_cases(&rt, rt.alloc(), Subject::Row, &ROWS)
}

fn tell_spelled(text: &mut Vec<u8>, letters: &[u8]) -> Result<(), Fail> {
    let row = row(*text.allocator(), letters)?;
    Ok(tell_measured(text, &row)?)
}

fn tell_measured(text: &mut Vec<u8>, row: &Row) -> Result<(), Memory> {
    tell_number(text, u64::from(row.record_len()))?;
    let copy = row.copy()?;
    tell_row(text, &copy)
}

fn tell_row(text: &mut Vec<u8>, row: &Row) -> Result<(), Memory> {
    text.push(b' ')?;
    tell_number(text, u64::from(row.width()))?;
    text.push(b' ')?;
    for c in 0..row.width() {
        text.push(value_letter(row.value(c)))?;
    }
    Ok(())
}

#[test]
fn rows_are_changed(rt: HostRuntime) -> Result<(), Fail> {
    let told = changed(rt.alloc())?;
    assert_told(&rt, b"1-", told.as_slice(), b"12 12");
    Ok(())
}

fn changed(alloc: Global) -> Result<Vec<u8>, Fail> {
    let mut text = Vec::new(alloc);
    tell_changed(&mut text, row(alloc, b"1-")?)?;
    Ok(text)
}

// The row's values with 2 in its second column, before it is taken apart and after.
fn tell_changed(text: &mut Vec<u8>, mut row: Row) -> Result<(), Memory> {
    put_two(&mut row);
    tell_values(text, row.as_slice())?;
    text.push(b' ')?;
    let values = row.into_values();
    tell_values(text, values.as_slice())
}

fn put_two(row: &mut Row) {
    if row.width() == 2 {
        row.set(1, Value::Integer(2));
    }
}

// ---- lists

#[test]
fn lists_are_kept(rt: HostRuntime) -> Result<(), Fail> {
    let mut told = Vec::new(rt.alloc());
    tell_items(&mut told)?;
    tell_bytes(&mut told)?;
    assert_told(&rt, b"lists", told.as_slice(), b"; 3 1 2; 3 1 2 ab ab ab");
    Ok(())
}

fn tell_items(text: &mut Vec<u8>) -> Result<(), Memory> {
    let items = Items::from_vec(Vec::from_slice(*text.allocator(), &[3u64, 1, 2])?);
    tell_numbers(text, items.as_slice())?;
    let numbers = items.into_vec();
    tell_numbers(text, numbers.as_slice())
}

fn tell_numbers(text: &mut Vec<u8>, numbers: &[u64]) -> Result<(), Memory> {
    text.push(b';')?;
    for n in numbers {
        text.push(b' ')?;
        tell_number(text, *n)?;
    }
    Ok(())
}

fn tell_bytes(text: &mut Vec<u8>) -> Result<(), Memory> {
    let alloc = *text.allocator();
    let bytes = Bytes::from_vec(Vec::from_slice(alloc, b"ab")?);
    tell_word(text, bytes.as_slice())?;
    let bytes = bytes.into_vec();
    tell_word(text, bytes.as_slice())?;
    let copy = Bytes::copy(alloc, b"ab")?;
    tell_word(text, copy.as_slice())
}
