//! Rows as letters. A digit is that number, `<` and `>` are the least number and the greatest, and `-` is null. A text
//! is of the letter `a` alone: `e` has none, `b` has 2, `y` has 143, `z` has 144, `s` has 254, and `x` has 255.

use pk_values::{MOST_COLUMNS, Memory, Row, Value, Words};
use std::alloc::Global;
use std::test::Fail;

/// The row of these letters, at most 32.
pub(crate) fn row(alloc: Global, letters: &[u8]) -> Result<Row, Fail> {
    let mut values = Vec::new(alloc);
    read_values(&mut values, letters)?;
    if values.len() > MOST_COLUMNS {
        return Err("no row".into());
    }
    Ok(Row::make(values))
}

fn read_values(values: &mut Vec<Value>, letters: &[u8]) -> Result<(), Memory> {
    let alloc = *values.allocator();
    for letter in letters {
        values.push(value(alloc, *letter)?)?;
    }
    Ok(())
}

fn value(alloc: Global, letter: u8) -> Result<Value, Memory> {
    match letter {
        b'0'..=b'9' => Ok(Value::Integer(i64::from(letter - b'0'))),
        b'<' => Ok(Value::Integer(i64::MIN)),
        b'>' => Ok(Value::Integer(i64::MAX)),
        b'-' => Ok(Value::Null),
        _ => text_as_long(alloc, length(letter)),
    }
}

fn length(letter: u8) -> usize {
    match letter {
        b'e' => 0,
        b'b' => 2,
        b'y' => 143,
        b'z' => 144,
        b's' => 254,
        _ => 255,
    }
}

fn text_as_long(alloc: Global, len: usize) -> Result<Value, Memory> {
    let bytes = vec![in alloc; b'a'; len]?;
    text(alloc, bytes.as_slice())
}

/// The text of these bytes, which may be one.
pub(crate) fn text(alloc: Global, bytes: &[u8]) -> Result<Value, Memory> {
    match Words::read(alloc, bytes) {
        Ok(words) => Ok(Value::Text(words)),
        Err(_) => Err(Memory),
    }
}

/// Tells the letters of the values.
pub(crate) fn tell_values(told: &mut Vec<u8>, values: &[Value]) -> Result<(), Memory> {
    for value in values {
        told.push(value_letter(value))?;
    }
    Ok(())
}

/// The letter of a value, and `?` of one that has none.
pub(crate) fn value_letter(value: &Value) -> u8 {
    match value {
        Value::Null => b'-',
        Value::Integer(n) => number_letter(*n),
        Value::Text(words) => text_letter(words.as_slice()),
    }
}

fn number_letter(n: i64) -> u8 {
    match n {
        i64::MIN => b'<',
        i64::MAX => b'>',
        _ => digit(n),
    }
}

fn digit(n: i64) -> u8 {
    match u8::try_from(n) {
        Ok(n) if n < 10 => b'0' + n,
        _ => b'?',
    }
}

fn text_letter(bytes: &[u8]) -> u8 {
    if bytes.iter().all(|byte| *byte == b'a') {
        length_letter(bytes.len())
    } else {
        b'?'
    }
}

fn length_letter(len: usize) -> u8 {
    match len {
        0 => b'e',
        2 => b'b',
        143 => b'y',
        144 => b'z',
        254 => b's',
        255 => b'x',
        _ => b'?',
    }
}
