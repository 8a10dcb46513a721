//! Rows and numbers, each at the end of a text.

use pk_values::{Memory, Value};

// A blank, and then the values: a text as it is, a number as its digit, and null as `-`.
pub(crate) fn tell_row(text: &mut Vec<u8>, values: &[Value]) -> Result<(), Memory> {
    text.push(b' ')?;
    for value in values {
        tell_value(text, value)?;
    }
    Ok(())
}

pub(crate) fn tell_value(text: &mut Vec<u8>, value: &Value) -> Result<(), Memory> {
    match value {
        Value::Null => Ok(text.push(b'-')?),
        Value::Integer(n) => Ok(text.push(digit(u64::try_from(*n).unwrap_or(u64::MAX)))?),
        Value::Text(words) => Ok(text.extend_from_slice(words.as_slice())?),
    }
}

// A word, and then each number behind a blank.
pub(crate) fn tell_numbers(text: &mut Vec<u8>, word: &[u8], numbers: &[u64]) -> Result<(), Memory> {
    text.extend_from_slice(word)?;
    for n in numbers {
        text.push(b' ')?;
        text.push(digit(*n))?;
    }
    Ok(())
}

// `?` stands for each number above 9.
pub(crate) fn digit(n: u64) -> u8 {
    match u8::try_from(n) {
        Ok(n) if n < 10 => b'0' + n,
        _ => b'?',
    }
}
