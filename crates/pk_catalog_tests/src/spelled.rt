//! Records as texts: two digits for each byte, with blanks where a reader wants them.

use pk_values::Memory;
use std::alloc::Global;

/// The bytes that a line spells.
pub(crate) fn bytes_of(alloc: Global, line: &[u8]) -> Result<Vec<u8>, Memory> {
    let mut bytes = Vec::with_capacity(alloc, line.len())?;
    let mut high = None;
    for letter in line {
        let Some(digit) = char::from(*letter).to_digit(16) else {
            continue;
        };
        high = match high {
            None => Some(digit),
            Some(first) => {
                bytes.push(((first << 4 | digit) & 255) as u8)?;
                None
            }
        };
    }
    Ok(bytes)
}
