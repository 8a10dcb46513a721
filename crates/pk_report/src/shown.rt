ghost use Rattle.std.specs.Prelude.{◌≡◌, ◌++◌, List, ℕ, decimal, codes, OnOk};
ghost use Rattle.std.specs.Fmt.{signed_decimal};
ghost use Rattle.std.specs.List.{flat_map};
ghost use Rattle.pk_report.specs.Text.{value_text, values_text, quoted_byte, rule_text};

use crate::line::write_joined;
use pk_values::{Memory, Name, Rule, Value};
use std::io::Write;

/// What a reply shows: it knows its own bytes.
pub(crate) trait Shown {
    ghost text: { Self → List ℕ };

    /// Writes the text behind what `out` holds.
    fn write_to(&self, out: &mut Vec<u8>) -> Result<(), Memory>
        ensures { OnOk result (out.new.items ≡ out.old.items ++ text self.now) };
}

impl Shown for Name {
    ghost text = { λ name. name };

    fn write_to(&self, out: &mut Vec<u8>) -> Result<(), Memory> {
        write_bytes(out, self.as_slice())
    }
}

impl Shown for Value {
    ghost text = { value_text };

    fn write_to(&self, out: &mut Vec<u8>) -> Result<(), Memory> {
        match self {
            Value::Null => write_bytes(out, b"NULL"),
            Value::Integer(n) => write_integer(out, *n),
            Value::Text(words) => write_quoted(out, words.as_slice()),
        }
    }
}

impl Shown for Rule {
    ghost text = { rule_text };

    fn write_to(&self, out: &mut Vec<u8>) -> Result<(), Memory> {
        match self {
            Rule::Declared { .. } => Ok(()),
            Rule::Strengthen => write_bytes(out, b"strengthening"),
            Rule::Weaken => write_bytes(out, b"weakening"),
            Rule::Extend { .. } => write_bytes(out, b"extension"),
        }
    }
}

pub(crate) fn write_bytes(out: &mut Vec<u8>, bytes: &[u8]) -> Result<(), Memory>
    ensures { OnOk result (out.new.items ≡ out.old.items ++ bytes.now) }
{
    out.extend_from_slice(bytes)?;
    Ok(())
}

pub(crate) fn write_number(out: &mut Vec<u8>, n: u64) -> Result<(), Memory>
    ensures { OnOk result (out.new.items ≡ out.old.items ++ decimal n) }
{
    write!(out, "{n}").map_err(|_| Memory)
}

fn write_integer(out: &mut Vec<u8>, n: i64) -> Result<(), Memory>
    ensures { OnOk result (out.new.items ≡ out.old.items ++ signed_decimal n) }
{
    write!(out, "{n}").map_err(|_| Memory)
}

// The bytes in quotes.
fn write_quoted(out: &mut Vec<u8>, bytes: &[u8]) -> Result<(), Memory>
    ensures { OnOk result (out.new.items ≡ out.old.items ++ (codes "'" ++ flat_map quoted_byte bytes.now ++ codes "'")) }
{
    out.push(b'\'')?;
    for byte in bytes {
        write_quoted_byte(out, *byte)?;
    }
    out.push(b'\'')?;
    Ok(())
}

// The byte, and a quote twice.
fn write_quoted_byte(out: &mut Vec<u8>, byte: u8) -> Result<(), Memory>
    ensures { OnOk result (out.new.items ≡ out.old.items ++ quoted_byte byte) }
{
    if byte == b'\'' {
        write_bytes(out, b"''")
    } else {
        write_bytes(out, &[byte])
    }
}

/// Writes the values in parentheses, with a comma and a blank between each two.
pub(crate) fn write_values(out: &mut Vec<u8>, values: &[Value]) -> Result<(), Memory>
    ensures { OnOk result (out.new.items ≡ out.old.items ++ values_text values.now) }
{
    out.push(b'(')?;
    write_joined(out, b", ", values)?;
    out.push(b')')?;
    Ok(())
}
