ghost use Rattle.std.specs.Prelude.{◌≡◌, ◌≤◌, length, IfOk};
ghost use Rattle.pk_values.specs.Records.{value_record};
ghost use Rattle.pk_values.specs.Values.{kind_of, blank, IsStorable, same_value, value_cmp};

use crate::kind::Kind;
use crate::memory::Memory;
use crate::words::Words;
use std::alloc::Global;
use std::cmp::Ordering;

/// An entry of a row.
#[derive(Debug, Drop)]
pub enum Value {
    /// Nothing is known of the entry.
    Null,
    /// A whole number.
    Integer(i64),
    /// A text.
    Text(Words),
}

impl Value {
    /// The known value of the kind that stands for a null where any would do: 0, or the empty text.
    pub fn blank(alloc: Global, kind: Kind) -> Value
        ensures { result ≡ blank kind }
    {
        match kind {
            Kind::Integer => Value::Integer(0),
            Kind::Text => Value::Text(Words::empty(alloc)),
        }
    }

    /// An equal value.
    pub fn copy(&self) -> Result<Value, Memory>
        ensures { IfOk result (λ value. value ≡ self.now) }
    {
        match self {
            Value::Null => Ok(Value::Null),
            Value::Integer(n) => Ok(Value::Integer(*n)),
            Value::Text(words) => Ok(Value::Text(words.copy()?)),
        }
    }

    /// The kind of a known value; `None` exactly at null. Who asks also learns what every value is:
    /// null, a number of 64 bits, or words.
    pub fn kind(&self) -> Option<Kind>
        ensures kind { result ≡ kind_of self.now }
        ensures storable { IsStorable self.now }
    {
        match self {
            Value::Null => None,
            Value::Integer(n) => {
                let _number = *n;
                Some(Kind::Integer)
            }
            Value::Text(words) => {
                let _bytes = words.as_slice();
                Some(Kind::Text)
            }
        }
    }

    /// Whether the two are the same entry: both null, equal numbers or equal texts.
    #[tactic(auto, unfolding(crate::specs::Values::same_value))]
    pub fn equals(&self, other: &Value) -> bool
        ensures { result ≡ same_value self.now other.now }
    {
        match (self, other) {
            (Value::Null, Value::Null) => true,
            (Value::Integer(a), Value::Integer(b)) => a == b,
            (Value::Text(a), Value::Text(b)) => a.as_slice() == b.as_slice(),
            _ => false,
        }
    }

    /// The order of entries: numbers as numbers and texts by their bytes. Null comes before what is
    /// known, and a number before a text.
    #[tactic(auto, unfolding(crate::specs::Values::value_cmp))]
    pub fn compare(&self, other: &Value) -> Ordering
        ensures { result ≡ value_cmp self.now other.now }
    {
        match (self, other) {
            (Value::Null, Value::Null) => Ordering::Equal,
            (Value::Integer(a), Value::Integer(b)) => a.cmp(b),
            (Value::Text(a), Value::Text(b)) => a.as_slice().cmp(b.as_slice()),
            (Value::Null, _) | (Value::Integer(_), Value::Text(_)) => Ordering::Less,
            (_, Value::Null) | (Value::Text(_), Value::Integer(_)) => Ordering::Greater,
        }
    }

    /// How many bytes files keep the value in: 1 for null, 9 for a number, 2 more than its own for a
    /// text.
    pub fn record_len(&self) -> u32
        ensures bytes { result ≡ length (value_record self.now) }
        ensures most { result ≤ 257 }
    {
        match self {
            Value::Null => 1,
            Value::Integer(_) => 9,
            Value::Text(words) => 2 + words.len(),
        }
    }
}
