use pk_values::Bytes;

/// A value as it is written.
#[derive(Debug, Drop)]
pub enum Literal {
    Null,
    /// A number from -2^63 to 2^63 - 1.
    Number(i64),
    /// Any other number.
    Wide,
    /// The bytes between the quotes, with each pair of quotes read as one. They are UTF-8.
    Text(Bytes),
}
