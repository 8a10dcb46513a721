use pk_values::Refusal;

/// What comes of a statement over a schema.
#[derive(Debug, Drop)]
pub enum Bound<T> {
    /// It says this of the schema's columns.
    Ready(T),
    /// It is refused.
    Refused(Refusal),
}
